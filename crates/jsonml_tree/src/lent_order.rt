//! The order of what a document lends among values of their own.

ghost use Rattle.std.specs.Prelude.{◌≡◌, ◌↔◌, IsTrue, map};
ghost use Rattle.std.specs.Cmp.Lexicographic.{slice_cmp};
ghost use Rattle.jsonml_tree.specs.Data.{text, no_trees, only_text, tree};
ghost use Rattle.jsonml_tree.specs.LentAttrs.{lent_attr_view};
ghost use Rattle.jsonml_tree.specs.LentView.{lent_content_view, lent_row_view, lent_tree_view};
ghost use Rattle.jsonml_tree.specs.Order.{attr_cmp, content_cmp, tree_cmp, trees_cmp};
ghost use Rattle.jsonml_tree.specs.View.{attr_view, content_view, items_view, tree_view};

use crate::lent::{LentContent, LentRow, LentTree};
use crate::lent_attr::LentAttr;
use crate::scalar::Attr;
use crate::tree::{Content, Tree};
use std::cmp::Ordering;

impl LentContent<'_, '_> {
    /// Whether both are the same value. It takes no memory, and recurses as deep as elements nest.
    #[tactic(auto, using(crate::specs::Laws::equal))]
    pub fn same(&self, other: &Content) -> bool
        ensures equal { IsTrue result ↔ (lent_content_view self.now ≡ content_view other.now) }
        ensures order { IsTrue result
            ↔ (content_cmp (lent_content_view self.now) (content_view other.now) ≡ Ordering.Equal) }
    {
        self.order(other).is_eq()
    }

    /// The order of contents. It takes no memory, and reads no further than to the first difference.
    pub fn order(&self, other: &Content) -> Ordering
        ensures { result ≡ content_cmp (lent_content_view self.now) (content_view other.now) }
    {
        match self {
            LentContent::Text(text) => order_text(text, other),
            LentContent::Row(row) => order_row(row, other),
        }
    }
}

#[cycle(order)]
fn order_tree(ours: &LentTree<'_>, theirs: &Tree) -> Ordering
    ensures { result ≡ tree_cmp (lent_tree_view ours.now) (tree_view theirs.now) }
{
    match (ours, theirs) {
        (LentTree::Text(a), Tree::Text(b)) => a.as_str().cmp(b.as_str()),
        (LentTree::Text(_), Tree::Elem { .. }) => Ordering::Less,
        (LentTree::Leaf { .. }, Tree::Text(_)) => Ordering::Greater,
        (LentTree::Elem { .. }, Tree::Text(_)) => Ordering::Greater,
        (LentTree::Leaf { tag: a, text }, Tree::Elem { tag: b, content }) => {
            match a.as_str().cmp(b.as_str()) {
                Ordering::Equal => order_text(text.as_str(), content),
                order => order,
            }
        }
        (LentTree::Elem { tag: a, row }, Tree::Elem { tag: b, content }) => {
            match a.as_str().cmp(b.as_str()) {
                Ordering::Equal => order_row(row, content),
                order => order,
            }
        }
    }
}

#[cycle(order)]
fn order_row(row: &LentRow<'_>, content: &Content) -> Ordering
    ensures { result ≡ content_cmp (lent_row_view row.now) (content_view content.now) }
{
    match order_attrs(&row.attrs, &content.attrs) {
        Ordering::Equal => order_items(&row.items, &content.items),
        order => order,
    }
}

#[cycle(order)]
fn order_items(ours: &[LentTree<'_>], theirs: &[Tree]) -> Ordering
    ensures { result ≡ slice_cmp tree_cmp (map lent_tree_view ours.now) (map tree_view theirs.now) }
{
    let mut others = theirs.iter();
    for a in ours {
        let Some(b) = others.next() else {
            return Ordering::Greater;
        };
        match order_tree(a, b) {
            Ordering::Equal => {}
            order => return order,
        }
    }
    if others.next().is_some() {
        Ordering::Less
    } else {
        Ordering::Equal
    }
}

fn order_attrs(ours: &[LentAttr<'_>], theirs: &[Attr]) -> Ordering
    ensures { result ≡ slice_cmp attr_cmp (map lent_attr_view ours.now) (map attr_view theirs.now) }
{
    let mut others = theirs.iter();
    for a in ours {
        let Some(b) = others.next() else {
            return Ordering::Greater;
        };
        match order_attr(a, b) {
            Ordering::Equal => {}
            order => return order,
        }
    }
    if others.next().is_some() {
        Ordering::Less
    } else {
        Ordering::Equal
    }
}

fn order_attr(a: &LentAttr<'_>, b: &Attr) -> Ordering
    ensures { result ≡ attr_cmp (lent_attr_view a.now) (attr_view b.now) }
{
    match a.name().cmp(b.name.as_str()) {
        Ordering::Equal => a.value().order(b.value.lend()),
        order => order,
    }
}

/// The content of this text alone against another content.
fn order_text(text: &str, other: &Content) -> Ordering
    ensures { result ≡ content_cmp (only_text text.now) (content_view other.now) }
{
    match other.attrs.split_first() {
        None => order_text_items(text, &other.items),
        Some(_) => Ordering::Less,
    }
}

/// The row of this text alone against another row.
fn order_text_items(own: &str, items: &[Tree]) -> Ordering
    ensures { result ≡ trees_cmp (tree (text own.now) no_trees) (items_view items.now) }
{
    match items.split_first() {
        None => Ordering::Greater,
        Some((first, rest)) => order_text_tree(own, first).then(order_none(rest)),
    }
}

fn order_text_tree(own: &str, tree: &Tree) -> Ordering
    ensures { result ≡ tree_cmp (text own.now) (tree_view tree.now) }
{
    match tree {
        Tree::Text(other) => own.cmp(other.as_str()),
        Tree::Elem { .. } => Ordering::Less,
    }
}

/// The empty row against another row.
fn order_none(items: &[Tree]) -> Ordering
    ensures { result ≡ trees_cmp no_trees (items_view items.now) }
{
    match items.split_first() {
        None => Ordering::Equal,
        Some(_) => Ordering::Less,
    }
}
