//! The order of two contents that are lent.

ghost use Rattle.std.specs.Prelude.{◌≡◌, map};
ghost use Rattle.std.specs.Cmp.Lexicographic.{slice_cmp};
ghost use Rattle.jsonml_tree.specs.Data.{text, no_trees, only_text, tree};
ghost use Rattle.jsonml_tree.specs.LentAttrs.{lent_attr_view};
ghost use Rattle.jsonml_tree.specs.LentView.{lent_content_view, lent_items_view, lent_row_view, lent_tree_view};
ghost use Rattle.jsonml_tree.specs.Order.{attr_cmp, content_cmp, tree_cmp, trees_cmp};

use crate::lent::{LentContent, LentRow, LentTree};
use crate::lent_attr::LentAttr;
use std::cmp::Ordering;

impl LentContent<'_, '_> {
    /// The order of contents that are both lent. It takes no memory, and reads no further than to the first difference.
    pub fn order_lent(self, other: LentContent<'_, '_>) -> Ordering
        ensures { result
            ≡ content_cmp (lent_content_view self.entry) (lent_content_view other.entry) }
    {
        match (self, other) {
            (LentContent::Text(a), LentContent::Text(b)) => order_texts(a, b),
            (LentContent::Text(a), LentContent::Row(b)) => order_text(a, b),
            (LentContent::Row(a), LentContent::Text(b)) => order_row_text(a, b),
            (LentContent::Row(a), LentContent::Row(b)) => order_row(a, b),
        }
    }
}

#[cycle(order)]
fn order_tree(ours: &LentTree<'_>, theirs: &LentTree<'_>) -> Ordering
    ensures { result ≡ tree_cmp (lent_tree_view ours.now) (lent_tree_view theirs.now) }
{
    match (ours, theirs) {
        (LentTree::Text(a), LentTree::Text(b)) => a.as_str().cmp(b.as_str()),
        (LentTree::Text(_), _) => Ordering::Less,
        (_, LentTree::Text(_)) => Ordering::Greater,
        (LentTree::Leaf { tag: a, text: r }, LentTree::Leaf { tag: b, text: s }) => {
            match a.as_str().cmp(b.as_str()) {
                Ordering::Equal => order_texts(r.as_str(), s.as_str()),
                order => order,
            }
        }
        (LentTree::Leaf { tag: a, text }, LentTree::Elem { tag: b, row }) => {
            match a.as_str().cmp(b.as_str()) {
                Ordering::Equal => order_text(text.as_str(), row),
                order => order,
            }
        }
        (LentTree::Elem { tag: a, row }, LentTree::Leaf { tag: b, text }) => {
            match a.as_str().cmp(b.as_str()) {
                Ordering::Equal => order_row_text(row, text.as_str()),
                order => order,
            }
        }
        (LentTree::Elem { tag: a, row: r }, LentTree::Elem { tag: b, row: s }) => {
            match a.as_str().cmp(b.as_str()) {
                Ordering::Equal => order_row(r, s),
                order => order,
            }
        }
    }
}

#[cycle(order)]
fn order_row(ours: &LentRow<'_>, theirs: &LentRow<'_>) -> Ordering
    ensures { result ≡ content_cmp (lent_row_view ours.now) (lent_row_view theirs.now) }
{
    match order_attrs(&ours.attrs, &theirs.attrs) {
        Ordering::Equal => order_items(&ours.items, &theirs.items),
        order => order,
    }
}

#[cycle(order)]
fn order_items(ours: &[LentTree<'_>], theirs: &[LentTree<'_>]) -> Ordering
    ensures { result
        ≡ slice_cmp tree_cmp (map lent_tree_view ours.now) (map lent_tree_view theirs.now) }
{
    let mut others = theirs.iter();
    for a in ours {
        let Some(b) = others.next() else {
            return Ordering::Greater;
        };
        match order_tree(a, b) {
            Ordering::Equal => {}
            order => return order,
        }
    }
    if others.next().is_some() {
        Ordering::Less
    } else {
        Ordering::Equal
    }
}

fn order_attrs(ours: &[LentAttr<'_>], theirs: &[LentAttr<'_>]) -> Ordering
    ensures { result
        ≡ slice_cmp attr_cmp (map lent_attr_view ours.now) (map lent_attr_view theirs.now) }
{
    let mut others = theirs.iter();
    for a in ours {
        let Some(b) = others.next() else {
            return Ordering::Greater;
        };
        match order_attr(a, b) {
            Ordering::Equal => {}
            order => return order,
        }
    }
    if others.next().is_some() {
        Ordering::Less
    } else {
        Ordering::Equal
    }
}

fn order_attr(a: &LentAttr<'_>, b: &LentAttr<'_>) -> Ordering
    ensures { result ≡ attr_cmp (lent_attr_view a.now) (lent_attr_view b.now) }
{
    match a.name().cmp(b.name()) {
        Ordering::Equal => a.value().order(b.value()),
        order => order,
    }
}

/// The content of this text alone against that of another.
fn order_texts(a: &str, b: &str) -> Ordering
    ensures { result ≡ content_cmp (only_text a.now) (only_text b.now) }
{
    a.cmp(b)
}

/// The content of this text alone against a row.
fn order_text(text: &str, row: &LentRow<'_>) -> Ordering
    ensures { result ≡ content_cmp (only_text text.now) (lent_row_view row.now) }
{
    match row.attrs.split_first() {
        None => order_text_items(text, &row.items),
        Some(_) => Ordering::Less,
    }
}

/// A row against the content of this text alone.
fn order_row_text(row: &LentRow<'_>, text: &str) -> Ordering
    ensures { result ≡ content_cmp (lent_row_view row.now) (only_text text.now) }
{
    order_text(text, row).reverse()
}

/// This text alone against some items.
fn order_text_items(own: &str, items: &[LentTree<'_>]) -> Ordering
    ensures { result ≡ trees_cmp (tree (text own.now) no_trees) (lent_items_view items.now) }
{
    match items.split_first() {
        None => Ordering::Greater,
        Some((first, rest)) => order_text_tree(own, first).then(order_none(rest)),
    }
}

fn order_text_tree(own: &str, tree: &LentTree<'_>) -> Ordering
    ensures { result ≡ tree_cmp (text own.now) (lent_tree_view tree.now) }
{
    match tree {
        LentTree::Text(other) => own.cmp(other.as_str()),
        _ => Ordering::Less,
    }
}

/// No items against some.
fn order_none(items: &[LentTree<'_>]) -> Ordering
    ensures { result ≡ trees_cmp no_trees (lent_items_view items.now) }
{
    match items.split_first() {
        None => Ordering::Equal,
        Some(_) => Ordering::Less,
    }
}
