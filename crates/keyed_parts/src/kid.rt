// A kid of a node: its label, and what is inside it.
ghost use Rattle.std.specs.Prelude.{◌≡◌, IfOk};
ghost use Rattle.keyed_tree.specs.Data.{label_of};
ghost use Rattle.keyed_tree.specs.LentView.{shown_name};
ghost use Rattle.keyed_tree.specs.Order.{label_cmp};
ghost use Rattle.keyed_tree.specs.View.{keyed_view, label_view};
ghost use Rattle.key_annotate.specs.LabelView.{key_list_view};
ghost use Rattle.key_annotate.specs.LentView.{lent_view};
ghost use Rattle.keyed_parts.specs.View.{kid_view, with_inside};

use crate::kids::Kids;
use crate::order::order_attr;
use jsonml_tree::{LentAttr, LentContent};
use key_annotate::{KeyList, LentKeyed, own_attr};
use keyed_tree::{Keyed, Label, LentVal, NameView};
use std::alloc::{AllocError, Global};
use std::cmp::Ordering;

/// A kid of a lent keyed tree: an attribute, or a keyed tree.
#[derive(Clone, Copy)]
pub enum Kid<'k, 'a, 't> {
    Attr(&'k LentAttr<'t>),
    Node(&'k LentKeyed<'a, 't>),
}

/// What is inside a keyed tree: kids, or a body.
#[derive(Clone, Copy)]
pub enum Inside<'k, 'a, 't> {
    Kids(Kids<'k, 'a, 't>),
    Body(LentVal<'k, 't>),
}

impl<'k, 'a, 't> Kid<'k, 'a, 't> {
    /// What is inside it.
    pub fn inside(self) -> Inside<'k, 'a, 't>
        ensures { kid_view self.entry ≡ with_inside (label_of (kid_view self.entry)) result }
    {
        match self {
            Kid::Attr(attr) => Inside::Body(LentVal::Scalar(attr.value())),
            Kid::Node(node) => inside_of(node),
        }
    }

    /// The name in its label.
    pub fn name(self) -> NameView<'k>
        ensures { shown_name result ≡ (label_of (kid_view self.entry)).name }
    {
        match self {
            Kid::Attr(attr) => NameView::Attr(attr.name()),
            Kid::Node(node) => NameView::Tag(node.tag()),
        }
    }

    /// The key values in its label.
    pub fn keys(self) -> KeyList<'k, 'a, 't>
        ensures { key_list_view result ≡ (label_of (kid_view self.entry)).keys }
    {
        match self {
            Kid::Attr(_) => KeyList::Row(Default::default()),
            Kid::Node(node) => node.keys(),
        }
    }

    /// The order of its label, against one of its own. It takes no memory.
    pub fn order(self, other: &Label) -> Ordering
        ensures { result ≡ label_cmp (label_of (kid_view self.entry)) (label_view other.now) }
    {
        match self {
            Kid::Attr(attr) => order_attr(attr, other),
            Kid::Node(node) => node.order_own(other),
        }
    }

    /// A keyed tree of its own with the same value. It recurses as deep as nodes and elements nest.
    pub fn own(self, alloc: Global) -> Result<Keyed, AllocError>
        ensures { IfOk result (λ k. keyed_view k ≡ kid_view self.entry) }
    {
        match self {
            Kid::Attr(attr) => own_attr(alloc, attr),
            Kid::Node(node) => node.own(alloc),
        }
    }
}

fn inside_of<'k, 'a, 't>(node: &'k LentKeyed<'a, 't>) -> Inside<'k, 'a, 't>
    ensures { lent_view node.now ≡ with_inside (label_of (lent_view node.now)) result }
{
    match node {
        LentKeyed::Text { text, .. } => Inside::Body(LentVal::Content(LentContent::Text(text))),
        LentKeyed::Row { row, .. } => Inside::Body(LentVal::Content(LentContent::Row(row))),
        LentKeyed::Leaf { content, .. } => Inside::Body(LentVal::Content(*content)),
        LentKeyed::Inner { head, kids } => Inside::Kids(Kids {
            attrs: head.attrs,
            nodes: kids,
        }),
    }
}
