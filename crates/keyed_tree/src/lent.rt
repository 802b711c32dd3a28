//! Names, key values and bodies that are lent: by a document, or by the bytes of an archive file.
ghost use Rattle.std.specs.Prelude.{◌≡◌, IfOk};
ghost use Rattle.std.specs.Ordering.{is_eq};
ghost use Rattle.keyed_tree.specs.LentView.{lent_val_view, shown_name};
ghost use Rattle.keyed_tree.specs.Order.{key_cmp};
ghost use Rattle.keyed_tree.specs.View.{key_view, name_view};

use crate::label::{KeyVal, Name};
use jsonml_tree::{LentContent, LentScalar};
use std::alloc::{AllocError, Global};
use std::cmp::Ordering;

/// The name of a node, whose text is lent.
#[derive(Clone, Copy)]
pub enum NameView<'a> {
    Attr(&'a str),
    Tag(&'a str),
}

impl NameView<'_> {
    /// A name of its own with the same value.
    pub fn copy(&self, alloc: Global) -> Result<Name, AllocError>
        ensures { IfOk result (λ n. name_view n ≡ shown_name self.now) }
    {
        match self {
            NameView::Attr(text) => Ok(Name::Attr(String::from_str(alloc, text)?)),
            NameView::Tag(text) => Ok(Name::Tag(String::from_str(alloc, text)?)),
        }
    }
}

/// A key value or a body that a document lends: for `'a`, and the document's lender its texts, for `'t`.
#[derive(Clone, Copy)]
pub enum LentVal<'a, 't> {
    Scalar(LentScalar<'a>),
    Content(LentContent<'a, 't>),
}

impl LentVal<'_, '_> {
    /// A scalar before a content; scalars and contents by their own orders. It takes no memory, and recurses as deep as
    /// elements nest.
    pub fn order(self, other: LentVal<'_, '_>) -> Ordering
        ensures { result ≡ key_cmp (lent_val_view self.entry) (lent_val_view other.entry) }
    {
        match (self, other) {
            (LentVal::Scalar(a), LentVal::Scalar(b)) => a.order(b),
            (LentVal::Scalar(_), LentVal::Content(_)) => Ordering::Less,
            (LentVal::Content(_), LentVal::Scalar(_)) => Ordering::Greater,
            (LentVal::Content(a), LentVal::Content(b)) => a.order_lent(b),
        }
    }

    /// The same order, against a value of its own. It takes no memory.
    pub fn order_own(self, other: &KeyVal) -> Ordering
        ensures { result ≡ key_cmp (lent_val_view self.entry) (key_view other.now) }
    {
        match (self, other) {
            (LentVal::Scalar(a), KeyVal::Scalar(b)) => a.order(b.lend()),
            (LentVal::Scalar(_), KeyVal::Content(_)) => Ordering::Less,
            (LentVal::Content(_), KeyVal::Scalar(_)) => Ordering::Greater,
            (LentVal::Content(a), KeyVal::Content(b)) => a.order(b),
        }
    }

    /// Whether a value of its own is the same. It takes no memory.
    pub fn same(self, other: &KeyVal) -> bool
        ensures { result ≡ is_eq (key_cmp (key_view other.now) (lent_val_view self.entry)) }
    {
        self.order_own(other).is_eq()
    }

    /// A key value of its own with the same value.
    pub fn own(self, alloc: Global) -> Result<KeyVal, AllocError>
        ensures { IfOk result (λ k. key_view k ≡ lent_val_view self.entry) }
    {
        match self {
            LentVal::Scalar(scalar) => Ok(KeyVal::Scalar(scalar.own(alloc)?)),
            LentVal::Content(content) => Ok(KeyVal::Content(content.own(alloc)?)),
        }
    }
}
