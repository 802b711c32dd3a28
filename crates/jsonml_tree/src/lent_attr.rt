//! Attributes that are lent, and their values.

ghost use Rattle.std.specs.Prelude.{◌≡◌, IfOk, map};
ghost use Rattle.jsonml_tree.specs.LentAttrs.{lent_attr_view, lent_scalar_view};
ghost use Rattle.jsonml_tree.specs.Order.{scalar_cmp};
ghost use Rattle.jsonml_tree.specs.View.{attr_view, scalar_view};
ghost use Rattle.jsonml_tree.specs.WellFormed.{is_ascending};

use crate::scalar::{Attr, Scalar};
use std::alloc::{AllocError, Global};
use std::cmp::Ordering;

/// The value of an attribute, whose text is lent.
///
/// It stands for the same values as a `Scalar`.
#[derive(Clone, Copy)]
pub enum LentScalar<'a> {
    Null,
    Bool(bool),
    Whole(i128),
    Text(&'a str),
}

/// An attribute whose name and text are lent, or its own where no lender spells them as they are.
#[derive(Drop)]
pub enum LentAttr<'a> {
    Lent {
        name: &'a str,
        value: LentScalar<'a>,
    },
    Own(Box<Attr>),
}

impl LentScalar<'_> {
    /// Null, then false, then true, then whole numbers by value, then texts by their bytes.
    pub fn order(self, other: LentScalar<'_>) -> Ordering
        ensures { result ≡ scalar_cmp (lent_scalar_view self.entry) (lent_scalar_view other.entry) }
    {
        match (self, other) {
            (LentScalar::Null, LentScalar::Null) => Ordering::Equal,
            (LentScalar::Null, _) => Ordering::Less,
            (_, LentScalar::Null) => Ordering::Greater,
            (LentScalar::Bool(a), LentScalar::Bool(b)) => a.cmp(&b),
            (LentScalar::Bool(_), _) => Ordering::Less,
            (_, LentScalar::Bool(_)) => Ordering::Greater,
            (LentScalar::Whole(a), LentScalar::Whole(b)) => a.cmp(&b),
            (LentScalar::Whole(_), LentScalar::Text(_)) => Ordering::Less,
            (LentScalar::Text(_), LentScalar::Whole(_)) => Ordering::Greater,
            (LentScalar::Text(a), LentScalar::Text(b)) => a.cmp(b),
        }
    }

    /// A scalar of its own with the same value.
    pub fn own(self, alloc: Global) -> Result<Scalar, AllocError>
        ensures { IfOk result (λ s. scalar_view s ≡ lent_scalar_view self.entry) }
    {
        match self {
            LentScalar::Null => Ok(Scalar::Null),
            LentScalar::Bool(b) => Ok(Scalar::Bool(b)),
            LentScalar::Whole(n) => Ok(Scalar::Whole(n)),
            LentScalar::Text(text) => Ok(Scalar::Text(String::from_str(alloc, text)?)),
        }
    }
}

impl<'a> LentAttr<'a> {
    /// The same attribute, whose texts it lends.
    pub(crate) fn lend(attr: &'a Attr) -> LentAttr<'a>
        ensures { lent_attr_view result ≡ attr_view attr.now }
    {
        LentAttr::Lent {
            name: attr.name.as_str(),
            value: attr.value.lend(),
        }
    }

    /// The name.
    pub fn name(&self) -> &str
        ensures { result.now ≡ (lent_attr_view self.now).name }
    {
        match self {
            LentAttr::Lent { name, .. } => name,
            LentAttr::Own(attr) => attr.name.as_str(),
        }
    }

    /// The value.
    pub fn value(&self) -> LentScalar<'_>
        ensures { lent_scalar_view result ≡ (lent_attr_view self.now).value }
    {
        match self {
            LentAttr::Lent { value, .. } => *value,
            LentAttr::Own(attr) => attr.value.lend(),
        }
    }

    /// An attribute of its own with the same value.
    pub(crate) fn own(&self, alloc: Global) -> Result<Attr, AllocError>
        ensures { IfOk result (λ a. attr_view a ≡ lent_attr_view self.now) }
    {
        Ok(Attr {
            name: String::from_str(alloc, self.name())?,
            value: self.value().own(alloc)?,
        })
    }
}

/// Whether the names ascend strictly by their bytes. It takes no memory.
pub fn do_names_ascend(attrs: &[LentAttr<'_>]) -> bool
    ensures { result ≡ is_ascending (map lent_attr_view attrs.now) }
{
    let Some((first, rest)) = attrs.split_first() else {
        return true;
    };
    let mut last = first;
    for attr in rest {
        if !last.name().cmp(attr.name()).is_lt() {
            return false;
        }
        last = attr;
    }
    true
}

/// The same attributes, whose texts they lend.
pub(crate) fn lend_attrs<'a>(
    alloc: Global,
    attrs: &'a [Attr],
) -> Result<Vec<LentAttr<'a>>, AllocError>
    ensures { IfOk result (λ v. map lent_attr_view v.items ≡ map attr_view attrs.now) }
{
    let mut lent = Vec::with_capacity(alloc, attrs.len())?;
    for attr in attrs {
        lent.push_reserved(LentAttr::lend(attr));
    }
    Ok(lent)
}

/// The same attributes, which keep their texts.
pub(crate) fn keep_attrs<'a>(
    alloc: Global,
    attrs: Vec<Attr>,
) -> Result<Vec<LentAttr<'a>>, AllocError>
    ensures { IfOk result (λ v. map lent_attr_view v.items ≡ map attr_view attrs.items) }
{
    let mut kept = Vec::with_capacity(alloc, attrs.len())?;
    for attr in attrs {
        kept.push_reserved(LentAttr::Own(Box::new(alloc, attr)?));
    }
    Ok(kept)
}

/// Attributes of their own with the same values.
pub(crate) fn own_attrs(alloc: Global, attrs: &[LentAttr<'_>]) -> Result<Vec<Attr>, AllocError>
    ensures { IfOk result (λ v. map attr_view v.items ≡ map lent_attr_view attrs.now) }
{
    let mut own = Vec::with_capacity(alloc, attrs.len())?;
    for attr in attrs {
        own.push_reserved(attr.own(alloc)?);
    }
    Ok(own)
}
