//! What names a node, and what a leaf holds.
ghost use Rattle.std.specs.Prelude.{◌≡◌, ◌↔◌, IsTrue, IfOk, map};
ghost use Rattle.keyed_tree.specs.Data.{name_bytes};
ghost use Rattle.keyed_tree.specs.Order.{name_cmp, key_cmp, label_cmp};
ghost use Rattle.keyed_tree.specs.Proper.{is_tag};
ghost use Rattle.keyed_tree.specs.View.{name_view, key_view, label_view};

use jsonml_tree::{Content, Scalar};
use std::alloc::{AllocError, Global};
use std::cmp::Ordering;

/// The name of an attribute, or the tag of an element.
#[derive(Debug, Drop)]
pub enum Name {
    Attr(String),
    Tag(String),
}

impl Name {
    /// Whether it is the tag of an element.
    pub fn is_tag(&self) -> bool
        ensures { result ≡ is_tag (name_view self.now) }
    {
        match self {
            Name::Attr(_) => false,
            Name::Tag(_) => true,
        }
    }

    /// The name of the attribute or the tag of the element, as it stands in a document.
    pub fn as_str(&self) -> &str
        ensures { result.now ≡ name_bytes (name_view self.now) }
    {
        match self {
            Name::Attr(text) => text.as_str(),
            Name::Tag(text) => text.as_str(),
        }
    }

    pub(crate) fn order(&self, other: &Name) -> Ordering
        ensures { result ≡ name_cmp (name_view self.now) (name_view other.now) }
    {
        match (self, other) {
            (Name::Attr(a), Name::Attr(b)) => a.as_str().cmp(b.as_str()),
            (Name::Attr(_), Name::Tag(_)) => Ordering::Less,
            (Name::Tag(_), Name::Attr(_)) => Ordering::Greater,
            (Name::Tag(a), Name::Tag(b)) => a.as_str().cmp(b.as_str()),
        }
    }

    fn copy(&self, alloc: Global) -> Result<Name, AllocError>
        ensures { IfOk result (λ n. name_view n ≡ name_view self.now) }
    {
        match self {
            Name::Attr(text) => Ok(Name::Attr(String::from_str(alloc, text.as_str())?)),
            Name::Tag(text) => Ok(Name::Tag(String::from_str(alloc, text.as_str())?)),
        }
    }
}

/// What a key path reaches: the scalar of an attribute, or the content of an element.
#[derive(Debug, Drop)]
pub enum KeyVal {
    Scalar(Scalar),
    Content(Content),
}

impl KeyVal {
    /// Whether both are the same value. It takes no memory, and recurses as deep as elements nest.
    #[tactic(auto, using(crate::specs::Laws::equal))]
    pub fn same(&self, other: &KeyVal) -> bool
        ensures equal { IsTrue result ↔ (key_view self.now ≡ key_view other.now) }
        ensures order { IsTrue result
            ↔ (key_cmp (key_view self.now) (key_view other.now) ≡ Ordering.Equal) }
    {
        self.order(other).is_eq()
    }

    /// A scalar before a content; scalars and contents by their own orders.
    pub fn order(&self, other: &KeyVal) -> Ordering
        ensures { result ≡ key_cmp (key_view self.now) (key_view other.now) }
    {
        match (self, other) {
            (KeyVal::Scalar(a), KeyVal::Scalar(b)) => a.order(b),
            (KeyVal::Scalar(_), KeyVal::Content(_)) => Ordering::Less,
            (KeyVal::Content(_), KeyVal::Scalar(_)) => Ordering::Greater,
            (KeyVal::Content(a), KeyVal::Content(b)) => a.order(b),
        }
    }

    /// A key value of its own with the same value.
    pub fn copy(&self, alloc: Global) -> Result<KeyVal, AllocError>
        ensures { IfOk result (λ k. key_view k ≡ key_view self.now) }
    {
        match self {
            KeyVal::Scalar(scalar) => Ok(KeyVal::Scalar(scalar.copy(alloc)?)),
            KeyVal::Content(content) => Ok(KeyVal::Content(content.copy(alloc)?)),
        }
    }
}

/// A name, and the key values that tell a node apart from its siblings of that name.
#[derive(Debug, Drop)]
pub struct Label {
    pub name: Name,
    pub keys: Vec<KeyVal>,
}

impl Label {
    /// Whether both are the same value. It takes no memory, and recurses as deep as elements nest.
    #[tactic(auto, using(crate::specs::Laws::equal))]
    pub fn same(&self, other: &Label) -> bool
        ensures equal { IsTrue result ↔ (label_view self.now ≡ label_view other.now) }
        ensures order { IsTrue result
            ↔ (label_cmp (label_view self.now) (label_view other.now) ≡ Ordering.Equal) }
    {
        self.order(other).is_eq()
    }

    /// Attributes before elements, then by the bytes of the name, then by the list of key values. A list that another
    /// one continues comes before it.
    pub fn order(&self, other: &Label) -> Ordering
        ensures { result ≡ label_cmp (label_view self.now) (label_view other.now) }
    {
        self.name
            .order(&other.name)
            .then(self.keys.as_slice().cmp(other.keys.as_slice()))
    }

    /// A label of its own with the same value.
    pub fn copy(&self, alloc: Global) -> Result<Label, AllocError>
        ensures { IfOk result (λ l. label_view l ≡ label_view self.now) }
    {
        Ok(Label {
            name: self.name.copy(alloc)?,
            keys: copy_keys(alloc, &self.keys)?,
        })
    }
}

impl PartialEq for KeyVal {
    ghost use Rattle.std.specs.Ordering.{eq_by_cmp, on};
    ghost use Rattle.std.specs.Cmp.{on_total, eq_by_cmp_equiv, partial_equiv_from_equiv};
    ghost use Rattle.keyed_tree.specs.Laws.{key_cmp_total};
    ghost use Rattle.keyed_tree.specs.Order.{key_cmp};
    ghost use Rattle.keyed_tree.specs.View.{key_view};

    ghost eq = { eq_by_cmp (on key_view key_cmp) };

    ghost laws = { partial_equiv_from_equiv (eq_by_cmp_equiv (on_total key_view key_cmp_total)) };

    fn eq(&self, other: &KeyVal) -> bool {
        self.order(other).is_eq()
    }
}

impl Eq for KeyVal {
    ghost use Rattle.std.specs.Cmp.{on_total, eq_by_cmp_equiv};
    ghost use Rattle.keyed_tree.specs.Laws.{key_cmp_total};
    ghost use Rattle.keyed_tree.specs.View.{key_view};

    ghost laws = { eq_by_cmp_equiv (on_total key_view key_cmp_total) };
}

impl PartialOrd for KeyVal {
    ghost use Rattle.std.specs.Ordering.{on, as_partial_cmp};
    ghost use Rattle.std.specs.Cmp.{on_total, partial_order_from_total};
    ghost use Rattle.keyed_tree.specs.Laws.{key_cmp_total};
    ghost use Rattle.keyed_tree.specs.Order.{key_cmp};
    ghost use Rattle.keyed_tree.specs.View.{key_view};

    ghost partial_cmp = { as_partial_cmp (on key_view key_cmp) };

    ghost laws = { partial_order_from_total (on_total key_view key_cmp_total) };

    fn partial_cmp(&self, other: &KeyVal) -> Option<Ordering> {
        Some(self.order(other))
    }
}

impl Ord for KeyVal {
    ghost use Rattle.std.proofs.Common.{refl};
    ghost use Rattle.std.specs.Ordering.{on};
    ghost use Rattle.std.specs.Cmp.{on_total};
    ghost use Rattle.keyed_tree.specs.Laws.{key_cmp_total};
    ghost use Rattle.keyed_tree.specs.Order.{key_cmp};
    ghost use Rattle.keyed_tree.specs.View.{key_view};

    ghost cmp = { on key_view key_cmp };

    ghost total = { on_total key_view key_cmp_total };

    ghost matches_partial_cmp = { λ x y. refl };

    ghost matches_eq = { λ x y. refl };

    fn cmp(&self, other: &KeyVal) -> Ordering {
        self.order(other)
    }
}

impl PartialEq for Label {
    ghost use Rattle.std.specs.Ordering.{eq_by_cmp, on};
    ghost use Rattle.std.specs.Cmp.{on_total, eq_by_cmp_equiv, partial_equiv_from_equiv};
    ghost use Rattle.keyed_tree.specs.Laws.{label_cmp_total};
    ghost use Rattle.keyed_tree.specs.Order.{label_cmp};
    ghost use Rattle.keyed_tree.specs.View.{label_view};

    ghost eq = { eq_by_cmp (on label_view label_cmp) };

    ghost laws = { partial_equiv_from_equiv (eq_by_cmp_equiv (on_total label_view label_cmp_total)) };

    fn eq(&self, other: &Label) -> bool {
        self.order(other).is_eq()
    }
}

impl Eq for Label {
    ghost use Rattle.std.specs.Cmp.{on_total, eq_by_cmp_equiv};
    ghost use Rattle.keyed_tree.specs.Laws.{label_cmp_total};
    ghost use Rattle.keyed_tree.specs.View.{label_view};

    ghost laws = { eq_by_cmp_equiv (on_total label_view label_cmp_total) };
}

impl PartialOrd for Label {
    ghost use Rattle.std.specs.Ordering.{on, as_partial_cmp};
    ghost use Rattle.std.specs.Cmp.{on_total, partial_order_from_total};
    ghost use Rattle.keyed_tree.specs.Laws.{label_cmp_total};
    ghost use Rattle.keyed_tree.specs.Order.{label_cmp};
    ghost use Rattle.keyed_tree.specs.View.{label_view};

    ghost partial_cmp = { as_partial_cmp (on label_view label_cmp) };

    ghost laws = { partial_order_from_total (on_total label_view label_cmp_total) };

    fn partial_cmp(&self, other: &Label) -> Option<Ordering> {
        Some(self.order(other))
    }
}

impl Ord for Label {
    ghost use Rattle.std.proofs.Common.{refl};
    ghost use Rattle.std.specs.Ordering.{on};
    ghost use Rattle.std.specs.Cmp.{on_total};
    ghost use Rattle.keyed_tree.specs.Laws.{label_cmp_total};
    ghost use Rattle.keyed_tree.specs.Order.{label_cmp};
    ghost use Rattle.keyed_tree.specs.View.{label_view};

    ghost cmp = { on label_view label_cmp };

    ghost total = { on_total label_view label_cmp_total };

    ghost matches_partial_cmp = { λ x y. refl };

    ghost matches_eq = { λ x y. refl };

    fn cmp(&self, other: &Label) -> Ordering {
        self.order(other)
    }
}

fn copy_keys(alloc: Global, keys: &[KeyVal]) -> Result<Vec<KeyVal>, AllocError>
    ensures { IfOk result (λ v. map key_view v.items ≡ map key_view keys.now) }
{
    let mut copies = Vec::with_capacity(alloc, keys.len())?;
    for key in keys {
        copies.push_reserved(key.copy(alloc)?);
    }
    Ok(copies)
}
