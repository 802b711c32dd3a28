ghost use Rattle.std.specs.Prelude.{◌≡◌, ◌↔◌, IsTrue, IfOk};
ghost use Rattle.jsonml_tree.specs.LentAttrs.{lent_scalar_view};
ghost use Rattle.jsonml_tree.specs.Order.{scalar_cmp};
ghost use Rattle.jsonml_tree.specs.View.{scalar_view, attr_view};

use crate::lent_attr::LentScalar;
use std::alloc::{AllocError, Global};
use std::cmp::Ordering;

/// The value of an attribute.
///
/// A whole number of a well formed scalar is from -2^63 to 2^64 - 1; the type itself holds more.
#[derive(Debug, Drop)]
pub enum Scalar {
    Null,
    Bool(bool),
    Whole(i128),
    Text(String),
}

impl Scalar {
    /// Whether both are the same value. It takes no memory.
    #[tactic(auto, using(crate::specs::Laws::equal))]
    pub fn same(&self, other: &Scalar) -> bool
        ensures equal { IsTrue result ↔ (scalar_view self.now ≡ scalar_view other.now) }
        ensures order { IsTrue result
            ↔ (scalar_cmp (scalar_view self.now) (scalar_view other.now) ≡ Ordering.Equal) }
    {
        self.order(other).is_eq()
    }

    /// The same scalar, whose text it lends.
    pub fn lend(&self) -> LentScalar<'_>
        ensures { lent_scalar_view result ≡ scalar_view self.now }
    {
        match self {
            Scalar::Null => LentScalar::Null,
            Scalar::Bool(b) => LentScalar::Bool(*b),
            Scalar::Whole(n) => LentScalar::Whole(*n),
            Scalar::Text(text) => LentScalar::Text(text.as_str()),
        }
    }

    /// Null, then false, then true, then whole numbers by value, then texts by their bytes.
    pub fn order(&self, other: &Scalar) -> Ordering
        ensures { result ≡ scalar_cmp (scalar_view self.now) (scalar_view other.now) }
    {
        self.lend().order(other.lend())
    }

    /// A scalar of its own with the same value.
    pub fn copy(&self, alloc: Global) -> Result<Scalar, AllocError>
        ensures { IfOk result (λ s. scalar_view s ≡ scalar_view self.now) }
    {
        self.lend().own(alloc)
    }
}

impl PartialEq for Scalar {
    ghost use Rattle.std.specs.Ordering.{eq_by_cmp, on};
    ghost use Rattle.std.specs.Cmp.{on_total, eq_by_cmp_equiv, partial_equiv_from_equiv};
    ghost use Rattle.jsonml_tree.specs.Laws.{scalar_cmp_total};
    ghost use Rattle.jsonml_tree.specs.Order.{scalar_cmp};
    ghost use Rattle.jsonml_tree.specs.View.{scalar_view};

    ghost eq = { eq_by_cmp (on scalar_view scalar_cmp) };

    ghost laws = { partial_equiv_from_equiv (eq_by_cmp_equiv (on_total scalar_view scalar_cmp_total)) };

    fn eq(&self, other: &Scalar) -> bool {
        self.order(other).is_eq()
    }
}

impl Eq for Scalar {
    ghost use Rattle.std.specs.Cmp.{on_total, eq_by_cmp_equiv};
    ghost use Rattle.jsonml_tree.specs.Laws.{scalar_cmp_total};
    ghost use Rattle.jsonml_tree.specs.View.{scalar_view};

    ghost laws = { eq_by_cmp_equiv (on_total scalar_view scalar_cmp_total) };
}

impl PartialOrd for Scalar {
    ghost use Rattle.std.specs.Ordering.{on, as_partial_cmp};
    ghost use Rattle.std.specs.Cmp.{on_total, partial_order_from_total};
    ghost use Rattle.jsonml_tree.specs.Laws.{scalar_cmp_total};
    ghost use Rattle.jsonml_tree.specs.Order.{scalar_cmp};
    ghost use Rattle.jsonml_tree.specs.View.{scalar_view};

    ghost partial_cmp = { as_partial_cmp (on scalar_view scalar_cmp) };

    ghost laws = { partial_order_from_total (on_total scalar_view scalar_cmp_total) };

    fn partial_cmp(&self, other: &Scalar) -> Option<Ordering> {
        Some(self.order(other))
    }
}

impl Ord for Scalar {
    ghost use Rattle.std.proofs.Common.{refl};
    ghost use Rattle.std.specs.Ordering.{on};
    ghost use Rattle.std.specs.Cmp.{on_total};
    ghost use Rattle.jsonml_tree.specs.Laws.{scalar_cmp_total};
    ghost use Rattle.jsonml_tree.specs.Order.{scalar_cmp};
    ghost use Rattle.jsonml_tree.specs.View.{scalar_view};

    ghost cmp = { on scalar_view scalar_cmp };

    ghost total = { on_total scalar_view scalar_cmp_total };

    ghost matches_partial_cmp = { λ x y. refl };

    ghost matches_eq = { λ x y. refl };

    fn cmp(&self, other: &Scalar) -> Ordering {
        self.order(other)
    }
}

/// An attribute of an element. Attributes are in order by the bytes of their names, then by value.
#[derive(Debug, Drop, PartialEq, Eq, PartialOrd, Ord)]
pub struct Attr {
    pub name: String,
    pub value: Scalar,
}

impl Attr {
    pub(crate) fn copy(&self, alloc: Global) -> Result<Attr, AllocError>
        ensures { IfOk result (λ a. attr_view a ≡ attr_view self.now) }
    {
        Ok(Attr {
            name: String::from_str(alloc, self.name.as_str())?,
            value: self.value.copy(alloc)?,
        })
    }
}
