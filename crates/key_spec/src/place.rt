// The places of rules: their contexts and tags, as bytes that ascend as rules do.
ghost use Rattle.std.specs.Prelude.{◌≡◌, ◌++◌, ◌∷◌, IfOk, OnOk};
ghost use Rattle.key_spec.specs.Place.{lifted, place_bytes};
ghost use Rattle.key_spec.specs.RuleView.{rule_view};

use crate::rule::Rule;
use std::alloc::{AllocError, Global};
use std::cmp::Ordering;

/// A rule, ordered by its context and then by its tag, with the bytes of its place.
///
/// Contexts are long where elements nest deep, and have long fronts in common: their bytes compare faster than their
/// names one by one.
#[derive(Drop)]
pub(crate) struct Placed {
    pub bytes: Vec<u8>,
    pub rule: Rule,
    ghost fits: { bytes.items ≡ place_bytes (rule_view rule) },
}

impl Placed {
    ghost use Rattle.key_spec.specs.Rules.{rule_cmp};
    ghost use Rattle.key_spec.specs.View.{placed_view};

    fn order(&self, other: &Placed) -> Ordering
        ensures { result ≡ rule_cmp (placed_view self.now) (placed_view other.now) }
    {
        self.bytes.as_slice().cmp(other.bytes.as_slice())
    }
}

impl PartialEq for Placed {
    ghost use Rattle.std.specs.Ordering.{eq_by_cmp, on};
    ghost use Rattle.std.specs.Cmp.{on_total, eq_by_cmp_equiv, partial_equiv_from_equiv};
    ghost use Rattle.key_spec.specs.Laws.{rule_cmp_total};
    ghost use Rattle.key_spec.specs.Rules.{rule_cmp};
    ghost use Rattle.key_spec.specs.View.{placed_view};

    ghost eq = { eq_by_cmp (on placed_view rule_cmp) };

    ghost laws = { partial_equiv_from_equiv (eq_by_cmp_equiv (on_total placed_view rule_cmp_total)) };

    fn eq(&self, other: &Placed) -> bool {
        self.order(other).is_eq()
    }
}

impl Eq for Placed {
    ghost use Rattle.std.specs.Cmp.{on_total, eq_by_cmp_equiv};
    ghost use Rattle.key_spec.specs.Laws.{rule_cmp_total};
    ghost use Rattle.key_spec.specs.View.{placed_view};

    ghost laws = { eq_by_cmp_equiv (on_total placed_view rule_cmp_total) };
}

impl PartialOrd for Placed {
    ghost use Rattle.std.specs.Ordering.{on, as_partial_cmp};
    ghost use Rattle.std.specs.Cmp.{on_total, partial_order_from_total};
    ghost use Rattle.key_spec.specs.Laws.{rule_cmp_total};
    ghost use Rattle.key_spec.specs.Rules.{rule_cmp};
    ghost use Rattle.key_spec.specs.View.{placed_view};

    ghost partial_cmp = { as_partial_cmp (on placed_view rule_cmp) };

    ghost laws = { partial_order_from_total (on_total placed_view rule_cmp_total) };

    fn partial_cmp(&self, other: &Placed) -> Option<Ordering> {
        Some(self.order(other))
    }
}

impl Ord for Placed {
    ghost use Rattle.std.proofs.Common.{refl};
    ghost use Rattle.std.specs.Ordering.{on};
    ghost use Rattle.std.specs.Cmp.{on_total};
    ghost use Rattle.key_spec.specs.Laws.{rule_cmp_total};
    ghost use Rattle.key_spec.specs.Rules.{rule_cmp};
    ghost use Rattle.key_spec.specs.View.{placed_view};

    ghost cmp = { on placed_view rule_cmp };

    ghost total = { on_total placed_view rule_cmp_total };

    ghost matches_partial_cmp = { λ x y. refl };

    ghost matches_eq = { λ x y. refl };

    fn cmp(&self, other: &Placed) -> Ordering {
        self.order(other)
    }
}

/// The bytes of a rule's place.
pub(crate) fn place_of(alloc: Global, rule: &Rule) -> Result<Vec<u8>, AllocError>
    ensures { IfOk result (λ bytes. bytes.items ≡ place_bytes (rule_view rule.now)) }
{
    let mut bytes = Vec::new(alloc);
    for name in &rule.context {
        push_lifted(&mut bytes, 1, name.as_str())?;
    }
    push_lifted(&mut bytes, 0, rule.tag.as_str())?;
    Ok(bytes)
}

/// Pushes the first byte, and then those of the name, each moved up by two.
fn push_lifted(bytes: &mut Vec<u8>, first: u8, name: &str) -> Result<(), AllocError>
    ensures { OnOk result (bytes.new.items ≡ bytes.old.items ++ first ∷ lifted name.now) }
{
    bytes.push(first)?;
    for byte in name.as_bytes() {
        bytes.push(*byte + 2)?;
    }
    Ok(())
}
