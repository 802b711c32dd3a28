// The order of paths, and where a rule stands to a context and a tag.
ghost use Rattle.std.specs.Prelude.{◌≡◌};
ghost use Rattle.std.specs.Ordering.{is_eq};
ghost use Rattle.key_spec.specs.Rules.{path_cmp, rule_cmp};
ghost use Rattle.key_spec.specs.Closed.{unkeyed};
ghost use Rattle.key_spec.specs.View.{names_view, rule_view};

use crate::rule::Rule;
use std::cmp::Ordering;

/// Where a rule stands to a context and tag.
pub(crate) fn order_place(rule: &Rule, context: &[String], tag: &str) -> Ordering
    ensures { result ≡ rule_cmp (rule_view rule.now) (unkeyed (names_view context.now) tag.now) }
{
    order_paths(&rule.context, context).then(rule.tag.as_str().cmp(tag))
}

/// By the names one after the other, a shorter list before those that it begins.
pub(crate) fn order_paths(ours: &[String], theirs: &[String]) -> Ordering
    ensures { result ≡ path_cmp (names_view ours.now) (names_view theirs.now) }
{
    ours.cmp(theirs)
}

/// Whether a rule has this context and tag.
#[tactic(auto, using(crate::proofs::SameNames::same))]
pub(crate) fn stands_at(rule: &Rule, context: &[String], tag: &str) -> bool
    ensures { result
        ≡ is_eq (rule_cmp (rule_view rule.now) (unkeyed (names_view context.now) tag.now)) }
{
    rule.tag.as_str() == tag && are_same(&rule.context, context)
}

/// Whether the names are the same.
pub(crate) fn are_same(ours: &[String], theirs: &[String]) -> bool
    ensures { result ≡ is_eq (path_cmp (names_view ours.now) (names_view theirs.now)) }
{
    ours == theirs
}
