// The rule with a tag, among those of one context.
ghost use Rattle.std.specs.Prelude.{◌≡◌, ◌<◌, IfSome, length, map, slice_get};
ghost use Rattle.std.specs.Option.{option_and_then};
ghost use Rattle.std.specs.List.Sorted.{IsStrictlySortedBy};
ghost use Rattle.key_spec.specs.RuleView.{rule_view};
ghost use Rattle.key_spec.specs.Rules.{tag_cmp, tagged};

use crate::rule::Rule;

/// So many rules are looked at one after the other; more are looked up by halving.
pub(crate) const FEW: usize = 64;

/// The number of the rule with this tag, among rules of one context.
pub(crate) fn find_tag(rules: &[Rule], tag: &str) -> Option<usize>
    requires { IsStrictlySortedBy tag_cmp (map rule_view rules.now) }
    ensures rule { option_and_then (slice_get (map rule_view rules.now)) result
        ≡ tagged (map rule_view rules.now) tag.now }
    ensures within { IfSome result (λ at. at < length rules.now) }
{
    if rules.len() <= FEW {
        return find_in_turn(rules, tag);
    }
    match rules.binary_search_by(|rule| rule.tag.as_str().cmp(tag)) {
        Ok(at) => Some(at),
        Err(_) => None,
    }
}

/// The same, rule by rule.
fn find_in_turn(rules: &[Rule], tag: &str) -> Option<usize>
    ensures rule { option_and_then (slice_get (map rule_view rules.now)) result
        ≡ tagged (map rule_view rules.now) tag.now }
    ensures within { IfSome result (λ at. at < length rules.now) }
{
    for at in 0..rules.len() {
        if rules[at].tag.as_str() == tag {
            return Some(at);
        }
    }
    None
}
