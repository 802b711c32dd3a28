// The rules of one context, which stand together in a list that ascends.
ghost use Rattle.std.specs.Prelude.{◌≡◌, ◌≤◌, [], IfOk, length, map};
ghost use Rattle.std.specs.List.Sorted.{IsStrictlySortedBy};
ghost use Rattle.key_spec.specs.Closed.{target_of};
ghost use Rattle.key_spec.specs.RuleView.{names_view, rule_view};
ghost use Rattle.key_spec.specs.Rules.{rule_cmp};
ghost use Rattle.key_spec.specs.StretchView.{start_of, end_of};
ghost use Rattle.key_spec.specs.Stretches.{places, count_before, count_up_to};
ghost use Rattle.key_spec.specs.declared.limits.TheConstants.{MOST_RULES};

use crate::copies::{copy_names, push_copy};
use crate::order::order_paths;
use crate::rule::Rule;
use std::alloc::{AllocError, Global};

/// Where the rules of one context stand, by the number of the first of them and that of the first behind them.
#[derive(Clone, Copy, Debug)]
pub(crate) struct Stretch {
    pub start: u32,
    pub end: u32,
}

/// The stretches of all places: that of `/`, and then that of each rule's target.
pub(crate) fn stretches(alloc: Global, rules: &[Rule]) -> Result<Vec<Stretch>, AllocError>
    requires ascending { IsStrictlySortedBy rule_cmp (map rule_view rules.now) }
    requires few { length rules.now ≤ MOST_RULES }
    ensures starts { IfOk result
        (λ all. map start_of all.items
        ≡ map (count_before (map rule_view rules.now)) (places (map rule_view rules.now))) }
    ensures ends { IfOk result
        (λ all. map end_of all.items
        ≡ map (count_up_to (map rule_view rules.now)) (places (map rule_view rules.now))) }
{
    let mut all = Vec::with_capacity(alloc, rules.len() + 1)?;
    all.push(stretch_of(rules, &[]))?;
    for rule in rules {
        let target = target_of(alloc, rule)?;
        all.push(stretch_of(rules, &target))?;
    }
    Ok(all)
}

/// The stretch of the rules with this context, looked up by halving.
fn stretch_of(rules: &[Rule], path: &[String]) -> Stretch
    requires ascending { IsStrictlySortedBy rule_cmp (map rule_view rules.now) }
    requires few { length rules.now ≤ MOST_RULES }
    ensures start { result.start ≡ count_before (map rule_view rules.now) (names_view path.now) }
    ensures end { result.end ≡ count_up_to (map rule_view rules.now) (names_view path.now) }
{
    let start = count_before(rules, path) as u32;
    let end = count_up_to(rules, path) as u32;
    Stretch { start, end }
}

fn count_before(rules: &[Rule], path: &[String]) -> usize
    requires { IsStrictlySortedBy rule_cmp (map rule_view rules.now) }
    ensures count { result ≡ count_before (map rule_view rules.now) (names_view path.now) }
    ensures within { result ≤ length rules.now }
{
    rules.partition_point(|rule| order_paths(&rule.context, path).is_lt())
}

fn count_up_to(rules: &[Rule], path: &[String]) -> usize
    requires { IsStrictlySortedBy rule_cmp (map rule_view rules.now) }
    ensures count { result ≡ count_up_to (map rule_view rules.now) (names_view path.now) }
    ensures within { result ≤ length rules.now }
{
    rules.partition_point(|rule| order_paths(&rule.context, path).is_le())
}

/// The path of the elements that a rule is about.
fn target_of(alloc: Global, rule: &Rule) -> Result<Vec<String>, AllocError>
    ensures { IfOk result (λ path. names_view path.items ≡ target_of (rule_view rule.now)) }
{
    let mut path = copy_names(alloc, &rule.context)?;
    push_copy(alloc, &mut path, &rule.tag)?;
    Ok(path)
}
