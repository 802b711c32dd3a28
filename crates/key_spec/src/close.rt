// The closed rules: all given and implied rules in ascending order.
ghost use Rattle.std.specs.Prelude.{◌≡◌, ◌++◌, ◌∷◌, ◌<◌, ◌≤◌, [], length, map, IfOk, OnOk, IfSome, IfNone, string_bytes};
ghost use Rattle.std.specs.Bool.{OnTrue, OnFalse};
ghost use Rattle.key_spec.specs.Closed.{target_of, unkeyed, implied_along, implied_by, implied_rules, after_all, closed_rules};
ghost use Rattle.key_spec.specs.declared.limits.TheConstants.{MOST_RULES};
ghost use Rattle.key_spec.specs.View.{names_view, rule_view, rules_view, placed_rules, Puts};

use crate::copies::{copy_name, copy_names, push_copy};
use crate::given::Given;
use crate::limits::MOST_RULES;
use crate::place::{Placed, place_of};
use crate::rule::Rule;
use std::alloc::{AllocError, Global};
use std::collections::BTreeSet;

/// The closed rules, unless there are too many.
pub(crate) fn close(alloc: Global, given: Vec<Given>) -> Result<Option<Vec<Rule>>, AllocError>
    ensures some { IfOk result (λ found. IfSome found
        (λ rules. map rule_view rules.items ≡ closed_rules (rules_view given.items))) }
    ensures few { IfOk result (λ found. IfSome found
        (λ rules. length (closed_rules (rules_view given.items)) ≤ MOST_RULES)) }
    ensures none { IfOk result
        (λ found. IfNone found (MOST_RULES < length (closed_rules (rules_view given.items)))) }
{
    let mut closed = BTreeSet::new(alloc);
    if !put_all_implied(alloc, &mut closed, &given)? {
        return Ok(None);
    }
    put_given(alloc, &mut closed, given)?;
    if closed.len() > MOST_RULES {
        return Ok(None);
    }
    Ok(Some(in_order(alloc, closed)?))
}

/// Puts the rules that the given ones imply in their places, and says whether there are few enough of them.
fn put_all_implied(
    alloc: Global,
    closed: &mut BTreeSet<Placed>,
    given: &[Given],
) -> Result<bool, AllocError>
    ensures all { IfOk result
        (λ few. OnTrue few (Puts closed.old closed.new (implied_rules (rules_view given.now)))) }
    ensures many { IfOk result (λ few. OnFalse few
        (MOST_RULES < length
        (after_all (placed_rules closed.old) (implied_rules (rules_view given.now))))) }
{
    for one in given {
        put_implied(alloc, closed, &one.rule)?;
        if closed.len() > MOST_RULES {
            return Ok(false);
        }
    }
    Ok(true)
}

/// The rules of the set, from the first to the last.
fn in_order(alloc: Global, closed: BTreeSet<Placed>) -> Result<Vec<Rule>, AllocError>
    ensures { IfOk result (λ rules. map rule_view rules.items ≡ placed_rules closed) }
{
    let mut rules = Vec::new(alloc);
    for placed in closed {
        let Placed { bytes: _, rule } = placed;
        rules.push(rule)?;
    }
    Ok(rules)
}

fn put_given(
    alloc: Global,
    closed: &mut BTreeSet<Placed>,
    given: Vec<Given>,
) -> Result<(), AllocError>
    ensures { OnOk result (Puts closed.old closed.new (rules_view given.items)) }
{
    for one in given {
        let Given { line: _, rule } = one;
        put(alloc, closed, rule)?;
    }
    Ok(())
}

/// Puts the rules that a rule implies in their places.
fn put_implied(alloc: Global, closed: &mut BTreeSet<Placed>, rule: &Rule) -> Result<(), AllocError>
    ensures { OnOk result (Puts closed.old closed.new (implied_by (rule_view rule.now))) }
{
    for path in &rule.paths {
        put_along(alloc, closed, rule, &path.tags)?;
    }
    Ok(())
}

/// Puts a rule for each tag on the way from the target of a rule.
fn put_along(
    alloc: Global,
    closed: &mut BTreeSet<Placed>,
    from: &Rule,
    tags: &[String],
) -> Result<(), AllocError>
    ensures { OnOk result
        (Puts closed.old closed.new
        (implied_along (target_of (rule_view from.now)) (names_view tags.now))) }
{
    let mut here = copy_names(alloc, &from.context)?;
    push_copy(alloc, &mut here, &from.tag)?;
    for tag in tags {
        put_unkeyed(alloc, closed, &here, tag)?;
        push_copy(alloc, &mut here, tag)?;
    }
    Ok(())
}

/// Puts the rule with this context and tag and no key paths in its place.
fn put_unkeyed(
    alloc: Global,
    closed: &mut BTreeSet<Placed>,
    context: &[String],
    tag: &String,
) -> Result<(), AllocError>
    ensures { OnOk result
        (Puts closed.old closed.new
        (unkeyed (names_view context.now) (string_bytes tag.now) ∷ [])) }
{
    let rule = unkeyed(alloc, context, tag)?;
    put(alloc, closed, rule)
}

/// Puts a rule in its place, where it replaces one with the same context and tag.
fn put(alloc: Global, closed: &mut BTreeSet<Placed>, rule: Rule) -> Result<(), AllocError>
    ensures { OnOk result (Puts closed.old closed.new (rule_view rule ∷ [])) }
{
    let bytes = place_of(alloc, &rule)?;
    closed.replace(Placed { bytes, rule })?;
    Ok(())
}

/// The rule with this context and tag and no key paths.
fn unkeyed(alloc: Global, context: &[String], tag: &String) -> Result<Rule, AllocError>
    ensures { IfOk result (λ rule. rule_view rule
        ≡ unkeyed (names_view context.now) (string_bytes tag.now)) }
{
    Ok(Rule {
        context: copy_names(alloc, context)?,
        tag: copy_name(alloc, tag)?,
        paths: Vec::new(alloc),
    })
}
