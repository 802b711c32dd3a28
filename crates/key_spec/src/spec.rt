ghost use Rattle.std.specs.Prelude.{◌≡◌, ℕ, ◌≤◌, nat_le, List, None, Ok, IfOk, IfErr, IfSome, map, option_map, length, string_bytes, vec_len};
ghost use Rattle.std.specs.Bool.{OnFalse};
ghost use Rattle.key_spec.specs.Data.{PlainRule};
ghost use Rattle.key_spec.specs.Canonical.{canonical, spelled_by};
ghost use Rattle.key_spec.specs.Closed.{closed, IsClosed};
ghost use Rattle.key_spec.specs.ClosedList.{IsClosedList};
ghost use Rattle.std.specs.List.{list_any};
ghost use Rattle.std.specs.List.Sorted.{IsStrictlySortedBy};
ghost use Rattle.key_spec.specs.RuleView.{names_view, rule_view};
ghost use Rattle.key_spec.specs.Rules.{rule_cmp, has_context};
ghost use Rattle.key_spec.specs.StretchView.{start_of, end_of};
ghost use Rattle.key_spec.specs.Stretches.{places, path_at, count_before, count_up_to};
ghost use Rattle.key_spec.specs.declared.limits.TheConstants.{LONGEST_TEXT};

use crate::close::close;
use crate::closing::check_closing;
use crate::fault::SpecFault;
use crate::given::read_lines;
use crate::limits::LONGEST_TEXT;
use crate::order::{are_same, order_paths, order_place, stands_at};
use crate::rule::{Rule, push_rule};
use crate::stretch::{Stretch, stretches};
use crate::tagged::FEW;
use std::alloc::{AllocError, Global};

/// A closed specification: all given and implied rules, ascending by context and then by tag.
///
/// It takes 8 bytes more for each rule, by which a walk finds the rules below it.
#[derive(Debug, Drop)]
pub struct Spec {
    rules: Vec<Rule>,
    // For `/`, and then for the target of each rule.
    stretches: Vec<Stretch>,
    ghost closed: { ∥ IsClosed (map rule_view rules.items) ∥₁ },
    ghost starts: { map start_of stretches.items
        ≡ map (count_before (map rule_view rules.items)) (places (map rule_view rules.items)) },
    ghost ends: { map end_of stretches.items
        ≡ map (count_up_to (map rule_view rules.items)) (places (map rule_view rules.items)) },
}

impl Spec {
    ghost use Rattle.key_spec.specs.Rules.{rule_of, is_frontier};
    ghost use Rattle.key_spec.specs.View.{spec_view, IsRefusal};

    /// The closed rules of a text of lines such as `(/db/dept, (emp, {fn, ln}))`, or its first fault.
    ///
    /// Blank lines and those that begin with `#` are skipped. It sorts once, and looks nothing up rule by rule.
    pub fn parse(alloc: Global, text: &[u8]) -> Result<Spec, SpecFault>
        requires { length text.now ≤ LONGEST_TEXT }
        ensures found { IfOk result (λ spec. closed text.now ≡ Ok (spec_view spec)) }
        ensures fault { IfErr result (λ e. IsRefusal e (closed text.now)) }

        // Whatever a text specifies is a closed list.
        ensures list { (rules : List PlainRule) → closed text.now ≡ Ok rules → IsClosedList rules }
    {
        Spec::read(alloc, text)
    }

    fn read(alloc: Global, text: &[u8]) -> Result<Spec, SpecFault>
        requires { length text.now ≤ LONGEST_TEXT }
        ensures found { IfOk result (λ spec. closed text.now ≡ Ok (spec_view spec)) }
        ensures fault { IfErr result (λ e. IsRefusal e (closed text.now)) }
    {
        let given = read_lines(alloc, text)?;
        check_closing(alloc, &given)?;
        let Some(rules) = close(alloc, given)? else {
            return Err(SpecFault::Bad { line: 0, why: 7 });
        };
        if canonical_text(alloc, &rules)?.len() > LONGEST_TEXT {
            return Err(SpecFault::Bad { line: 0, why: 7 });
        }
        Ok(Spec::of(alloc, rules)?)
    }

    /// The specification of closed rules.
    fn of(alloc: Global, rules: Vec<Rule>) -> Result<Spec, AllocError>
        requires { IsClosed (map rule_view rules.items) }
        ensures { IfOk result (λ spec. spec_view spec ≡ map rule_view rules.items) }
    {
        let stretches = stretches(alloc, &rules)?;
        Ok(Spec { rules, stretches })
    }

    /// The specification of which this is the canonical text, if it is one's.
    pub fn read_canonical(alloc: Global, text: &[u8]) -> Result<Option<Spec>, AllocError>
        ensures { IfOk result (λ found. option_map spec_view found
            ≡ spelled_by text.now (closed text.now)) }
    {
        if !may_be_canonical(text.len()) {
            return Ok(None);
        }
        match Spec::read(alloc, text) {
            Ok(spec) => spec.if_written(alloc, text),
            Err(SpecFault::Bad { .. }) => Ok(None),
            Err(SpecFault::Memory) => Err(AllocError),
        }
    }

    /// The specification that the text gives, if it is written so.
    fn if_written(self, alloc: Global, text: &[u8]) -> Result<Option<Spec>, AllocError>
        requires { closed text.now ≡ Ok (spec_view self) }
        ensures { IfOk result (λ found. option_map spec_view found
            ≡ spelled_by text.now (closed text.now)) }
    {
        let written = canonical_text(alloc, &self.rules)?;
        if written.as_bytes() == text {
            Ok(Some(self))
        } else {
            Ok(None)
        }
    }

    /// The rules, ascending by context and then by tag.
    pub fn rules(&self) -> &[Rule]
        ensures rules { map rule_view result.now ≡ spec_view self.now }
        ensures ascending { IsStrictlySortedBy rule_cmp (spec_view self.now) }
        ensures list { IsClosedList (spec_view self.now) }

        // Their canonical text specifies them again.
        ensures closed { closed (canonical (spec_view self.now)) ≡ Ok (spec_view self.now) }
        ensures short { length (canonical (spec_view self.now)) ≤ LONGEST_TEXT }
    {
        &self.rules
    }

    /// The rule with this context and tag, looked up by halving where there are many.
    pub fn rule(&self, context: &[String], tag: &str) -> Option<&Rule>
        ensures few_paths { IfSome result (λ r. vec_len r.now.paths ≤ 16) }
        ensures rule { option_map (λ r. rule_view r.now) result
            ≡ rule_of (spec_view self.now) (names_view context.now) tag.now }
    {
        if self.rules.len() <= FEW {
            return self.rule_in_turn(context, tag);
        }
        match self
            .rules
            .binary_search_by(|rule| order_place(rule, context, tag))
        {
            Ok(at) => Some(&self.rules[at]),
            Err(_) => None,
        }
    }

    /// The rule with this context and tag, looked for rule by rule.
    fn rule_in_turn(&self, context: &[String], tag: &str) -> Option<&Rule>
        ensures few_paths { IfSome result (λ r. vec_len r.now.paths ≤ 16) }
        ensures rule { option_map (λ r. rule_view r.now) result
            ≡ rule_of (spec_view self.now) (names_view context.now) tag.now }
    {
        for rule in &self.rules {
            if stands_at(rule, context, tag) {
                return Some(rule);
            }
        }
        None
    }

    /// Whether no rule has this path as its context, looked up by halving where there are many.
    pub fn is_frontier(&self, path: &[String]) -> bool
        ensures { result ≡ is_frontier (spec_view self.now) (names_view path.now) }
    {
        if self.rules.len() <= FEW {
            return !is_context(&self.rules, path);
        }
        self.rules
            .binary_search_by(|rule| order_paths(&rule.context, path))
            .is_err()
    }

    /// Where the rules below the place of this number stand.
    pub(crate) fn stretch(&self, number: usize) -> Stretch
        requires { number ≤ length (spec_view self.now) }
        ensures start { result.start
            ≡ count_before (spec_view self.now) (path_at (spec_view self.now) number) }
        ensures end { result.end
            ≡ count_up_to (spec_view self.now) (path_at (spec_view self.now) number) }
        ensures ordered { result.start ≤ result.end }
        ensures within { result.end ≤ length (spec_view self.now) }
    {
        self.stretches[number]
    }

    /// The canonical text: one line for each rule, in their order. What it specifies is this specification again.
    pub fn text(&self, alloc: Global) -> Result<String, AllocError>
        ensures text { IfOk result (λ text. string_bytes text ≡ canonical (spec_view self.now)) }
        ensures again { closed (canonical (spec_view self.now)) ≡ Ok (spec_view self.now) }
        ensures short { length (canonical (spec_view self.now)) ≤ LONGEST_TEXT }
    {
        canonical_text(alloc, &self.rules)
    }
}

/// Whether a canonical text may have so many bytes.
pub fn may_be_canonical(len: usize) -> bool
    ensures few { result ≡ nat_le len LONGEST_TEXT }
    ensures many { OnFalse result ((text : List ℕ) → length text
        ≡ len → spelled_by text (closed text) ≡ None) }
{
    len <= LONGEST_TEXT
}

/// Whether one of the rules has this context.
fn is_context(rules: &[Rule], path: &[String]) -> bool
    ensures { result ≡ list_any (has_context (names_view path.now)) (map rule_view rules.now) }
{
    for rule in rules {
        if are_same(&rule.context, path) {
            return true;
        }
    }
    false
}

#[tactic(auto, unfolding(crate::specs::Canonical::canonical))]
fn canonical_text(alloc: Global, rules: &[Rule]) -> Result<String, AllocError>
    ensures { IfOk result (λ text. string_bytes text ≡ canonical (map rule_view rules.now)) }
{
    let mut text = String::new(alloc);
    for rule in rules {
        push_rule(&mut text, rule)?;
        text.push_str("\n")?;
    }
    Ok(text)
}
