// A walk down the rules, by numbers in the place of names.
ghost use Rattle.std.specs.Prelude.{◌≤◌, length, map};
ghost use Rattle.key_spec.specs.RuleView.{rule_view};

use crate::rule::Rule;
use crate::spec::Spec;
use crate::stretch::Stretch;
use crate::tagged::find_tag;

/// A place among the rules: that of the elements below one path.
///
/// It is a reference and a number, and costs the same however long the path is.
#[derive(Clone, Copy)]
pub struct Context<'a> {
    spec: &'a Spec,
    number: usize,
    ghost within: { number ≤ length (map rule_view spec.now.rules.items) },
}

impl Spec {
    ghost use Rattle.std.specs.Prelude.{◌≡◌, []};
    ghost use Rattle.key_spec.specs.ContextView.{context_rules, context_path};
    ghost use Rattle.key_spec.specs.View.{spec_view};

    /// The place of the root element.
    pub fn root(&self) -> Context<'_>
        ensures rules { context_rules result ≡ spec_view self.now }
        ensures path { context_path result ≡ [] }
    {
        Context {
            spec: self,
            number: 0,
        }
    }
}

impl<'a> Context<'a> {
    ghost use Rattle.std.specs.Prelude.{◌≡◌, true, string_bytes, vec_len, IfSome, IsNone};
    ghost use Rattle.std.specs.Option.{option_map};
    ghost use Rattle.key_spec.specs.ContextView.{context_rules, context_path};
    ghost use Rattle.key_spec.specs.Rules.{below, is_frontier, rule_of};

    /// The rule for this tag, and the place below the elements that it is about. It is looked up by halving where there are many here.
    pub fn rule(self, tag: &str) -> Option<(&'a Rule, Context<'a>)>
        ensures rule { option_map (λ r. rule_view r.0.now) result
            ≡ rule_of (context_rules self.entry) (context_path self.entry) tag.now }
        ensures few_paths { IfSome result (λ r. vec_len r.0.now.paths ≤ 16) }
        ensures tag { IfSome result (λ r. string_bytes r.0.now.tag ≡ tag.now) }
        ensures inside { IfSome result (λ r. context_rules r.1 ≡ context_rules self.entry) }
        ensures path { IfSome result
            (λ r. context_path r.1 ≡ below (context_path self.entry) tag.now) }

        // Where there is no rule for the tag there is none below its elements.
        ensures none { IsNone result
            → is_frontier (context_rules self.entry) (below (context_path self.entry) tag.now)
            ≡ true }
    {
        let spec = self.spec;
        let Stretch { start, end } = spec.stretch(self.number);
        let rules = spec.rules();
        let Some(at) = find_tag(&rules[start as usize..end as usize], tag) else {
            return None;
        };
        let number = start as usize + at;
        let below = Context {
            spec,
            number: number + 1,
        };
        Some((&rules[number], below))
    }

    /// Whether no rule has the path of this place as its context.
    pub fn is_frontier(self) -> bool
        ensures { result ≡ is_frontier (context_rules self.entry) (context_path self.entry) }
    {
        let Stretch { start, end } = self.spec.stretch(self.number);
        start == end
    }
}
