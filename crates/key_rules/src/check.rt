#![tactic(auto, using(jsonml_tree::proofs::LentTrees::lent_trees))]

ghost use Rattle.std.specs.Prelude.{◌≡◌, ℕ, List, Some, IfOk};
ghost use Rattle.std.specs.Option.{option_map};
ghost use Rattle.jsonml_tree.specs.Data.{text, element};
ghost use Rattle.jsonml_tree.specs.LentView.{lent_content_view, lent_tree_view};
ghost use Rattle.key_spec.specs.Data.{PlainRule};
ghost use Rattle.key_spec.specs.ContextView.{context_path, context_rules};
ghost use Rattle.key_spec.specs.View.{path_view, rule_view};
ghost use Rattle.key_rules.specs.Satisfies.{is_space_only};
ghost use Rattle.key_rules.specs.Faults.{path_at};
ghost use Rattle.key_rules.specs.View.{label_fault_view};
ghost use Rattle.key_rules.specs.Checks.{IsCheckOf, IsFaulty};

use crate::fault::LabelFault;
use crate::label::rule_label;
use crate::lent::LentLabel;
use jsonml_tree::{LentContent, LentTree};
use key_spec::{Context, KeyPath, Rule};
use std::alloc::{AllocError, Global};

/// What the checks of one item of an inner element give.
#[derive(Drop)]
pub(crate) enum Checked<'a, 't> {
    /// A blank string, which is dropped.
    Dropped,
    /// An element with its label.
    Labelled(LentLabel<'a, 't>),
    /// A string that is not blank, or an element without a label.
    Bad { why: u8, key_path: Option<KeyPath> },
}

/// Checks an item of the inner element that has this place among the rules.
pub(crate) fn check_item<'a, 't>(
    alloc: Global,
    context: Context<'a>,
    item: &'a LentTree<'t>,
) -> Result<Checked<'a, 't>, AllocError>
    ensures { IfOk result
        (λ c. IsCheckOf (context_rules context.entry) (context_path context.entry)
        (lent_tree_view item.now) c) }
{
    match item {
        LentTree::Text(text) => Ok(check_text(text.as_str())),
        LentTree::Leaf { tag, text } => {
            let content = LentContent::Text(text.as_str());
            check_element(alloc, context, tag.as_str(), content)
        }
        LentTree::Elem { tag, row } => {
            let content = LentContent::Row(row);
            check_element(alloc, context, tag.as_str(), content)
        }
    }
}

fn check_text<'a, 't>(s: &str) -> Checked<'a, 't>
    ensures { (rules : List PlainRule) (path : List (List ℕ)) →
        IsCheckOf rules path (text s.now) result }
{
    if is_space_only(s) {
        Checked::Dropped
    } else {
        Checked::Bad {
            why: 2,
            key_path: None,
        }
    }
}

/// Whether a string is dropped directly inside an inner element: it is empty or has only spaces, tabs, CR and LF.
pub fn is_space_only(text: &str) -> bool
    ensures { result ≡ is_space_only text.now }
{
    text.as_bytes()
        .iter()
        .all(|byte| matches!(*byte, b' ' | b'\t' | b'\n' | b'\r'))
}

fn check_element<'a, 't>(
    alloc: Global,
    context: Context<'a>,
    tag: &str,
    content: LentContent<'a, 't>,
) -> Result<Checked<'a, 't>, AllocError>
    ensures { IfOk result
        (λ c. IsCheckOf (context_rules context.entry) (context_path context.entry)
        (element tag.now (lent_content_view content.entry)) c) }
{
    let Some((rule, _)) = context.rule(tag) else {
        return Ok(Checked::Bad {
            why: 1,
            key_path: None,
        });
    };
    match rule_label(alloc, rule, content) {
        Ok(label) => Ok(Checked::Labelled(label)),
        Err(fault) => check_fault(alloc, rule, fault),
    }
}

/// What the check gives of an element that has no label under its rule.
fn check_fault<'a, 't>(
    alloc: Global,
    rule: &Rule,
    fault: LabelFault,
) -> Result<Checked<'a, 't>, AllocError>
    ensures { IfOk result
        (λ c. IsFaulty (Some (rule_view rule.now)) (label_fault_view fault) c) }
{
    match fault {
        LabelFault::Unkeyed => Ok(Checked::Bad {
            why: 1,
            key_path: None,
        }),
        LabelFault::Missing { path } => {
            let key_path = path_of(alloc, rule, path)?;
            Ok(Checked::Bad { why: 3, key_path })
        }
        LabelFault::Twice { path } => {
            let key_path = path_of(alloc, rule, path)?;
            Ok(Checked::Bad { why: 4, key_path })
        }
        LabelFault::Memory => Err(AllocError),
    }
}

/// A copy of the rule's key path of this number, counted from 1.
fn path_of(alloc: Global, rule: &Rule, number: u32) -> Result<Option<KeyPath>, AllocError>
    ensures { IfOk result
        (λ p. option_map path_view p ≡ path_at (Some (rule_view rule.now)) number) }
{
    let Some(path) = rule.paths.get(number.saturating_sub(1) as usize) else {
        return Ok(None);
    };
    Ok(Some(path.copy(alloc)?))
}
