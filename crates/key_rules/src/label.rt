#![tactic(auto, using(jsonml_tree::proofs::LentTrees::lent_trees))]

ghost use Rattle.std.specs.Prelude.{◌≡◌, ◌≤◌, length, map, Ok, Some, IfOk, IfErr, IfSome, vec_len};
ghost use Rattle.std.specs.Option.{option_map};
ghost use Rattle.jsonml_tree.specs.Fits.{IsElement};
ghost use Rattle.jsonml_tree.specs.LentView.{lent_content_view, lent_tree_view};
ghost use Rattle.jsonml_tree.specs.View.{tree_view};
ghost use Rattle.jsonml_tree.specs.WellFormed.{IsWellFormed};
ghost use Rattle.keyed_tree.specs.LentView.{lent_val_view};
ghost use Rattle.keyed_tree.specs.View.{label_view};
ghost use Rattle.keyed_tree.specs.WellFormed.{IsLabelWellFormed};
ghost use Rattle.key_spec.specs.ContextView.{context_path, context_rules};
ghost use Rattle.key_spec.specs.View.{names_view, path_view, rule_view, spec_view};
ghost use Rattle.key_rules.specs.Labels.{one_of, keys_from, label_by, label_in, tree_label};
ghost use Rattle.key_rules.specs.LentView.{lent_keys_view, lent_label_view};
ghost use Rattle.key_rules.specs.Reach.{reach};
ghost use Rattle.key_rules.specs.Satisfies.{ok_of};
ghost use Rattle.key_rules.specs.Spots.{IsBelow};
ghost use Rattle.key_rules.specs.View.{IsLabelFault};

use crate::fault::LabelFault;
use crate::lent::{LentKeys, LentLabel};
use crate::node::{Reached, nodes_of};
use jsonml_tree::{LentContent, LentTree, Tree};
use key_spec::{Context, KeyPath, Rule, Spec};
use keyed_tree::{Label, LentVal};
use std::alloc::{AllocError, Global};

/// The label of an element under a context, the tags from the root down to its parent.
///
/// Each key value is copied once, when all of them are known.
pub fn label_of(
    alloc: Global,
    spec: &Spec,
    context: &[String],
    elem: &Tree,
) -> Result<Label, LabelFault>
    requires { IsElement (tree_view elem.now) }
    ensures label { IfOk result
        (λ l. tree_label (spec_view spec.now) (names_view context.now) (tree_view elem.now)
        ≡ Ok (label_view l)) }
    ensures fault { IfErr result
        (λ e. IsLabelFault e
        (tree_label (spec_view spec.now) (names_view context.now) (tree_view elem.now))) }
    ensures well_formed { IsWellFormed (tree_view elem.now) →
        IfOk result (λ l. IsLabelWellFormed (label_view l)) }
{
    let lent = LentTree::lend(alloc, elem)?;
    copy_label(alloc, spec, context, &lent)
}

/// A label of its own of a tree under a context, or why it has none.
fn copy_label(
    alloc: Global,
    spec: &Spec,
    context: &[String],
    tree: &LentTree<'_>,
) -> Result<Label, LabelFault>
    ensures label { IfOk result
        (λ l. tree_label (spec_view spec.now) (names_view context.now) (lent_tree_view tree.now)
        ≡ Ok (label_view l)) }
    ensures fault { IfErr result
        (λ e. IsLabelFault e
        (tree_label (spec_view spec.now) (names_view context.now) (lent_tree_view tree.now))) }
{
    let label = read_label(alloc, spec, context, tree)?;
    Ok(label.copy(alloc)?)
}

/// The label of a tree under a context, lent by the tree, or why it has none.
fn read_label<'a, 't>(
    alloc: Global,
    spec: &'a Spec,
    context: &[String],
    tree: &'a LentTree<'t>,
) -> Result<LentLabel<'a, 't>, LabelFault>
    ensures label { IfOk result
        (λ l. tree_label (spec_view spec.now) (names_view context.now) (lent_tree_view tree.now)
        ≡ Ok (lent_label_view l)) }
    ensures fault { IfErr result
        (λ e. IsLabelFault e
        (tree_label (spec_view spec.now) (names_view context.now) (lent_tree_view tree.now))) }
{
    match tree {
        LentTree::Text(_) => Err(LabelFault::Unkeyed),
        LentTree::Leaf { tag, text } => {
            let content = LentContent::Text(text.as_str());
            element_label(alloc, spec, context, tag.as_str(), content)
        }
        LentTree::Elem { tag, row } => {
            let content = LentContent::Row(row);
            element_label(alloc, spec, context, tag.as_str(), content)
        }
    }
}

/// The label of an element of this tag and content under a context, or why it has none.
fn element_label<'a, 't>(
    alloc: Global,
    spec: &'a Spec,
    context: &[String],
    tag: &str,
    content: LentContent<'a, 't>,
) -> Result<LentLabel<'a, 't>, LabelFault>
    ensures label { IfOk result
        (λ l. label_in (spec_view spec.now) (names_view context.now) tag.now
        (lent_content_view content.entry) ≡ Ok (lent_label_view l)) }
    ensures fault { IfErr result
        (λ e. IsLabelFault e
        (label_in (spec_view spec.now) (names_view context.now) tag.now
        (lent_content_view content.entry))) }
{
    match spec.rule(context, tag) {
        Some(rule) => rule_label(alloc, rule, content),
        None => Err(LabelFault::Unkeyed),
    }
}

/// The label of an element of this tag and content at a place among the rules, and the place below it; none where it has
/// none.
///
/// The tag is that of the rule, and the key values are lent. It takes memory only for a row of several key values.
pub fn lent_label<'a, 't>(
    alloc: Global,
    context: Context<'a>,
    tag: &str,
    content: LentContent<'a, 't>,
) -> Result<Option<(LentLabel<'a, 't>, Context<'a>)>, AllocError>
    ensures label { IfOk result
        (λ l. option_map (λ l. lent_label_view l.0) l
        ≡ ok_of (label_in (context_rules context.entry) (context_path context.entry) tag.now
        (lent_content_view content.entry))) }
    ensures below { IfOk result (λ l. IfSome l (λ l. IsBelow context.entry tag.now l.1)) }
{
    let Some((rule, inside)) = context.rule(tag) else {
        return Ok(None);
    };
    match rule_label(alloc, rule, content) {
        Ok(label) => Ok(Some((label, inside))),
        Err(LabelFault::Memory) => Err(AllocError),
        Err(_) => Ok(None),
    }
}

/// The label of an element of this content by the rule for it, or why it has none.
pub(crate) fn rule_label<'a, 't>(
    alloc: Global,
    rule: &'a Rule,
    content: LentContent<'a, 't>,
) -> Result<LentLabel<'a, 't>, LabelFault>
    requires { vec_len rule.now.paths ≤ 16 }
    ensures label { IfOk result
        (λ l. label_by (Some (rule_view rule.now)) (rule_view rule.now).tag
        (lent_content_view content.entry) ≡ Ok (lent_label_view l)) }
    ensures fault { IfErr result
        (λ e. IsLabelFault e
        (label_by (Some (rule_view rule.now)) (rule_view rule.now).tag
        (lent_content_view content.entry))) }
{
    match lend_keys(alloc, &rule.paths, content) {
        Ok(keys) => Ok(LentLabel {
            tag: rule.tag.as_str(),
            keys,
        }),
        Err(fault) => Err(fault),
    }
}

/// The one value of each key path. One alone takes no row.
fn lend_keys<'a, 't>(
    alloc: Global,
    paths: &[KeyPath],
    content: LentContent<'a, 't>,
) -> Result<LentKeys<'a, 't>, LabelFault>
    requires { length paths.now ≤ 16 }
    ensures keys { IfOk result
        (λ ks. keys_from 1 (map path_view paths.now) (lent_content_view content.entry)
        ≡ Ok (lent_keys_view ks)) }
    ensures fault { IfErr result
        (λ e. IsLabelFault e
        (keys_from 1 (map path_view paths.now) (lent_content_view content.entry))) }
{
    if let [path] = paths {
        return Ok(LentKeys::One(lend_one(path, 1, content)?));
    }
    let mut keys = Vec::with_capacity(alloc, paths.len())?;
    let mut number = 0;
    for path in paths {
        number += 1;
        keys.push_reserved(lend_one(path, number, content)?);
    }
    Ok(LentKeys::Row(keys))
}

/// The one value of the key path of this number.
fn lend_one<'a, 't>(
    path: &KeyPath,
    number: u32,
    content: LentContent<'a, 't>,
) -> Result<LentVal<'a, 't>, LabelFault>
    ensures key { IfOk result
        (λ k. one_of number (reach (lent_content_view content.entry) (path_view path.now))
        ≡ Ok (lent_val_view k)) }
    ensures fault { IfErr result
        (λ e. IsLabelFault e
        (one_of number (reach (lent_content_view content.entry) (path_view path.now)))) }
{
    match nodes_of(path, content) {
        Reached::Nothing => Err(LabelFault::Missing { path: number }),
        Reached::One(node) => Ok(node),
        Reached::Several => Err(LabelFault::Twice { path: number }),
    }
}
