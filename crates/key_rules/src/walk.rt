#![tactic(auto, using(jsonml_tree::proofs::LentTrees::lent_trees))]

ghost use Rattle.std.specs.Prelude.{◌≡◌, ◌↔◌, ◌<◌, ◌≤◌, ◌+◌, ◌^◌, ℕ, List, Some, None, true, IsTrue, IfOk, IfSome, OnOk, IsNone, length, map, []};
ghost use Rattle.std.specs.Option.{option_map, option_or};
ghost use Rattle.jsonml_tree.specs.Fits.{IsElement, content_items_fit, all_items_fit, ItemsFit};
ghost use Rattle.jsonml_tree.specs.LentView.{only_text, lent_tree_view, lent_row_view, lent_items_view};
ghost use Rattle.jsonml_tree.specs.View.{tree_view};
ghost use Rattle.key_spec.specs.ContextView.{context_path, context_rules};
ghost use Rattle.key_spec.specs.Rules.{below, is_frontier};
ghost use Rattle.key_spec.specs.View.{path_view, spec_view};
ghost use Rattle.key_rules.specs.Satisfies.{Satisfies};
ghost use Rattle.key_rules.specs.Faults.{HasItsPath, first_bad_item, repeated_item, item_place, content_fault, tree_fault, row_fault, first_fault};
ghost use Rattle.key_rules.specs.Spots.{IsBelow, IsContextIn, inside_fault};
ghost use Rattle.key_rules.specs.View.{fault_view};

use crate::check::{Checked, check_item, is_space_only};
use crate::fault::KeyFault;
use crate::lent::LentLabel;
use jsonml_tree::{LentRow, LentTree, Place, Tree};
use key_spec::{Context, KeyPath, Spec};
use std::alloc::{AllocError, Global};
use std::collections::BTreeSet;

/// What a search answers that finds this fault of the item at this position, from 0, of the element at the place.
fn fault_at(
    alloc: Global,
    place: &[u32],
    position: usize,
    why: u8,
    key_path: Option<KeyPath>,
) -> Result<Option<KeyFault>, AllocError>
    requires { position < 4294967295 }
    ensures { IfOk result
        (λ f. option_map fault_view f
        ≡ Some (record {
          place = item_place place.now (position + 1);
          why = why;
          path = option_map path_view key_path;
        })) }
{
    let mut steps = Vec::with_capacity(alloc, place.len() + 1)?;
    steps.extend_from_slice(place)?;
    steps.push(position as u32 + 1)?;
    Ok(Some(KeyFault {
        place: Place { steps },
        why,
        key_path,
    }))
}

/// Goes on to the item at this position.
fn enter(place: &mut Vec<u32>, position: usize) -> Result<(), AllocError>
    requires { position < 4294967295 }
    ensures { OnOk result (place.new.items ≡ item_place place.old.items (position + 1)) }
{
    place.push(position as u32 + 1)?;
    Ok(())
}

/// Goes back to the element around this one.
fn leave(place: &mut Vec<u32>)
    ensures { (around : List ℕ) (n : ℕ) → place.old.items ≡ item_place around n →
        place.new.items ≡ around }
{
    place.pop();
}

/// The fault of the first item that has one of its own, else that of the first item whose label an earlier one has.
fn fault_among<'a>(
    alloc: Global,
    context: Context<'a>,
    place: &[u32],
    items: &'a [LentTree<'_>],
) -> Result<Option<KeyFault>, AllocError>
    requires { length items.now < 2 ^ 32 }
    ensures { IfOk result
        (λ f. option_map fault_view f
        ≡ option_or
        (first_bad_item (context_rules context.entry) (context_path context.entry)
        (item_place place.now) 1 (map lent_tree_view items.now))
        (repeated_item (context_rules context.entry) (context_path context.entry)
        (item_place place.now) (map lent_tree_view items.now))) }
{
    let mut labels = BTreeSet::new(alloc);
    first_among(alloc, context, place, items, &mut labels)
}

/// The same, with a set that takes in the labels, which the items lend.
fn first_among<'a, 't>(
    alloc: Global,
    context: Context<'a>,
    place: &[u32],
    items: &'a [LentTree<'t>],
    labels: &mut BTreeSet<LentLabel<'a, 't>>,
) -> Result<Option<KeyFault>, AllocError>
    requires few { length items.now < 2 ^ 32 }
    requires empty { labels.old.keys ≡ [] }
    ensures { IfOk result
        (λ f. option_map fault_view f
        ≡ option_or
        (first_bad_item (context_rules context.entry) (context_path context.entry)
        (item_place place.now) 1 (map lent_tree_view items.now))
        (repeated_item (context_rules context.entry) (context_path context.entry)
        (item_place place.now) (map lent_tree_view items.now))) }
{
    let mut repeated = None;
    for (position, item) in items.iter().enumerate() {
        match check_item(alloc, context, item)? {
            Checked::Dropped => {}
            Checked::Labelled(label) => {
                if !labels.insert(label)? {
                    repeated = repeated.or(Some(position));
                }
            }
            Checked::Bad { why, key_path } => {
                return fault_at(alloc, place, position, why, key_path);
            }
        }
    }
    match repeated {
        Some(position) => fault_at(alloc, place, position, 5, None),
        None => Ok(None),
    }
}

/// The first fault of the element at the place, which holds this text alone.
fn fault_in_text(
    alloc: Global,
    context: Context<'_>,
    place: &[u32],
    text: &str,
) -> Result<Option<KeyFault>, AllocError>
    ensures { IfOk result
        (λ f. option_map fault_view f
        ≡ content_fault (context_rules context.entry) (context_path context.entry) place.now
        (only_text text.now)) }
{
    if context.is_frontier() || is_space_only(text) {
        return Ok(None);
    }
    fault_at(alloc, place, 0, 2, None)
}

/// The first fault of the element at the place, with this row, and of the elements in it.
#[cycle(walk)]
#[tactic(auto, using(jsonml_tree::proofs::Trees::trees, jsonml_tree::proofs::LentTrees::lent_trees, crate::proofs::Rows::fits))]
fn fault_inside(
    alloc: Global,
    context: Context<'_>,
    place: &mut Vec<u32>,
    row: &LentRow<'_>,
) -> Result<Option<KeyFault>, AllocError>
    requires { IsTrue (content_items_fit (lent_row_view row.now)) }
    ensures fault { IfOk result
        (λ f. option_map fault_view f
        ≡ content_fault (context_rules context.entry) (context_path context.entry) place.old.items
        (lent_row_view row.now)) }
    ensures stays { OnOk result (place.new.items ≡ place.old.items) }
{
    if context.is_frontier() {
        return Ok(None);
    }
    match fault_among(alloc, context, place, &row.items)? {
        None => fault_below(alloc, context, place, &row.items),
        found => Ok(found),
    }
}

/// The first fault inside the items of the element at the place.
#[cycle(walk)]
fn fault_below(
    alloc: Global,
    context: Context<'_>,
    place: &mut Vec<u32>,
    items: &[LentTree<'_>],
) -> Result<Option<KeyFault>, AllocError>
    requires fit { length items.now ≤ 4294967295 }
    requires items_fit { IsTrue (all_items_fit (lent_items_view items.now)) }
    ensures fault { IfOk result
        (λ f. option_map fault_view f
        ≡ row_fault (context_rules context.entry) (context_path context.entry)
        (item_place place.old.items) 1 (lent_items_view items.now)) }
    ensures stays { OnOk result (place.new.items ≡ place.old.items) }
{
    for (position, item) in items.iter().enumerate() {
        let found = fault_in(alloc, context, place, position, item)?;
        if found.is_some() {
            return Ok(found);
        }
    }
    Ok(None)
}

/// The first fault inside the item at this position. An element without a rule has none below it.
#[cycle(walk)]
fn fault_in(
    alloc: Global,
    context: Context<'_>,
    place: &mut Vec<u32>,
    position: usize,
    item: &LentTree<'_>,
) -> Result<Option<KeyFault>, AllocError>
    requires position { position < 4294967295 }
    requires items_fit { ItemsFit (lent_tree_view item.now) }
    ensures fault { IfOk result
        (λ f. option_map fault_view f
        ≡ tree_fault (context_rules context.entry) (context_path context.entry)
        (item_place place.old.items (position + 1)) (lent_tree_view item.now)) }
    ensures stays { OnOk result (place.new.items ≡ place.old.items) }
{
    let Some(inside) = context_in(context, item) else {
        return Ok(None);
    };
    enter(place, position)?;
    let found = fault_behind_tag(alloc, inside, place, item)?;
    leave(place);
    Ok(found)
}

/// The first fault of the element at the place, which stands there among the rules, and of the elements in it.
#[cycle(walk)]
fn fault_behind_tag(
    alloc: Global,
    context: Context<'_>,
    place: &mut Vec<u32>,
    item: &LentTree<'_>,
) -> Result<Option<KeyFault>, AllocError>
    requires { ItemsFit (lent_tree_view item.now) }
    ensures fault { IfOk result
        (λ f. option_map fault_view f
        ≡ inside_fault (context_rules context.entry) (context_path context.entry) place.old.items
        (lent_tree_view item.now)) }
    ensures stays { OnOk result (place.new.items ≡ place.old.items) }
{
    match item {
        LentTree::Text(_) => Ok(None),
        LentTree::Leaf { text, .. } => fault_in_text(alloc, context, place, text.as_str()),
        LentTree::Elem { row, .. } => fault_inside(alloc, context, place, row),
    }
}

/// The place among the rules of an item that is an element with a rule.
fn context_in<'a>(context: Context<'a>, item: &LentTree<'_>) -> Option<Context<'a>>
    ensures some { IfSome result
        (λ c. IsContextIn context.entry c (lent_tree_view item.now)) }
    ensures none { IsNone result → (place : List ℕ) →
        tree_fault (context_rules context.entry) (context_path context.entry) place
        (lent_tree_view item.now) ≡ None }
{
    match item {
        LentTree::Text(_) => None,
        LentTree::Leaf { tag, .. } => context_below(context, tag.as_str()),
        LentTree::Elem { tag, .. } => context_below(context, tag.as_str()),
    }
}

/// The place below the elements of this tag, where there is a rule for it.
fn context_below<'a>(context: Context<'a>, tag: &str) -> Option<Context<'a>>
    ensures some { IfSome result (λ c. IsBelow context.entry tag.now c) }
    ensures none { IsNone result
        → is_frontier (context_rules context.entry) (below (context_path context.entry) tag.now)
        ≡ true }
{
    match context.rule(tag) {
        Some((_, inside)) => Some(inside),
        None => None,
    }
}

/// The first fault of a document's keys, if it has one: inner elements in preorder, and the document's own place first.
///
/// At each inner element its own items come first: the first that is bad by itself, else the first whose label an
/// earlier one has. Each label is read once, and recursion is as deep as elements nest.
pub fn first_fault(alloc: Global, spec: &Spec, doc: &Tree) -> Result<Option<KeyFault>, AllocError>
    requires element { IsElement (tree_view doc.now) }
    requires items_fit { ItemsFit (tree_view doc.now) }
    ensures fault { IfOk result
        (λ f. option_map fault_view f ≡ first_fault (spec_view spec.now) (tree_view doc.now)) }
    ensures none { IfOk result
        (λ f. IsNone f ↔ Satisfies (spec_view spec.now) (tree_view doc.now)) }

    // The laws, of this specification and document.
    ensures key_path { IfSome (first_fault (spec_view spec.now) (tree_view doc.now)) HasItsPath }
    ensures law { (first_fault (spec_view spec.now) (tree_view doc.now) ≡ None)
        ↔ Satisfies (spec_view spec.now) (tree_view doc.now) }
{
    let lent = LentTree::lend(alloc, doc)?;
    fault_of(alloc, spec, &lent)
}

/// The same of a document that is lent. Nothing of it is copied; it takes memory for the labels of one inner element at a
/// time, which are lent too.
pub fn first_lent_fault(
    alloc: Global,
    spec: &Spec,
    doc: &LentTree<'_>,
) -> Result<Option<KeyFault>, AllocError>
    requires element { IsElement (lent_tree_view doc.now) }
    requires items_fit { ItemsFit (lent_tree_view doc.now) }
    ensures fault { IfOk result
        (λ f. option_map fault_view f ≡ first_fault (spec_view spec.now) (lent_tree_view doc.now)) }
    ensures none { IfOk result
        (λ f. IsNone f ↔ Satisfies (spec_view spec.now) (lent_tree_view doc.now)) }

    // The laws, of this specification and document.
    ensures key_path { IfSome
        (first_fault (spec_view spec.now) (lent_tree_view doc.now)) HasItsPath }
    ensures law { (first_fault (spec_view spec.now) (lent_tree_view doc.now) ≡ None)
        ↔ Satisfies (spec_view spec.now) (lent_tree_view doc.now) }
{
    fault_of(alloc, spec, doc)
}

/// The first fault of a lent document: at its own place, or else inside.
#[tactic(auto, using(jsonml_tree::proofs::LentTrees::lent_trees, crate::proofs::Law::law))]
fn fault_of(alloc: Global, spec: &Spec, doc: &LentTree<'_>) -> Result<Option<KeyFault>, AllocError>
    requires element { IsElement (lent_tree_view doc.now) }
    requires items_fit { ItemsFit (lent_tree_view doc.now) }
    ensures { IfOk result (λ f.
        option_map fault_view f ≡ first_fault (spec_view spec.now) (lent_tree_view doc.now)) }
{
    match check_item(alloc, spec.root(), doc)? {
        Checked::Bad { why, key_path } => {
            let place = Place {
                steps: Vec::new(alloc),
            };
            Ok(Some(KeyFault {
                place,
                why,
                key_path,
            }))
        }
        _ => fault_in_root(alloc, spec, doc),
    }
}

/// The first fault inside the root element.
fn fault_in_root(
    alloc: Global,
    spec: &Spec,
    root: &LentTree<'_>,
) -> Result<Option<KeyFault>, AllocError>
    requires { ItemsFit (lent_tree_view root.now) }
    ensures { IfOk result
        (λ f. option_map fault_view f
        ≡ tree_fault (spec_view spec.now) [] [] (lent_tree_view root.now)) }
{
    let Some(inside) = context_in(spec.root(), root) else {
        return Ok(None);
    };
    let mut place = Vec::new(alloc);
    fault_behind_tag(alloc, inside, &mut place, root)
}
