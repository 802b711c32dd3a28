#![tactic(auto, using(jsonml_tree::proofs::Trees::trees, jsonml_tree::proofs::LentTrees::lent_trees, keyed_tree::proofs::Views::views, crate::proofs::LentViews::lent_views))]

ghost use Rattle.std.specs.Prelude.{◌≡◌, ◌++◌, IfOk, map};
ghost use Rattle.std.specs.Option.{option_map};
ghost use Rattle.jsonml_tree.specs.Data.{only_text};
ghost use Rattle.jsonml_tree.specs.LentAttrs.{lent_attr_view};
ghost use Rattle.jsonml_tree.specs.LentView.{lent_content_view, lent_items_view, lent_row_view, lent_tree_view};
ghost use Rattle.keyed_tree.specs.Data.{inner, inside, kids_from, leaf};
ghost use Rattle.key_rules.specs.LentView.{lent_label_view};
ghost use Rattle.key_spec.specs.ContextView.{context_path, context_rules};
ghost use Rattle.key_annotate.specs.KeyedOf.{attr_leaf};
ghost use Rattle.key_annotate.specs.LentView.{lent_view};
ghost use Rattle.key_annotate.specs.Ordered.{built, built_items, built_tree, items_inside};

use crate::label::KeyedLabel;
use crate::lent::{Head, LentKeyed};
use crate::order::in_order;
use jsonml_tree::{LentAttr, LentContent, LentRow, LentTree};
use key_rules::{LentLabel, is_space_only, lent_label};
use key_spec::Context;
use std::alloc::{AllocError, Global};

/// The keyed tree of an element at this place among the rules, or nothing where the keys are not satisfied at it or inside
/// it.
///
/// Each rule is looked up once, and each label read once. Nothing of the document is copied.
#[cycle(build)]
pub(crate) fn build<'a, 't>(
    alloc: Global,
    context: Context<'a>,
    elem: &'a LentTree<'t>,
) -> Result<Option<LentKeyed<'a, 't>>, AllocError>
    ensures { IfOk result
        (λ k. option_map lent_view k
        ≡ built_tree (context_rules context.entry) (context_path context.entry)
        (lent_tree_view elem.now)) }
{
    match elem {
        LentTree::Text(_) => Ok(None),
        LentTree::Leaf { tag, text } => build_text(alloc, context, tag.as_str(), text.as_str()),
        LentTree::Elem { tag, row } => build_row(alloc, context, tag.as_str(), row),
    }
}

/// The keyed tree of an element that holds one text and nothing else.
fn build_text<'a, 't>(
    alloc: Global,
    context: Context<'a>,
    tag: &str,
    text: &'a str,
) -> Result<Option<LentKeyed<'a, 't>>, AllocError>
    ensures { IfOk result
        (λ k. option_map lent_view k
        ≡ built (context_rules context.entry) (context_path context.entry) tag.now
        (only_text text.now)) }
{
    let content = LentContent::Text(text);
    let Some((label, inside)) = lent_label(alloc, context, tag, content)? else {
        return Ok(None);
    };
    if inside.is_frontier() {
        return Ok(Some(leaf(alloc, label, content)?));
    }
    if !is_space_only(text) {
        return Ok(None);
    }
    let attrs = Default::default();
    Ok(Some(inner(alloc, label, attrs, Vec::new(alloc))?))
}

/// The keyed tree of an element with this row.
#[cycle(build)]
fn build_row<'a, 't>(
    alloc: Global,
    context: Context<'a>,
    tag: &str,
    row: &'a LentRow<'t>,
) -> Result<Option<LentKeyed<'a, 't>>, AllocError>
    ensures { IfOk result
        (λ k. option_map lent_view k
        ≡ built (context_rules context.entry) (context_path context.entry) tag.now
        (lent_row_view row.now)) }
{
    let content = LentContent::Row(row);
    let Some((label, inside)) = lent_label(alloc, context, tag, content)? else {
        return Ok(None);
    };
    if inside.is_frontier() {
        return Ok(Some(leaf(alloc, label, content)?));
    }
    let Some(kids) = row_kids(alloc, inside, row)? else {
        return Ok(None);
    };
    Ok(Some(inner(alloc, label, &row.attrs, kids)?))
}

/// The leaf with this label and content. One without key values is bare.
fn leaf<'a, 't>(
    alloc: Global,
    label: LentLabel<'a, 't>,
    content: LentContent<'a, 't>,
) -> Result<LentKeyed<'a, 't>, AllocError>
    ensures { IfOk result
        (λ k. lent_view k
        ≡ leaf (lent_label_view label.entry) (inside (lent_content_view content.entry))) }
{
    if label.keys.as_slice().is_empty() {
        return Ok(LentKeyed::bare(label.tag, content));
    }
    let label = Box::new(alloc, KeyedLabel::new(label))?;
    Ok(LentKeyed::Leaf { label, content })
}

/// The inner node with this label, these attributes and kids.
fn inner<'a, 't>(
    alloc: Global,
    label: LentLabel<'a, 't>,
    attrs: &'a [LentAttr<'t>],
    kids: Vec<LentKeyed<'a, 't>>,
) -> Result<LentKeyed<'a, 't>, AllocError>
    ensures { IfOk result
        (λ k. lent_view k
        ≡ inner (lent_label_view label.entry)
        (kids_from (map attr_leaf (map lent_attr_view attrs.now)
        ++ map lent_view kids.entry.items))) }
{
    let label = KeyedLabel::new(label);
    let head = Box::new(alloc, Head { label, attrs })?;
    Ok(LentKeyed::Inner { head, kids })
}

/// The kids that the items of an inner element with this row give, in the order of their labels.
#[cycle(build)]
fn row_kids<'a, 't>(
    alloc: Global,
    context: Context<'a>,
    row: &'a LentRow<'t>,
) -> Result<Option<Vec<LentKeyed<'a, 't>>>, AllocError>
    ensures { IfOk result
        (λ o. option_map (λ ks. map lent_view ks.items) o
        ≡ items_inside (context_rules context.entry) (context_path context.entry)
        (lent_row_view row.now)) }
{
    let Some(kids) = item_kids(alloc, context, &row.items)? else {
        return Ok(None);
    };
    Ok(in_order(kids))
}

/// The kids that items give, or nothing where an item has a fault.
#[cycle(build)]
fn item_kids<'a, 't>(
    alloc: Global,
    context: Context<'a>,
    items: &'a [LentTree<'t>],
) -> Result<Option<Vec<LentKeyed<'a, 't>>>, AllocError>
    ensures { IfOk result
        (λ o. option_map (λ ks. map lent_view ks.items) o
        ≡ built_items (context_rules context.entry) (context_path context.entry)
        (lent_items_view items.now)) }
{
    let mut kids = Vec::with_capacity(alloc, items.len())?;
    for item in items {
        match item {
            LentTree::Text(text) => {
                if !is_space_only(text.as_str()) {
                    return Ok(None);
                }
            }
            _ => {
                let Some(kid) = build(alloc, context, item)? else {
                    return Ok(None);
                };
                kids.push(kid)?;
            }
        }
    }
    Ok(Some(kids))
}
