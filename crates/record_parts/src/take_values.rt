// Reading attributes, contents and key values.
ghost use Rattle.std.specs.Prelude.{◌≡◌, ◌≤◌, length, drop, map, IfOk, None};
ghost use Rattle.jsonml_tree.specs.View.{attr_view, tree_view, content_view};
ghost use Rattle.keyed_tree.specs.View.{key_view};
ghost use Rattle.xa_fields.specs.Reading.{many_at, list_at, chain_at};
ghost use Rattle.record_parts.specs.Reading.{Gives, attr_at, next_attr, attrs_at, item_at, item_of, content_at, content_below, value_of, value_at};

use crate::fault::RecFault;
use crate::lent::{copy_attr, is_above, lend_attr, lend_scalar};
use crate::limits::DEEPEST;
use jsonml_tree::{Attr, Content, Tree};
use keyed_tree::KeyVal;
use std::alloc::Global;
use xa_fields::{take_text, take_u8, take_u32};

/// A list of so few items takes no more room than they need.
pub(crate) const FEW: u32 = 4;

#[tactic(auto, unfolding(xa_fields::specs::Reading::chained_at))]
fn take_attrs(alloc: Global, bytes: &[u8], at: usize) -> Result<(Vec<Attr>, usize), RecFault>
    ensures found { Gives (λ r. (map attr_view r.0.items, drop r.1 bytes.now)) result
        (attrs_at (drop at bytes.now)) }
    ensures next { IfOk result (λ r. r.1 ≤ length bytes.now) }
{
    let Some((count, at)) = take_u32(bytes, at) else {
        return Err(RecFault::Damage);
    };
    take_each_attr(alloc, count, bytes, at)
}

fn take_each_attr(
    alloc: Global,
    count: u32,
    bytes: &[u8],
    at: usize,
) -> Result<(Vec<Attr>, usize), RecFault>
    requires { at ≤ length bytes.now }
    ensures found { Gives (λ r. (map attr_view r.0.items, drop r.1 bytes.now)) result
        (chain_at attr_at next_attr None count (drop at bytes.now)) }
    ensures next { IfOk result (λ r. r.1 ≤ length bytes.now) }
{
    let mut attrs = Vec::with_capacity(alloc, count.min(FEW) as usize)?;
    let mut at = at;
    let mut last: Option<&str> = None;
    for _ in 0..count {
        let Some((name, value, next)) = lend_attr(bytes, at) else {
            return Err(RecFault::Damage);
        };
        if !is_above(last, name) {
            return Err(RecFault::Damage);
        }
        let attr = copy_attr(alloc, name, value)?;
        attrs.push(attr)?;
        last = Some(name);
        at = next;
    }
    Ok((attrs, at))
}

/// The content at the offset, whose elements nest at most so deep, and the offset behind it.
#[cycle(take)]
#[tactic(auto, using(jsonml_tree::proofs::Trees::trees), unfolding(crate::specs::Reading::content_by, xa_fields::specs::Reading::list_at))]
pub fn take_content(
    alloc: Global,
    depth: u32,
    bytes: &[u8],
    at: usize,
) -> Result<(Content, usize), RecFault>
    ensures found { Gives (λ r. (content_view r.0, drop r.1 bytes.now)) result
        (content_at depth (drop at bytes.now)) }
    ensures next { IfOk result (λ r. r.1 ≤ length bytes.now) }
{
    let (attrs, at) = take_attrs(alloc, bytes, at)?;
    let Some((count, at)) = take_u32(bytes, at) else {
        return Err(RecFault::Damage);
    };
    let (items, at) = take_items(alloc, depth, count, bytes, at)?;
    Ok((Content { attrs, items }, at))
}

#[cycle(take)]
fn take_items(
    alloc: Global,
    depth: u32,
    count: u32,
    bytes: &[u8],
    at: usize,
) -> Result<(Vec<Tree>, usize), RecFault>
    requires { at ≤ length bytes.now }
    ensures found { Gives (λ r. (map tree_view r.0.items, drop r.1 bytes.now)) result
        (many_at (item_at depth) count (drop at bytes.now)) }
    ensures next { IfOk result (λ r. r.1 ≤ length bytes.now) }
{
    let mut items = Vec::with_capacity(alloc, count.min(FEW) as usize)?;
    let mut at = at;
    for _ in 0..count {
        let (item, next) = take_item(alloc, depth, bytes, at)?;
        items.push(item)?;
        at = next;
    }
    Ok((items, at))
}

#[cycle(take)]
fn take_item(alloc: Global, depth: u32, bytes: &[u8], at: usize) -> Result<(Tree, usize), RecFault>
    ensures found { Gives (λ r. (tree_view r.0, drop r.1 bytes.now)) result
        (item_at depth (drop at bytes.now)) }
    ensures next { IfOk result (λ r. r.1 ≤ length bytes.now) }
{
    let Some((kind, at)) = take_u8(bytes, at) else {
        return Err(RecFault::Damage);
    };
    take_item_of(alloc, depth, kind, bytes, at)
}

#[cycle(take)]
#[tactic(auto, using(jsonml_tree::proofs::Trees::trees), unfolding(crate::specs::Reading::item_of))]
fn take_item_of(
    alloc: Global,
    depth: u32,
    kind: u8,
    bytes: &[u8],
    at: usize,
) -> Result<(Tree, usize), RecFault>
    ensures found { Gives (λ r. (tree_view r.0, drop r.1 bytes.now)) result
        (item_of (content_below depth) kind (drop at bytes.now)) }
    ensures next { IfOk result (λ r. r.1 ≤ length bytes.now) }
{
    match kind {
        0 => {
            let Some((text, at)) = take_text(bytes, at) else {
                return Err(RecFault::Damage);
            };
            Ok((Tree::Text(String::from_str(alloc, text)?), at))
        }
        1 => {
            let Some((tag, at)) = take_text(bytes, at) else {
                return Err(RecFault::Damage);
            };
            let tag = String::from_str(alloc, tag)?;
            let (content, at) = take_content_below(alloc, depth, bytes, at)?;
            Ok((Tree::Elem { tag, content }, at))
        }
        _ => Err(RecFault::Damage),
    }
}

#[cycle(take)]
#[tactic(auto, using(crate::specs::Deep::below))]
fn take_content_below(
    alloc: Global,
    depth: u32,
    bytes: &[u8],
    at: usize,
) -> Result<(Content, usize), RecFault>
    ensures found { Gives (λ r. (content_view r.0, drop r.1 bytes.now)) result
        (content_below depth (drop at bytes.now)) }
    ensures next { IfOk result (λ r. r.1 ≤ length bytes.now) }
{
    if depth == 0 {
        return Err(RecFault::Damage);
    }
    take_content(alloc, depth - 1, bytes, at)
}

/// The key value or body at the offset, and the offset behind it.
#[tactic(auto, unfolding(crate::specs::Reading::value_at))]
pub fn take_value(alloc: Global, bytes: &[u8], at: usize) -> Result<(KeyVal, usize), RecFault>
    ensures found { Gives (λ r. (key_view r.0, drop r.1 bytes.now)) result
        (value_at (drop at bytes.now)) }
    ensures next { IfOk result (λ r. r.1 ≤ length bytes.now) }
{
    let Some((kind, at)) = take_u8(bytes, at) else {
        return Err(RecFault::Damage);
    };
    take_value_of(alloc, kind, bytes, at)
}

#[tactic(auto, unfolding(crate::specs::Reading::value_of))]
fn take_value_of(
    alloc: Global,
    kind: u8,
    bytes: &[u8],
    at: usize,
) -> Result<(KeyVal, usize), RecFault>
    ensures found { Gives (λ r. (key_view r.0, drop r.1 bytes.now)) result
        (value_of kind (drop at bytes.now)) }
    ensures next { IfOk result (λ r. r.1 ≤ length bytes.now) }
{
    match kind {
        0 => {
            let Some((scalar, at)) = lend_scalar(bytes, at) else {
                return Err(RecFault::Damage);
            };
            Ok((KeyVal::Scalar(scalar.own(alloc)?), at))
        }
        1 => {
            let (content, at) = take_content(alloc, DEEPEST, bytes, at)?;
            Ok((KeyVal::Content(content), at))
        }
        _ => Err(RecFault::Damage),
    }
}
