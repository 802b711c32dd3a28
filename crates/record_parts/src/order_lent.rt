// The order of labels and bodies as they stand in bytes, against what a document lends. A comparison ends where it is
// decided.
ghost use Rattle.std.specs.Prelude.{drop, map};
ghost use Rattle.std.specs.Cmp.Lexicographic.{slice_cmp};
ghost use Rattle.jsonml_tree.specs.Data.{PlainContent, content, element};
ghost use Rattle.jsonml_tree.specs.LentAttrs.{lent_attr_view};
ghost use Rattle.jsonml_tree.specs.LentView.{lent_content_view, lent_items_view, lent_tree_view};
ghost use Rattle.jsonml_tree.specs.Order.{attr_cmp, content_cmp, tree_cmp};
ghost use Rattle.keyed_tree.specs.LentView.{lent_val_view};
ghost use Rattle.keyed_tree.specs.Order.{key_cmp, label_cmp};
ghost use Rattle.xa_fields.specs.Reading.{Reader, many_at};
ghost use Rattle.record_parts.specs.Compares.{Compares};
ghost use Rattle.record_parts.specs.Reading.{attr_at, attrs_at, content_at, content_below, item_at, item_of, label_at, value_at, value_of};
ghost use Rattle.record_parts.specs.Shown.{named};

use crate::limits::DEEPEST;
use crate::order_scalars::{order_name, order_scalar, order_text};
use crate::order_values::order_attr;
use jsonml_tree::{LentAttr, LentContent, LentTree};
use keyed_tree::{LentVal, NameView};
use std::borrow::CowStr;
use std::cmp::Ordering;
use std::slice;
use xa_fields::{take_u8, take_u32};

fn order_lent_each_attr(
    bytes: &[u8],
    at: usize,
    count: u32,
    others: &[LentAttr<'_>],
) -> Option<(Ordering, usize)>
    ensures { Compares (λ xs. slice_cmp attr_cmp xs (map lent_attr_view others.now))
        (many_at attr_at count (drop at bytes.now)) bytes.now result }
{
    let mut at = at;
    let mut rest = others.iter();
    for _ in 0..count {
        let Some(other) = rest.next() else {
            return Some((Ordering::Greater, at));
        };
        let Some((order, next)) = order_attr(bytes, at, other.name(), other.value()) else {
            return None;
        };
        if order.is_ne() {
            return Some((order, next));
        }
        at = next;
    }
    if rest.next().is_some() {
        return Some((Ordering::Less, at));
    }
    Some((Ordering::Equal, at))
}

fn order_lent_attrs(bytes: &[u8], at: usize, others: &[LentAttr<'_>]) -> Option<(Ordering, usize)>
    ensures { Compares (λ xs. slice_cmp attr_cmp xs (map lent_attr_view others.now))
        (attrs_at (drop at bytes.now)) bytes.now result }
{
    let Some((count, at)) = take_u32(bytes, at) else {
        return None;
    };
    order_lent_each_attr(bytes, at, count, others)
}

// A text alone is a row of no attributes and one item.
#[cycle(order)]
fn order_lent_content(
    depth: u32,
    bytes: &[u8],
    at: usize,
    other: LentContent<'_, '_>,
) -> Option<(Ordering, usize)>
    ensures { Compares (λ c. content_cmp c (lent_content_view other.entry))
        (content_at depth (drop at bytes.now)) bytes.now result }
{
    match other {
        LentContent::Text(text) => {
            let item = LentTree::Text(CowStr::Borrowed(text));
            order_lent_row(depth, bytes, at, &[], slice::from_ref(&item))
        }
        LentContent::Row(row) => order_lent_row(depth, bytes, at, &row.attrs, &row.items),
    }
}

// The order of the content at the offset, whose elements nest at most so deep, against these attributes and items.
#[cycle(order)]
fn order_lent_row(
    depth: u32,
    bytes: &[u8],
    at: usize,
    attrs: &[LentAttr<'_>],
    items: &[LentTree<'_>],
) -> Option<(Ordering, usize)>
    ensures { Compares
        (λ c. content_cmp c (content (map lent_attr_view attrs.now) (lent_items_view items.now)))
        (content_at depth (drop at bytes.now)) bytes.now result }
{
    let Some((order, at)) = order_lent_attrs(bytes, at, attrs) else {
        return None;
    };
    if order.is_ne() {
        return Some((order, at));
    }
    let Some((count, at)) = take_u32(bytes, at) else {
        return None;
    };
    order_lent_items(depth, bytes, at, count, items)
}

#[cycle(order)]
fn order_lent_items(
    depth: u32,
    bytes: &[u8],
    at: usize,
    count: u32,
    others: &[LentTree<'_>],
) -> Option<(Ordering, usize)>
    ensures { Compares (λ ts. slice_cmp tree_cmp ts (map lent_tree_view others.now))
        (many_at (item_at depth) count (drop at bytes.now)) bytes.now result }
{
    let mut at = at;
    let mut rest = others.iter();
    for _ in 0..count {
        let Some(other) = rest.next() else {
            return Some((Ordering::Greater, at));
        };
        let Some((order, next)) = order_lent_item(depth, bytes, at, other) else {
            return None;
        };
        if order.is_ne() {
            return Some((order, next));
        }
        at = next;
    }
    if rest.next().is_some() {
        return Some((Ordering::Less, at));
    }
    Some((Ordering::Equal, at))
}

#[cycle(order)]
fn order_lent_item(
    depth: u32,
    bytes: &[u8],
    at: usize,
    other: &LentTree<'_>,
) -> Option<(Ordering, usize)>
    ensures { Compares (λ t. tree_cmp t (lent_tree_view other.now))
        (item_at depth (drop at bytes.now)) bytes.now result }
{
    let Some((kind, at)) = take_u8(bytes, at) else {
        return None;
    };
    match kind {
        0 => order_lent_text_item(bytes, at, other),
        1 => order_lent_element(depth, bytes, at, other),
        _ => None,
    }
}

// Whatever reads the content of an element, a text has none.
fn order_lent_text_item(bytes: &[u8], at: usize, other: &LentTree<'_>) -> Option<(Ordering, usize)>
    ensures { (inner : Reader PlainContent) → Compares (λ t. tree_cmp t (lent_tree_view other.now))
        (item_of inner 0 (drop at bytes.now)) bytes.now result }
{
    match other {
        LentTree::Text(other) => order_text(bytes, at, other.as_str()),
        LentTree::Leaf { .. } => Some((Ordering::Less, at)),
        LentTree::Elem { .. } => Some((Ordering::Less, at)),
    }
}

#[cycle(order)]
fn order_lent_element(
    depth: u32,
    bytes: &[u8],
    at: usize,
    other: &LentTree<'_>,
) -> Option<(Ordering, usize)>
    ensures { Compares (λ t. tree_cmp t (lent_tree_view other.now))
        (item_of (content_below depth) 1 (drop at bytes.now)) bytes.now result }
{
    match other {
        LentTree::Text(_) => Some((Ordering::Greater, at)),
        LentTree::Leaf { tag, text } => {
            let content = LentContent::Text(text.as_str());
            order_lent_inside(depth, bytes, at, tag.as_str(), content)
        }
        LentTree::Elem { tag, row } => {
            order_lent_inside(depth, bytes, at, tag.as_str(), LentContent::Row(row))
        }
    }
}

#[cycle(order)]
fn order_lent_inside(
    depth: u32,
    bytes: &[u8],
    at: usize,
    tag: &str,
    content: LentContent<'_, '_>,
) -> Option<(Ordering, usize)>
    ensures { Compares (λ t. tree_cmp t (element tag.now (lent_content_view content.entry)))
        (item_of (content_below depth) 1 (drop at bytes.now)) bytes.now result }
{
    let Some((order, at)) = order_text(bytes, at, tag) else {
        return None;
    };
    if order.is_ne() {
        return Some((order, at));
    }
    order_lent_below(depth, bytes, at, content)
}

#[cycle(order)]
fn order_lent_below(
    depth: u32,
    bytes: &[u8],
    at: usize,
    other: LentContent<'_, '_>,
) -> Option<(Ordering, usize)>
    ensures { Compares (λ c. content_cmp c (lent_content_view other.entry))
        (content_below depth (drop at bytes.now)) bytes.now result }
{
    if depth == 0 {
        return None;
    }
    order_lent_content(depth - 1, bytes, at, other)
}

/// The order of the key value at the offset, and, if it is equal, the offset behind it.
pub fn order_lent_value(
    bytes: &[u8],
    at: usize,
    other: LentVal<'_, '_>,
) -> Option<(Ordering, usize)>
    ensures { Compares (λ k. key_cmp k (lent_val_view other.entry))
        (value_at (drop at bytes.now)) bytes.now result }
{
    let Some((kind, at)) = take_u8(bytes, at) else {
        return None;
    };
    match kind {
        0 => order_lent_scalar_value(bytes, at, other),
        1 => order_lent_content_value(bytes, at, other),
        _ => None,
    }
}

fn order_lent_scalar_value(
    bytes: &[u8],
    at: usize,
    other: LentVal<'_, '_>,
) -> Option<(Ordering, usize)>
    ensures { Compares (λ k. key_cmp k (lent_val_view other.entry))
        (value_of 0 (drop at bytes.now)) bytes.now result }
{
    match other {
        LentVal::Scalar(other) => order_scalar(bytes, at, other),
        LentVal::Content(_) => Some((Ordering::Less, at)),
    }
}

fn order_lent_content_value(
    bytes: &[u8],
    at: usize,
    other: LentVal<'_, '_>,
) -> Option<(Ordering, usize)>
    ensures { Compares (λ k. key_cmp k (lent_val_view other.entry))
        (value_of 1 (drop at bytes.now)) bytes.now result }
{
    match other {
        LentVal::Scalar(_) => Some((Ordering::Greater, at)),
        LentVal::Content(other) => order_lent_content(DEEPEST, bytes, at, other),
    }
}

fn order_lent_keys(
    bytes: &[u8],
    at: usize,
    count: u32,
    others: &[LentVal<'_, '_>],
) -> Option<(Ordering, usize)>
    ensures { Compares (λ ks. slice_cmp key_cmp ks (map lent_val_view others.now))
        (many_at value_at count (drop at bytes.now)) bytes.now result }
{
    let mut at = at;
    let mut rest = others.iter();
    for _ in 0..count {
        let Some(other) = rest.next() else {
            return Some((Ordering::Greater, at));
        };
        let Some((order, next)) = order_lent_value(bytes, at, *other) else {
            return None;
        };
        if order.is_ne() {
            return Some((order, next));
        }
        at = next;
    }
    if rest.next().is_some() {
        return Some((Ordering::Less, at));
    }
    Some((Ordering::Equal, at))
}

/// The order of the label at the offset, and, if it is equal, the offset behind it.
pub fn order_lent_label(
    bytes: &[u8],
    at: usize,
    name: NameView<'_>,
    keys: &[LentVal<'_, '_>],
) -> Option<(Ordering, usize)>
    ensures { Compares (λ l. label_cmp l (named name.entry keys.now))
        (label_at (drop at bytes.now)) bytes.now result }
{
    let Some((order, at)) = order_name(bytes, at, name) else {
        return None;
    };
    if order.is_ne() {
        return Some((order, at));
    }
    let Some((count, at)) = take_u32(bytes, at) else {
        return None;
    };
    order_lent_keys(bytes, at, count, keys)
}
