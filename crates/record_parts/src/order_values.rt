// The order of attributes, contents and key values as they stand in bytes. A comparison ends where
// it is decided.
ghost use Rattle.std.specs.Prelude.{drop, map};
ghost use Rattle.std.specs.Cmp.Lexicographic.{slice_cmp};
ghost use Rattle.jsonml_tree.specs.Data.{PlainContent, text, element};
ghost use Rattle.jsonml_tree.specs.LentAttrs.{lent_scalar_view};
ghost use Rattle.jsonml_tree.specs.Order.{attr_cmp, tree_cmp, content_cmp};
ghost use Rattle.jsonml_tree.specs.View.{attr_view, tree_view, content_view};
ghost use Rattle.keyed_tree.specs.Order.{key_cmp};
ghost use Rattle.keyed_tree.specs.View.{key_view};
ghost use Rattle.xa_fields.specs.Reading.{Reader, many_at};
ghost use Rattle.record_parts.specs.Reading.{attr_at, attrs_at, item_at, item_of, content_at, content_below, value_of, value_at};
ghost use Rattle.record_parts.specs.Compares.{Compares};

use crate::limits::DEEPEST;
use crate::order_scalars::{order_scalar, order_text};
use jsonml_tree::{Attr, Content, LentScalar, Tree};
use keyed_tree::KeyVal;
use std::cmp::Ordering;
use xa_fields::{take_u8, take_u32};

/// The order of the attribute at the offset, and, if it is equal, the offset behind it.
pub fn order_attr(
    bytes: &[u8],
    at: usize,
    name: &str,
    value: LentScalar<'_>,
) -> Option<(Ordering, usize)>
    ensures { Compares
        (λ a. attr_cmp a (record { name = name.now; value = lent_scalar_view value.entry }))
        (attr_at (drop at bytes.now)) bytes.now result }
{
    let Some((order, at)) = order_text(bytes, at, name) else {
        return None;
    };
    if order.is_ne() {
        return Some((order, at));
    }
    order_scalar(bytes, at, value)
}

fn order_each_attr(
    bytes: &[u8],
    at: usize,
    count: u32,
    others: &[Attr],
) -> Option<(Ordering, usize)>
    ensures { Compares (λ xs. slice_cmp attr_cmp xs (map attr_view others.now))
        (many_at attr_at count (drop at bytes.now)) bytes.now result }
{
    let mut at = at;
    let mut rest = others;
    for _ in 0..count {
        let Some((other, tail)) = rest.split_first() else {
            return Some((Ordering::Greater, at));
        };
        let (name, value) = (other.name.as_str(), other.value.lend());
        let Some((order, next)) = order_attr(bytes, at, name, value) else {
            return None;
        };
        if order.is_ne() {
            return Some((order, next));
        }
        at = next;
        rest = tail;
    }
    if rest.is_empty() {
        return Some((Ordering::Equal, at));
    }
    Some((Ordering::Less, at))
}

fn order_attrs(bytes: &[u8], at: usize, others: &[Attr]) -> Option<(Ordering, usize)>
    ensures { Compares (λ xs. slice_cmp attr_cmp xs (map attr_view others.now))
        (attrs_at (drop at bytes.now)) bytes.now result }
{
    let Some((count, at)) = take_u32(bytes, at) else {
        return None;
    };
    order_each_attr(bytes, at, count, others)
}

/// The order of the content at the offset, whose elements nest at most so deep, and, if it is
/// equal, the offset behind it.
#[cycle(order)]
fn order_content(depth: u32, bytes: &[u8], at: usize, other: &Content) -> Option<(Ordering, usize)>
    ensures { Compares (λ c. content_cmp c (content_view other.now))
        (content_at depth (drop at bytes.now)) bytes.now result }
{
    let Some((order, at)) = order_attrs(bytes, at, &other.attrs) else {
        return None;
    };
    if order.is_ne() {
        return Some((order, at));
    }
    let Some((count, at)) = take_u32(bytes, at) else {
        return None;
    };
    order_items(depth, bytes, at, count, &other.items)
}

#[cycle(order)]
fn order_items(
    depth: u32,
    bytes: &[u8],
    at: usize,
    count: u32,
    others: &[Tree],
) -> Option<(Ordering, usize)>
    ensures { Compares (λ ts. slice_cmp tree_cmp ts (map tree_view others.now))
        (many_at (item_at depth) count (drop at bytes.now)) bytes.now result }
{
    let mut at = at;
    let mut rest = others;
    for _ in 0..count {
        let Some((other, tail)) = rest.split_first() else {
            return Some((Ordering::Greater, at));
        };
        let Some((order, next)) = order_item(depth, bytes, at, other) else {
            return None;
        };
        if order.is_ne() {
            return Some((order, next));
        }
        at = next;
        rest = tail;
    }
    if rest.is_empty() {
        return Some((Ordering::Equal, at));
    }
    Some((Ordering::Less, at))
}

#[cycle(order)]
fn order_item(depth: u32, bytes: &[u8], at: usize, other: &Tree) -> Option<(Ordering, usize)>
    ensures { Compares (λ t. tree_cmp t (tree_view other.now))
        (item_at depth (drop at bytes.now)) bytes.now result }
{
    let Some((kind, at)) = take_u8(bytes, at) else {
        return None;
    };
    match kind {
        0 => order_text_item(bytes, at, other),
        1 => order_element(depth, bytes, at, other),
        _ => None,
    }
}

// Whatever reads the content of an element, a text has none.
fn order_text_item(bytes: &[u8], at: usize, other: &Tree) -> Option<(Ordering, usize)>
    ensures { (inner : Reader PlainContent) → Compares (λ t. tree_cmp t (tree_view other.now))
        (item_of inner 0 (drop at bytes.now)) bytes.now result }
{
    match other {
        Tree::Text(other) => order_text(bytes, at, other.as_str()),
        Tree::Elem { .. } => Some((Ordering::Less, at)),
    }
}

#[cycle(order)]
fn order_element(depth: u32, bytes: &[u8], at: usize, other: &Tree) -> Option<(Ordering, usize)>
    ensures { Compares (λ t. tree_cmp t (tree_view other.now))
        (item_of (content_below depth) 1 (drop at bytes.now)) bytes.now result }
{
    match other {
        Tree::Text(_) => Some((Ordering::Greater, at)),
        Tree::Elem { tag, content } => {
            let Some((order, at)) = order_text(bytes, at, tag.as_str()) else {
                return None;
            };
            if order.is_ne() {
                return Some((order, at));
            }
            order_content_below(depth, bytes, at, content)
        }
    }
}

#[cycle(order)]
fn order_content_below(
    depth: u32,
    bytes: &[u8],
    at: usize,
    other: &Content,
) -> Option<(Ordering, usize)>
    ensures { Compares (λ c. content_cmp c (content_view other.now))
        (content_below depth (drop at bytes.now)) bytes.now result }
{
    if depth == 0 {
        return None;
    }
    order_content(depth - 1, bytes, at, other)
}

/// The order of the key value at the offset, and, if it is equal, the offset behind it.
pub fn order_value(bytes: &[u8], at: usize, other: &KeyVal) -> Option<(Ordering, usize)>
    ensures { Compares (λ k. key_cmp k (key_view other.now))
        (value_at (drop at bytes.now)) bytes.now result }
{
    let Some((kind, at)) = take_u8(bytes, at) else {
        return None;
    };
    match kind {
        0 => order_scalar_value(bytes, at, other),
        1 => order_content_value(bytes, at, other),
        _ => None,
    }
}

fn order_scalar_value(bytes: &[u8], at: usize, other: &KeyVal) -> Option<(Ordering, usize)>
    ensures { Compares (λ k. key_cmp k (key_view other.now))
        (value_of 0 (drop at bytes.now)) bytes.now result }
{
    match other {
        KeyVal::Scalar(other) => order_scalar(bytes, at, other.lend()),
        KeyVal::Content(_) => Some((Ordering::Less, at)),
    }
}

fn order_content_value(bytes: &[u8], at: usize, other: &KeyVal) -> Option<(Ordering, usize)>
    ensures { Compares (λ k. key_cmp k (key_view other.now))
        (value_of 1 (drop at bytes.now)) bytes.now result }
{
    match other {
        KeyVal::Scalar(_) => Some((Ordering::Greater, at)),
        KeyVal::Content(other) => order_content(DEEPEST, bytes, at, other),
    }
}
