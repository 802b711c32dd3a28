// The order of labels where both stand in bytes. A comparison ends where it is decided, and takes no longer than the shorter
// of both labels: a text is compared by its bytes, and whether they are UTF-8 is not looked at.
ghost use Rattle.std.specs.Prelude.{drop};
ghost use Rattle.std.specs.Cmp.Lexicographic.{slice_cmp};
ghost use Rattle.jsonml_tree.specs.Order.{attr_cmp, content_cmp, scalar_cmp, text_cmp, tree_cmp};
ghost use Rattle.keyed_tree.specs.Order.{key_cmp, label_cmp, name_cmp};
ghost use Rattle.xa_fields.specs.Reading.{many_at, text_at};
ghost use Rattle.record_parts.specs.Compares.{ComparesBoth};
ghost use Rattle.record_parts.specs.Reading.{attr_at, attrs_at, content_at, content_below, item_at, item_of, label_at, name_at, scalar_at, scalar_of, value_at};

use crate::lent::scalar_of_kind;
use crate::limits::DEEPEST;
use crate::order_scalars::{order_scalar, text_slice};
use std::cmp::Ordering;
use xa_fields::{take_u8, take_u32};

// The order of a value at an offset of some bytes and one at an offset of others, and, if it is
// equal, the offsets behind both.
type Met = Option<(Ordering, usize, usize)>;

fn both_text(ours: &[u8], at: usize, theirs: &[u8], there: usize) -> Met
    ensures { ComparesBoth text_cmp (text_at (drop at ours.now)) (text_at (drop there theirs.now))
        ours.now theirs.now result }
{
    let Some((text, at)) = text_slice(ours, at) else {
        return None;
    };
    let Some((other, there)) = text_slice(theirs, there) else {
        return None;
    };
    Some((text.cmp(other), at, there))
}

fn both_scalar(ours: &[u8], at: usize, theirs: &[u8], there: usize) -> Met
    ensures { ComparesBoth scalar_cmp (scalar_at (drop at ours.now))
        (scalar_at (drop there theirs.now)) ours.now theirs.now result }
{
    let Some((kind, behind)) = take_u8(theirs, there) else {
        return None;
    };
    if kind == 5 {
        return both_text_scalar(ours, at, theirs, behind);
    }
    let Some((other, there)) = scalar_of_kind(kind, theirs, behind) else {
        return None;
    };
    let Some((order, at)) = order_scalar(ours, at, other) else {
        return None;
    };
    Some((order, at, there))
}

// A scalar against a text, behind the byte of whose kind the other offset is.
fn both_text_scalar(ours: &[u8], at: usize, theirs: &[u8], there: usize) -> Met
    ensures { ComparesBoth scalar_cmp (scalar_at (drop at ours.now))
        (scalar_of 5 (drop there theirs.now)) ours.now theirs.now result }
{
    let Some((kind, at)) = take_u8(ours, at) else {
        return None;
    };
    if kind == 5 {
        return both_text(ours, at, theirs, there);
    }
    Some((Ordering::Less, at, there))
}

fn both_attr(ours: &[u8], at: usize, theirs: &[u8], there: usize) -> Met
    ensures { ComparesBoth attr_cmp (attr_at (drop at ours.now)) (attr_at (drop there theirs.now))
        ours.now theirs.now result }
{
    let Some((order, at, there)) = both_text(ours, at, theirs, there) else {
        return None;
    };
    if order.is_ne() {
        return Some((order, at, there));
    }
    both_scalar(ours, at, theirs, there)
}

fn both_each_attr(
    ours: &[u8],
    at: usize,
    count: u32,
    theirs: &[u8],
    there: usize,
    others: u32,
) -> Met
    ensures { ComparesBoth (slice_cmp attr_cmp) (many_at attr_at count (drop at ours.now))
        (many_at attr_at others (drop there theirs.now)) ours.now theirs.now result }
{
    let mut at = at;
    let mut there = there;
    let shorter = count.min(others);
    for _ in 0..shorter {
        let Some((order, next, behind)) = both_attr(ours, at, theirs, there) else {
            return None;
        };
        if order.is_ne() {
            return Some((order, next, behind));
        }
        at = next;
        there = behind;
    }
    Some((count.cmp(&others), at, there))
}

fn both_attrs(ours: &[u8], at: usize, theirs: &[u8], there: usize) -> Met
    ensures { ComparesBoth (slice_cmp attr_cmp) (attrs_at (drop at ours.now))
        (attrs_at (drop there theirs.now)) ours.now theirs.now result }
{
    let Some((count, at)) = take_u32(ours, at) else {
        return None;
    };
    let Some((others, there)) = take_u32(theirs, there) else {
        return None;
    };
    both_each_attr(ours, at, count, theirs, there, others)
}

// The order of contents whose elements nest at most so deep.
#[cycle(both)]
fn both_content(depth: u32, ours: &[u8], at: usize, theirs: &[u8], there: usize) -> Met
    ensures { ComparesBoth content_cmp (content_at depth (drop at ours.now))
        (content_at depth (drop there theirs.now)) ours.now theirs.now result }
{
    let Some((order, at, there)) = both_attrs(ours, at, theirs, there) else {
        return None;
    };
    if order.is_ne() {
        return Some((order, at, there));
    }
    let Some((count, at)) = take_u32(ours, at) else {
        return None;
    };
    let Some((others, there)) = take_u32(theirs, there) else {
        return None;
    };
    both_items(depth, ours, at, count, theirs, there, others)
}

#[cycle(both)]
fn both_items(
    depth: u32,
    ours: &[u8],
    at: usize,
    count: u32,
    theirs: &[u8],
    there: usize,
    others: u32,
) -> Met
    ensures { ComparesBoth (slice_cmp tree_cmp) (many_at (item_at depth) count (drop at ours.now))
        (many_at (item_at depth) others (drop there theirs.now)) ours.now theirs.now result }
{
    let mut at = at;
    let mut there = there;
    let shorter = count.min(others);
    for _ in 0..shorter {
        let Some((order, next, behind)) = both_item(depth, ours, at, theirs, there) else {
            return None;
        };
        if order.is_ne() {
            return Some((order, next, behind));
        }
        at = next;
        there = behind;
    }
    Some((count.cmp(&others), at, there))
}

#[cycle(both)]
fn both_item(depth: u32, ours: &[u8], at: usize, theirs: &[u8], there: usize) -> Met
    ensures { ComparesBoth tree_cmp (item_at depth (drop at ours.now))
        (item_at depth (drop there theirs.now)) ours.now theirs.now result }
{
    let Some((kind, at)) = take_u8(ours, at) else {
        return None;
    };
    let Some((other, there)) = take_u8(theirs, there) else {
        return None;
    };
    match (kind, other) {
        (0, 0) => both_text(ours, at, theirs, there),
        (0, 1) => Some((Ordering::Less, at, there)),
        (1, 0) => Some((Ordering::Greater, at, there)),
        (1, 1) => both_element(depth, ours, at, theirs, there),
        _ => None,
    }
}

#[cycle(both)]
fn both_element(depth: u32, ours: &[u8], at: usize, theirs: &[u8], there: usize) -> Met
    ensures { ComparesBoth tree_cmp (item_of (content_below depth) 1 (drop at ours.now))
        (item_of (content_below depth) 1 (drop there theirs.now)) ours.now theirs.now result }
{
    let Some((order, at, there)) = both_text(ours, at, theirs, there) else {
        return None;
    };
    if order.is_ne() {
        return Some((order, at, there));
    }
    both_content_below(depth, ours, at, theirs, there)
}

#[cycle(both)]
fn both_content_below(depth: u32, ours: &[u8], at: usize, theirs: &[u8], there: usize) -> Met
    ensures { ComparesBoth content_cmp (content_below depth (drop at ours.now))
        (content_below depth (drop there theirs.now)) ours.now theirs.now result }
{
    if depth == 0 {
        return None;
    }
    both_content(depth - 1, ours, at, theirs, there)
}

fn both_value(ours: &[u8], at: usize, theirs: &[u8], there: usize) -> Met
    ensures { ComparesBoth key_cmp (value_at (drop at ours.now)) (value_at (drop there theirs.now))
        ours.now theirs.now result }
{
    let Some((kind, at)) = take_u8(ours, at) else {
        return None;
    };
    let Some((other, there)) = take_u8(theirs, there) else {
        return None;
    };
    match (kind, other) {
        (0, 0) => both_scalar(ours, at, theirs, there),
        (0, 1) => Some((Ordering::Less, at, there)),
        (1, 0) => Some((Ordering::Greater, at, there)),
        (1, 1) => both_content(DEEPEST, ours, at, theirs, there),
        _ => None,
    }
}

fn both_keys(ours: &[u8], at: usize, count: u32, theirs: &[u8], there: usize, others: u32) -> Met
    ensures { ComparesBoth (slice_cmp key_cmp) (many_at value_at count (drop at ours.now))
        (many_at value_at others (drop there theirs.now)) ours.now theirs.now result }
{
    let mut at = at;
    let mut there = there;
    let shorter = count.min(others);
    for _ in 0..shorter {
        let Some((order, next, behind)) = both_value(ours, at, theirs, there) else {
            return None;
        };
        if order.is_ne() {
            return Some((order, next, behind));
        }
        at = next;
        there = behind;
    }
    Some((count.cmp(&others), at, there))
}

fn both_name(ours: &[u8], at: usize, theirs: &[u8], there: usize) -> Met
    ensures { ComparesBoth name_cmp (name_at (drop at ours.now)) (name_at (drop there theirs.now))
        ours.now theirs.now result }
{
    let Some((kind, at)) = take_u8(ours, at) else {
        return None;
    };
    let Some((other, there)) = take_u8(theirs, there) else {
        return None;
    };
    match (kind, other) {
        (0, 0) => both_text(ours, at, theirs, there),
        (0, 1) => Some((Ordering::Less, at, there)),
        (1, 0) => Some((Ordering::Greater, at, there)),
        (1, 1) => both_text(ours, at, theirs, there),
        _ => None,
    }
}

/// The order of the label at an offset of some bytes and one at an offset of others.
pub fn both_label(ours: &[u8], at: usize, theirs: &[u8], there: usize) -> Met
    ensures { ComparesBoth label_cmp (label_at (drop at ours.now)) (label_at (drop there theirs.now))
        ours.now theirs.now result }
{
    let Some((order, at, there)) = both_name(ours, at, theirs, there) else {
        return None;
    };
    if order.is_ne() {
        return Some((order, at, there));
    }
    let Some((count, at)) = take_u32(ours, at) else {
        return None;
    };
    let Some((others, there)) = take_u32(theirs, there) else {
        return None;
    };
    both_keys(ours, at, count, theirs, there, others)
}
