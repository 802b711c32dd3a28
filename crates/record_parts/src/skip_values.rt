// Passing over attributes, contents and key values, without memory.
ghost use Rattle.std.specs.Prelude.{◌≡◌, ◌≤◌, length, drop, option_map, IfSome, None};
ghost use Rattle.xa_fields.specs.Reading.{many_at, chain_at};
ghost use Rattle.record_parts.specs.Reading.{attr_at, next_attr, attrs_at, item_at, item_of, content_at, content_below, value_of, value_at};
ghost use Rattle.record_parts.specs.Behind.{behind};

use crate::lent::{is_above, lend_attr, lend_scalar};
use crate::limits::DEEPEST;
use xa_fields::{take_text, take_u8, take_u32};

#[tactic(auto, using(crate::proofs::Skips::skips), unfolding(xa_fields::specs::Reading::chained_at))]
fn skip_attrs(bytes: &[u8], at: usize) -> Option<usize>
    ensures found { option_map (λ n. drop n bytes.now) result
        ≡ behind (attrs_at (drop at bytes.now)) }
    ensures next { IfSome result (λ n. n ≤ length bytes.now) }
{
    let (count, at) = take_u32(bytes, at)?;
    skip_each_attr(count, bytes, at)
}

fn skip_each_attr(count: u32, bytes: &[u8], at: usize) -> Option<usize>
    requires { at ≤ length bytes.now }
    ensures found { option_map (λ n. drop n bytes.now) result
        ≡ behind (chain_at attr_at next_attr None count (drop at bytes.now)) }
    ensures next { IfSome result (λ n. n ≤ length bytes.now) }
{
    let mut at = at;
    let mut last: Option<&str> = None;
    for _ in 0..count {
        let Some((name, _, next)) = lend_attr(bytes, at) else {
            return None;
        };
        if !is_above(last, name) {
            return None;
        }
        last = Some(name);
        at = next;
    }
    Some(at)
}

/// The offset behind the content at the offset, whose elements nest at most so deep.
#[cycle(skip)]
#[tactic(auto, using(crate::proofs::Skips::skips), unfolding(crate::specs::Reading::content_by, xa_fields::specs::Reading::list_at))]
pub fn skip_content(depth: u32, bytes: &[u8], at: usize) -> Option<usize>
    ensures found { option_map (λ n. drop n bytes.now) result
        ≡ behind (content_at depth (drop at bytes.now)) }
    ensures next { IfSome result (λ n. n ≤ length bytes.now) }
{
    let at = skip_attrs(bytes, at)?;
    let (count, at) = take_u32(bytes, at)?;
    skip_items(depth, count, bytes, at)
}

#[cycle(skip)]
fn skip_items(depth: u32, count: u32, bytes: &[u8], at: usize) -> Option<usize>
    requires { at ≤ length bytes.now }
    ensures found { option_map (λ n. drop n bytes.now) result
        ≡ behind (many_at (item_at depth) count (drop at bytes.now)) }
    ensures next { IfSome result (λ n. n ≤ length bytes.now) }
{
    let mut at = at;
    for _ in 0..count {
        at = skip_item(depth, bytes, at)?;
    }
    Some(at)
}

#[cycle(skip)]
fn skip_item(depth: u32, bytes: &[u8], at: usize) -> Option<usize>
    ensures found { option_map (λ n. drop n bytes.now) result
        ≡ behind (item_at depth (drop at bytes.now)) }
    ensures next { IfSome result (λ n. n ≤ length bytes.now) }
{
    let (kind, at) = take_u8(bytes, at)?;
    skip_item_of(depth, kind, bytes, at)
}

#[cycle(skip)]
#[tactic(auto, using(crate::proofs::Skips::skips), unfolding(crate::specs::Reading::item_of))]
fn skip_item_of(depth: u32, kind: u8, bytes: &[u8], at: usize) -> Option<usize>
    ensures found { option_map (λ n. drop n bytes.now) result
        ≡ behind (item_of (content_below depth) kind (drop at bytes.now)) }
    ensures next { IfSome result (λ n. n ≤ length bytes.now) }
{
    match kind {
        0 => {
            let (_, at) = take_text(bytes, at)?;
            Some(at)
        }
        1 => {
            let (_, at) = take_text(bytes, at)?;
            skip_content_below(depth, bytes, at)
        }
        _ => None,
    }
}

#[cycle(skip)]
#[tactic(auto, using(crate::specs::Deep::below))]
fn skip_content_below(depth: u32, bytes: &[u8], at: usize) -> Option<usize>
    ensures found { option_map (λ n. drop n bytes.now) result
        ≡ behind (content_below depth (drop at bytes.now)) }
    ensures next { IfSome result (λ n. n ≤ length bytes.now) }
{
    if depth == 0 {
        return None;
    }
    skip_content(depth - 1, bytes, at)
}

/// The offset behind the key value or body at the offset.
#[tactic(auto, unfolding(crate::specs::Reading::value_at))]
pub fn skip_value(bytes: &[u8], at: usize) -> Option<usize>
    ensures found { option_map (λ n. drop n bytes.now) result
        ≡ behind (value_at (drop at bytes.now)) }
    ensures next { IfSome result (λ n. n ≤ length bytes.now) }
{
    let (kind, at) = take_u8(bytes, at)?;
    skip_value_of(kind, bytes, at)
}

#[tactic(auto, using(crate::proofs::Skips::skips), unfolding(crate::specs::Reading::value_of))]
fn skip_value_of(kind: u8, bytes: &[u8], at: usize) -> Option<usize>
    ensures found { option_map (λ n. drop n bytes.now) result
        ≡ behind (value_of kind (drop at bytes.now)) }
    ensures next { IfSome result (λ n. n ≤ length bytes.now) }
{
    match kind {
        0 => {
            let (_, at) = lend_scalar(bytes, at)?;
            Some(at)
        }
        1 => skip_content(DEEPEST, bytes, at),
        _ => None,
    }
}
