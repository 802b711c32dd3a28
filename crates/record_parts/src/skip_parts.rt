// Passing over labels, sets and timestamps, without memory.
ghost use Rattle.std.specs.Prelude.{◌≡◌, ◌≤◌, length, drop, option_map, IfSome};
ghost use Rattle.xa_fields.specs.Reading.{many_at, chain_at};
ghost use Rattle.record_parts.specs.Bounds.{most};
ghost use Rattle.record_parts.specs.Reading.{value_at, label_at, stamp_of, stamp_at};
ghost use Rattle.timestamp_tree.specs.Reading.{pair_at, next_pair};
ghost use Rattle.record_parts.specs.Behind.{behind};

use crate::lent::lend_name;
use crate::limits::MOST_VERSIONS;
use crate::skip_values::skip_value;
use timestamp_tree::lend_pair;
use xa_fields::{take_u8, take_u32};

/// The offset behind the label at the offset.
#[tactic(auto, using(crate::proofs::Skips::skips), unfolding(crate::specs::Reading::label_at, xa_fields::specs::Reading::list_at))]
pub fn skip_label(bytes: &[u8], at: usize) -> Option<usize>
    ensures found { option_map (λ n. drop n bytes.now) result
        ≡ behind (label_at (drop at bytes.now)) }
    ensures next { IfSome result (λ n. n ≤ length bytes.now) }
{
    let (_, at) = lend_name(bytes, at)?;
    let (count, at) = take_u32(bytes, at)?;
    skip_values(count, bytes, at)
}

fn skip_values(count: u32, bytes: &[u8], at: usize) -> Option<usize>
    requires { at ≤ length bytes.now }
    ensures found { option_map (λ n. drop n bytes.now) result
        ≡ behind (many_at value_at count (drop at bytes.now)) }
    ensures next { IfSome result (λ n. n ≤ length bytes.now) }
{
    let mut at = at;
    for _ in 0..count {
        at = skip_value(bytes, at)?;
    }
    Some(at)
}

/// Where the interval behind this one may begin, if this one may begin at `low`.
fn next_low(low: u32, pair: (u32, u32)) -> Option<u32>
    ensures { result ≡ next_pair most low pair }
{
    if low <= pair.0 && pair.0 <= pair.1 && pair.1 <= MOST_VERSIONS {
        Some(pair.1 + 2)
    } else {
        None
    }
}

fn skip_pairs(count: u32, bytes: &[u8], at: usize) -> Option<usize>
    requires { at ≤ length bytes.now }
    ensures found { option_map (λ n. drop n bytes.now) result
        ≡ behind (chain_at pair_at (next_pair most) 1 count (drop at bytes.now)) }
    ensures next { IfSome result (λ n. n ≤ length bytes.now) }
{
    let mut at = at;
    let mut low = 1;
    for _ in 0..count {
        let Some((pair, next)) = lend_pair(bytes, at) else {
            return None;
        };
        let Some(behind) = next_low(low, pair) else {
            return None;
        };
        low = behind;
        at = next;
    }
    Some(at)
}

/// The offset behind the timestamp at the offset.
#[tactic(auto, unfolding(crate::specs::Reading::stamp_at))]
pub fn skip_stamp(bytes: &[u8], at: usize) -> Option<usize>
    ensures found { option_map (λ n. drop n bytes.now) result
        ≡ behind (stamp_at (drop at bytes.now)) }
    ensures next { IfSome result (λ n. n ≤ length bytes.now) }
{
    let (kind, at) = take_u8(bytes, at)?;
    skip_stamp_of(kind, bytes, at)
}

#[tactic(auto, unfolding(crate::specs::Reading::stamp_of))]
fn skip_stamp_of(kind: u8, bytes: &[u8], at: usize) -> Option<usize>
    requires { at ≤ length bytes.now }
    ensures found { option_map (λ n. drop n bytes.now) result
        ≡ behind (stamp_of kind (drop at bytes.now)) }
    ensures next { IfSome result (λ n. n ≤ length bytes.now) }
{
    match kind {
        0 => Some(at),
        1 => skip_some_set(bytes, at),
        _ => None,
    }
}

#[tactic(auto, using(crate::proofs::Skips::skips), unfolding(crate::specs::Reading::stamp_of, xa_fields::specs::Reading::chained_at))]
fn skip_some_set(bytes: &[u8], at: usize) -> Option<usize>
    requires { at ≤ length bytes.now }
    ensures found { option_map (λ n. drop n bytes.now) result
        ≡ behind (stamp_of 1 (drop at bytes.now)) }
    ensures next { IfSome result (λ n. n ≤ length bytes.now) }
{
    let (count, at) = take_u32(bytes, at)?;
    if count == 0 {
        return None;
    }
    skip_pairs(count, bytes, at)
}
