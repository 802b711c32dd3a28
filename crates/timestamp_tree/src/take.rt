// Reading the intervals of a set.
ghost use Rattle.std.specs.Prelude.{◌≡◌, ◌≤◌, ◌++◌, ◌∷◌, ◌||◌, [], length, drop, option_map, Some, None, IfOk, IfSome, IsTrue, if◌then◌else◌};
ghost use Rattle.version_set.specs.Members.{has, members, numbers};
ghost use Rattle.version_set.specs.View.{pairs_of};
ghost use Rattle.version_set.specs.Walk.{end_of};
ghost use Rattle.xa_fields.specs.Reading.{chain_at};
ghost use Rattle.timestamp_tree.specs.Reading.{pair_at, next_pair};

use std::alloc::{AllocError, Global};
use version_set::VersionSet;
use xa_fields::take_u32;

/// The interval at the offset, and the offset behind it.
#[tactic(auto, unfolding(xa_fields::specs::Reading::both_at))]
pub fn lend_pair(bytes: &[u8], at: usize) -> Option<((u32, u32), usize)>
    ensures found { option_map (λ r. (r.0, drop r.1 bytes.now)) result
        ≡ pair_at (drop at bytes.now) }
    ensures next { IfSome result (λ r. r.1 ≤ length bytes.now) }
{
    let (from, at) = take_u32(bytes, at)?;
    let (to, at) = take_u32(bytes, at)?;
    Some(((from, to), at))
}

/// The set of so many intervals at the offset, of numbers up to `most`, and the offset behind it.
pub fn take_pairs(
    alloc: Global,
    bytes: &[u8],
    at: usize,
    count: u32,
    most: u32,
) -> Result<Option<(VersionSet, usize)>, AllocError>
    requires { at ≤ length bytes.now }
    ensures found { IfOk result (λ r. option_map (λ p. (pairs_of p.0, drop p.1 bytes.now)) r
        ≡ chain_at pair_at (next_pair most) 1 count (drop at bytes.now)) }
    ensures next { IfOk result (λ r. IfSome r (λ p. p.1 ≤ length bytes.now)) }
{
    let mut set = VersionSet::empty(alloc);
    let mut at = at;
    for _ in 0..count {
        let Some((pair, next)) = lend_pair(bytes, at) else {
            return Ok(None);
        };
        if !put_pair(&mut set, pair, most)? {
            return Ok(None);
        }
        at = next;
    }
    Ok(Some((set, at)))
}

/// Adds an interval of numbers up to `most`, and answers whether it may stand there.
fn put_pair(set: &mut VersionSet, pair: (u32, u32), most: u32) -> Result<bool, AllocError>
    ensures next { IfOk result (λ may. next_pair most (end_of (pairs_of set.old)) pair
        ≡ (if may then Some (end_of (pairs_of set.new)) else None)) }
    ensures pairs { IfOk result (λ may.
        IsTrue may → pairs_of set.new ≡ pairs_of set.old ++ pair ∷ []) }
{
    if pair.1 > most {
        return Ok(false);
    }
    set.push_pair(pair)
}

/// Whether a number is in the set of so many intervals at the offset, of numbers up to `most`; None
/// where no such set stands there. It goes over the intervals once, and takes no memory.
pub fn pairs_contain(bytes: &[u8], at: usize, count: u32, most: u32, number: u32) -> Option<bool>
    ensures { result ≡ option_map (λ p. has (members p.0) number)
        (chain_at pair_at (next_pair most) 1 count (drop at bytes.now)) }
{
    let mut at = at;
    let mut low = 1;
    let mut found = false;
    for _ in 0..count {
        let Some((pair, next)) = lend_pair(bytes, at) else {
            return None;
        };
        let Some(behind) = low_behind(low, pair, most) else {
            return None;
        };
        found = found_in(found, pair, number);
        low = behind;
        at = next;
    }
    Some(found)
}

/// Where an interval may begin behind this one, which begins at `low` or later.
fn low_behind(low: u64, pair: (u32, u32), most: u32) -> Option<u64>
    ensures { result ≡ next_pair most low pair }
{
    if low <= u64::from(pair.0) && pair.0 <= pair.1 && pair.1 <= most {
        Some(u64::from(pair.1) + 2)
    } else {
        None
    }
}

/// Whether the number was found, or is in this interval.
fn found_in(found: bool, pair: (u32, u32), number: u32) -> bool
    ensures { result ≡ (found || has (numbers pair) number) }
{
    found || (pair.0 <= number && number <= pair.1)
}
