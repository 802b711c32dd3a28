// Work on lists of intervals.
ghost use Rattle.std.specs.Prelude.{◌≡◌, ℕ, ◌+◌, ◌≤◌, ◌<◌, ◌++◌, [], ◌∷◌, ◌↔◌, IsTrue, IsOk, IfOk, OnOk, OnErr, max, map, length, pos, ◌+ℤ◌};
ghost use Rattle.version_set.specs.Pairs.{IsCanonical, last_of};
ghost use Rattle.version_set.specs.Members.{members, has, moved, moved_pair, IsVersion};
ghost use Rattle.version_set.specs.Walk.{start_of, end_of, Joins, Shares, IsUnion, IsMeet};
ghost use Rattle.smallvec.specs.SmallVec.{HasRoomFor, small_vec_len};

use smallvec::SmallVec;
use std::alloc::{AllocError, Global};

/// Two intervals lie in the value itself.
pub type Pairs = SmallVec<(u32, u32), 2>;

/// The greatest number, 0 where there is none.
pub fn last_in(pairs: &[(u32, u32)]) -> u32
    ensures { result ≡ last_of pairs.now }
{
    match pairs {
        [.., (_, to)] => *to,
        [] => 0,
    }
}

/// How many intervals there are, of which each ends behind the one before it.
pub fn count_of(pairs: &[(u32, u32)]) -> u32
    requires { IsCanonical pairs.now }
    ensures { result ≡ length pairs.now }
{
    let last = last_in(pairs);
    prove!(pairs.len() <= last as usize);
    pairs.len() as u32
}

/// Where the next interval may begin.
fn next_low(pairs: &[(u32, u32)]) -> u64
    ensures { result ≡ end_of pairs.now }
{
    match pairs {
        [.., (_, to)] => u64::from(*to) + 2,
        [] => 1,
    }
}

/// Whether the interval may stand behind these.
pub fn may_follow(pairs: &[(u32, u32)], pair: (u32, u32)) -> bool
    requires { IsCanonical pairs.now }
    ensures { IsTrue result ↔ IsCanonical (pairs.now ++ pair ∷ []) }
{
    next_low(pairs) <= u64::from(pair.0) && pair.0 <= pair.1
}

/// Adds an interval that begins behind the others, and joins it to the last one where they touch.
/// It takes memory only where they do not, and on a refusal nothing changes.
pub fn put_last(pairs: &mut Pairs, pair: (u32, u32)) -> Result<(), AllocError>
    requires canonical { IsCanonical pairs.old.items }
    requires behind { start_of pairs.old.items ≤ pair.0 }
    requires order { pair.0 ≤ pair.1 }
    ensures joins { OnOk result (Joins pairs.old.items pair pairs.new.items) }
    ensures len { small_vec_len pairs.new ≤ small_vec_len pairs.old + 1 }
    ensures succeeds { HasRoomFor pairs.old 1 → IsOk result }
    ensures capacity { HasRoomFor pairs.old 1 → pairs.new.capacity ≡ pairs.old.capacity }
    ensures err { OnErr result (pairs.new.items ≡ pairs.old.items) }
{
    prove!(pairs.len() <= pairs.capacity());
    match pairs.pop() {
        Some((from, to)) if pair.0 - 1 <= to => pairs.push_reserved((from, to.max(pair.1))),
        Some(last) => {
            pairs.push_reserved(last);
            pairs.push(pair)?;
        }
        None => pairs.push(pair)?,
    }
    Ok(())
}

/// The intervals of the numbers that are in either, where they touch as one.
pub fn unite(alloc: Global, ours: &[(u32, u32)], theirs: &[(u32, u32)]) -> Result<Pairs, AllocError>
    requires ours { IsCanonical ours.now }
    requires theirs { IsCanonical theirs.now }
    ensures canonical { IfOk result (λ v. IsCanonical v.items) }
    ensures numbers { IfOk result (λ v. IsUnion ours.now theirs.now v.items) }
{
    let mut all = SmallVec::new(alloc);
    put_union(&mut all, ours, theirs)?;
    Ok(all)
}

fn put_union(all: &mut Pairs, ours: &[(u32, u32)], theirs: &[(u32, u32)]) -> Result<(), AllocError>
    requires empty { all.old.items ≡ [] }
    requires ours { IsCanonical ours.now }
    requires theirs { IsCanonical theirs.now }
    ensures canonical { OnOk result (IsCanonical all.new.items) }
    ensures numbers { OnOk result (IsUnion ours.now theirs.now all.new.items) }
{
    let (mut i, mut j) = (0, 0);
    loop {
        match (ours.get(i), theirs.get(j)) {
            (Some(our), Some(their)) => {
                if our.0 <= their.0 {
                    put_last(all, *our)?;
                    i += 1;
                } else {
                    put_last(all, *their)?;
                    j += 1;
                }
            }
            (Some(our), None) => {
                put_last(all, *our)?;
                i += 1;
            }
            (None, Some(their)) => {
                put_last(all, *their)?;
                j += 1;
            }
            (None, None) => return Ok(()),
        }
    }
}

/// The intervals of the numbers that are in both.
pub fn intersect(
    alloc: Global,
    ours: &[(u32, u32)],
    theirs: &[(u32, u32)],
) -> Result<Pairs, AllocError>
    requires ours { IsCanonical ours.now }
    requires theirs { IsCanonical theirs.now }
    ensures canonical { IfOk result (λ v. IsCanonical v.items) }
    ensures numbers { IfOk result (λ v. IsMeet ours.now theirs.now v.items) }
{
    let mut both = SmallVec::new(alloc);
    let (mut i, mut j) = (0, 0);
    while i < ours.len() && j < theirs.len() {
        put_common(&mut both, ours[i], theirs[j])?;
        if ours[i].1 < theirs[j].1 {
            i += 1;
        } else {
            j += 1;
        }
    }
    Ok(both)
}

/// Adds the numbers that are in both intervals.
fn put_common(both: &mut Pairs, our: (u32, u32), their: (u32, u32)) -> Result<(), AllocError>
    requires canonical { IsCanonical both.old.items }
    requires behind { end_of both.old.items ≤ max our.0 their.0 }
    ensures { OnOk result (Shares both.old.items our their both.new.items) }
{
    let from = our.0.max(their.0);
    let to = our.1.min(their.1);
    if from <= to {
        both.push((from, to))?;
    }
    Ok(())
}

/// Whether these are ascending intervals of numbers from 1 on, no two of which touch.
pub fn is_canonical(pairs: &[(u32, u32)]) -> bool
    ensures { IsTrue result ↔ IsCanonical pairs.now }
{
    let mut low = 1;
    for (from, to) in pairs {
        if u64::from(*from) < low || to < from {
            return false;
        }
        low = u64::from(*to) + 2;
    }
    true
}

/// Whether the number is in one of the intervals, by halving.
pub fn holds(pairs: &[(u32, u32)], n: u32) -> bool
    requires { IsCanonical pairs.now }
    ensures { result ≡ has (members pairs.now) n }
{
    let at = pairs.partition_point(|pair| pair.1 < n);
    at < pairs.len() && pairs[at].0 <= n
}

/// The intervals with a number added to each end.
pub fn shifted(alloc: Global, pairs: &[(u32, u32)], by: i64) -> Result<Pairs, AllocError>
    requires canonical { IsCanonical pairs.now }
    requires fits { (n : ℕ) → IsTrue (has (members pairs.now) n) → IsVersion (pos n +ℤ by) }
    ensures canonical { IfOk result (λ v. IsCanonical v.items) }
    ensures pairs { IfOk result (λ v. v.items ≡ map (moved_pair by) pairs.now) }
    ensures members { IfOk result (λ v. members v.items ≡ map (moved by) (members pairs.now)) }
{
    let mut shifted = SmallVec::with_capacity(alloc, pairs.len())?;
    for (from, to) in pairs {
        shifted.push((move_number(*from, by), move_number(*to, by)))?;
    }
    Ok(shifted)
}

fn move_number(n: u32, by: i64) -> u32
    requires { IsVersion (pos n +ℤ by) }
    ensures { result ≡ moved by n }
{
    (i64::from(n) + by) as u32
}
