// Reading labels, sets, timestamps and directories.
ghost use Rattle.std.specs.Prelude.{◌≡◌, ◌≤◌, length, drop, map, IfOk};
ghost use Rattle.version_set.specs.View.{pairs_of};
ghost use Rattle.keyed_tree.specs.View.{key_view, label_view};
ghost use Rattle.archive_tree.specs.View.{stamp_view};
ghost use Rattle.xa_fields.specs.Reading.{many_at, list_at};
ghost use Rattle.record_parts.specs.Bounds.{most};
ghost use Rattle.record_parts.specs.Reading.{Gives, value_at, label_at, stamp_of, stamp_at};
ghost use Rattle.timestamp_tree.specs.Reading.{set_at};

use crate::fault::RecFault;
use crate::lent::lend_name;
use crate::limits::MOST_VERSIONS;
use crate::take_values::{FEW, take_value};
use keyed_tree::{KeyVal, Label};
use std::alloc::Global;
use timestamp_tree::take_pairs;
use version_set::VersionSet;
use xa_fields::{take_u8, take_u32};

/// The label at the offset, and the offset behind it.
#[tactic(auto, unfolding(crate::specs::Reading::label_at, xa_fields::specs::Reading::list_at))]
pub fn take_label(alloc: Global, bytes: &[u8], at: usize) -> Result<(Label, usize), RecFault>
    ensures found { Gives (λ r. (label_view r.0, drop r.1 bytes.now)) result
        (label_at (drop at bytes.now)) }
    ensures next { IfOk result (λ r. r.1 ≤ length bytes.now) }
{
    let Some((name, at)) = lend_name(bytes, at) else {
        return Err(RecFault::Damage);
    };
    let name = name.copy(alloc)?;
    let Some((count, at)) = take_u32(bytes, at) else {
        return Err(RecFault::Damage);
    };
    let (keys, at) = take_values(alloc, count, bytes, at)?;
    Ok((Label { name, keys }, at))
}

fn take_values(
    alloc: Global,
    count: u32,
    bytes: &[u8],
    at: usize,
) -> Result<(Vec<KeyVal>, usize), RecFault>
    requires { at ≤ length bytes.now }
    ensures found { Gives (λ r. (map key_view r.0.items, drop r.1 bytes.now)) result
        (many_at value_at count (drop at bytes.now)) }
    ensures next { IfOk result (λ r. r.1 ≤ length bytes.now) }
{
    let mut values = Vec::with_capacity(alloc, count.min(FEW) as usize)?;
    let mut at = at;
    for _ in 0..count {
        let (value, next) = take_value(alloc, bytes, at)?;
        values.push(value)?;
        at = next;
    }
    Ok((values, at))
}

/// The set at the offset, and the offset behind it.
#[tactic(auto, unfolding(xa_fields::specs::Reading::chained_at))]
pub fn take_set(alloc: Global, bytes: &[u8], at: usize) -> Result<(VersionSet, usize), RecFault>
    ensures found { Gives (λ r. (pairs_of r.0, drop r.1 bytes.now)) result
        (set_at most (drop at bytes.now)) }
    ensures next { IfOk result (λ r. r.1 ≤ length bytes.now) }
{
    let Some((count, at)) = take_u32(bytes, at) else {
        return Err(RecFault::Damage);
    };
    match take_pairs(alloc, bytes, at, count, MOST_VERSIONS)? {
        Some((set, at)) => Ok((set, at)),
        None => Err(RecFault::Damage),
    }
}

/// The timestamp at the offset, and the offset behind it.
#[tactic(auto, unfolding(crate::specs::Reading::stamp_at))]
pub fn take_stamp(
    alloc: Global,
    bytes: &[u8],
    at: usize,
) -> Result<(Option<VersionSet>, usize), RecFault>
    ensures found { Gives (λ r. (stamp_view r.0, drop r.1 bytes.now)) result
        (stamp_at (drop at bytes.now)) }
    ensures next { IfOk result (λ r. r.1 ≤ length bytes.now) }
{
    let Some((kind, at)) = take_u8(bytes, at) else {
        return Err(RecFault::Damage);
    };
    take_stamp_of(alloc, kind, bytes, at)
}

#[tactic(auto, unfolding(crate::specs::Reading::stamp_of))]
fn take_stamp_of(
    alloc: Global,
    kind: u8,
    bytes: &[u8],
    at: usize,
) -> Result<(Option<VersionSet>, usize), RecFault>
    requires { at ≤ length bytes.now }
    ensures found { Gives (λ r. (stamp_view r.0, drop r.1 bytes.now)) result
        (stamp_of kind (drop at bytes.now)) }
    ensures next { IfOk result (λ r. r.1 ≤ length bytes.now) }
{
    match kind {
        0 => Ok((None, at)),
        1 => {
            let (set, at) = take_set(alloc, bytes, at)?;
            if set.pairs().is_empty() {
                return Err(RecFault::Damage);
            }
            Ok((Some(set), at))
        }
        _ => Err(RecFault::Damage),
    }
}
