// Reading directories.
ghost use Rattle.std.specs.Prelude.{◌≡◌, ◌≤◌, ◌<◌, ◌^◌, ◌++◌, ◌∷◌, [], length, drop, map, IfOk, OnOk, IfErr, IfSome, option_map};
ghost use Rattle.version_set.specs.View.{pairs_of};
ghost use Rattle.xa_fields.specs.Reading.{many_at, whole};
ghost use Rattle.record_parts.specs.Bounds.{most};
ghost use Rattle.record_format.specs.View.{entry_view, dir_view};
ghost use Rattle.record_parts.specs.Reading.{Gives};
ghost use Rattle.record_format.specs.Reading.{entry_at, leaf_sets, with_leaf_sets, node_count, entries_and_leaves, spells_dir, whole_dir};
ghost use Rattle.timestamp_tree.specs.Reading.{stored_at};

use crate::put_directory::put_directory;
use crate::rec::{Dir, Entry};
use record_parts::{RecFault, take_set};
use std::alloc::{AllocError, Global};
use timestamp_tree::lend_sets;
use version_set::VersionSet;
use xa_fields::{take_u32, take_u64};

#[tactic(auto, unfolding(crate::specs::Reading::entry_at))]
fn lend_entry(bytes: &[u8], at: usize) -> Option<(Entry, usize)>
    ensures found { option_map (λ r. (entry_view r.0, drop r.1 bytes.now)) result
        ≡ entry_at (drop at bytes.now) }
    ensures next { IfSome result (λ r. r.1 ≤ length bytes.now) }
{
    let (start, at) = take_u64(bytes, at)?;
    let (length, at) = take_u64(bytes, at)?;
    let (dir, at) = take_u64(bytes, at)?;
    Some((Entry { start, length, dir }, at))
}

fn take_entries(
    alloc: Global,
    count: u32,
    bytes: &[u8],
    at: usize,
) -> Result<(Vec<Entry>, usize), RecFault>
    requires { at ≤ length bytes.now }
    ensures found { Gives (λ r. (map entry_view r.0.items, drop r.1 bytes.now)) result
        (many_at entry_at count (drop at bytes.now)) }
    ensures next { IfOk result (λ r. r.1 ≤ length bytes.now) }
{
    let mut entries = Vec::new(alloc);
    let mut at = at;
    for _ in 0..count {
        let Some((entry, next)) = lend_entry(bytes, at) else {
            return Err(RecFault::Damage);
        };
        entries.push(entry)?;
        at = next;
    }
    Ok((entries, at))
}

/// The node of a timestamp tree at the offset, as its set and the size of its left part, and the
/// offset behind it.
#[tactic(auto, unfolding(xa_fields::specs::Reading::both_at))]
fn take_node(alloc: Global, bytes: &[u8], at: usize) -> Result<(VersionSet, u64, usize), RecFault>
    ensures found { Gives (λ r. ((pairs_of r.0, r.1), drop r.2 bytes.now)) result
        (stored_at most (drop at bytes.now)) }
    ensures next { IfOk result (λ r. r.2 ≤ length bytes.now) }
{
    let (set, at) = take_set(alloc, bytes, at)?;
    let Some((left, at)) = take_u64(bytes, at) else {
        return Err(RecFault::Damage);
    };
    Ok((set, left, at))
}

fn push_leaf(sets: &mut Vec<VersionSet>, set: VersionSet, left: u64) -> Result<(), RecFault>
    ensures ok { OnOk result (map pairs_of sets.new.items
        ≡ map pairs_of sets.old.items ++ leaf_sets ((pairs_of set, left) ∷ [])) }
    ensures err { IfErr result (λ e. e ≡ RecFault.Memory) }
{
    if left == 0 {
        sets.push(set)?;
    }
    Ok(())
}

/// The sets of the leaves among so many nodes of a tree at the offset, and the offset behind the
/// nodes.
fn take_leaf_sets(
    alloc: Global,
    count: u64,
    bytes: &[u8],
    at: usize,
) -> Result<(Vec<VersionSet>, usize), RecFault>
    requires { at ≤ length bytes.now }
    ensures found { Gives (λ r. (map pairs_of r.0.items, drop r.1 bytes.now)) result
        (with_leaf_sets (many_at (stored_at most) count (drop at bytes.now))) }
    ensures next { IfOk result (λ r. r.1 ≤ length bytes.now) }
{
    let mut sets = Vec::new(alloc);
    let mut at = at;
    for _ in 0..count {
        let (set, left, next) = take_node(alloc, bytes, at)?;
        push_leaf(&mut sets, set, left)?;
        at = next;
    }
    Ok((sets, at))
}

/// How many nodes a tree over so many sets has.
fn node_count(sets: usize) -> u64
    requires { sets < 2 ^ 32 }
    ensures { result ≡ node_count sets }
{
    if sets == 0 { 0 } else { 2 * sets as u64 - 1 }
}

/// The entries, and the sets of the leaves among the nodes behind them, that take all of the bytes.
#[tactic(auto, using(crate::proofs::Directories::lengths), unfolding(crate::specs::Reading::entries_and_leaves, xa_fields::specs::Reading::list_at, xa_fields::specs::Reading::whole))]
fn take_entries_and_leaves(alloc: Global, bytes: &[u8]) -> Result<Dir, RecFault>
    ensures found { Gives dir_view result (whole entries_and_leaves bytes.now) }
    ensures few { IfOk result (λ d. length d.entries.items < 2 ^ 32) }
{
    let Some((count, at)) = take_u32(bytes, 0) else {
        return Err(RecFault::Damage);
    };
    let (entries, at) = take_entries(alloc, count, bytes, at)?;
    let nodes = node_count(entries.len());
    let (sets, at) = take_leaf_sets(alloc, nodes, bytes, at)?;
    if at < bytes.len() {
        return Err(RecFault::Damage);
    }
    Ok(Dir { entries, sets })
}

/// Whether these bytes are the directory's, and each entry has its set.
fn is_spelled(alloc: Global, dir: &Dir, bytes: &[u8]) -> Result<bool, AllocError>
    requires { length dir.now.entries.items < 2 ^ 32 }
    ensures { IfOk result (λ b. b ≡ spells_dir bytes.now (dir_view dir.now)) }
{
    if dir.sets.len() != dir.entries.len() {
        return Ok(false);
    }
    let sets = lend_sets(alloc, &dir.sets)?;
    let mut spelled = Vec::new(alloc);
    put_directory(&mut spelled, &dir.entries, &sets)?;
    Ok(spelled.as_slice() == bytes)
}

/// The directory that all of the bytes are. Its tree is built anew from its sets and compared.
#[tactic(auto, unfolding(crate::specs::Reading::whole_dir))]
pub fn take_directory(alloc: Global, bytes: &[u8]) -> Result<Dir, RecFault>
    ensures { Gives dir_view result (whole_dir bytes.now) }
{
    let dir = take_entries_and_leaves(alloc, bytes)?;
    if !is_spelled(alloc, &dir, bytes)? {
        return Err(RecFault::Damage);
    }
    Ok(dir)
}
