// What one node of a tree that a file has says of a number.
ghost use Rattle.std.specs.Prelude.{◌≡◌, ◌+◌, ◌-◌, ◌*◌, ◌<◌, ◌≤◌, ◌^◌, ℕ, List, length, take, drop, Some, IfOk, IfErr, OnOk};
ghost use Rattle.std.specs.Int.{w32};
ghost use Rattle.xa_fields.specs.Reading.{number_at};
ghost use Rattle.xa_outside.specs.Causes.{Rose};
ghost use Rattle.xa_outside.specs.Folder.{Files};
ghost use Rattle.xa_outside.specs.Numbers.{PullsAtMost, after_pull};
ghost use Rattle.timestamp_tree.specs.Bytes.{stored};
ghost use Rattle.timestamp_tree.specs.Reading.{some_stored_at};
ghost use Rattle.timestamp_tree.specs.Nodes.{IfFolder, piece_of, TellsBytes, OnlyReads, fault_of};
ghost use Rattle.timestamp_tree.specs.Probes.{TellsProbe};

use crate::fault::NodeFault;
use crate::node::{count_within, fill};
use crate::steps::Steps;
use crate::take::pairs_contain;
use std::alloc::Global;
use std::sync::ledger::Ledger;
use xa_fields::take_u64;
use xa_outside::Folder;

/// A node of one interval: the number of intervals, that interval, and the size of the left part.
const LEAST: u64 = 20;

/// A node of eight intervals.
const SHORT: usize = 76;

/// The most intervals of a node that is read without memory.
const FEW: u32 = 8;

/// What a node of a tree says of a number, without its parts.
#[derive(Clone, Copy)]
pub struct Probe {
    /// Whether the union of the sets below has the number.
    pub has: bool,
    /// The byte size of the left part, 0 of a leaf.
    pub left: u64,
    /// How many bytes the node has, without its parts.
    pub size: u64,
}

/// What the node whose bytes begin at this offset of a file says of a number. Its set is not empty,
/// and of numbers up to `most`; where it would not end before `limit` there is none. It counts one
/// step.
///
/// It reads twenty bytes, and then the rest of a node that has more, and takes memory only for one
/// of more than eight intervals, which ends before `limit`. What the left part's size says is not
/// judged.
pub fn probe_at<F: Folder, L: Ledger>(
    alloc: Global,
    folder: &mut F,
    name: &str,
    at: u64,
    limit: u64,
    most: u32,
    number: u32,
    steps: &mut Steps<L>,
) -> Result<Probe, NodeFault>
    requires { at ≤ limit }
    ensures steps { steps.new ≡ steps.old + 1 }
    ensures within { IfOk result (λ probe. at + probe.size ≤ limit) }
    ensures files { F.files folder.new ≡ F.files folder.old }
    ensures draft { F.draft folder.new ≡ F.draft folder.old }
    ensures numbers { IfOk result (λ probe.
        F.numbers folder.new ≡ after_pull (F.numbers folder.old) probe.size) }
    ensures pulls { PullsAtMost (limit - at) (F.numbers folder.old) (F.numbers folder.new) }
    ensures later { F.faults folder.old ≤ F.faults folder.new }
    ensures cause { IfErr result (λ e.
        IfFolder e (Rose (F.faults folder.old) (F.faults folder.new))) }

    // Where files are told, it is what the node that stands there says, and damage where there is
    // none.
    ensures told { (files : Files) → F.files folder.old ≡ Some files
        → TellsProbe most number (piece_of files name.now at limit) result }

    // Where a node stands there, no byte behind it is pulled, whatever is answered.
    ensures only { (files : Files) (rest : List ℕ) (set : List (ℕ × ℕ)) (left : ℕ)
        → F.files folder.old ≡ Some files
        → some_stored_at most (piece_of files name.now at limit) ≡ Some ((set, left), rest)
        → PullsAtMost (length (stored set left))
        (F.numbers folder.old) (F.numbers folder.new) }
{
    steps.tick();
    probe_node(alloc, folder, name, at, limit, most, number)
}

fn probe_node<F: Folder>(
    alloc: Global,
    folder: &mut F,
    name: &str,
    at: u64,
    limit: u64,
    most: u32,
    number: u32,
) -> Result<Probe, NodeFault>
    requires { at ≤ limit }
    ensures reads { OnlyReads F.files F.draft F.faults folder.old folder.new (fault_of result) }
    ensures within { IfOk result (λ probe. at + probe.size ≤ limit) }
    ensures numbers { IfOk result (λ probe.
        F.numbers folder.new ≡ after_pull (F.numbers folder.old) probe.size) }
    ensures pulls { PullsAtMost (limit - at) (F.numbers folder.old) (F.numbers folder.new) }
    ensures told { (files : Files) → F.files folder.old ≡ Some files
        → TellsProbe most number (piece_of files name.now at limit) result }
    ensures only { (files : Files) (rest : List ℕ) (set : List (ℕ × ℕ)) (left : ℕ)
        → F.files folder.old ≡ Some files
        → some_stored_at most (piece_of files name.now at limit) ≡ Some ((set, left), rest)
        → PullsAtMost (12 + 8 * length set) (F.numbers folder.old) (F.numbers folder.new) }
{
    if limit - at < LEAST {
        return Err(NodeFault::Damage);
    }
    let mut front = [0; 20];
    match fill(folder, name, at, &mut front) {
        Ok(()) => probe_begun(alloc, folder, name, at, &front, limit - at, most, number),
        Err(fault) => Err(fault),
    }
}

/// What the node says that begins with these bytes, and has no more than there is room for.
fn probe_begun<F: Folder>(
    alloc: Global,
    folder: &mut F,
    name: &str,
    at: u64,
    front: &[u8],
    room: u64,
    most: u32,
    number: u32,
) -> Result<Probe, NodeFault>
    requires front { length front.now ≡ 20 }
    requires room { 20 ≤ room }
    requires short { at + room < 2 ^ 64 }
    ensures reads { OnlyReads F.files F.draft F.faults folder.old folder.new (fault_of result) }
    ensures within { IfOk result (λ probe. (20 ≤ probe.size) × (probe.size ≤ room)) }
    ensures numbers { IfOk result (λ probe.
        F.numbers folder.new ≡ after_pull (F.numbers folder.old) (probe.size - 20)) }
    ensures pulls { PullsAtMost (room - 20) (F.numbers folder.old) (F.numbers folder.new) }
    ensures told { (files : Files) → F.files folder.old ≡ Some files
        → front.now ≡ take 20 (piece_of files name.now at (at + room))
        → TellsProbe most number (piece_of files name.now at (at + room)) result }
    ensures only { (piece rest : List ℕ) (set : List (ℕ × ℕ)) (left : ℕ)
        → length piece ≤ room → front.now ≡ take 20 piece
        → some_stored_at most piece ≡ Some ((set, left), rest)
        → PullsAtMost (8 * length set - 8) (F.numbers folder.old) (F.numbers folder.new) }
{
    match count_within(&front[..4], room) {
        Ok(0) => Err(NodeFault::Damage),
        Ok(count) => probe_parts(alloc, folder, name, at, front, count, most, number),
        Err(fault) => Err(fault),
    }
}

/// What the node of so many intervals says that begins with these bytes.
fn probe_parts<F: Folder>(
    alloc: Global,
    folder: &mut F,
    name: &str,
    at: u64,
    front: &[u8],
    count: u32,
    most: u32,
    number: u32,
) -> Result<Probe, NodeFault>
    requires front { length front.now ≡ 20 }
    requires some { 1 ≤ count }
    requires short { at + (12 + 8 * count) < 2 ^ 64 }
    ensures reads { OnlyReads F.files F.draft F.faults folder.old folder.new (fault_of result) }
    ensures size { IfOk result (λ probe. probe.size ≡ 12 + 8 * count) }
    ensures numbers { OnOk result
        (F.numbers folder.new ≡ after_pull (F.numbers folder.old) (8 * count - 8)) }
    ensures pulls { PullsAtMost (8 * count - 8) (F.numbers folder.old) (F.numbers folder.new) }
    ensures told { (files : Files) (limit : ℕ) → F.files folder.old ≡ Some files
        → at + (12 + 8 * count) ≤ limit → front.now ≡ take 20 (piece_of files name.now at limit)
        → number_at w32 (piece_of files name.now at limit)
        ≡ Some (count, drop 4 (piece_of files name.now at limit))
        → TellsProbe most number (piece_of files name.now at limit) result }
{
    let size = 12 + 8 * count as usize;
    if count <= FEW {
        let mut held = [0; SHORT];
        return probe_rest(
            folder,
            name,
            at,
            front,
            &mut held[..size],
            count,
            most,
            number,
        );
    }
    let mut bytes = Vec::new(alloc);
    if bytes.resize(size, 0).is_err() {
        return Err(NodeFault::Memory);
    }
    probe_rest(folder, name, at, front, &mut bytes, count, most, number)
}

/// What the node of so many intervals says whose front these bytes are. The rest is read into the
/// room for the whole node.
fn probe_rest<F: Folder>(
    folder: &mut F,
    name: &str,
    at: u64,
    front: &[u8],
    node: &mut [u8],
    count: u32,
    most: u32,
    number: u32,
) -> Result<Probe, NodeFault>
    requires front { length front.now ≡ 20 }
    requires some { 1 ≤ count }
    requires node { length node.old ≡ 12 + 8 * count }
    requires short { at + (12 + 8 * count) < 2 ^ 64 }
    ensures reads { OnlyReads F.files F.draft F.faults folder.old folder.new (fault_of result) }
    ensures size { IfOk result (λ probe. probe.size ≡ 12 + 8 * count) }
    ensures numbers { OnOk result
        (F.numbers folder.new ≡ after_pull (F.numbers folder.old) (8 * count - 8)) }
    ensures pulls { PullsAtMost (8 * count - 8) (F.numbers folder.old) (F.numbers folder.new) }
    ensures told { (files : Files) (limit : ℕ) → F.files folder.old ≡ Some files
        → at + (12 + 8 * count) ≤ limit → front.now ≡ take 20 (piece_of files name.now at limit)
        → number_at w32 (piece_of files name.now at limit)
        ≡ Some (count, drop 4 (piece_of files name.now at limit))
        → TellsProbe most number (piece_of files name.now at limit) result }
{
    match fill_rest(folder, name, at, front, node) {
        Ok(()) => probe_of(node, count, most, number),
        Err(fault) => Err(fault),
    }
}

/// Fills the room for a whole node, whose front these bytes are.
fn fill_rest<F: Folder>(
    folder: &mut F,
    name: &str,
    at: u64,
    front: &[u8],
    node: &mut [u8],
) -> Result<(), NodeFault>
    requires front { length front.now ≡ 20 }
    requires node { 20 ≤ length node.old }
    requires short { at + length node.old < 2 ^ 64 }
    ensures reads { OnlyReads F.files F.draft F.faults folder.old folder.new (fault_of result) }
    ensures numbers { OnOk result
        (F.numbers folder.new ≡ after_pull (F.numbers folder.old) (length node.old - 20)) }
    ensures pulls { PullsAtMost (length node.old - 20)
        (F.numbers folder.old) (F.numbers folder.new) }
    ensures told { (files : Files) (limit : ℕ) → F.files folder.old ≡ Some files
        → at + length node.old ≤ limit → front.now ≡ take 20 (piece_of files name.now at limit)
        → TellsBytes (length node.old) (piece_of files name.now at limit) node.new result }
{
    node[..20].copy_from_slice(front);
    fill(folder, name, at + LEAST, &mut node[20..])
}

/// What the node of so many intervals says that has these bytes.
fn probe_of(node: &[u8], count: u32, most: u32, number: u32) -> Result<Probe, NodeFault>
    requires node { length node.now ≡ 12 + 8 * count }
    requires some { 1 ≤ count }
    ensures size { IfOk result (λ probe. probe.size ≡ 12 + 8 * count) }
    ensures cause { IfErr result (λ e. IfFolder e ⊥) }
    ensures told { (piece : List ℕ) → node.now ≡ take (12 + 8 * count) piece
        → number_at w32 piece ≡ Some (count, drop 4 piece)
        → TellsProbe most number piece result }
{
    let Some(has) = pairs_contain(node, 4, count, most, number) else {
        return Err(NodeFault::Damage);
    };
    let Some((left, _)) = take_u64(node, 4 + 8 * count as usize) else {
        return Err(NodeFault::Damage);
    };
    let size = node.len() as u64;
    Ok(Probe { has, left, size })
}
