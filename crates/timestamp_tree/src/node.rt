// One node of a tree that a file has.
ghost use Rattle.std.specs.Prelude.{◌≡◌, ◌+◌, ◌-◌, ◌*◌, ◌<◌, ◌≤◌, ◌^◌, ℕ, List, length, take, Some, IfOk, IfErr, OnOk};
ghost use Rattle.version_set.specs.View.{pairs_of};
ghost use Rattle.version_set.specs.declared.limits.TheConstants.{GREATEST_NUMBER};
ghost use Rattle.xa_outside.specs.Causes.{Rose};
ghost use Rattle.xa_outside.specs.Folder.{Files};
ghost use Rattle.xa_outside.specs.Numbers.{PullsAtMost, after_pull};
ghost use Rattle.timestamp_tree.specs.Bytes.{stored};
ghost use Rattle.timestamp_tree.specs.Reading.{stored_at};
ghost use Rattle.timestamp_tree.specs.Nodes.{IfFolder, stored_view, piece_of, TellsBytes, TellsNode, OnlyReads, fault_of, TellsCount, TellsParts};

use crate::fault::NodeFault;
use crate::steps::Steps;
use crate::take::take_pairs;
use std::alloc::Global;
use std::sync::ledger::Ledger;
use version_set::{GREATEST_NUMBER, VersionSet};
use xa_fields::{take_u32, take_u64};
use xa_outside::{Folder, fill_at};

/// The number of the set's intervals has four bytes.
const COUNT: usize = 4;

/// A node of an empty set has so many bytes.
const LEAST: u64 = 12;

/// A node of a tree, without its parts.
#[derive(Drop)]
pub struct Node {
    /// The union of the sets below.
    pub set: VersionSet,
    /// The byte size of the left part, 0 of a leaf.
    pub left: u64,
    /// How many bytes the node has, without its parts.
    pub size: u64,
}

/// The node whose bytes begin at this offset of a file. Where it would not end before `limit` there
/// is none. It counts one step.
///
/// It reads the number of the set's intervals and then the rest, and takes memory only for a node
/// that ends before `limit`. What the left part's size says is not judged.
pub fn node_at<F: Folder, L: Ledger>(
    alloc: Global,
    folder: &mut F,
    name: &str,
    at: u64,
    limit: u64,
    steps: &mut Steps<L>,
) -> Result<Node, NodeFault>
    requires { at ≤ limit }
    ensures steps { steps.new ≡ steps.old + 1 }
    ensures size { IfOk result (λ node. (stored_view node).size
        ≡ length (stored (stored_view node).pairs (stored_view node).left)) }
    ensures within { IfOk result (λ node. at + (stored_view node).size ≤ limit) }
    ensures files { F.files folder.new ≡ F.files folder.old }
    ensures draft { F.draft folder.new ≡ F.draft folder.old }
    ensures numbers { IfOk result (λ node.
        F.numbers folder.new ≡ after_pull (F.numbers folder.old) (stored_view node).size) }
    ensures pulls { PullsAtMost (limit - at) (F.numbers folder.old) (F.numbers folder.new) }
    ensures later { F.faults folder.old ≤ F.faults folder.new }
    ensures cause { IfErr result (λ e.
        IfFolder e (Rose (F.faults folder.old) (F.faults folder.new))) }

    // Where files are told, it is the node that stands there, and damage where there is none.
    ensures told { (files : Files) → F.files folder.old ≡ Some files
        → TellsNode GREATEST_NUMBER (piece_of files name.now at limit) result }

    // Where a node stands there, no byte behind it is pulled, whatever is answered.
    ensures only { (files : Files) (rest : List ℕ) (set : List (ℕ × ℕ)) (left : ℕ)
        → F.files folder.old ≡ Some files
        → stored_at GREATEST_NUMBER (piece_of files name.now at limit)
        ≡ Some ((set, left), rest)
        → PullsAtMost (length (stored set left))
        (F.numbers folder.old) (F.numbers folder.new) }
{
    steps.tick();
    read_node(alloc, folder, name, at, limit)
}

fn read_node<F: Folder>(
    alloc: Global,
    folder: &mut F,
    name: &str,
    at: u64,
    limit: u64,
) -> Result<Node, NodeFault>
    requires { at ≤ limit }
    ensures reads { OnlyReads F.files F.draft F.faults folder.old folder.new (fault_of result) }
    ensures size { IfOk result (λ node. node.size ≡ 12 + 8 * length (pairs_of node.set)) }
    ensures within { IfOk result (λ node. at + node.size ≤ limit) }
    ensures numbers { IfOk result (λ node.
        F.numbers folder.new ≡ after_pull (F.numbers folder.old) node.size) }
    ensures pulls { PullsAtMost (limit - at) (F.numbers folder.old) (F.numbers folder.new) }
    ensures told { (files : Files) → F.files folder.old ≡ Some files
        → TellsNode GREATEST_NUMBER (piece_of files name.now at limit) result }
    ensures only { (files : Files) (rest : List ℕ) (set : List (ℕ × ℕ)) (left : ℕ)
        → F.files folder.old ≡ Some files
        → stored_at GREATEST_NUMBER (piece_of files name.now at limit)
        ≡ Some ((set, left), rest)
        → PullsAtMost (12 + 8 * length set) (F.numbers folder.old) (F.numbers folder.new) }
{
    match read_count(folder, name, at, limit) {
        Ok(count) => read_parts(alloc, folder, name, at + 4, count),
        Err(fault) => Err(fault),
    }
}

/// The number of intervals of the set of the node, which ends before `limit`.
fn read_count<F: Folder>(folder: &mut F, name: &str, at: u64, limit: u64) -> Result<u32, NodeFault>
    requires { at ≤ limit }
    ensures reads { OnlyReads F.files F.draft F.faults folder.old folder.new (fault_of result) }
    ensures within { IfOk result (λ n. at + (12 + 8 * n) ≤ limit) }
    ensures numbers { OnOk result (F.numbers folder.new ≡ after_pull (F.numbers folder.old) 4) }
    ensures pulls { PullsAtMost 4 (F.numbers folder.old) (F.numbers folder.new) }
    ensures inside { PullsAtMost (limit - at) (F.numbers folder.old) (F.numbers folder.new) }
    ensures told { (files : Files) → F.files folder.old ≡ Some files
        → TellsCount (piece_of files name.now at limit) result }
{
    if limit - at < LEAST {
        return Err(NodeFault::Damage);
    }
    let mut front = [0; COUNT];
    match fill(folder, name, at, &mut front) {
        Ok(()) => count_within(&front, limit - at),
        Err(fault) => Err(fault),
    }
}

/// The number in the first four bytes of a node, which has no more bytes than there is room for.
pub(crate) fn count_within(front: &[u8], room: u64) -> Result<u32, NodeFault>
    requires front { length front.now ≡ 4 }
    requires room { 12 ≤ room }
    ensures within { IfOk result (λ n. 12 + 8 * n ≤ room) }
    ensures cause { IfErr result (λ e. IfFolder e ⊥) }
    ensures told { (piece : List ℕ) → length piece ≤ room → front.now ≡ take 4 piece
        → TellsCount piece result }
{
    match take_u32(front, 0) {
        Some((count, _)) if LEAST + 8 * u64::from(count) <= room => Ok(count),
        _ => Err(NodeFault::Damage),
    }
}

/// The node of so many intervals, the rest of which stands at this offset.
fn read_parts<F: Folder>(
    alloc: Global,
    folder: &mut F,
    name: &str,
    at: u64,
    count: u32,
) -> Result<Node, NodeFault>
    requires { at + (8 * count + 8) < 2 ^ 64 }
    ensures reads { OnlyReads F.files F.draft F.faults folder.old folder.new (fault_of result) }
    ensures size { IfOk result (λ node. node.size ≡ 12 + 8 * count) }
    ensures count { IfOk result (λ node. length (pairs_of node.set) ≡ count) }
    ensures numbers { IfOk result (λ _.
        F.numbers folder.new ≡ after_pull (F.numbers folder.old) (8 * count + 8)) }
    ensures pulls { PullsAtMost (8 * count + 8)
        (F.numbers folder.old) (F.numbers folder.new) }
    ensures told { (files : Files) (limit : ℕ) → F.files folder.old ≡ Some files
        → at + (8 * count + 8) ≤ limit
        → TellsParts GREATEST_NUMBER count (piece_of files name.now at limit) result }
{
    let size = 8 * count as usize + 8;
    let mut bytes = Vec::new(alloc);
    if bytes.resize(size, 0).is_err() {
        return Err(NodeFault::Memory);
    }
    match fill(folder, name, at, &mut bytes) {
        Ok(()) => node_of(alloc, &bytes, count),
        Err(fault) => Err(fault),
    }
}

/// The node of so many intervals, of which these are the bytes behind their number.
fn node_of(alloc: Global, bytes: &[u8], count: u32) -> Result<Node, NodeFault>
    requires { length bytes.now ≡ 8 * count + 8 }
    ensures size { IfOk result (λ node. node.size ≡ 12 + 8 * count) }
    ensures count { IfOk result (λ node. length (pairs_of node.set) ≡ count) }
    ensures cause { IfErr result (λ e. IfFolder e ⊥) }
    ensures told { (piece : List ℕ) → bytes.now ≡ take (8 * count + 8) piece
        → TellsParts GREATEST_NUMBER count piece result }
{
    let Some((set, at)) = take_pairs(alloc, bytes, 0, count, GREATEST_NUMBER)? else {
        return Err(NodeFault::Damage);
    };
    let Some((left, _)) = take_u64(bytes, at) else {
        return Err(NodeFault::Damage);
    };
    let size = LEAST + 8 * u64::from(count);
    Ok(Node { set, left, size })
}

/// Fills the buffer with the bytes of a file from the offset on. Where the file has fewer, no node
/// stands there.
pub(crate) fn fill<F: Folder>(
    folder: &mut F,
    name: &str,
    at: u64,
    out: &mut [u8],
) -> Result<(), NodeFault>
    requires { at + length out.old < 2 ^ 64 }
    ensures reads { OnlyReads F.files F.draft F.faults folder.old folder.new (fault_of result) }
    ensures numbers { OnOk result
        (F.numbers folder.new ≡ after_pull (F.numbers folder.old) (length out.old)) }
    ensures pulls { PullsAtMost (length out.old) (F.numbers folder.old) (F.numbers folder.new) }
    ensures told { (files : Files) (limit : ℕ) → F.files folder.old ≡ Some files
        → at + length out.old ≤ limit
        → TellsBytes (length out.old) (piece_of files name.now at limit) out.new result }
{
    match fill_at(folder, name, at, out) {
        Ok(count) if count < out.len() => Err(NodeFault::Damage),
        Ok(_) => Ok(()),
        Err(_) => Err(NodeFault::Folder),
    }
}
