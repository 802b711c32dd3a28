// Nodes of a tree that a file has.
ghost use Rattle.std.specs.Prelude.{◌≡◌, ◌<◌, ◌≤◌};

use crate::searches::eight_put;
use given_parts::told;
use std::alloc::Global;
use std::marker::Brand;
use std::sync::ledger::{Blank, Ledger};
use std::test::Fail;
use timestamp_tree::{Node, NodeFault, Probe, Steps, node_at, probe_at};
use xa_outside::{FolderCall, FolderFail, MemFolder};

/// A folder with a file of the tree over eight sets, in which one read fails.
fn folder(alloc: Global, failing: u64) -> Option<MemFolder> {
    let fail = FolderFail {
        call: FolderCall::ReadAt,
        number: failing,
    };
    let tree = eight_put(alloc)?;
    let mut folder = MemFolder::new(alloc, vec![in alloc; fail].ok()?);
    match folder.put("tree", tree) {
        Ok(()) => Some(folder),
        Err(_) => None,
    }
}

fn counted<L: Ledger>(
    blank: Blank,
    alloc: Global,
    folder: &mut MemFolder,
    at: u64,
    limit: u64,
) -> Result<Node, NodeFault>
    requires name { blank.name ≡ L.name }
    requires parts { blank.parts ≡ L.parts }
    requires some { 0 < blank.parts }
    requires limit { at ≤ limit }
{
    let mut steps: Steps<L> = Steps::new(blank);
    node_at(alloc, folder, "tree", at, limit, &mut steps)
}

/// The node at the offset.
fn found(alloc: Global, folder: &mut MemFolder, at: u64, limit: u64) -> Result<Node, NodeFault>
    requires { at ≤ limit }
{
    counted::<Brand>(Blank::new(1), alloc, folder, at, limit)
}

fn asked<L: Ledger>(
    blank: Blank,
    alloc: Global,
    folder: &mut MemFolder,
    at: u64,
    limit: u64,
    most: u32,
    number: u32,
) -> Result<Probe, NodeFault>
    requires name { blank.name ≡ L.name }
    requires parts { blank.parts ≡ L.parts }
    requires some { 0 < blank.parts }
    requires limit { at ≤ limit }
{
    let mut steps: Steps<L> = Steps::new(blank);
    probe_at(alloc, folder, "tree", at, limit, most, number, &mut steps)
}

/// Whether the node at the offset, of a set of numbers up to `most`, has a number, the size of its
/// left part, and its size.
fn said(
    alloc: Global,
    folder: &mut MemFolder,
    at: u64,
    limit: u64,
    most: u32,
    number: u32,
) -> Option<(bool, u64, u64)>
    requires { at ≤ limit }
{
    match asked::<Brand>(Blank::new(1), alloc, folder, at, limit, most, number) {
        Ok(probe) => Some((probe.has, probe.left, probe.size)),
        Err(_) => None,
    }
}

/// What a node is: its intervals, the size of its left part and its size, or why there is none.
enum Wanted {
    Node(&'static [(u32, u32)], u64, u64),
    Damage,
    Folder,
}

/// What is done in turn: the offset, the limit, and what comes of it.
enum Turn {
    /// The node is read.
    Found(u64, u64, Wanted),
    /// The node of a set of numbers up to one is asked for another.
    Asked(u64, u64, (u32, u32), Option<(bool, u64, u64)>),
    /// So many bytes were pulled until then.
    Pulled(u64),
}

/// The number of the read that fails, and what is done.
const TURNS: &[(&str, u64, &[Turn])] = &[
    (
        "nodes stand one behind another",
        9,
        &[
            Turn::Found(0, 324, Wanted::Node(&[(1, 5)], 164, 20)),
            Turn::Found(20, 48, Wanted::Node(&[(1, 2), (5, 5)], 60, 28)),
            Turn::Found(304, 324, Wanted::Node(&[(4, 4)], 0, 20)),
            Turn::Pulled(68),
        ],
    ),
    (
        "nodes are asked for a number",
        9,
        &[
            Turn::Asked(0, 324, (5, 5), Some((true, 164, 20))),
            Turn::Asked(20, 48, (5, 4), Some((false, 60, 28))),
            Turn::Pulled(48),
            Turn::Asked(0, 19, (5, 5), None),
            Turn::Pulled(48),
            Turn::Asked(0, 324, (4, 1), None),
        ],
    ),
    (
        "no node ends past its limit",
        9,
        &[
            Turn::Found(0, 19, Wanted::Damage),
            Turn::Pulled(4),
            Turn::Found(0, 11, Wanted::Damage),
            Turn::Found(320, 340, Wanted::Damage),
        ],
    ),
    (
        "a read that fails is no damage",
        2,
        &[Turn::Found(0, 324, Wanted::Folder), Turn::Pulled(4)],
    ),
];

fn is_wanted(found: &Result<Node, NodeFault>, wanted: &Wanted) -> bool {
    match (found, wanted) {
        (Ok(node), Wanted::Node(pairs, left, size)) => {
            node.set.pairs() == *pairs && node.left == *left && node.size == *size
        }
        (Err(fault), Wanted::Damage) => *fault == NodeFault::Damage,
        (Err(fault), Wanted::Folder) => matches!(fault, NodeFault::Folder),
        _ => false,
    }
}

fn is_turn(alloc: Global, folder: &mut MemFolder, turn: &Turn) -> bool {
    match turn {
        Turn::Found(at, limit, wanted) if *at <= *limit => {
            is_wanted(&found(alloc, folder, *at, *limit), wanted)
        }
        Turn::Asked(at, limit, (most, number), wanted) if *at <= *limit => {
            said(alloc, folder, *at, *limit, *most, *number) == *wanted
        }
        Turn::Pulled(count) => folder.pulled() == *count,
        _ => false,
    }
}

fn are_turns(alloc: Global, folder: &mut MemFolder, turns: &[Turn]) -> bool {
    for turn in turns {
        if !is_turn(alloc, folder, turn) {
            return false;
        }
    }
    true
}

fn are_done(alloc: Global, failing: u64, turns: &[Turn]) -> bool {
    match folder(alloc, failing) {
        Some(mut folder) => are_turns(alloc, &mut folder, turns),
        None => false,
    }
}

#[test]
fn nodes_are_read_and_asked(rt: HostRuntime) -> Result<(), Fail> {
    for (name, failing, turns) in TURNS {
        told(are_done(rt.alloc(), *failing, turns), name)?;
    }
    Ok(())
}
