// The nodes that lie in the bytes of a file.
//
// Each END is compared with the one that the nodes in front of it make, so the bytes are known to be those of the nodes.
ghost use Rattle.std.specs.Prelude.{◌≡◌, ◌≤◌, ◌<◌, ◌++◌, ℕ, List, length, drop, map, Some, None, IfOk, IfErr};
ghost use Rattle.version_set.specs.View.{pairs_of};
ghost use Rattle.archive_tree.specs.Data.{PlainAlt, PlainNode, PlainNodes};
ghost use Rattle.archive_tree.specs.View.{alt_view, node_view, nodes_view};
ghost use Rattle.record_format.specs.Bounds.{IsRec};
ghost use Rattle.record_parts.specs.Bounds.{IsSet};
ghost use Rattle.record_format.specs.Nodes.{dir_of, node_piece, node_pieces};
ghost use Rattle.record_format.specs.Reading.{record_at};
ghost use Rattle.record_format.specs.Spelling.{dir_bytes, rec_bytes};
ghost use Rattle.record_format.specs.View.{rec_view};
ghost use Rattle.archive_file.specs.Faults.{IfDamage};
ghost use Rattle.archive_file.specs.Laid.{AltsAt, NodeAt, RowAt, Finds};

use crate::ends::{entry_of, is_directory};
use crate::fault::FileFault;
use archive_tree::{ANode, Alt, effective};
use record_format::{ALT, END, Rec, RecFault, take_frame, take_record};
use std::alloc::Global;
use version_set::VersionSet;

fn read_record(alloc: Global, bytes: &[u8], at: usize) -> Result<(Rec, usize), FileFault>
    ensures found { IfOk result (λ r. record_at (drop at bytes.now)
        ≡ Some (rec_view r.0, drop r.1 bytes.now)) }
    ensures is { IfOk result (λ r. IsRec (rec_view r.0)) }
    ensures spelled { IfOk result (λ r. drop at bytes.now
        ≡ rec_bytes (rec_view r.0) ++ drop r.1 bytes.now) }
    ensures further { IfOk result (λ r. at < r.1) }
    ensures within { IfOk result (λ r. r.1 ≤ length bytes.now) }
    ensures damage { IfErr result (λ e. IfDamage e (record_at (drop at bytes.now) ≡ None)) }
{
    match take_record(alloc, bytes, at) {
        Ok((rec, next)) => Ok((rec, next)),
        Err(RecFault::Damage) => Err(FileFault::Damage),
        Err(RecFault::Memory) => Err(FileFault::Memory),
    }
}

// The same items, in no more room than they need.
fn fitted<T>(items: Vec<T>) -> Vec<T>
    ensures { result.items ≡ items.items }
{
    let mut items = items;
    items.shrink_to_fit();
    items
}

// How many records of alternatives stand one after another from the offset on. Their bodies are not looked at.
fn count_alts(bytes: &[u8], start: usize) -> usize
    ensures { result ≤ length bytes.now }
{
    let mut at = start;
    for count in 0..bytes.len() {
        match take_frame(bytes, at) {
            Some((ALT, _, next)) => at = next,
            _ => return count,
        }
    }
    bytes.len()
}

// The alternatives of a leaf, to the record that closes it, and the offset behind that.
fn read_alts(alloc: Global, bytes: &[u8], start: usize) -> Result<(Vec<Alt>, usize), FileFault>
    ensures found { (xs : List PlainAlt) (rest : List ℕ) → AltsAt xs rest (drop start bytes.now)
        → Finds result (λ r. (map alt_view r.0.items ≡ xs) × (drop r.1 bytes.now ≡ rest)) }
    ensures lie { IfOk result (λ r. AltsAt (map alt_view r.0.items) (drop r.1 bytes.now)
        (drop start bytes.now)) }
    ensures further { IfOk result (λ r. start < r.1) }
    ensures within { IfOk result (λ r. r.1 ≤ length bytes.now) }
{
    let mut alts = Vec::with_capacity(alloc, count_alts(bytes, start))?;
    let mut at = start;
    loop {
        let (rec, next) = read_record(alloc, bytes, at)?;
        match rec {
            Rec::Alt { stamp, body } => alts.push(Alt { stamp, body })?,
            Rec::LeafEnd => return Ok((alts, next)),
            Rec::Inner { .. } => return Err(FileFault::Damage),
            Rec::Leaf { .. } => return Err(FileFault::Damage),
            Rec::End { .. } => return Err(FileFault::Damage),
        }
        at = next;
    }
}

// The node at the offset under a parent that has the set, in which inner nodes nest at most so deep. With it come the offset
// behind it and the length of the body of its END, or 0 for a leaf.
#[cycle(read)]
fn read_node(
    alloc: Global,
    bytes: &[u8],
    at: usize,
    depth: u32,
    parent: &VersionSet,
) -> Result<(ANode, usize, u64), FileFault>
    requires { IsSet (pairs_of parent.now) }
    ensures found { (k : PlainNode) (rest : List ℕ)
        → NodeAt (pairs_of parent.now) k rest depth (drop at bytes.now)
        → Finds result (λ r. (node_view r.0 ≡ k) × (drop r.1 bytes.now ≡ rest)) }
    ensures lies { IfOk result (λ r. NodeAt (pairs_of parent.now) (node_view r.0)
        (drop r.1 bytes.now) depth (drop at bytes.now)) }
    ensures dir { IfOk result (λ r. r.2 ≡ (node_piece (pairs_of parent.now) (node_view r.0)).dir) }
    ensures further { IfOk result (λ r. at < r.1) }
    ensures within { IfOk result (λ r. r.1 ≤ length bytes.now) }
{
    let (rec, next) = read_record(alloc, bytes, at)?;
    match rec {
        Rec::Inner { label, stamp } => {
            if depth == 0 {
                return Err(FileFault::Damage);
            }
            let set = effective(&stamp, parent);
            let (kids, end, dir) = read_row(alloc, bytes, next, depth - 1, set)?;
            Ok((ANode::Inner { label, stamp, kids }, end, dir))
        }
        Rec::Leaf { label, stamp } => {
            let (alts, end) = read_alts(alloc, bytes, next)?;
            Ok((ANode::Leaf { label, stamp, alts }, end, 0))
        }
        Rec::Alt { .. } => Err(FileFault::Damage),
        Rec::End { .. } => Err(FileFault::Damage),
        Rec::LeafEnd => Err(FileFault::Damage),
    }
}

/// The nodes from the offset to the END that closes their row under a node that has the set, in which inner nodes nest at most
/// so deep. With them come the offset behind that END and the length of its body.
#[cycle(read)]
pub fn read_row(
    alloc: Global,
    bytes: &[u8],
    start: usize,
    depth: u32,
    set: &VersionSet,
) -> Result<(Vec<ANode>, usize, u64), FileFault>
    requires { IsSet (pairs_of set.now) }
    ensures found { (ks : PlainNodes) (rest : List ℕ)
        → RowAt (pairs_of set.now) ks rest depth (drop start bytes.now)
        → Finds result (λ r. (nodes_view r.0.items ≡ ks) × (drop r.1 bytes.now ≡ rest)) }
    ensures lie { IfOk result (λ r. RowAt (pairs_of set.now) (nodes_view r.0.items)
        (drop r.1 bytes.now) depth (drop start bytes.now)) }
    ensures dir { IfOk result (λ r. r.2
        ≡ length (dir_bytes (dir_of (node_pieces (pairs_of set.now) (nodes_view r.0.items))))) }
    ensures further { IfOk result (λ r. start ≤ r.1) }
    ensures within { IfOk result (λ r. r.1 ≤ length bytes.now) }
{
    let mut nodes = Vec::new(alloc);
    let mut entries = Vec::new(alloc);
    let mut at = start;
    loop {
        let Some((kind, body, next)) = take_frame(bytes, at) else {
            return Err(FileFault::Damage);
        };
        if kind == END {
            if !is_directory(alloc, body, set, &nodes, &entries)? {
                return Err(FileFault::Damage);
            }
            return Ok((fitted(nodes), next, body.len() as u64));
        }
        let (node, end, dir) = read_node(alloc, bytes, at, depth, set)?;
        entries.push(entry_of(start, at, end, dir))?;
        nodes.push(node)?;
        at = end;
    }
}
