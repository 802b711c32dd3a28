// Writing sets and trees.
ghost use Rattle.std.specs.Prelude.{◌≡◌, ◌++◌, ◌∷◌, [], OnOk};
ghost use Rattle.std.specs.List.{flat_map};
ghost use Rattle.version_set.specs.View.{pairs_of};
ghost use Rattle.xa_fields.specs.Laws.{Grows};
ghost use Rattle.timestamp_tree.specs.Bytes.{pair_bytes, set_bytes, stored, tree_bytes};
ghost use Rattle.timestamp_tree.specs.PartView.{part_view};

use crate::part::Part;
use std::alloc::AllocError;
use version_set::VersionSet;
use xa_fields::{append_u32, append_u64};

/// Appends the number of intervals and the intervals, and on a refusal some of it. It is for the
/// spelling of records, which take back what a refusal left.
#[tactic(auto, using(xa_fields::proofs::Combinators::growth))]
pub fn put_set(out: &mut Vec<u8>, set: &VersionSet) -> Result<(), AllocError>
    ensures ok { OnOk result (out.new.items ≡ out.old.items ++ set_bytes (pairs_of set.now)) }
    ensures grows { Grows out.old.items out.new.items }
{
    match set.pairs() {
        [(from, to)] => out.extend_from_slice(&spell_one(*from, *to)),
        pairs => {
            append_u32(out, set.count())?;
            put_pairs(out, pairs)
        }
    }
}

// The bytes of a set of one interval, as most are.
fn spell_one(from: u32, to: u32) -> [u8; 12]
    ensures { result ≡ set_bytes ((from, to) ∷ []) }
{
    let mut bytes = [0; 12];
    bytes[..4].copy_from_slice(&1u32.to_be_bytes());
    bytes[4..8].copy_from_slice(&from.to_be_bytes());
    bytes[8..].copy_from_slice(&to.to_be_bytes());
    bytes
}

#[tactic(auto, using(xa_fields::proofs::Combinators::growth))]
fn put_pairs(out: &mut Vec<u8>, pairs: &[(u32, u32)]) -> Result<(), AllocError>
    ensures ok { OnOk result (out.new.items ≡ out.old.items ++ flat_map pair_bytes pairs.now) }
    ensures grows { Grows out.old.items out.new.items }
{
    for (from, to) in pairs {
        append_u32(out, *from)?;
        append_u32(out, *to)?;
    }
    Ok(())
}

/// Appends a node without its parts, and on a refusal some of it.
#[tactic(auto, using(xa_fields::proofs::Combinators::growth))]
pub fn put_stored(out: &mut Vec<u8>, set: &VersionSet, left_size: u64) -> Result<(), AllocError>
    ensures ok { OnOk result (out.new.items
        ≡ out.old.items ++ stored (pairs_of set.now) left_size) }
    ensures grows { Grows out.old.items out.new.items }
{
    match set.pairs() {
        [(from, to)] => out.extend_from_slice(&spell_lone(*from, *to, left_size)),
        _ => {
            put_set(out, set)?;
            append_u64(out, left_size)
        }
    }
}

// The bytes of a node without its parts, whose set has one interval.
fn spell_lone(from: u32, to: u32, left_size: u64) -> [u8; 20]
    ensures { result ≡ stored ((from, to) ∷ []) left_size }
{
    let mut bytes = [0; 20];
    bytes[..12].copy_from_slice(&spell_one(from, to));
    bytes[12..].copy_from_slice(&left_size.to_be_bytes());
    bytes
}

/// Appends a tree in preorder, and on a refusal some of it.
#[tactic(auto, using(xa_fields::proofs::Combinators::growth, crate::proofs::Views::views))]
pub fn put_node(out: &mut Vec<u8>, node: &Part) -> Result<(), AllocError>
    ensures ok { OnOk result (out.new.items ≡ out.old.items ++ tree_bytes (part_view node.now)) }
    ensures grows { Grows out.old.items out.new.items }
{
    match node {
        Part::Leaf { set } => put_stored(out, set, 0),
        Part::Inner {
            set,
            left_size,
            left,
            right,
        } => {
            put_stored(out, set, *left_size)?;
            put_node(out, left)?;
            put_node(out, right)
        }
    }
}
