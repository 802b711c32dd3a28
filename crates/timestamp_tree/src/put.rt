// Writing the tree of some sets without holding it.
ghost use Rattle.std.specs.Prelude.{◌≡◌, ◌≤◌, ℕ, List, ◌-◌, ◌*◌, ◌++◌, length, map, take, drop, reverse, replicate, IsTrue, OnOk, IfOk};
ghost use Rattle.version_set.specs.View.{pairs_of};
ghost use Rattle.version_set.specs.Pairs.{IsCanonical};
ghost use Rattle.version_set.specs.Members.{united};
ghost use Rattle.xa_fields.specs.Laws.{Grows};
ghost use Rattle.xa_fields.specs.Spelling.{u64_bytes};
ghost use Rattle.timestamp_tree.specs.Data.{top};
ghost use Rattle.timestamp_tree.specs.Bytes.{stored, tree_bytes};
ghost use Rattle.timestamp_tree.specs.Tree.{tree_of};

use crate::encode::put_stored;
use std::alloc::AllocError;
use version_set::VersionSet;
use xa_fields::append_u64;

/// Appends the bytes of the tree over these sets, as `TsTree::of` and `encode` do together, and on
/// a refusal some bytes.
///
/// Beside the bytes it holds one set for each level of the tree, and where all sets are the same
/// the bytes of one leaf.
pub fn put_tree(out: &mut Vec<u8>, sets: &[&VersionSet]) -> Result<(), AllocError>
    requires { 1 ≤ length sets.now }
    ensures ok { OnOk result (out.new.items
        ≡ out.old.items ++ tree_bytes (tree_of (map (λ s. pairs_of s.now) sets.now))) }
    ensures grows { Grows out.old.items out.new.items }
{
    let first = sets[0];
    if are_all(sets, first) {
        return put_alike(out, first, sets.len());
    }
    let at = out.len();
    put_reversed(out, sets)?;
    reverse_from(out, at);
    Ok(())
}

/// Whether each of the sets is this one.
fn are_all(sets: &[&VersionSet], set: &VersionSet) -> bool
    ensures { IsTrue result
        → map (λ s. pairs_of s.now) sets.now ≡ replicate (length sets.now) (pairs_of set.now) }
{
    for other in sets {
        if !other.same(set) {
            return false;
        }
    }
    true
}

/// Appends the tree over so many sets that are all this one.
#[tactic(auto, using(xa_fields::proofs::Combinators::growth))]
fn put_alike(out: &mut Vec<u8>, set: &VersionSet, count: usize) -> Result<(), AllocError>
    requires { 1 ≤ count }
    ensures ok { OnOk result (out.new.items
        ≡ out.old.items ++ tree_bytes (tree_of (replicate count (pairs_of set.now)))) }
    ensures grows { Grows out.old.items out.new.items }
{
    if count == 1 {
        return put_stored(out, set, 0);
    }
    let size = 12 + 8 * set.count() as usize;
    let mut leaf = Vec::with_capacity(*out.allocator(), size)?;
    put_stored(&mut leaf, set, 0)?;
    put_copies(out, &leaf, count)
}

/// Appends the tree over so many sets that are all the one of this leaf.
#[tactic(auto, using(xa_fields::proofs::Combinators::growth))]
fn put_copies(out: &mut Vec<u8>, leaf: &[u8], count: usize) -> Result<(), AllocError>
    requires some { 1 ≤ count }
    requires whole { 8 ≤ length leaf.now }
    ensures ok { (set : List (ℕ × ℕ)) → IsCanonical set → leaf.now ≡ stored set 0
        → OnOk result (out.new.items
        ≡ out.old.items ++ tree_bytes (tree_of (replicate count set))) }
    ensures grows { Grows out.old.items out.new.items }
{
    if count == 1 {
        return out.extend_from_slice(leaf);
    }
    let front = count.div_ceil(2);
    put_above(out, leaf, front + (front - 1))?;
    put_copies(out, leaf, front)?;
    put_copies(out, leaf, count - front)
}

/// Appends the head of an inner node that has the set of this leaf, and so many nodes like it in
/// its left part.
#[tactic(auto, using(xa_fields::proofs::Combinators::growth))]
fn put_above(out: &mut Vec<u8>, leaf: &[u8], nodes: usize) -> Result<(), AllocError>
    requires { 8 ≤ length leaf.now }
    ensures ok { OnOk result (out.new.items ≡ out.old.items
        ++ (take (length leaf.now - 8) leaf.now ++ u64_bytes (nodes * length leaf.now))) }
    ensures grows { Grows out.old.items out.new.items }
{
    let left_size = nodes.checked_mul(leaf.len()).ok_or(AllocError)?;
    out.extend_from_slice(&leaf[..leaf.len() - 8])?;
    append_u64(out, left_size as u64)
}

/// Appends the tree's bytes in reverse, and gives the union of the sets. So the head of a node,
/// which needs the union and the size of the left part, comes behind both parts.
fn put_reversed(out: &mut Vec<u8>, sets: &[&VersionSet]) -> Result<VersionSet, AllocError>
    requires { 1 ≤ length sets.now }
    ensures set { IfOk result (λ set.
        pairs_of set ≡ top (tree_of (map (λ s. pairs_of s.now) sets.now))) }
    ensures ok { IfOk result (λ _. out.new.items ≡ out.old.items
        ++ reverse (tree_bytes (tree_of (map (λ s. pairs_of s.now) sets.now)))) }
    ensures grows { Grows out.old.items out.new.items }
{
    if sets.len() == 1 {
        put_head(out, sets[0], 0)?;
        return sets[0].copy();
    }
    let (front, back) = sets.split_at(sets.len().div_ceil(2));
    let right = put_reversed(out, back)?;
    let before = out.len();
    let left = put_reversed(out, front)?;
    let left_size = (out.len() - before) as u64;
    put_inner(out, left, right, left_size)
}

/// Appends the head of an inner node whose parts have these sets, in reverse, and gives its set.
fn put_inner(
    out: &mut Vec<u8>,
    left: VersionSet,
    right: VersionSet,
    left_size: u64,
) -> Result<VersionSet, AllocError>
    ensures set { IfOk result (λ set.
        pairs_of set ≡ united (pairs_of left) (pairs_of right)) }
    ensures ok { IfOk result (λ _. out.new.items ≡ out.old.items
        ++ reverse (stored (united (pairs_of left) (pairs_of right)) left_size)) }
    ensures grows { Grows out.old.items out.new.items }
{
    let set = union_of(left, right)?;
    put_head(out, &set, left_size)?;
    Ok(set)
}

/// The union of both sets, which often are the same: then it takes no memory.
pub fn union_of(left: VersionSet, right: VersionSet) -> Result<VersionSet, AllocError>
    ensures { IfOk result (λ set. pairs_of set ≡ united (pairs_of left) (pairs_of right)) }
{
    if left.same(&right) {
        return Ok(left);
    }
    left.union(&right)
}

/// Appends a node without its parts, in reverse.
#[tactic(auto, using(xa_fields::proofs::Combinators::growth))]
fn put_head(out: &mut Vec<u8>, set: &VersionSet, left_size: u64) -> Result<(), AllocError>
    ensures ok { OnOk result (out.new.items
        ≡ out.old.items ++ reverse (stored (pairs_of set.now) left_size)) }
    ensures grows { Grows out.old.items out.new.items }
{
    let at = out.len();
    put_stored(out, set, left_size)?;
    reverse_from(out, at);
    Ok(())
}

/// Reverses the bytes from here on.
fn reverse_from(out: &mut Vec<u8>, at: usize)
    requires { at ≤ length out.old.items }
    ensures { out.new.items ≡ take at out.old.items ++ reverse (drop at out.old.items) }
{
    out[at..].reverse();
}
