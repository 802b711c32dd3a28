// Making a tree.
ghost use Rattle.std.specs.Prelude.{◌≡◌, ℕ, ◌+◌, ◌<◌, length, map, IfOk};
ghost use Rattle.version_set.specs.View.{pairs_of};
ghost use Rattle.timestamp_tree.specs.Data.{leaves};
ghost use Rattle.timestamp_tree.specs.Bytes.{stored, tree_bytes};
ghost use Rattle.timestamp_tree.specs.Tree.{IsTree, joined};
ghost use Rattle.timestamp_tree.specs.PartView.{part_view};

use crate::part::{Part, set_of};
use std::alloc::{AllocError, Global};
use version_set::VersionSet;

/// The tree over these sets, and its size in bytes.
pub fn build(alloc: Global, sets: &[&VersionSet]) -> Result<(Part, u64), AllocError>
    requires { 0 < length sets.now }
    ensures tree { IfOk result (λ made. IsTree (part_view made.0)) }
    ensures leaves { IfOk result (λ made.
        leaves (part_view made.0) ≡ map (λ s. pairs_of s.now) sets.now) }
    ensures size { IfOk result (λ made. made.1 ≡ length (tree_bytes (part_view made.0))) }
{
    if sets.len() == 1 {
        let set = sets[0].copy()?;
        let size = own_size(&set);
        return Ok((Part::Leaf { set }, size));
    }
    let (front, back) = sets.split_at(sets.len().div_ceil(2));
    let (left, left_size) = build(alloc, front)?;
    let (right, right_size) = build(alloc, back)?;
    join(alloc, left, left_size, right, right_size)
}

/// The tree with these two parts, and its size in bytes.
fn join(
    alloc: Global,
    left: Part,
    left_size: u64,
    right: Part,
    right_size: u64,
) -> Result<(Part, u64), AllocError>
    requires left { left_size ≡ length (tree_bytes (part_view left)) }
    requires right { right_size ≡ length (tree_bytes (part_view right)) }
    ensures tree { IfOk result (λ made.
        part_view made.0 ≡ joined (part_view left) (part_view right)) }
    ensures size { IfOk result (λ made. made.1 ≡ length (tree_bytes (part_view made.0))) }
{
    let set = set_of(&left).union(set_of(&right))?;
    let size = whole_size(&set, left_size, right_size)?;
    let (left, right) = boxed(alloc, left, right)?;
    let joined = Part::Inner {
        set,
        left_size,
        left,
        right,
    };
    Ok((joined, size))
}

fn boxed(alloc: Global, left: Part, right: Part) -> Result<(Box<Part>, Box<Part>), AllocError>
    ensures { IfOk result (λ both. (both.0.value ≡ left) × (both.1.value ≡ right)) }
{
    let left = Box::new(alloc, left)?;
    let right = Box::new(alloc, right)?;
    Ok((left, right))
}

/// The bytes of a node with its parts. A size past a u64 finds no memory.
fn whole_size(set: &VersionSet, left_size: u64, right_size: u64) -> Result<u64, AllocError>
    ensures { IfOk result (λ size.
        size ≡ length (stored (pairs_of set.now) left_size) + (left_size + right_size)) }
{
    let parts = left_size.checked_add(right_size).ok_or(AllocError)?;
    own_size(set).checked_add(parts).ok_or(AllocError)
}

/// The bytes of a node without its parts.
fn own_size(set: &VersionSet) -> u64
    ensures { (left_size : ℕ) → result ≡ length (stored (pairs_of set.now) left_size) }
{
    12 + 8 * u64::from(set.count())
}
