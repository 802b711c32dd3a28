// Planning the timestamp tree over the sets of a row.
ghost use Rattle.std.specs.Prelude.{◌≡◌, ◌+◌, ◌≤◌, ◌<◌, ℕ, length, map, IfOk, IsTrue};
ghost use Rattle.version_set.specs.View.{pairs_of};
ghost use Rattle.version_set.specs.Members.{united};
ghost use Rattle.timestamp_tree.specs.Bytes.{stored};
ghost use Rattle.timestamp_tree.specs.Data.{leaf};
ghost use Rattle.timestamp_tree.specs.Tree.{tree_of};
ghost use Rattle.record_writer.specs.Places.{above, set_at};
ghost use Rattle.record_writer.specs.Plans.{above_nodes, United, Joined, Planned};

use std::alloc::AllocError;
use version_set::VersionSet;

/// A node of a timestamp tree: the place of its set, and the size of its left part.
#[derive(Drop)]
pub struct TreeNode {
    pub set: usize,
    pub left: u64,
}

/// A timestamp tree: the place of its set, and its size.
#[derive(Clone, Copy, Drop)]
pub struct Plan {
    pub set: usize,
    pub size: u64,
}

/// Plans the tree over the sets at these places. Its nodes are added from the last to the first,
/// and the sets that are unions of others. A size past a u64 finds no memory.
pub fn plan_tree(
    places: &[usize],
    sets: &mut Vec<VersionSet>,
    nodes: &mut Vec<TreeNode>,
) -> Result<Plan, AllocError>
    requires some { 1 ≤ length places.now }
    requires known { above places.now ≤ length sets.old.items }
    requires nodes { above_nodes nodes.old.items ≤ length sets.old.items }
    ensures planned { IfOk result (λ plan. Planned sets.old.items sets.new.items
        nodes.old.items nodes.new.items (tree_of (map (set_at sets.old.items) places.now)) plan) }
    ensures more { length sets.old.items ≤ length sets.new.items }
{
    if places.len() == 1 {
        return plan_leaf(places[0], sets, nodes);
    }
    let (front, back) = places.split_at(places.len().div_ceil(2));
    let right = plan_tree(back, sets, nodes)?;
    let left = plan_tree(front, sets, nodes)?;
    plan_inner(left, right, sets, nodes)
}

fn plan_leaf(
    place: usize,
    sets: &[VersionSet],
    nodes: &mut Vec<TreeNode>,
) -> Result<Plan, AllocError>
    requires known { place < length sets.now }
    requires nodes { above_nodes nodes.old.items ≤ length sets.now }
    ensures { IfOk result (λ plan. Planned sets.now sets.now nodes.old.items nodes.new.items
        (leaf (set_at sets.now place)) plan) }
{
    let size = own_size(sets, place);
    nodes.push(TreeNode {
        set: place,
        left: 0,
    })?;
    Ok(Plan { set: place, size })
}

/// Adds the node above two trees.
fn plan_inner(
    left: Plan,
    right: Plan,
    sets: &mut Vec<VersionSet>,
    nodes: &mut Vec<TreeNode>,
) -> Result<Plan, AllocError>
    requires left { left.set < length sets.old.items }
    requires right { right.set < length sets.old.items }
    requires nodes { above_nodes nodes.old.items ≤ length sets.old.items }
    ensures joined { IfOk result (λ plan. Joined sets.old.items sets.new.items
        nodes.old.items nodes.new.items left right plan) }
    ensures more { length sets.old.items ≤ length sets.new.items }
{
    let set = unite(left.set, right.set, sets)?;
    let size = whole_size(sets, set, left.size, right.size)?;
    nodes.push(TreeNode {
        set,
        left: left.size,
    })?;
    Ok(Plan { set, size })
}

/// The place of the union of both sets, which often are the same.
fn unite(one: usize, two: usize, sets: &mut Vec<VersionSet>) -> Result<usize, AllocError>
    requires one { one < length sets.old.items }
    requires two { two < length sets.old.items }
    ensures united { IfOk result (λ at. United sets.old.items sets.new.items one two at) }
    ensures more { length sets.old.items ≤ length sets.new.items }
{
    if one == two {
        return Ok(one);
    }
    let both = union_at(sets, one, two)?;
    if is_at(sets, one, &both) {
        return Ok(one);
    }
    if is_at(sets, two, &both) {
        return Ok(two);
    }
    let at = sets.len();
    sets.push(both)?;
    Ok(at)
}

/// The union of the sets at these places.
fn union_at(sets: &[VersionSet], one: usize, two: usize) -> Result<VersionSet, AllocError>
    requires one { one < length sets.now }
    requires two { two < length sets.now }
    ensures { IfOk result (λ both.
        pairs_of both ≡ united (set_at sets.now one) (set_at sets.now two)) }
{
    sets[one].union(&sets[two])
}

/// Whether this set is at the place.
fn is_at(sets: &[VersionSet], at: usize, set: &VersionSet) -> bool
    requires { at < length sets.now }
    ensures { IsTrue result → set_at sets.now at ≡ pairs_of set.now }
{
    sets[at].same(set)
}

/// The bytes of a node with its parts.
fn whole_size(
    sets: &[VersionSet],
    at: usize,
    left_size: u64,
    right_size: u64,
) -> Result<u64, AllocError>
    requires { at < length sets.now }
    ensures { IfOk result (λ size.
        size ≡ length (stored (set_at sets.now at) left_size) + (left_size + right_size)) }
{
    let parts = added(left_size, right_size)?;
    added(own_size(sets, at), parts)
}

/// The sum of two sizes. One past a u64 finds no memory.
pub fn added(one: u64, two: u64) -> Result<u64, AllocError>
    ensures { IfOk result (λ sum. sum ≡ one + two) }
{
    one.checked_add(two).ok_or(AllocError)
}

/// The bytes of a node without its parts.
fn own_size(sets: &[VersionSet], at: usize) -> u64
    requires { at < length sets.now }
    ensures { (left_size : ℕ) → result ≡ length (stored (set_at sets.now at) left_size) }
{
    12 + 8 * u64::from(sets[at].count())
}
