// The nodes of a row with the kids of a version.
ghost use Rattle.std.specs.Prelude.{◌≡◌, ◌≤◌, ◌<◌, ◌+◌, ◌++◌, ◌∷◌, [], IfOk, OnOk, IsTrue, drop, get_or, length, map, take, vec_len};
ghost use Rattle.keyed_tree.specs.Data.{kids_from};
ghost use Rattle.keyed_tree.specs.Kids.{ascend, are_ordered, IsOrdered};
ghost use Rattle.keyed_tree.specs.Lists.{Ascends};
ghost use Rattle.keyed_tree.specs.Order.{label_cmp};
ghost use Rattle.keyed_parts.specs.View.{kid_view, kids_view};
ghost use Rattle.new_archive.specs.Added.{added, new_full};
ghost use Rattle.new_archive.specs.Full.{PlainFull, full_label, fulls_from};
ghost use Rattle.new_archive.specs.Place.{added_list, IsPut};
ghost use Rattle.new_archive.specs.Ready.{AreReady, IsReady};
ghost use Rattle.new_archive.specs.View.{fresh_view, full_view, row_view};
ghost use Rattle.new_archive.specs.Woven.{ArePlaced};

use crate::find::place_of;
use crate::fresh::node_of;
use crate::leaf::{add_number, merge_alts};
use crate::node::NewNode;
use crate::weave::insert_all;
use keyed_parts::{Inside, Kid, Kids};
use std::alloc::{AllocError, Global};

/// The kids of a node become those with its kids in version n: each is looked up behind the one
/// before it, and what the version does not have is not touched. What is new takes its places at
/// the end, all at once.
#[cycle(merge)]
pub fn merge_kids(
    alloc: Global,
    n: u32,
    row: &mut Vec<NewNode>,
    new: Kids<'_, '_, '_>,
) -> Result<(), AllocError>
    requires from { 1 ≤ n }
    requires ready { AreReady n (fulls_from (row_view row.old.items)) }
    requires rising { Ascends label_cmp (map full_label (row_view row.old.items)) }
    requires ascending { IsTrue (ascend (kids_from (kids_view new))) }
    requires ordered { IsTrue (are_ordered (kids_from (kids_view new))) }
    ensures { OnOk result (row_view row.new.items
        ≡ added_list n (row_view row.old.items) (kids_view new.entry)) }
{
    let mut fresh = Vec::new(alloc);
    let mut left = new;
    let mut from = 0;
    while let Some((kid, behind)) = left.split_first() {
        from = put_kid(alloc, n, row, &mut fresh, from, kid)?;
        left = behind;
    }
    insert_all(row, fresh)
}

// A kid in its node, which is one of those from the place on, or new; and the place behind it.
#[cycle(merge)]
fn put_kid(
    alloc: Global,
    n: u32,
    row: &mut Vec<NewNode>,
    fresh: &mut Vec<(usize, NewNode)>,
    from: usize,
    kid: Kid<'_, '_, '_>,
) -> Result<usize, AllocError>
    requires from { 1 ≤ n }
    requires place { from ≤ vec_len row.old }
    requires placed { ArePlaced 0 from (fresh_view fresh.old.items) }
    requires ready { AreReady n (fulls_from (drop from (row_view row.old.items))) }
    requires rising { Ascends label_cmp (map full_label (drop from (row_view row.old.items))) }
    requires ordered { IsOrdered (kid_view kid) }
    ensures { IfOk result (λ to. IsPut n
        (row_view row.old.items) (fresh_view fresh.old.items) from (kid_view kid.entry)
        to (row_view row.new.items) (fresh_view fresh.new.items)) }
{
    match place_of(&row[from..], kid) {
        Ok(place) => {
            let at = from + place;
            merge_at(alloc, n, row, at, kid)?;
            Ok(at + 1)
        }
        Err(place) => {
            let at = from + place;
            begin_new(alloc, n, fresh, at, kid)?;
            Ok(at)
        }
    }
}

// A new node for the kid, which is to stand before the node at the place.
fn begin_new(
    alloc: Global,
    n: u32,
    fresh: &mut Vec<(usize, NewNode)>,
    at: usize,
    kid: Kid<'_, '_, '_>,
) -> Result<(), AllocError>
    requires { 1 ≤ n }
    ensures { OnOk result (fresh_view fresh.new.items
        ≡ fresh_view fresh.old.items ++ (at, new_full n (kid_view kid.entry)) ∷ []) }
{
    let node = node_of(alloc, n, kid)?;
    fresh.push((at, node))?;
    Ok(())
}

// The row with the kid's tree in the node at the place.
#[cycle(merge)]
fn merge_at(
    alloc: Global,
    n: u32,
    row: &mut [NewNode],
    at: usize,
    kid: Kid<'_, '_, '_>,
) -> Result<(), AllocError>
    requires from { 1 ≤ n }
    requires place { at < length row.old }
    requires ready { (d : PlainFull) → IsReady n (get_or (row_view row.old) at d) }
    requires ordered { IsOrdered (kid_view kid) }
    ensures { OnOk result ((d : PlainFull) → row_view row.new ≡ take at (row_view row.old)
        ++ added n (get_or (row_view row.old) at d) (kid_view kid.entry)
        ∷ drop (at + 1) (row_view row.old)) }
{
    merge_node(alloc, n, &mut row[at], kid)
}

// A node with its tree in version n.
#[cycle(merge)]
fn merge_node(
    alloc: Global,
    n: u32,
    node: &mut NewNode,
    new: Kid<'_, '_, '_>,
) -> Result<(), AllocError>
    requires from { 1 ≤ n }
    requires ready { IsReady n (full_view node.old) }
    requires ordered { IsOrdered (kid_view new) }
    ensures { OnOk result (full_view node.new ≡ added n (full_view node.old) (kid_view new.entry)) }
{
    match new.inside() {
        Inside::Kids(more) => match node {
            NewNode::Inner { set, kids, .. } => {
                merge_kids(alloc, n, kids, more)?;
                add_number(n, set)
            }
            // Between alike versions this does not come.
            NewNode::Leaf { .. } => Ok(()),
        },
        Inside::Body(body) => match node {
            NewNode::Leaf { set, alts, .. } => {
                merge_alts(alloc, n, body, alts)?;
                add_number(n, set)
            }
            // Between alike versions this does not come.
            NewNode::Inner { .. } => Ok(()),
        },
    }
}
