// New nodes among those of a row.
ghost use Rattle.std.specs.Prelude.{◌≡◌, ◌++◌, OnOk, drop, take, vec_len};
ghost use Rattle.std.specs.Vec.Iter.{into_iter_items};
ghost use Rattle.new_archive.specs.Woven.{ArePlaced, woven};

use crate::node::NewNode;
use std::alloc::AllocError;
use std::vec::IntoIter;

// The row with new nodes, each before the node at its place. It moves no node before the first.
pub fn insert_all(row: &mut Vec<NewNode>, fresh: Vec<(usize, NewNode)>) -> Result<(), AllocError>
    requires { ArePlaced 0 (vec_len row.old) fresh.items }
    ensures { OnOk result (row.new.items ≡ woven 0 row.old.items fresh.items) }
{
    let at = match fresh.first() {
        Some(first) => first.0,
        None => return Ok(()),
    };
    let tail = row.split_off(at)?;
    row.reserve(tail.len().saturating_add(fresh.len()))?;
    weave(row, at, tail, fresh)
}

// The row, behind which these nodes follow from a place on, and new ones among them.
fn weave(
    row: &mut Vec<NewNode>,
    at: usize,
    tail: Vec<NewNode>,
    fresh: Vec<(usize, NewNode)>,
) -> Result<(), AllocError>
    ensures { OnOk result (row.new.items ≡ row.old.items ++ woven at tail.items fresh.items) }
{
    let mut rest = tail.into_iter();
    let mut fresh = fresh.into_iter();
    let mut at = at;
    while let Some((place, node)) = fresh.next() {
        move_nodes(row, &mut rest, place.saturating_sub(at))?;
        row.push(node)?;
        at = place;
    }
    let left = rest.len();
    move_nodes(row, &mut rest, left)
}

// The row with so many of the nodes that are left, if there are as many.
fn move_nodes(
    row: &mut Vec<NewNode>,
    rest: &mut IntoIter<NewNode>,
    count: usize,
) -> Result<(), AllocError>
    ensures row { OnOk result (row.new.items
        ≡ row.old.items ++ take count (into_iter_items rest.old)) }
    ensures rest { OnOk result (into_iter_items rest.new ≡ drop count (into_iter_items rest.old)) }
{
    let mut left = count;
    while left > 0 {
        match rest.next() {
            Some(node) => row.push(node)?,
            None => return Ok(()),
        }
        left -= 1;
    }
    Ok(())
}
