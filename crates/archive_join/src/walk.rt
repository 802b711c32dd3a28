// Going along the nodes of both archives, row by row.
ghost use Rattle.std.specs.Prelude.{◌≡◌, ◌≤◌, None, Some};
ghost use Rattle.archive_join.specs.Faults.{fault_of};
ghost use Rattle.archive_join.specs.Heads.{one_of, turn, two_of};
ghost use Rattle.archive_join.specs.State.{state};
ghost use Rattle.archive_join.specs.Walked.{InsideJoined, NodeJoined, PairJoined, RowJoined, TurnJoined};
ghost use Rattle.record_copy.specs.Parts.{head_view};
ghost use Rattle.record_copy.specs.Passes.{IsOpen};
ghost use Rattle.record_writer.specs.View.{writer_view};
ghost use Rattle.std.specs.declared.cmp.Ordering.TheVariants.{Equal};
ghost use Rattle.version_set.specs.View.{pairs_of};

use crate::fault::{JoinFault, of_side};
use crate::heads::{Heads, next_of, pass_alone, read_heads};
use crate::leaf::join_leaf;
use crate::sets::{Sets, own_sets, paired_stamp};
use crate::sides::Sides;
use record_copy::{Head, Kind, begin_node, written};
use record_cursor::Cursor;
use record_writer::Writer;
use std::cmp::Ordering;
use xa_outside::Folder;

/// Writes the nodes of the rest of a row in both archives, and takes the ENDs behind it, under a
/// node that has these sets.
#[cycle(walk)]
pub(crate) fn join_row<F: Folder>(
    sides: &Sides,
    folder: &mut F,
    left: &mut Cursor,
    right: &mut Cursor,
    writer: &mut Writer,
    sets: &Sets,
) -> Result<(), JoinFault>
    requires left { left.old.at ≤ left.old.length }
    requires right { right.old.at ≤ right.old.length }
    requires no_leaf { (writer_view writer.old).leaf ≡ None }
    ensures { RowJoined sides.now.two.by (pairs_of sets.now.one) (pairs_of sets.now.two)
        (pairs_of sets.now.both)
        (state F.files F.draft F.numbers F.faults folder.old left.old right.old writer.old)
        (state F.files F.draft F.numbers F.faults folder.new left.new right.new writer.new)
        (fault_of result) }
{
    let mut heads = read_heads(sides, folder, left, right)?;
    while join_turn(sides, folder, left, right, writer, sets, &mut heads)? {}
    Ok(())
}

// Writes the next node of a row, which one archive has, or both, and reads the heads behind it:
// whether there was one.
#[cycle(walk)]
fn join_turn<F: Folder>(
    sides: &Sides,
    folder: &mut F,
    left: &mut Cursor,
    right: &mut Cursor,
    writer: &mut Writer,
    sets: &Sets,
    heads: &mut Heads,
) -> Result<bool, JoinFault>
    requires left { left.old.at ≤ left.old.length }
    requires right { right.old.at ≤ right.old.length }
    requires no_leaf { (writer_view writer.old).leaf ≡ None }
    ensures { TurnJoined sides.now.two.by (pairs_of sets.now.one) (pairs_of sets.now.two)
        (pairs_of sets.now.both) (one_of heads.old) (two_of heads.old) (one_of heads.new)
        (two_of heads.new)
        (state F.files F.draft F.numbers F.faults folder.old left.old right.old writer.old)
        (state F.files F.draft F.numbers F.faults folder.new left.new right.new writer.new)
        result }
{
    let (one, two) = (&sets.one, &sets.two);
    match next_of(heads) {
        None => return Ok(false),
        Some(Ordering::Less) => {
            let passed = pass_alone(&sides.one, folder, left, writer, one, two, &mut heads.one);
            of_side(false, passed)?;
        }
        Some(Ordering::Greater) => {
            let passed = pass_alone(&sides.two, folder, right, writer, two, one, &mut heads.two);
            of_side(true, passed)?;
        }
        Some(Ordering::Equal) => join_pair(sides, folder, left, right, writer, sets, heads)?,
    }
    Ok(true)
}

// Writes the node that both archives have next, and reads the heads behind it.
#[cycle(walk)]
fn join_pair<F: Folder>(
    sides: &Sides,
    folder: &mut F,
    left: &mut Cursor,
    right: &mut Cursor,
    writer: &mut Writer,
    sets: &Sets,
    heads: &mut Heads,
) -> Result<(), JoinFault>
    requires left { left.old.at ≤ left.old.length }
    requires right { right.old.at ≤ right.old.length }
    requires no_leaf { (writer_view writer.old).leaf ≡ None }
    requires pair { turn (one_of heads.old) (two_of heads.old) ≡ Some Equal }
    ensures { PairJoined sides.now.two.by (pairs_of sets.now.one) (pairs_of sets.now.two)
        (pairs_of sets.now.both) (one_of heads.old) (two_of heads.old) (one_of heads.new)
        (two_of heads.new)
        (state F.files F.draft F.numbers F.faults folder.old left.old right.old writer.old)
        (state F.files F.draft F.numbers F.faults folder.new left.new right.new writer.new)
        (fault_of result) }
{
    if let (Some(one), Some(two)) = (&heads.one, &heads.two) {
        join_node(sides, folder, left, right, writer, sets, one, two)?;
    }
    *heads = read_heads(sides, folder, left, right)?;
    Ok(())
}

// Writes a node that both have, whose heads were read, of one kind and label.
#[cycle(walk)]
fn join_node<F: Folder>(
    sides: &Sides,
    folder: &mut F,
    left: &mut Cursor,
    right: &mut Cursor,
    writer: &mut Writer,
    sets: &Sets,
    one: &Head,
    two: &Head,
) -> Result<(), JoinFault>
    requires left { left.old.at ≤ left.old.length }
    requires right { right.old.at ≤ right.old.length }
    requires no_leaf { (writer_view writer.old).leaf ≡ None }
    requires kind { (head_view one.now).kind ≡ (head_view two.now).kind }
    ensures { NodeJoined sides.now.two.by (pairs_of sets.now.one) (pairs_of sets.now.two)
        (pairs_of sets.now.both) (head_view one.now) (head_view two.now)
        (state F.files F.draft F.numbers F.faults folder.old left.old right.old writer.old)
        (state F.files F.draft F.numbers F.faults folder.new left.new right.new writer.new)
        (fault_of result) }
{
    let stamp = paired_stamp(sets, &one.stamp, &two.stamp)?;
    let own = own_sets(sets, &one.stamp, &two.stamp, &stamp)?;
    of_side(false, begin_node(folder, writer, one, &stamp, &own.both))?;
    join_begun(sides, folder, left, right, writer, one.kind, &own)
}

// Writes the inside of a node of this kind that was begun, which both have with these sets, and
// closes it.
#[cycle(walk)]
fn join_begun<F: Folder>(
    sides: &Sides,
    folder: &mut F,
    left: &mut Cursor,
    right: &mut Cursor,
    writer: &mut Writer,
    kind: Kind,
    own: &Sets,
) -> Result<(), JoinFault>
    requires left { left.old.at ≤ left.old.length }
    requires right { right.old.at ≤ right.old.length }
    requires stands { IsOpen kind (writer_view writer.old) }
    ensures { InsideJoined kind sides.now.two.by (pairs_of own.now.one) (pairs_of own.now.two)
        (pairs_of own.now.both)
        (state F.files F.draft F.numbers F.faults folder.old left.old right.old writer.old)
        (state F.files F.draft F.numbers F.faults folder.new left.new right.new writer.new)
        (fault_of result) }
{
    match kind {
        Kind::Inner => {
            join_row(sides, folder, left, right, writer, own)?;
            of_side(false, written(writer.end_inner(folder)))
        }
        Kind::Leaf => join_leaf(sides, folder, left, right, writer, own),
    }
}
