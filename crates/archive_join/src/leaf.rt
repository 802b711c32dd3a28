// Leaves that both archives have.
ghost use Rattle.std.specs.Prelude.{◌≡◌, ◌≢◌, ◌≤◌, None};
ghost use Rattle.archive_join.specs.Faults.{fault_of};
ghost use Rattle.archive_join.specs.Leaves.{FirstPut, LeafJoined, OthersPut};
ghost use Rattle.archive_join.specs.State.{state};
ghost use Rattle.record_copy.specs.Faults as faults;
ghost use Rattle.record_copy.specs.State as copy;
ghost use Rattle.record_cursor.specs.View.{PlainCursor};
ghost use Rattle.record_writer.specs.View.{writer_view};
ghost use Rattle.version_set.specs.View.{pairs_of};

use crate::alternatives::read_alternatives;
use crate::fault::{JoinFault, of_side};
use crate::held::Held;
use crate::sets::{Sets, alone_stamp};
use crate::sides::Sides;
use record_copy::{CopyFault, Raise, put_alternative, read_alternative, written};
use record_cursor::Cursor;
use record_writer::Writer;
use xa_outside::Folder;

/// Writes the alternatives of a leaf that both have and that was begun, as far as its ends, and
/// closes it. Those of the second are held.
pub(crate) fn join_leaf<F: Folder>(
    sides: &Sides,
    folder: &mut F,
    left: &mut Cursor,
    right: &mut Cursor,
    writer: &mut Writer,
    own: &Sets,
) -> Result<(), JoinFault>
    requires left { left.old.at ≤ left.old.length }
    requires right { right.old.at ≤ right.old.length }
    requires leaf { (writer_view writer.old).leaf ≢ None }
    ensures { LeafJoined sides.now.two.by (pairs_of own.now.one) (pairs_of own.now.two)
        (state F.files F.draft F.numbers F.faults folder.old left.old right.old writer.old)
        (state F.files F.draft F.numbers F.faults folder.new left.new right.new writer.new)
        (fault_of result) }
{
    let all = of_side(true, read_alternatives(&sides.two, folder, right))?;
    let mut held = Held::of(all)?;
    of_side(
        false,
        put_first(&sides.one, folder, left, writer, own, &mut held),
    )?;
    of_side(false, put_others(folder, writer, own, held))
}

// Writes the alternatives of the first, as far as the end of its leaf, each with the versions of
// that of the second that has its body.
fn put_first<F: Folder>(
    raise: &Raise,
    folder: &mut F,
    cursor: &mut Cursor,
    writer: &mut Writer,
    own: &Sets,
    held: &mut Held,
) -> Result<(), CopyFault>
    requires within { cursor.old.at ≤ cursor.old.length }
    requires leaf { (writer_view writer.old).leaf ≢ None }
    requires first { raise.now.by ≡ 0 }
    ensures { FirstPut (pairs_of own.now.one) (pairs_of own.now.two) held.old held.new
        (copy.state F.files F.draft F.numbers F.faults folder.old cursor.old writer.old)
        (copy.state F.files F.draft F.numbers F.faults folder.new cursor.new writer.new)
        (faults.fault_of result) }
{
    while let Some(alternative) = read_alternative(raise, folder, cursor)? {
        let stamp = held.stamp_with(own, &alternative)?;
        put_alternative(folder, writer, &alternative, &stamp)?;
    }
    Ok(())
}

// Writes those of the second whose bodies the first has not, and closes the leaf.
fn put_others<F: Folder>(
    folder: &mut F,
    writer: &mut Writer,
    own: &Sets,
    held: Held,
) -> Result<(), CopyFault>
    requires leaf { (writer_view writer.old).leaf ≢ None }
    ensures { (c : PlainCursor) → c.at ≤ c.length
        → OthersPut (pairs_of own.now.one) (pairs_of own.now.two) held
        (copy.state F.files F.draft F.numbers F.faults folder.old c writer.old)
        (copy.state F.files F.draft F.numbers F.faults folder.new c writer.new)
        (faults.fault_of result) }
{
    let others = held.others()?;
    for alternative in &others {
        let stamp = alone_stamp(&own.two, &own.one, &alternative.stamp)?;
        put_alternative(folder, writer, alternative, &stamp)?;
    }
    written(writer.end_leaf(folder))
}
