// The nodes of a row.
ghost use Rattle.std.specs.Prelude.{◌≡◌, ◌≤◌, Some, IsSome};
ghost use Rattle.archive_tree.specs.View.{stamp_view};
ghost use Rattle.keyed_tree.specs.Data.{PlainLabel};
ghost use Rattle.node_judge.specs.FrameView.{frame_view, kept_label};
ghost use Rattle.record_parts.specs.Bounds.{IsSet, IsStamp};
ghost use Rattle.row_ends.specs.Kids.{no_kids};
ghost use Rattle.row_ends.specs.KidsView.{kids_view};
ghost use Rattle.node_walk.specs.Places.{IsAmongNodes, IsInLeaf};
ghost use Rattle.node_walk.specs.Walked.{InRowJudged, InnerJudged, LeafJudged, RowJudged};
ghost use Rattle.node_walk.specs.Seen.{seen};

use crate::alternatives::judge_alternatives;
use crate::ends::judge_end;
use crate::keep::keep;
use crate::next::{Next, next_in_row};
use node_judge::{Frame, KeptLabel, keys_of};
use record_cursor::{Cursor, CursorFault};
use row_ends::{Kids, Room};
use std::alloc::Global;
use version_set::VersionSet;
use xa_outside::Folder;

/// What came in a row: a node, which is right in its place, with its timestamp and the length of the
/// body of its END, or 0 for a leaf; or the END of the row, whose body has so many bytes and was
/// passed over.
#[derive(Drop)]
pub(crate) enum InRow {
    Kid { stamp: Option<VersionSet>, dir: u64 },
    End { length: u64 },
}

/// Judges the nodes of a row, to its END, and answers the length of that one's body. What is kept of
/// the nodes is added to the kids.
#[cycle(walk)]
pub(crate) fn judge_row<F: Folder>(
    alloc: Global,
    room: &mut Room,
    folder: &mut F,
    name: &str,
    cursor: &mut Cursor,
    frame: &mut Frame<'_>,
    kids: &mut Kids,
) -> Result<u64, CursorFault>
    requires named { name.now ≡ cursor.old.name }
    requires within { cursor.old.at ≤ cursor.old.length }
    requires among { IsAmongNodes cursor.old.standing }
    requires set { IsSet (frame_view frame.old).set }
    requires none { kids_view kids.old ≡ no_kids }
    ensures { RowJudged (frame_view frame.old) (kids_view kids.new)
        (seen F.files F.draft F.numbers F.faults folder.old cursor.old)
        (seen F.files F.draft F.numbers F.faults folder.new cursor.new) result }
{
    let mut label = KeptLabel::none(alloc);
    loop {
        let start = cursor.at();
        match judge_in_row(alloc, room, folder, name, cursor, frame, &mut label)? {
            InRow::Kid { stamp, dir } => {
                keep(frame, kids, &label, cursor.at() - start, dir, stamp)?;
            }
            InRow::End { length } => {
                judge_end(room, folder, name, cursor, frame, kids, length)?;
                return Ok(length);
            }
        }
    }
}

/// Judges the next node of a row, whose label is kept, or passes over the END behind the row.
#[cycle(walk)]
fn judge_in_row<F: Folder>(
    alloc: Global,
    room: &mut Room,
    folder: &mut F,
    name: &str,
    cursor: &mut Cursor,
    frame: &Frame<'_>,
    label: &mut KeptLabel,
) -> Result<InRow, CursorFault>
    requires named { name.now ≡ cursor.old.name }
    requires within { cursor.old.at ≤ cursor.old.length }
    requires among { IsAmongNodes cursor.old.standing }
    requires set { IsSet (frame_view frame.now).set }
    ensures { InRowJudged (frame_view frame.now) (kept_label label.new)
        (seen F.files F.draft F.numbers F.faults folder.old cursor.old)
        (seen F.files F.draft F.numbers F.faults folder.new cursor.new) result }
{
    match next_in_row(alloc, folder, cursor, label)? {
        Next::Inner { stamp } => {
            let dir = judge_inner(alloc, room, folder, name, cursor, frame, label, &stamp)?;
            Ok(InRow::Kid { stamp, dir })
        }
        Next::Leaf { stamp } => {
            judge_leaf(alloc, folder, cursor, frame, label, &stamp)?;
            Ok(InRow::Kid { stamp, dir: 0 })
        }
        Next::End { length } => Ok(InRow::End { length }),
    }
}

/// Judges an inner node behind the record that opens it, and answers the length of the body of its
/// END.
#[cycle(walk)]
fn judge_inner<F: Folder>(
    alloc: Global,
    room: &mut Room,
    folder: &mut F,
    name: &str,
    cursor: &mut Cursor,
    frame: &Frame<'_>,
    label: &KeptLabel,
    stamp: &Option<VersionSet>,
) -> Result<u64, CursorFault>
    requires named { name.now ≡ cursor.old.name }
    requires within { cursor.old.at ≤ cursor.old.length }
    requires among { IsAmongNodes cursor.old.standing }
    requires set { IsSet (frame_view frame.now).set }
    requires label { IsSome (kept_label label.now) }
    requires stamp { IsStamp (stamp_view stamp.now) }
    ensures { (l : PlainLabel) → kept_label label.now ≡ Some l
        → InnerJudged (frame_view frame.now) l (stamp_view stamp.now)
        (seen F.files F.draft F.numbers F.faults folder.old cursor.old)
        (seen F.files F.draft F.numbers F.faults folder.new cursor.new) result }
{
    let label = (&*label).lend();
    let keys = keys_of(alloc, &label)?;
    match (&*frame).open_inner(alloc, &label, &keys, &*stamp)? {
        Some(mut below) => {
            let mut kids = Kids::new(alloc);
            judge_row(alloc, room, folder, name, cursor, &mut below, &mut kids)
        }
        None => Err(CursorFault::Damage),
    }
}

/// Judges a leaf behind the record that opens it.
fn judge_leaf<F: Folder>(
    alloc: Global,
    folder: &mut F,
    cursor: &mut Cursor,
    frame: &Frame<'_>,
    label: &KeptLabel,
    stamp: &Option<VersionSet>,
) -> Result<(), CursorFault>
    requires within { cursor.old.at ≤ cursor.old.length }
    requires inside { IsInLeaf cursor.old.standing }
    requires label { IsSome (kept_label label.now) }
    ensures { (l : PlainLabel) → kept_label label.now ≡ Some l
        → LeafJudged (frame_view frame.now) l (stamp_view stamp.now)
        (seen F.files F.draft F.numbers F.faults folder.old cursor.old)
        (seen F.files F.draft F.numbers F.faults folder.new cursor.new) result }
{
    let label = label.lend();
    let keys = keys_of(alloc, &label)?;
    match frame.open_leaf(alloc, &label, &keys, stamp)? {
        Some(leaf) => judge_alternatives(alloc, folder, cursor, leaf),
        None => Err(CursorFault::Damage),
    }
}
