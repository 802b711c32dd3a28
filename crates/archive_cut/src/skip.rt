// Passing over nodes of which no version is left.
ghost use Rattle.std.specs.Prelude.{◌≤◌};
ghost use Rattle.record_copy.specs.State.{beside};
ghost use Rattle.archive_cut.specs.Skipped.{RowSkipped, AltsSkipped, ChildSkipped, BegunSkipped, ended_by};
ghost use Rattle.record_writer.specs.Data.{PlainWriter};

use record_copy::Kind;
use record_cursor::{Cursor, CursorFault, Item};
use xa_outside::Folder;

/// Passes over what is inside a node of this kind that was read, and over its end.
pub(crate) fn skip_begun<F: Folder>(
    folder: &mut F,
    cursor: &mut Cursor,
    kind: Kind,
) -> Result<(), CursorFault>
    requires within { cursor.old.at ≤ cursor.old.length }
    ensures { (w : PlainWriter) → BegunSkipped kind
        (beside F.files F.draft F.numbers F.faults folder.old cursor.old w)
        (beside F.files F.draft F.numbers F.faults folder.new cursor.new w) (ended_by result) }
{
    match kind {
        Kind::Inner => skip_row(folder, cursor),
        Kind::Leaf => skip_alts(folder, cursor),
    }
}

// Passes over the rest of a row, and over the END behind it.
#[cycle(skip)]
fn skip_row<F: Folder>(folder: &mut F, cursor: &mut Cursor) -> Result<(), CursorFault>
    requires within { cursor.old.at ≤ cursor.old.length }
    ensures { (w : PlainWriter) → RowSkipped
        (beside F.files F.draft F.numbers F.faults folder.old cursor.old w)
        (beside F.files F.draft F.numbers F.faults folder.new cursor.new w) (ended_by result) }
{
    while skip_child(folder, cursor)? {}
    Ok(())
}

// Passes over the next node of a row, or over the END behind the row: whether there was a node.
#[cycle(skip)]
fn skip_child<F: Folder>(folder: &mut F, cursor: &mut Cursor) -> Result<bool, CursorFault>
    requires within { cursor.old.at ≤ cursor.old.length }
    ensures { (w : PlainWriter) → ChildSkipped
        (beside F.files F.draft F.numbers F.faults folder.old cursor.old w)
        (beside F.files F.draft F.numbers F.faults folder.new cursor.new w) result }
{
    match cursor.next(folder)? {
        Item::Inner { .. } => skip_row(folder, cursor)?,
        Item::Leaf { .. } => skip_alts(folder, cursor)?,
        Item::End { .. } => return Ok(false),
        _ => return Err(CursorFault::Damage),
    }
    Ok(true)
}

// Passes over the alternatives of a leaf, and over its end.
fn skip_alts<F: Folder>(folder: &mut F, cursor: &mut Cursor) -> Result<(), CursorFault>
    requires within { cursor.old.at ≤ cursor.old.length }
    ensures { (w : PlainWriter) → AltsSkipped
        (beside F.files F.draft F.numbers F.faults folder.old cursor.old w)
        (beside F.files F.draft F.numbers F.faults folder.new cursor.new w) (ended_by result) }
{
    loop {
        match cursor.next(folder)? {
            Item::Alt { .. } => {}
            Item::LeafEnd => return Ok(()),
            _ => return Err(CursorFault::Damage),
        }
    }
}
