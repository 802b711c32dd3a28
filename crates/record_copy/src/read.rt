// Reading records, each of which is owned.
ghost use Rattle.std.specs.Prelude.{◌≤◌};
ghost use Rattle.record_writer.specs.Data.{PlainWriter};
ghost use Rattle.record_copy.specs.Reads.{AlternativeRead, HeadRead};
ghost use Rattle.record_copy.specs.State.{beside};

use crate::fault::CopyFault;
use crate::kind::Kind;
use crate::parts::{Alternative, Head};
use crate::raise::{Raise, raise_stamp};
use record_cursor::{Cursor, Item};
use record_parts::parts_are_read_as_spelled;
use xa_outside::Folder;

/// The next node of a row, or None for the END behind the row.
pub fn read_head<F: Folder>(
    raise: &Raise,
    folder: &mut F,
    cursor: &mut Cursor,
) -> Result<Option<Head>, CopyFault>
    requires within { cursor.old.at ≤ cursor.old.length }
    ensures { (w : PlainWriter) → HeadRead raise.entry.now.by
        (beside F.files F.draft F.numbers F.faults folder.old cursor.old w)
        (beside F.files F.draft F.numbers F.faults folder.new cursor.new w)
        result }
{
    parts_are_read_as_spelled();
    let (kind, label, stamp) = match cursor.next(folder)? {
        Item::Inner { label, stamp } => (Kind::Inner, label, stamp),
        Item::Leaf { label, stamp } => (Kind::Leaf, label, stamp),
        Item::End { .. } => return Ok(None),
        _ => return Err(CopyFault::Damage),
    };
    let stamp = raise_stamp(raise, stamp)?;
    let label = Vec::from_slice(raise.alloc, label.bytes())?;
    Ok(Some(Head { kind, label, stamp }))
}

/// The next alternative of a leaf, or None for the end of the leaf.
pub fn read_alternative<F: Folder>(
    raise: &Raise,
    folder: &mut F,
    cursor: &mut Cursor,
) -> Result<Option<Alternative>, CopyFault>
    requires within { cursor.old.at ≤ cursor.old.length }
    ensures { (w : PlainWriter) → AlternativeRead raise.entry.now.by
        (beside F.files F.draft F.numbers F.faults folder.old cursor.old w)
        (beside F.files F.draft F.numbers F.faults folder.new cursor.new w)
        result }
{
    parts_are_read_as_spelled();
    let (stored, body) = match cursor.next(folder)? {
        Item::Alt { stamp, body } => (stamp, body),
        Item::LeafEnd => return Ok(None),
        _ => return Err(CopyFault::Damage),
    };
    let stamp = raise_stamp(raise, stored)?;
    let body = Vec::from_slice(raise.alloc, body.bytes())?;
    Ok(Some(Alternative { stamp, body }))
}
