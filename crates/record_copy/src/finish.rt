// The end of an archive file.
ghost use Rattle.std.specs.Prelude.{◌≤◌, ℕ};
ghost use Rattle.record_copy.specs.Reads.{FinishRead};
ghost use Rattle.record_copy.specs.State.{beside};
ghost use Rattle.record_writer.specs.Data.{PlainWriter};

use crate::fault::CopyFault;
use record_cursor::{Cursor, Item};
use xa_outside::Folder;

/// Reads that the file ends, behind the END of the virtual root.
pub fn read_finish<F: Folder>(folder: &mut F, cursor: &mut Cursor) -> Result<(), CopyFault>
    requires within { cursor.old.at ≤ cursor.old.length }
    ensures { (w : PlainWriter) (n : ℕ) → FinishRead n
        (beside F.files F.draft F.numbers F.faults folder.old cursor.old w)
        (beside F.files F.draft F.numbers F.faults folder.new cursor.new w)
        result }
{
    match cursor.next(folder)? {
        Item::Finish => Ok(()),
        _ => Err(CopyFault::Damage),
    }
}
