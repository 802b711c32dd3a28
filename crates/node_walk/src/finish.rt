// The end of a file.
ghost use Rattle.std.specs.Prelude.{◌≡◌, ◌≤◌, ℕ};
ghost use Rattle.record_cursor.specs.Places.{behind_root};
ghost use Rattle.node_walk.specs.Walked.{FinishRead};
ghost use Rattle.node_walk.specs.Seen.{seen};

use record_cursor::{Cursor, CursorFault, Item};
use xa_outside::Folder;

/// Reads that the file ends, behind the END of the root.
pub(crate) fn read_finish<F: Folder>(folder: &mut F, cursor: &mut Cursor) -> Result<(), CursorFault>
    requires { cursor.old.at ≤ cursor.old.length }
    ensures { (n : ℕ) → cursor.old.standing ≡ behind_root n → FinishRead n
        (seen F.files F.draft F.numbers F.faults folder.old cursor.old)
        (seen F.files F.draft F.numbers F.faults folder.new cursor.new) result }
{
    match cursor.next(folder) {
        Ok(Item::Finish) => Ok(()),
        Ok(_) => Err(CursorFault::Damage),
        Err(fault) => Err(fault),
    }
}
