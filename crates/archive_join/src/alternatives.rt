// Reading the alternatives of a leaf.
ghost use Rattle.std.specs.Prelude.{◌≤◌};
ghost use Rattle.std.specs.Result.{result_map_both};
ghost use Rattle.archive_join.specs.Leaves.{AlternativesRead};
ghost use Rattle.record_copy.specs.State.{beside};
ghost use Rattle.record_writer.specs.Data.{PlainWriter};

use record_copy::{Alternative, CopyFault, Raise, read_alternative};
use record_cursor::Cursor;
use xa_outside::Folder;

/// All alternatives of a leaf, as far as its end.
pub(crate) fn read_alternatives<F: Folder>(
    raise: &Raise,
    folder: &mut F,
    cursor: &mut Cursor,
) -> Result<Vec<Alternative>, CopyFault>
    requires within { cursor.old.at ≤ cursor.old.length }
    ensures { (w : PlainWriter) → AlternativesRead raise.entry.now.by
        (beside F.files F.draft F.numbers F.faults folder.old cursor.old w)
        (beside F.files F.draft F.numbers F.faults folder.new cursor.new w)
        (result_map_both (λ v. v.items) (λ e. e) result) }
{
    let mut all = Vec::new(raise.alloc);
    while let Some(alternative) = read_alternative(raise, folder, cursor)? {
        if all.push(alternative).is_err() {
            return Err(CopyFault::Memory);
        }
    }
    Ok(all)
}
