// Keeping what there is to keep of a node that was judged.
ghost use Rattle.std.specs.Prelude.{◌≡◌, ◌≤◌, ◌<◌, ◌+◌, ◌^◌, Some, IsSome, OnOk, IfErr, length as count};
ghost use Rattle.archive_tree.specs.View.{stamp_view};
ghost use Rattle.keyed_tree.specs.Data.{PlainLabel};
ghost use Rattle.node_judge.specs.FrameView.{frame_view, kept_label};
ghost use Rattle.node_judge.specs.Rows.{behind_kid};
ghost use Rattle.record_cursor.specs.Faults.{IfDamage, IfFolder};
ghost use Rattle.row_ends.specs.Kids.{row_length, with_kid};
ghost use Rattle.row_ends.specs.KidsView.{kids_view};

use node_judge::{Frame, KeptLabel};
use record_cursor::CursorFault;
use row_ends::Kids;
use version_set::VersionSet;

/// Goes behind a kid with this label, of so many bytes, with an END of so many, and with this
/// timestamp. A row that already has as many kids as an END can count is damaged.
pub(crate) fn keep(
    frame: &mut Frame<'_>,
    kids: &mut Kids,
    label: &KeptLabel,
    length: u64,
    dir: u64,
    stamp: Option<VersionSet>,
) -> Result<(), CursorFault>
    requires label { IsSome (kept_label label.now) }
    requires short { row_length (kids_view kids.old).sizes + length < 2 ^ 64 }
    ensures frame { (l : PlainLabel) → kept_label label.now ≡ Some l
        → OnOk result (frame_view frame.new ≡ behind_kid (frame_view frame.old) l) }
    ensures kids { OnOk result (kids_view kids.new
        ≡ with_kid (kids_view kids.old) length dir (stamp_view stamp)) }
    ensures few { OnOk result (count (kids_view kids.new).sizes < 2 ^ 32) }
    ensures inside { IfErr result (λ e. IfFolder e ⊥) }
    ensures full { IfErr result
        (λ e. IfDamage e (2 ^ 32 ≤ count (kids_view kids.old).sizes + 1)) }
{
    if kids.count() == u32::MAX {
        return Err(CursorFault::Damage);
    }
    frame.pass(&label.lend())?;
    kids.push(length, dir, stamp)?;
    Ok(())
}
