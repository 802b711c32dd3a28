// What comes next in a row.
ghost use Rattle.std.specs.Prelude.{◌≡◌, ◌≤◌, IfOk, IfErr};
ghost use Rattle.archive_tree.specs.View.{stamp_view};
ghost use Rattle.node_judge.specs.FrameView.{kept_label};
ghost use Rattle.record_cursor.specs.Faults.{IfDamage, IfFolder};
ghost use Rattle.record_cursor.specs.View.{shown_item};
ghost use Rattle.record_parts.specs.Bounds.{IsStamp};
ghost use Rattle.record_parts.specs.ShownViews.{shown_stamp};
ghost use Rattle.node_walk.specs.Next.{next_view, IsBesides, HasStamp, HasLabel};
ghost use Rattle.node_walk.specs.Places.{IsAmongNodes};
ghost use Rattle.node_walk.specs.Walked.{NextRead};
ghost use Rattle.node_walk.specs.Seen.{seen};

use node_judge::KeptLabel;
use record_cursor::{Cursor, CursorFault, Item};
use record_parts::StampView;
use std::alloc::{AllocError, Global};
use version_set::VersionSet;
use xa_outside::Folder;

/// What comes next in a row: a record that opens a node, whose label is kept apart, or the END.
#[derive(Drop)]
pub(crate) enum Next {
    Inner { stamp: Option<VersionSet> },
    Leaf { stamp: Option<VersionSet> },
    End { length: u64 },
}

/// What stands at the cursor in a row, with a timestamp of its own. The label is kept, and the
/// cursor moves behind the record.
pub(crate) fn next_in_row<F: Folder>(
    alloc: Global,
    folder: &mut F,
    cursor: &mut Cursor,
    label: &mut KeptLabel,
) -> Result<Next, CursorFault>
    requires within { cursor.old.at ≤ cursor.old.length }
    requires among { IsAmongNodes cursor.old.standing }
    ensures { NextRead (kept_label label.new)
        (seen F.files F.draft F.numbers F.faults folder.old cursor.old)
        (seen F.files F.draft F.numbers F.faults folder.new cursor.new) result }
{
    match cursor.next(folder) {
        Ok(item) => own(alloc, item, label),
        Err(fault) => Err(fault),
    }
}

/// The item, if it comes in a row, with a timestamp of its own. Its label is kept.
fn own(alloc: Global, item: Item<'_>, label: &mut KeptLabel) -> Result<Next, CursorFault>
    ensures is { IfOk result (λ n. next_view (kept_label label.new) n ≡ shown_item item.entry) }
    ensures label { IfOk result (HasLabel (kept_label label.new)) }
    ensures stamp { IfOk result HasStamp }
    ensures inside { IfErr result (λ e. IfFolder e ⊥) }
    ensures damage { IfErr result (λ e. IfDamage e (IsBesides (shown_item item.entry))) }
{
    match item {
        Item::Inner { label: own, stamp } => {
            label.set(&own)?;
            let stamp = copy_stamp(alloc, &stamp)?;
            Ok(Next::Inner { stamp })
        }
        Item::Leaf { label: own, stamp } => {
            label.set(&own)?;
            let stamp = copy_stamp(alloc, &stamp)?;
            Ok(Next::Leaf { stamp })
        }
        Item::End { length } => Ok(Next::End { length }),
        _ => Err(CursorFault::Damage),
    }
}

/// The timestamp, which has an encoding.
fn copy_stamp(alloc: Global, stamp: &StampView<'_>) -> Result<Option<VersionSet>, AllocError>
    ensures is { IfOk result (λ s. stamp_view s ≡ shown_stamp stamp.now) }
    ensures stamp { IsStamp (shown_stamp stamp.now) }
{
    // The bytes say that it has an encoding.
    let _bytes = stamp.bytes();
    stamp.copy(alloc)
}
