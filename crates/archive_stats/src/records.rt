// The counts of records that a cursor gives.
ghost use Rattle.std.specs.Prelude.{◌≡◌, ◌≤◌, ◌+◌, ◌-◌, ◌^◌};
ghost use Rattle.record_parts.specs.ShownViews.{shown_stamp};
ghost use Rattle.record_cursor.specs.View.{shown_item};
ghost use Rattle.archive_stats.specs.Counted.{RecordsCounted, seen};
ghost use Rattle.archive_stats.specs.Tally.{is_stored, with_parts, with_size, FitIn};
ghost use Rattle.archive_stats.specs.View.{counts_view};

use crate::counts::Counts;
use record_cursor::{Cursor, CursorFault, Item};
use record_format::{FRAME, StampView};
use xa_outside::Folder;

/// The counts with the records that come, as far as the end of the file.
pub(crate) fn count_records<F: Folder>(
    folder: &mut F,
    cursor: &mut Cursor,
    before: Counts,
) -> Result<Counts, CursorFault>
    requires within { cursor.old.at ≤ cursor.old.length }
    requires few { FitIn cursor.old.at (counts_view before) }
    ensures { RecordsCounted (counts_view before) cursor.old
        (seen F.files F.draft F.numbers F.faults folder.old)
        (seen F.files F.draft F.numbers F.faults folder.new) result }
{
    let mut counts = before;
    loop {
        let at = cursor.at();
        let item = match cursor.next(folder) {
            Ok(item) => item,
            Err(fault) => return Err(fault),
        };
        match item {
            Item::Finish => return Ok(counts),
            Item::End { .. } => counts = grown(counts, FRAME as u64),
            _ => {
                let more = with_item(counts, item);
                counts = grown(more, cursor.at() - at);
            }
        }
    }
}

// The counts with an item, without its bytes.
fn with_item(counts: Counts, item: Item<'_>) -> Counts
    requires { FitIn (2 ^ 64 - 1) (counts_view counts) }
    ensures { counts_view result ≡ with_parts (counts_view counts) (shown_item item.entry) }
{
    match item {
        Item::Inner { stamp, .. } => Counts {
            inner: counts.inner + 1,
            stamps: counts.stamps + stored(&stamp),
            ..counts
        },
        Item::Leaf { stamp, .. } => Counts {
            leaves: counts.leaves + 1,
            stamps: counts.stamps + stored(&stamp),
            ..counts
        },
        Item::Alt { stamp, .. } => Counts {
            alternatives: counts.alternatives + 1,
            stamps: counts.stamps + stored(&stamp),
            ..counts
        },
        _ => counts,
    }
}

// 1 where the timestamp is stored, and 0 where it is inherited.
fn stored(stamp: &StampView<'_>) -> u64
    ensures is { result ≡ is_stored (shown_stamp stamp.now) }
    ensures one { result ≤ 1 }
{
    if stamp.is_stored() { 1 } else { 0 }
}

// The counts with a record of so many bytes.
fn grown(counts: Counts, size: u64) -> Counts
    ensures { counts_view result ≡ with_size (counts_view counts) size }
{
    Counts {
        largest: counts.largest.max(size),
        ..counts
    }
}
