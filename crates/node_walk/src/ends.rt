// Judging the END of a row.
ghost use Rattle.std.specs.Prelude.{◌≡◌, ◌≤◌};
ghost use Rattle.node_judge.specs.FrameView.{frame_view};
ghost use Rattle.row_ends.specs.KidsView.{kids_view};
ghost use Rattle.node_walk.specs.Walked.{EndJudged};
ghost use Rattle.node_walk.specs.Seen.{seen};

use node_judge::Frame;
use record_cursor::{Cursor, CursorFault};
use row_ends::{Kids, Room, is_end};
use xa_outside::Folder;

/// Judges the END that the cursor moved behind, whose body has so many bytes, by the row in front of
/// it and its kids.
pub(crate) fn judge_end<F: Folder>(
    room: &mut Room,
    folder: &mut F,
    name: &str,
    cursor: &Cursor,
    frame: &Frame<'_>,
    kids: &Kids,
    length: u64,
) -> Result<(), CursorFault>
    requires named { name.now ≡ cursor.now.name }
    requires fits { length ≤ cursor.now.at }
    requires within { cursor.now.at ≤ cursor.now.length }
    ensures { EndJudged (frame_view frame.now) (kids_view kids.now) length
        (seen F.files F.draft F.numbers F.faults folder.old cursor.now)
        (seen F.files F.draft F.numbers F.faults folder.new cursor.now) result }
{
    let at = cursor.at() - length;
    if !frame.is_met() {
        return Err(CursorFault::Damage);
    }
    match is_end(room, folder, name, at, length, frame.set(), kids) {
        Ok(true) => Ok(()),
        Ok(false) => Err(CursorFault::Damage),
        Err(fault) => Err(fault),
    }
}
