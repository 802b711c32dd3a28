// What is left of the alternatives of a leaf.
ghost use Rattle.std.specs.Prelude.{◌≡◌, ◌≢◌, ◌≤◌, ◌∷◌, ◌++◌, [], map, None};
ghost use Rattle.std.specs.Result.{result_map_both};
ghost use Rattle.version_set.specs.View.{pairs_of};
ghost use Rattle.record_writer.specs.Data.{PlainWriter, call_end_leaf};
ghost use Rattle.record_writer.specs.View.{writer_view};
ghost use Rattle.record_writer.specs.Walks.{alt_calls};
ghost use Rattle.record_copy.specs.Faults.{fault_of};
ghost use Rattle.record_copy.specs.Runs.{Sent};
ghost use Rattle.record_copy.specs.State.{beside, state};
ghost use Rattle.archive_cut.specs.Held.{held_view};
ghost use Rattle.archive_cut.specs.Leaves.{AltsRead};
ghost use Rattle.archive_cut.specs.Sliced.{cut_set};
ghost use Rattle.archive_cut.specs.Walked.{LeafCut};
ghost use Rattle.record_cursor.specs.View.{PlainCursor};

use crate::alternatives::{hold, in_order};
use crate::held::Held;
use crate::window::Window;
use record_copy::{CopyFault, written};
use record_cursor::{Cursor, Item};
use record_parts::lend_body;
use record_writer::{BodyFrom, Writer};
use version_set::VersionSet;
use xa_outside::Folder;

/// Writes what is left of the alternatives of a leaf that was begun, as far as its end, and closes
/// the leaf. It had the one set, of which the other is left.
pub(crate) fn cut_leaf<F: Folder>(
    window: &Window,
    folder: &mut F,
    cursor: &mut Cursor,
    writer: &mut Writer,
    before: &VersionSet,
    now: &VersionSet,
) -> Result<(), CopyFault>
    requires within { cursor.old.at ≤ cursor.old.length }
    requires leaf { (writer_view writer.old).leaf ≢ None }
    requires left { pairs_of now.now
        ≡ cut_set window.now.first window.now.last (pairs_of before.now) }
    ensures { LeafCut window.entry.now.first window.entry.now.last (pairs_of before.entry.now)
        (state F.files F.draft F.numbers F.faults folder.old cursor.old writer.old)
        (state F.files F.draft F.numbers F.faults folder.new cursor.new writer.new)
        (fault_of result) }
{
    let held = in_order(read_alts(window, folder, cursor, now)?);
    put_held(folder, writer, &held)
}

// Reads the alternatives of a leaf, as far as its end, and holds what is left of them.
fn read_alts<F: Folder>(
    window: &Window,
    folder: &mut F,
    cursor: &mut Cursor,
    now: &VersionSet,
) -> Result<Vec<Held>, CopyFault>
    requires within { cursor.old.at ≤ cursor.old.length }
    ensures { (w : PlainWriter) → AltsRead window.entry.now.first window.entry.now.last
        (pairs_of now.entry.now)
        (beside F.files F.draft F.numbers F.faults folder.old cursor.old w)
        (beside F.files F.draft F.numbers F.faults folder.new cursor.new w)
        (result_map_both (λ v. v.items) (λ e. e) result) }
{
    let mut held = Vec::new(window.alloc);
    loop {
        match cursor.next(folder)? {
            Item::Alt { stamp, body } => {
                // Its bytes are those of a body, whose lengths and counts fit.
                let _spelled = body.bytes();
                hold(window, now, stamp, body, &mut held)?;
            }
            Item::LeafEnd => return Ok(held),
            _ => return Err(CopyFault::Damage),
        }
    }
}

// Writes alternatives, and closes their leaf.
fn put_held<F: Folder>(folder: &mut F, writer: &mut Writer, held: &[Held]) -> Result<(), CopyFault>
    requires leaf { (writer_view writer.old).leaf ≢ None }
    ensures { (c : PlainCursor) → c.at ≤ c.length → Sent
        (alt_calls (map held_view held.now) ++ call_end_leaf ∷ [])
        (state F.files F.draft F.numbers F.faults folder.old c writer.old)
        (state F.files F.draft F.numbers F.faults folder.new c writer.new)
        (fault_of result) }
{
    for alternative in held {
        let body = BodyFrom::Old(lend_body(&alternative.body));
        written(writer.alt(folder, &alternative.stamp, body))?;
    }
    written(writer.end_leaf(folder))
}
