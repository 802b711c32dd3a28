// Going along the nodes of an archive, and writing what is left of them.
ghost use Rattle.std.specs.Prelude.{◌≡◌, ◌≢◌, ◌≤◌, [], None};
ghost use Rattle.std.specs.Option.{option_map};
ghost use Rattle.version_set.specs.View.{pairs_of};
ghost use Rattle.archive_tree.specs.View.{stamp_view};
ghost use Rattle.record_writer.specs.View.{writer_view};
ghost use Rattle.record_copy.specs.Faults.{fault_of};
ghost use Rattle.record_copy.specs.Passes.{IsOpen};
ghost use Rattle.record_copy.specs.State.{state};
ghost use Rattle.archive_cut.specs.Sliced.{cut_set};
ghost use Rattle.archive_cut.specs.Walked.{RowCut, InsideCut, BegunCut, OpenedCut, IsOpenIf, IsOwnLeft, ChildCut};

use crate::fault::taken;
use crate::leaf::cut_leaf;
use crate::open::open_node;
use crate::skip::skip_begun;
use crate::window::Window;
use archive_tree::effective;
use record_copy::{CopyFault, Kind, written};
use record_cursor::{Cursor, Item};
use record_writer::Writer;
use version_set::VersionSet;
use xa_outside::Folder;

/// Writes what is left of the rest of a row, and takes the END behind it. The parent had the one
/// set, of which the other is left.
#[cycle(walk)]
pub(crate) fn cut_row<F: Folder>(
    window: &Window,
    folder: &mut F,
    cursor: &mut Cursor,
    writer: &mut Writer,
    before: &VersionSet,
    now: &VersionSet,
) -> Result<(), CopyFault>
    requires within { cursor.old.at ≤ cursor.old.length }
    requires no_leaf { (writer_view writer.old).leaf ≡ None }
    requires left { pairs_of now.now
        ≡ cut_set window.now.first window.now.last (pairs_of before.now) }
    ensures { RowCut window.entry.now.first window.entry.now.last (pairs_of before.entry.now)
        (state F.files F.draft F.numbers F.faults folder.old cursor.old writer.old)
        (state F.files F.draft F.numbers F.faults folder.new cursor.new writer.new)
        (fault_of result) }
{
    while cut_child(window, folder, cursor, writer, before, now)? {}
    Ok(())
}

// Writes what is left of the next node of a row, or takes the END behind the row: whether there was
// a node.
#[cycle(walk)]
fn cut_child<F: Folder>(
    window: &Window,
    folder: &mut F,
    cursor: &mut Cursor,
    writer: &mut Writer,
    before: &VersionSet,
    now: &VersionSet,
) -> Result<bool, CopyFault>
    requires within { cursor.old.at ≤ cursor.old.length }
    requires no_leaf { (writer_view writer.old).leaf ≡ None }
    requires left { pairs_of now.now
        ≡ cut_set window.now.first window.now.last (pairs_of before.now) }
    ensures { ChildCut window.entry.now.first window.entry.now.last (pairs_of before.entry.now)
        (state F.files F.draft F.numbers F.faults folder.old cursor.old writer.old)
        (state F.files F.draft F.numbers F.faults folder.new cursor.new writer.new)
        result }
{
    let (kind, label, stamp) = match cursor.next(folder)? {
        Item::Inner { label, stamp } => (Kind::Inner, label, stamp),
        Item::Leaf { label, stamp } => (Kind::Leaf, label, stamp),
        Item::End { .. } => return Ok(false),
        _ => return Err(CopyFault::Damage),
    };
    // Its bytes are those of a label, whose lengths and counts fit.
    let _spelled = label.bytes();
    let old = stamp.copy(window.alloc)?;
    let new = open_node(window, folder, writer, kind, label, &old, now)?;
    cut_opened(
        window, folder, cursor, writer, kind, &old, &new, before, now,
    )?;
    Ok(true)
}

// What is inside a node of this kind that was read is cut, and the node is closed; or passed over,
// where no stamp is left. The node had the old stamp.
#[cycle(walk)]
fn cut_opened<F: Folder>(
    window: &Window,
    folder: &mut F,
    cursor: &mut Cursor,
    writer: &mut Writer,
    kind: Kind,
    old: &Option<VersionSet>,
    new: &Option<Option<VersionSet>>,
    before: &VersionSet,
    now: &VersionSet,
) -> Result<(), CopyFault>
    requires within { cursor.old.at ≤ cursor.old.length }
    requires stands { IsOpenIf kind (option_map stamp_view new.now) (writer_view writer.old) }
    requires left { IsOwnLeft window.now.first window.now.last (pairs_of before.now)
        (pairs_of now.now) (stamp_view old.now) (option_map stamp_view new.now) }
    ensures { OpenedCut kind window.entry.now.first window.entry.now.last
        (pairs_of before.entry.now) (stamp_view old.entry.now)
        (option_map stamp_view new.entry.now)
        (state F.files F.draft F.numbers F.faults folder.old cursor.old writer.old)
        (state F.files F.draft F.numbers F.faults folder.new cursor.new writer.new)
        (fault_of result) }
{
    match new {
        Some(new) => {
            let own = effective(old, before);
            cut_begun(
                window,
                folder,
                cursor,
                writer,
                kind,
                own,
                effective(new, now),
            )
        }
        None => taken(skip_begun(folder, cursor, kind)),
    }
}

// What is inside a node of this kind that was begun is cut, and the node is closed. It had the one
// set, of which the other is left.
#[cycle(walk)]
fn cut_begun<F: Folder>(
    window: &Window,
    folder: &mut F,
    cursor: &mut Cursor,
    writer: &mut Writer,
    kind: Kind,
    before: &VersionSet,
    now: &VersionSet,
) -> Result<(), CopyFault>
    requires within { cursor.old.at ≤ cursor.old.length }
    requires stands { IsOpen kind (writer_view writer.old) }
    requires left { pairs_of now.now
        ≡ cut_set window.now.first window.now.last (pairs_of before.now) }
    ensures { BegunCut kind window.entry.now.first window.entry.now.last (pairs_of before.entry.now)
        (state F.files F.draft F.numbers F.faults folder.old cursor.old writer.old)
        (state F.files F.draft F.numbers F.faults folder.new cursor.new writer.new)
        (fault_of result) }
{
    match kind {
        Kind::Inner => cut_inner(window, folder, cursor, writer, before, now),
        Kind::Leaf => cut_leaf(window, folder, cursor, writer, before, now),
    }
}

// Writes what is left of the inside of an inner node that was begun, as far as its END, and closes
// the node.
#[cycle(walk)]
fn cut_inner<F: Folder>(
    window: &Window,
    folder: &mut F,
    cursor: &mut Cursor,
    writer: &mut Writer,
    before: &VersionSet,
    now: &VersionSet,
) -> Result<(), CopyFault>
    requires within { cursor.old.at ≤ cursor.old.length }
    requires no_leaf { (writer_view writer.old).leaf ≡ None }
    requires begun { (writer_view writer.old).inners ≢ [] }
    requires left { pairs_of now.now
        ≡ cut_set window.now.first window.now.last (pairs_of before.now) }
    ensures { InsideCut window.entry.now.first window.entry.now.last (pairs_of before.entry.now)
        (state F.files F.draft F.numbers F.faults folder.old cursor.old writer.old)
        (state F.files F.draft F.numbers F.faults folder.new cursor.new writer.new)
        (fault_of result) }
{
    cut_row(window, folder, cursor, writer, before, now)?;
    written(writer.end_inner(folder))
}
