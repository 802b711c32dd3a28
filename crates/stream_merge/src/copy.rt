// Copying what the archive alone has, record by record.
ghost use Rattle.std.specs.Prelude.{◌≡◌, ◌≢◌, ◌≤◌, ◌∷◌, [], None, IfOk};
ghost use Rattle.archive_tree.specs.View.{stamp_view};
ghost use Rattle.version_set.specs.View.{pairs_of};
ghost use Rattle.record_cursor.specs.View.{PlainCursor};
ghost use Rattle.record_format.specs.Nodes.{set_in};
ghost use Rattle.record_parts.specs.Shapes.{FitsLabel, FitsValue};
ghost use Rattle.record_parts.specs.ShownViews.{shown_label, shown_stamp, shown_body};
ghost use Rattle.record_writer.specs.Data.{call_alt};
ghost use Rattle.record_writer.specs.View.{writer_view};
ghost use Rattle.stream_merge.specs.Copied.{RowCopied, InsideCopied, BegunCopied, ChildCopied, AltsCopied};
ghost use Rattle.stream_merge.specs.Does.{Sent};
ghost use Rattle.stream_merge.specs.Meets.{call_of, IsOpen};
ghost use Rattle.stream_merge.specs.Passes.{fault_of};
ghost use Rattle.record_copy.specs.State.{state};

use crate::begin::{Kind, begin_node};
use crate::fault::{MergeFault, written};
use archive_tree::effective;
use record_cursor::{Cursor, Item};
use record_format::{BodyView, LabelView, StampView};
use record_writer::{BodyFrom, LabelFrom, Writer};
use std::alloc::Global;
use version_set::VersionSet;
use xa_outside::Folder;

/// Copies the inside of an inner node that was begun, as far as its END, and closes the node. The
/// node has the set.
#[cycle(copy)]
pub(crate) fn copy_inner<F: Folder>(
    alloc: Global,
    folder: &mut F,
    cursor: &mut Cursor,
    writer: &mut Writer,
    set: &VersionSet,
) -> Result<(), MergeFault>
    requires within { cursor.old.at ≤ cursor.old.length }
    requires no_leaf { (writer_view writer.old).leaf ≡ None }
    requires begun { (writer_view writer.old).inners ≢ [] }
    ensures { InsideCopied (pairs_of set.now)
        (state F.files F.draft F.numbers F.faults folder.old cursor.old writer.old)
        (state F.files F.draft F.numbers F.faults folder.new cursor.new writer.new)
        (fault_of result) }
{
    copy_row(alloc, folder, cursor, writer, set)?;
    written(writer.end_inner(folder))
}

// Copies the rest of a row under a node that has the set, and takes the END behind it.
#[cycle(copy)]
fn copy_row<F: Folder>(
    alloc: Global,
    folder: &mut F,
    cursor: &mut Cursor,
    writer: &mut Writer,
    set: &VersionSet,
) -> Result<(), MergeFault>
    requires within { cursor.old.at ≤ cursor.old.length }
    requires no_leaf { (writer_view writer.old).leaf ≡ None }
    ensures { RowCopied (pairs_of set.now)
        (state F.files F.draft F.numbers F.faults folder.old cursor.old writer.old)
        (state F.files F.draft F.numbers F.faults folder.new cursor.new writer.new)
        (fault_of result) }
{
    while copy_child(alloc, folder, cursor, writer, set)? {}
    Ok(())
}

// Copies the next node of a row under a node that has the set, or takes the END behind the row:
// whether there was a node.
#[cycle(copy)]
fn copy_child<F: Folder>(
    alloc: Global,
    folder: &mut F,
    cursor: &mut Cursor,
    writer: &mut Writer,
    set: &VersionSet,
) -> Result<bool, MergeFault>
    requires within { cursor.old.at ≤ cursor.old.length }
    requires no_leaf { (writer_view writer.old).leaf ≡ None }
    ensures { ChildCopied (pairs_of set.now)
        (state F.files F.draft F.numbers F.faults folder.old cursor.old writer.old)
        (state F.files F.draft F.numbers F.faults folder.new cursor.new writer.new)
        result }
{
    let (kind, label, stamp) = match cursor.next(folder)? {
        Item::Inner { label, stamp } => (Kind::Inner, label, stamp),
        Item::Leaf { label, stamp } => (Kind::Leaf, label, stamp),
        Item::End { .. } => return Ok(false),
        _ => return Err(MergeFault::Damage),
    };
    let copied = {
        let stamp = copy_opening(alloc, folder, writer, kind, label, stamp, set)?;
        copy_begun(alloc, folder, cursor, writer, kind, effective(&stamp, set))
    };
    copied?;
    Ok(true)
}

// Copies the inside of a node of this kind that was begun, and closes it. The node has the set.
#[cycle(copy)]
fn copy_begun<F: Folder>(
    alloc: Global,
    folder: &mut F,
    cursor: &mut Cursor,
    writer: &mut Writer,
    kind: Kind,
    set: &VersionSet,
) -> Result<(), MergeFault>
    requires within { cursor.old.at ≤ cursor.old.length }
    requires stands { IsOpen kind (writer_view writer.old) }
    ensures { BegunCopied kind (pairs_of set.now)
        (state F.files F.draft F.numbers F.faults folder.old cursor.old writer.old)
        (state F.files F.draft F.numbers F.faults folder.new cursor.new writer.new)
        (fault_of result) }
{
    match kind {
        Kind::Inner => copy_inner(alloc, folder, cursor, writer, set),
        Kind::Leaf => copy_alts(alloc, folder, cursor, writer),
    }
}

// Begins a node of the archive with the stamp that it has there, under a node that has the set. It
// answers the stamp.
fn copy_opening<F: Folder>(
    alloc: Global,
    folder: &mut F,
    writer: &mut Writer,
    kind: Kind,
    label: LabelView<'_>,
    stamp: StampView<'_>,
    parent: &VersionSet,
) -> Result<Option<VersionSet>, MergeFault>
    requires no_leaf { (writer_view writer.old).leaf ≡ None }
    ensures sends { (c : PlainCursor) → c.at ≤ c.length → Sent
        (call_of kind (shown_label label.entry) (shown_stamp stamp.entry)
        (set_in (shown_stamp stamp.entry) (pairs_of parent.now)) ∷ [])
        (state F.files F.draft F.numbers F.faults folder.old c writer.old)
        (state F.files F.draft F.numbers F.faults folder.new c writer.new) (fault_of result) }
    ensures stamp { IfOk result (λ s. stamp_view s ≡ shown_stamp stamp.entry) }
    ensures fits { FitsLabel (shown_label label.entry) }
{
    let _spelled = label.bytes();
    let stamp = stamp.copy(alloc)?;
    let set = effective(&stamp, parent);
    begin_node(folder, writer, kind, LabelFrom::Old(label), &stamp, set)?;
    Ok(stamp)
}

/// Copies the alternatives of a leaf that was begun, as far as its end, and closes the leaf.
pub(crate) fn copy_alts<F: Folder>(
    alloc: Global,
    folder: &mut F,
    cursor: &mut Cursor,
    writer: &mut Writer,
) -> Result<(), MergeFault>
    requires within { cursor.old.at ≤ cursor.old.length }
    requires leaf { (writer_view writer.old).leaf ≢ None }
    ensures { AltsCopied
        (state F.files F.draft F.numbers F.faults folder.old cursor.old writer.old)
        (state F.files F.draft F.numbers F.faults folder.new cursor.new writer.new)
        (fault_of result) }
{
    loop {
        match cursor.next(folder)? {
            Item::Alt { stamp, body } => copy_alt(alloc, folder, writer, stamp, body)?,
            Item::LeafEnd => return written(writer.end_leaf(folder)),
            _ => return Err(MergeFault::Damage),
        }
    }
}

// Copies an alternative of a leaf that was begun.
fn copy_alt<F: Folder>(
    alloc: Global,
    folder: &mut F,
    writer: &mut Writer,
    stamp: StampView<'_>,
    body: BodyView<'_>,
) -> Result<(), MergeFault>
    requires leaf { (writer_view writer.old).leaf ≢ None }
    ensures sends { (c : PlainCursor) → c.at ≤ c.length → Sent
        (call_alt (shown_stamp stamp.entry) (shown_body body.entry) ∷ [])
        (state F.files F.draft F.numbers F.faults folder.old c writer.old)
        (state F.files F.draft F.numbers F.faults folder.new c writer.new) (fault_of result) }
    ensures fits { FitsValue (shown_body body.entry) }
{
    let _spelled = body.bytes();
    let stamp = stamp.copy(alloc)?;
    written(writer.alt(folder, &stamp, BodyFrom::Old(body)))
}
