// Copying nodes, record by record.
ghost use Rattle.std.specs.Prelude.{◌≡◌, ◌≢◌, ◌≤◌, [], None};
ghost use Rattle.archive_tree.specs.View.{stamp_view};
ghost use Rattle.record_writer.specs.View.{writer_view};
ghost use Rattle.record_copy.specs.Copied.{AlternativesCopied, BegunCopied, ChildCopied, InsideCopied, NodeCopied, RowCopied};
ghost use Rattle.record_copy.specs.Faults.{fault_of};
ghost use Rattle.record_copy.specs.Parts.{head_view};
ghost use Rattle.record_copy.specs.Passes.{IsOpen};
ghost use Rattle.record_copy.specs.State.{state};
ghost use Rattle.version_set.specs.View.{pairs_of};

use crate::begin::{begin_node, put_alternative};
use crate::fault::{CopyFault, written};
use crate::kind::Kind;
use crate::parts::Head;
use crate::raise::Raise;
use crate::read::{read_alternative, read_head};
use archive_tree::effective;
use record_cursor::Cursor;
use record_writer::Writer;
use version_set::VersionSet;
use xa_outside::Folder;

/// Copies a node whose head was read: begins it with this timestamp in the place of its own, and
/// this effective set, copies what is inside, with its numbers raised, and closes it.
#[cycle(copy)]
pub fn copy_node<F: Folder>(
    raise: &Raise,
    folder: &mut F,
    cursor: &mut Cursor,
    writer: &mut Writer,
    head: &Head,
    stamp: &Option<VersionSet>,
    set: &VersionSet,
) -> Result<(), CopyFault>
    requires within { cursor.old.at ≤ cursor.old.length }
    requires no_leaf { (writer_view writer.old).leaf ≡ None }
    ensures { NodeCopied raise.now.by (head_view head.now) (stamp_view stamp.now) (pairs_of set.now)
        (state F.files F.draft F.numbers F.faults folder.old cursor.old writer.old)
        (state F.files F.draft F.numbers F.faults folder.new cursor.new writer.new)
        (fault_of result) }
{
    begin_node(folder, writer, head, stamp, set)?;
    copy_begun(raise, folder, cursor, writer, head.kind, set)
}

// Copies the inside of a node of this kind that was begun, and closes it. The node has the set.
#[cycle(copy)]
fn copy_begun<F: Folder>(
    raise: &Raise,
    folder: &mut F,
    cursor: &mut Cursor,
    writer: &mut Writer,
    kind: Kind,
    set: &VersionSet,
) -> Result<(), CopyFault>
    requires within { cursor.old.at ≤ cursor.old.length }
    requires stands { IsOpen kind (writer_view writer.old) }
    ensures { BegunCopied kind raise.now.by (pairs_of set.now)
        (state F.files F.draft F.numbers F.faults folder.old cursor.old writer.old)
        (state F.files F.draft F.numbers F.faults folder.new cursor.new writer.new)
        (fault_of result) }
{
    match kind {
        Kind::Inner => copy_inner(raise, folder, cursor, writer, set),
        Kind::Leaf => copy_alternatives(raise, folder, cursor, writer),
    }
}

// Copies the inside of an inner node that was begun, as far as its END, and closes the node.
#[cycle(copy)]
fn copy_inner<F: Folder>(
    raise: &Raise,
    folder: &mut F,
    cursor: &mut Cursor,
    writer: &mut Writer,
    set: &VersionSet,
) -> Result<(), CopyFault>
    requires within { cursor.old.at ≤ cursor.old.length }
    requires no_leaf { (writer_view writer.old).leaf ≡ None }
    requires begun { (writer_view writer.old).inners ≢ [] }
    ensures { InsideCopied raise.now.by (pairs_of set.now)
        (state F.files F.draft F.numbers F.faults folder.old cursor.old writer.old)
        (state F.files F.draft F.numbers F.faults folder.new cursor.new writer.new)
        (fault_of result) }
{
    copy_row(raise, folder, cursor, writer, set)?;
    written(writer.end_inner(folder))
}

// Copies the rest of a row under a node that has the set, and takes the END behind it.
#[cycle(copy)]
fn copy_row<F: Folder>(
    raise: &Raise,
    folder: &mut F,
    cursor: &mut Cursor,
    writer: &mut Writer,
    set: &VersionSet,
) -> Result<(), CopyFault>
    requires within { cursor.old.at ≤ cursor.old.length }
    requires no_leaf { (writer_view writer.old).leaf ≡ None }
    ensures { RowCopied raise.now.by (pairs_of set.now)
        (state F.files F.draft F.numbers F.faults folder.old cursor.old writer.old)
        (state F.files F.draft F.numbers F.faults folder.new cursor.new writer.new)
        (fault_of result) }
{
    while copy_child(raise, folder, cursor, writer, set)? {}
    Ok(())
}

// Copies the next node of a row under a node that has the set, or takes the END behind the row:
// whether there was a node.
#[cycle(copy)]
fn copy_child<F: Folder>(
    raise: &Raise,
    folder: &mut F,
    cursor: &mut Cursor,
    writer: &mut Writer,
    set: &VersionSet,
) -> Result<bool, CopyFault>
    requires within { cursor.old.at ≤ cursor.old.length }
    requires no_leaf { (writer_view writer.old).leaf ≡ None }
    ensures { ChildCopied raise.now.by (pairs_of set.now)
        (state F.files F.draft F.numbers F.faults folder.old cursor.old writer.old)
        (state F.files F.draft F.numbers F.faults folder.new cursor.new writer.new)
        result }
{
    let Some(head) = read_head(raise, folder, cursor)? else {
        return Ok(false);
    };
    let own = effective(&head.stamp, set);
    copy_node(raise, folder, cursor, writer, &head, &head.stamp, own)?;
    Ok(true)
}

// Copies the alternatives of a leaf that was begun, as far as its end, and closes the leaf.
fn copy_alternatives<F: Folder>(
    raise: &Raise,
    folder: &mut F,
    cursor: &mut Cursor,
    writer: &mut Writer,
) -> Result<(), CopyFault>
    requires within { cursor.old.at ≤ cursor.old.length }
    requires leaf { (writer_view writer.old).leaf ≢ None }
    ensures { AlternativesCopied raise.now.by
        (state F.files F.draft F.numbers F.faults folder.old cursor.old writer.old)
        (state F.files F.draft F.numbers F.faults folder.new cursor.new writer.new)
        (fault_of result) }
{
    while let Some(alternative) = read_alternative(raise, folder, cursor)? {
        put_alternative(folder, writer, &alternative, &alternative.stamp)?;
    }
    written(writer.end_leaf(folder))
}
