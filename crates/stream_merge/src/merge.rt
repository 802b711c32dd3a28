// Merging a row of the archive with one of the new version.
ghost use Rattle.std.specs.Prelude.{◌≡◌, ◌≢◌, ◌≤◌, [], None, IfSome, IsTrue};
ghost use Rattle.std.specs.Option.{option_map};
ghost use Rattle.keyed_tree.specs.Data.{kids_from};
ghost use Rattle.keyed_tree.specs.Kids.{ascend, are_ordered, IsOrdered};
ghost use Rattle.keyed_parts.specs.View.{kid_view, kids_view};
ghost use Rattle.nested_merge.specs.Merged.{fresh, fresh_row};
ghost use Rattle.record_format.specs.Shapes.{IsShapedNode, AreShapedNodes};
ghost use Rattle.record_writer.specs.View.{writer_view};
ghost use Rattle.stream_merge.specs.Meets.{IsOpen};
ghost use Rattle.stream_merge.specs.Passes.{fault_of};
ghost use Rattle.stream_merge.specs.RowMerged.{RowMerged, ChildMerged, InsideMerged, BegunMerged};
ghost use Rattle.record_copy.specs.State.{state};
ghost use Rattle.stream_merge.specs.View.{inherited_view, own_view};

use crate::begin::Kind;
use crate::beside::{Begun, begin_beside};
use crate::copy::copy_inner;
use crate::fault::{MergeFault, written};
use crate::fresh::put_started;
use crate::inherited::Inherited;
use crate::leaf::merge_leaf;
use keyed_parts::{Inside, Kids};
use record_cursor::{Cursor, Item};
use record_writer::Writer;
use xa_outside::Folder;

/// Merges the rest of a row of the archive with one of the version, and takes the END behind it.
#[cycle(merge)]
pub(crate) fn merge_row<F: Folder>(
    folder: &mut F,
    cursor: &mut Cursor,
    writer: &mut Writer,
    kids: Kids<'_, '_, '_>,
    from: &Inherited,
) -> Result<(), MergeFault>
    requires within { cursor.old.at ≤ cursor.old.length }
    requires no_leaf { (writer_view writer.old).leaf ≡ None }
    requires number { 1 ≤ (inherited_view from.now).number }
    requires ascending { IsTrue (ascend (kids_from (kids_view kids))) }
    requires ordered { IsTrue (are_ordered (kids_from (kids_view kids))) }
    requires shaped { AreShapedNodes (fresh_row (kids_from (kids_view kids))) }
    ensures { RowMerged (inherited_view from.entry.now) (kids_view kids.entry)
        (state F.files F.draft F.numbers F.faults folder.old cursor.old writer.old)
        (state F.files F.draft F.numbers F.faults folder.new cursor.new writer.new)
        (fault_of result) }
{
    let mut left = kids;
    while let Some(rest) = merge_child(folder, cursor, writer, left, from)? {
        left = rest;
    }
    Ok(())
}

// Merges the next node of a row of the archive with the kids of the version that are left: those
// behind this node, or None where the row has ended, and so all were written.
#[cycle(merge)]
fn merge_child<'k, 'a, 't, F: Folder>(
    folder: &mut F,
    cursor: &mut Cursor,
    writer: &mut Writer,
    kids: Kids<'k, 'a, 't>,
    from: &Inherited,
) -> Result<Option<Kids<'k, 'a, 't>>, MergeFault>
    requires within { cursor.old.at ≤ cursor.old.length }
    requires no_leaf { (writer_view writer.old).leaf ≡ None }
    requires number { 1 ≤ (inherited_view from.now).number }
    requires ascending { IsTrue (ascend (kids_from (kids_view kids))) }
    requires ordered { IsTrue (are_ordered (kids_from (kids_view kids))) }
    requires shaped { AreShapedNodes (fresh_row (kids_from (kids_view kids))) }
    ensures { ChildMerged (inherited_view from.entry.now) (kids_view kids.entry)
        (state F.files F.draft F.numbers F.faults folder.old cursor.old writer.old)
        (state F.files F.draft F.numbers F.faults folder.new cursor.new writer.new)
        result }
{
    let (kind, label, stamp) = match cursor.next(folder)? {
        Item::Inner { label, stamp } => (Kind::Inner, label, stamp),
        Item::Leaf { label, stamp } => (Kind::Leaf, label, stamp),
        Item::End { .. } => {
            put_started(folder, writer, kids, from)?;
            return Ok(None);
        }
        _ => return Err(MergeFault::Damage),
    };
    let begun = begin_beside(folder, writer, kind, label, stamp, kids, from)?;
    let rest = begun.rest;
    let merged = merge_begun(folder, cursor, writer, kind, &begun);
    drop(begun);
    merged?;
    Ok(Some(rest))
}

// Merges what is inside a node of this kind that was begun, and closes it.
#[cycle(merge)]
fn merge_begun<F: Folder>(
    folder: &mut F,
    cursor: &mut Cursor,
    writer: &mut Writer,
    kind: Kind,
    begun: &Begun<'_, '_, '_, '_>,
) -> Result<(), MergeFault>
    requires within { cursor.old.at ≤ cursor.old.length }
    requires stands { IsOpen kind (writer_view writer.old) }
    requires number { 1 ≤ (own_view begun.now.own).number }
    requires kid { IfSome (option_map kid_view begun.now.kid)
        (λ k. IsOrdered k × IsShapedNode (fresh None k)) }
    requires alone { option_map kid_view begun.now.kid ≡ None
        → (own_view begun.now.own).now ≡ (own_view begun.now.own).before }
    ensures { BegunMerged kind (own_view begun.entry.now.own)
        (option_map kid_view begun.entry.now.kid)
        (state F.files F.draft F.numbers F.faults folder.old cursor.old writer.old)
        (state F.files F.draft F.numbers F.faults folder.new cursor.new writer.new)
        (fault_of result) }
{
    match kind {
        Kind::Inner => merge_inner(folder, cursor, writer, begun),
        Kind::Leaf => merge_leaf(folder, cursor, writer, begun),
    }
}

// Merges the inside of an inner node that was begun, as far as its END, and closes the node.
#[cycle(merge)]
fn merge_inner<F: Folder>(
    folder: &mut F,
    cursor: &mut Cursor,
    writer: &mut Writer,
    begun: &Begun<'_, '_, '_, '_>,
) -> Result<(), MergeFault>
    requires within { cursor.old.at ≤ cursor.old.length }
    requires no_leaf { (writer_view writer.old).leaf ≡ None }
    requires begun { (writer_view writer.old).inners ≢ [] }
    requires number { 1 ≤ (own_view begun.now.own).number }
    requires kid { IfSome (option_map kid_view begun.now.kid)
        (λ k. IsOrdered k × IsShapedNode (fresh None k)) }
    requires alone { option_map kid_view begun.now.kid ≡ None
        → (own_view begun.now.own).now ≡ (own_view begun.now.own).before }
    ensures { InsideMerged (own_view begun.entry.now.own)
        (option_map kid_view begun.entry.now.kid)
        (state F.files F.draft F.numbers F.faults folder.old cursor.old writer.old)
        (state F.files F.draft F.numbers F.faults folder.new cursor.new writer.new)
        (fault_of result) }
{
    let own = begun.own.get();
    match begun.kid {
        Some(kid) => match kid.inside() {
            Inside::Kids(kids) => {
                merge_row(folder, cursor, writer, kids, own)?;
                written(writer.end_inner(folder))
            }
            Inside::Body(_) => Err(MergeFault::Damage),
        },
        None => copy_inner(own.alloc, folder, cursor, writer, &own.now),
    }
}
