// Merging the alternatives of a leaf.
ghost use Rattle.std.specs.Prelude.{◌≡◌, ◌≢◌, ◌≤◌, ◌++◌, ◌∷◌, [], None, IfSome};
ghost use Rattle.std.specs.Option.{option_map};
ghost use Rattle.keyed_tree.specs.LentView.{lent_val_view};
ghost use Rattle.keyed_parts.specs.View.{kid_view};
ghost use Rattle.nested_merge.specs.Merged.{fresh};
ghost use Rattle.record_cursor.specs.View.{PlainCursor};
ghost use Rattle.record_format.specs.Shapes.{IsShapedNode};
ghost use Rattle.record_parts.specs.Shapes.{IsShapedValue};
ghost use Rattle.record_writer.specs.Data.{call_end_leaf};
ghost use Rattle.record_writer.specs.View.{writer_view};
ghost use Rattle.record_writer.specs.Walks.{alt_calls};
ghost use Rattle.stream_merge.specs.Does.{Sent};
ghost use Rattle.stream_merge.specs.LeafMerged.{LeafMerged, AltsMerged, AltMerged};
ghost use Rattle.stream_merge.specs.Meets.{new_alts};
ghost use Rattle.stream_merge.specs.Passes.{fault_of};
ghost use Rattle.record_copy.specs.State.{state};
ghost use Rattle.stream_merge.specs.View.{inherited_view, own_view};

use crate::beside::Begun;
use crate::copy::copy_alts;
use crate::fault::{MergeFault, written};
use crate::inherited::{Inherited, turned_stamp};
use keyed_parts::Inside;
use keyed_tree::LentVal;
use record_cursor::{Cursor, Item};
use record_writer::{BodyFrom, Writer};
use std::alloc::Global;
use version_set::VersionSet;
use xa_outside::Folder;

/// Merges the alternatives of a leaf that was begun, as far as its end, and closes the leaf.
pub(crate) fn merge_leaf<F: Folder>(
    folder: &mut F,
    cursor: &mut Cursor,
    writer: &mut Writer,
    begun: &Begun<'_, '_, '_, '_>,
) -> Result<(), MergeFault>
    requires within { cursor.old.at ≤ cursor.old.length }
    requires leaf { (writer_view writer.old).leaf ≢ None }
    requires number { 1 ≤ (own_view begun.now.own).number }
    requires kid { IfSome (option_map kid_view begun.now.kid) (λ k. IsShapedNode (fresh None k)) }
    ensures { LeafMerged (own_view begun.entry.now.own) (option_map kid_view begun.entry.now.kid)
        (state F.files F.draft F.numbers F.faults folder.old cursor.old writer.old)
        (state F.files F.draft F.numbers F.faults folder.new cursor.new writer.new)
        (fault_of result) }
{
    let own = begun.own.get();
    match begun.kid {
        Some(kid) => match kid.inside() {
            Inside::Body(body) => merge_alts(folder, cursor, writer, body, own),
            Inside::Kids(_) => Err(MergeFault::Damage),
        },
        None => copy_alts(own.alloc, folder, cursor, writer),
    }
}

// Merges the alternatives of a leaf with the body that it has in the new version, and closes it.
fn merge_alts<F: Folder>(
    folder: &mut F,
    cursor: &mut Cursor,
    writer: &mut Writer,
    body: LentVal<'_, '_>,
    own: &Inherited,
) -> Result<(), MergeFault>
    requires within { cursor.old.at ≤ cursor.old.length }
    requires leaf { (writer_view writer.old).leaf ≢ None }
    requires number { 1 ≤ (inherited_view own.now).number }
    requires shaped { IsShapedValue (lent_val_view body) }
    ensures { AltsMerged (inherited_view own.entry.now) (lent_val_view body.entry)
        (state F.files F.draft F.numbers F.faults folder.old cursor.old writer.old)
        (state F.files F.draft F.numbers F.faults folder.new cursor.new writer.new)
        (fault_of result) }
{
    let mut found = false;
    while let Some(same) = merge_alt(folder, cursor, writer, body, own)? {
        found = found || same;
    }
    close_leaf(own.alloc, folder, writer, body, own.number, found)
}

// Closes the leaf, behind an alternative that begins with the version where none had its body.
fn close_leaf<F: Folder>(
    alloc: Global,
    folder: &mut F,
    writer: &mut Writer,
    body: LentVal<'_, '_>,
    number: u32,
    found: bool,
) -> Result<(), MergeFault>
    requires leaf { (writer_view writer.old).leaf ≢ None }
    requires number { 1 ≤ number }
    requires shaped { IsShapedValue (lent_val_view body) }
    ensures sends { (c : PlainCursor) → c.at ≤ c.length → Sent
        (alt_calls (new_alts number (lent_val_view body.entry) found) ++ call_end_leaf ∷ [])
        (state F.files F.draft F.numbers F.faults folder.old c writer.old)
        (state F.files F.draft F.numbers F.faults folder.new c writer.new) (fault_of result) }
{
    if found {
        return written(writer.end_leaf(folder));
    }
    let begun = {
        let stamp = Some(VersionSet::single(alloc, number));
        writer.alt(folder, &stamp, BodyFrom::Lent(body))
    };
    begun?;
    written(writer.end_leaf(folder))
}

// Merges the next alternative with the body: whether it is the same, or None where the leaf ends.
fn merge_alt<F: Folder>(
    folder: &mut F,
    cursor: &mut Cursor,
    writer: &mut Writer,
    body: LentVal<'_, '_>,
    own: &Inherited,
) -> Result<Option<bool>, MergeFault>
    requires within { cursor.old.at ≤ cursor.old.length }
    requires leaf { (writer_view writer.old).leaf ≢ None }
    ensures { AltMerged (inherited_view own.entry.now) (lent_val_view body.entry)
        (state F.files F.draft F.numbers F.faults folder.old cursor.old writer.old)
        (state F.files F.draft F.numbers F.faults folder.new cursor.new writer.new)
        result }
{
    match cursor.next(folder)? {
        Item::Alt { stamp, body: old } => {
            let _spelled = old.bytes();
            let same = old.same_lent(body);
            let written = {
                let stamp = turned_stamp(&stamp, same, own)?;
                writer.alt(folder, &stamp, BodyFrom::Old(old))
            };
            written?;
            Ok(Some(same))
        }
        Item::LeafEnd => Ok(None),
        _ => Err(MergeFault::Damage),
    }
}
