// Writing what begins with the new version.
ghost use Rattle.std.specs.Prelude.{◌≡◌, ◌≢◌, ◌≤◌, ◌∷◌, [], None};
ghost use Rattle.keyed_tree.specs.Data.{kids_from, label_of};
ghost use Rattle.keyed_tree.specs.LentView.{lent_val_view};
ghost use Rattle.keyed_parts.specs.View.{kid_view, kids_view};
ghost use Rattle.archive_tree.specs.Data.{no_nodes};
ghost use Rattle.archive_tree.specs.View.{stamp_view};
ghost use Rattle.nested_merge.specs.Merged.{fresh, fresh_onto, fresh_row};
ghost use Rattle.version_set.specs.View.{pairs_of};
ghost use Rattle.record_cursor.specs.View.{PlainCursor};
ghost use Rattle.record_format.specs.Shapes.{IsShapedNode, AreShapedNodes};
ghost use Rattle.record_parts.specs.Shapes.{IsShapedLabel, IsShapedValue};
ghost use Rattle.record_writer.specs.Data.{call_alt};
ghost use Rattle.record_writer.specs.View.{writer_view};
ghost use Rattle.record_writer.specs.Walks.{node_calls, row_calls};
ghost use Rattle.stream_merge.specs.Does.{Sent};
ghost use Rattle.stream_merge.specs.Meets.{call_of, rest_of};
ghost use Rattle.stream_merge.specs.Passes.{fault_of};
ghost use Rattle.record_copy.specs.State.{state};
ghost use Rattle.stream_merge.specs.View.{inherited_view};

use crate::begin::{Kind, begin_node};
use crate::fault::{MergeFault, written};
use crate::inherited::{Inherited, started_stamp};
use archive_tree::effective;
use keyed_parts::{Inside, Kid, Kids};
use keyed_tree::LentVal;
use record_writer::{BodyFrom, LabelFrom, Writer};
use version_set::VersionSet;
use xa_outside::Folder;

/// Writes the kids that begin with the new version, beside a row of the archive.
pub(crate) fn put_started<F: Folder>(
    folder: &mut F,
    writer: &mut Writer,
    kids: Kids<'_, '_, '_>,
    from: &Inherited,
) -> Result<(), MergeFault>
    requires no_leaf { (writer_view writer.old).leaf ≡ None }
    requires number { 1 ≤ (inherited_view from.now).number }
    requires shaped { AreShapedNodes (fresh_row (kids_from (kids_view kids))) }
    ensures sends { (c : PlainCursor) → c.at ≤ c.length → Sent
        (row_calls (inherited_view from.entry.now).now
        (rest_of (inherited_view from.entry.now).number (inherited_view from.entry.now).before
        (kids_view kids.entry)))
        (state F.files F.draft F.numbers F.faults folder.old c writer.old)
        (state F.files F.draft F.numbers F.faults folder.new c writer.new) (fault_of result) }
{
    let stamp = started_stamp(from.alloc, from.number, &from.before);
    put_kids(folder, writer, &stamp, &from.now, kids)
}

/// Writes a kid that begins with the new version, beside a row of the archive.
pub(crate) fn put_kid<F: Folder>(
    folder: &mut F,
    writer: &mut Writer,
    kid: Kid<'_, '_, '_>,
    from: &Inherited,
) -> Result<(), MergeFault>
    requires no_leaf { (writer_view writer.old).leaf ≡ None }
    requires number { 1 ≤ (inherited_view from.now).number }
    requires shaped { IsShapedNode (fresh None (kid_view kid)) }
    ensures sends { (c : PlainCursor) → c.at ≤ c.length → Sent
        (row_calls (inherited_view from.entry.now).now
        (rest_of (inherited_view from.entry.now).number (inherited_view from.entry.now).before
        (kid_view kid.entry ∷ [])))
        (state F.files F.draft F.numbers F.faults folder.old c writer.old)
        (state F.files F.draft F.numbers F.faults folder.new c writer.new) (fault_of result) }
{
    let stamp = started_stamp(from.alloc, from.number, &from.before);
    put_node(folder, writer, &stamp, &from.now, kid)
}

// Writes kids of the version alone, each with this stamp, under a node that has the set.
#[cycle(put)]
fn put_kids<F: Folder>(
    folder: &mut F,
    writer: &mut Writer,
    stamp: &Option<VersionSet>,
    parent: &VersionSet,
    kids: Kids<'_, '_, '_>,
) -> Result<(), MergeFault>
    requires no_leaf { (writer_view writer.old).leaf ≡ None }
    requires shaped { AreShapedNodes (fresh_row (kids_from (kids_view kids))) }
    ensures sends { (c : PlainCursor) → c.at ≤ c.length → Sent (row_calls (pairs_of parent.now)
        (fresh_onto (stamp_view stamp.now) (kids_view kids.entry) no_nodes))
        (state F.files F.draft F.numbers F.faults folder.old c writer.old)
        (state F.files F.draft F.numbers F.faults folder.new c writer.new) (fault_of result) }
{
    let mut left = kids;
    while let Some((kid, rest)) = left.split_first() {
        put_node(folder, writer, stamp, parent, kid)?;
        left = rest;
    }
    Ok(())
}

/// Writes a node of the version alone with this stamp, under a parent that has the set.
#[cycle(put)]
pub(crate) fn put_node<F: Folder>(
    folder: &mut F,
    writer: &mut Writer,
    stamp: &Option<VersionSet>,
    parent: &VersionSet,
    kid: Kid<'_, '_, '_>,
) -> Result<(), MergeFault>
    requires no_leaf { (writer_view writer.old).leaf ≡ None }
    requires shaped { IsShapedNode (fresh None (kid_view kid)) }
    ensures sends { (c : PlainCursor) → c.at ≤ c.length → Sent (node_calls (pairs_of parent.now)
        (fresh (stamp_view stamp.now) (kid_view kid.entry)))
        (state F.files F.draft F.numbers F.faults folder.old c writer.old)
        (state F.files F.draft F.numbers F.faults folder.new c writer.new) (fault_of result) }
{
    let set = effective(stamp, parent);
    match kid.inside() {
        Inside::Kids(kids) => {
            put_opening(folder, writer, Kind::Inner, kid, stamp, set)?;
            put_kids(folder, writer, &None, set, kids)?;
            written(writer.end_inner(folder))
        }
        Inside::Body(body) => {
            put_opening(folder, writer, Kind::Leaf, kid, stamp, set)?;
            put_body(folder, writer, body)?;
            written(writer.end_leaf(folder))
        }
    }
}

// Begins a node of the version alone, with this stamp and effective set.
fn put_opening<F: Folder>(
    folder: &mut F,
    writer: &mut Writer,
    kind: Kind,
    kid: Kid<'_, '_, '_>,
    stamp: &Option<VersionSet>,
    set: &VersionSet,
) -> Result<(), MergeFault>
    requires no_leaf { (writer_view writer.old).leaf ≡ None }
    requires shaped { IsShapedLabel (label_of (kid_view kid)) }
    ensures sends { (c : PlainCursor) → c.at ≤ c.length → Sent
        (call_of kind (label_of (kid_view kid.entry)) (stamp_view stamp.now) (pairs_of set.now)
        ∷ [])
        (state F.files F.draft F.numbers F.faults folder.old c writer.old)
        (state F.files F.draft F.numbers F.faults folder.new c writer.new) (fault_of result) }
{
    let keys = kid.keys();
    let label = LabelFrom::Lent {
        name: kid.name(),
        keys: keys.as_slice(),
    };
    begin_node(folder, writer, kind, label, stamp, set)
}

// Writes the body of a leaf that was begun, which inherits its stamp.
fn put_body<F: Folder>(
    folder: &mut F,
    writer: &mut Writer,
    body: LentVal<'_, '_>,
) -> Result<(), MergeFault>
    requires leaf { (writer_view writer.old).leaf ≢ None }
    requires shaped { IsShapedValue (lent_val_view body) }
    ensures sends { (c : PlainCursor) → c.at ≤ c.length → Sent
        (call_alt None (lent_val_view body.entry) ∷ [])
        (state F.files F.draft F.numbers F.faults folder.old c writer.old)
        (state F.files F.draft F.numbers F.faults folder.new c writer.new) (fault_of result) }
{
    written(writer.alt(folder, &None, BodyFrom::Lent(body)))
}
