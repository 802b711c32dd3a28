// Beginning a node of the archive beside a row of the new version.
ghost use Rattle.std.specs.Prelude.{◌≡◌, ◌≢◌, ◌≤◌, None, IfOk, IsTrue};
ghost use Rattle.std.specs.Option.{option_map};
ghost use Rattle.keyed_tree.specs.Data.{kids_from, label_of};
ghost use Rattle.keyed_tree.specs.Kids.{ascend, kid_at};
ghost use Rattle.keyed_tree.specs.Order.{label_cmp};
ghost use Rattle.keyed_parts.specs.View.{kid_view, kids_view};
ghost use Rattle.nested_merge.specs.Merged.{above, fresh_row};
ghost use Rattle.record_cursor.specs.View.{PlainCursor};
ghost use Rattle.record_format.specs.Shapes.{AreShapedNodes};
ghost use Rattle.record_parts.specs.ShownViews.{shown_label, shown_stamp};
ghost use Rattle.record_writer.specs.View.{writer_view};
ghost use Rattle.stream_merge.specs.Beside.{BeganBeside, BelowPut, IsBegun};
ghost use Rattle.stream_merge.specs.Passes.{fault_of};
ghost use Rattle.record_copy.specs.State.{state};
ghost use Rattle.stream_merge.specs.View.{inherited_view, own_view};

use crate::begin::{Kind, begin_node};
use crate::fault::MergeFault;
use crate::fresh::put_kid;
use crate::inherited::{Inherited, Own, turned_node};
use keyed_parts::{Kid, Kids};
use record_format::{LabelView, StampView};
use record_writer::{LabelFrom, Writer};
use std::cmp::Ordering;
use xa_outside::Folder;

/// A node of the archive that was begun beside a row of the version.
#[derive(Drop)]
pub(crate) struct Begun<'p, 'k, 'a, 't> {
    /// The kid of the version with the node's label, if it has one.
    pub(crate) kid: Option<Kid<'k, 'a, 't>>,
    /// The kids of the version behind this node.
    pub(crate) rest: Kids<'k, 'a, 't>,
    pub(crate) own: Own<'p>,
}

/// Writes the kids of the version that come before a node of the archive, and begins the node.
pub(crate) fn begin_beside<'p, 'k, 'a, 't, F: Folder>(
    folder: &mut F,
    writer: &mut Writer,
    kind: Kind,
    label: LabelView<'_>,
    stamp: StampView<'_>,
    kids: Kids<'k, 'a, 't>,
    from: &'p Inherited,
) -> Result<Begun<'p, 'k, 'a, 't>, MergeFault>
    requires no_leaf { (writer_view writer.old).leaf ≡ None }
    requires number { 1 ≤ (inherited_view from.now).number }
    requires ascending { IsTrue (ascend (kids_from (kids_view kids))) }
    requires shaped { AreShapedNodes (fresh_row (kids_from (kids_view kids))) }
    ensures begins { (c : PlainCursor) → c.at ≤ c.length → BeganBeside kind
        (inherited_view from.entry.now) (shown_label label.entry) (shown_stamp stamp.entry)
        (kids_view kids.entry)
        (state F.files F.draft F.numbers F.faults folder.old c writer.old)
        (state F.files F.draft F.numbers F.faults folder.new c writer.new) result }
    ensures begun { IfOk result (λ b. IsBegun (inherited_view from.entry.now)
        (shown_label label.entry) (shown_stamp stamp.entry) (kids_view kids.entry)
        (option_map kid_view b.kid) (kids_view b.rest) (own_view b.own)) }
{
    let _spelled = label.bytes();
    let (kid, rest) = put_below(folder, writer, &label, kids, from)?;
    let (stamp, own) = turned_node(&stamp, kid.is_some(), from)?;
    let label = LabelFrom::Old(label);
    let began = begin_node(folder, writer, kind, label, &stamp, &own.get().now);
    drop(stamp);
    began?;
    Ok(Begun { kid, rest, own })
}

// Writes the kids that come before the label: the kid that has it, if there is one, and the kids
// behind.
fn put_below<'k, 'a, 't, F: Folder>(
    folder: &mut F,
    writer: &mut Writer,
    label: &LabelView<'_>,
    kids: Kids<'k, 'a, 't>,
    from: &Inherited,
) -> Result<(Option<Kid<'k, 'a, 't>>, Kids<'k, 'a, 't>), MergeFault>
    requires no_leaf { (writer_view writer.old).leaf ≡ None }
    requires number { 1 ≤ (inherited_view from.now).number }
    requires ascending { IsTrue (ascend (kids_from (kids_view kids))) }
    requires shaped { AreShapedNodes (fresh_row (kids_from (kids_view kids))) }
    ensures puts { (c : PlainCursor) → c.at ≤ c.length → BelowPut
        (inherited_view from.entry.now) (shown_label label.entry.now) (kids_view kids.entry)
        (state F.files F.draft F.numbers F.faults folder.old c writer.old)
        (state F.files F.draft F.numbers F.faults folder.new c writer.new) (fault_of result) }
    ensures kid { IfOk result (λ r. option_map kid_view r.0
        ≡ kid_at (shown_label label.entry.now) (kids_view kids.entry)) }
    ensures rest { IfOk result (λ r. kids_view r.1
        ≡ above (shown_label label.entry.now) (kids_view kids.entry)) }
{
    let mut left = kids;
    while let Some((kid, rest)) = left.split_first() {
        match place(label, kid) {
            Ordering::Greater => put_kid(folder, writer, kid, from)?,
            Ordering::Equal => return Ok((Some(kid), rest)),
            Ordering::Less => return Ok((None, left)),
        }
        left = rest;
    }
    Ok((None, left))
}

// The order of a label of the archive and that of a kid.
fn place(label: &LabelView<'_>, kid: Kid<'_, '_, '_>) -> Ordering
    ensures { result ≡ label_cmp (shown_label label.entry.now) (label_of (kid_view kid.entry)) }
{
    label.order_lent(kid.name(), kid.keys().as_slice())
}
