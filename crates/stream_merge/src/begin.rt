// Beginning nodes.
ghost use Rattle.std.specs.Prelude.{◌≡◌, ◌≤◌, ◌∷◌, [], None};
ghost use Rattle.archive_tree.specs.View.{stamp_view};
ghost use Rattle.version_set.specs.View.{pairs_of};
ghost use Rattle.record_cursor.specs.View.{PlainCursor};
ghost use Rattle.record_writer.specs.Given.{given_label, IsShapedLabelFrom};
ghost use Rattle.record_writer.specs.View.{writer_view};
ghost use Rattle.stream_merge.specs.Does.{Sent};
ghost use Rattle.stream_merge.specs.Meets.{call_of};
ghost use Rattle.stream_merge.specs.Passes.{fault_of};
ghost use Rattle.record_copy.specs.State.{state};

use crate::fault::{MergeFault, written};
use record_writer::{LabelFrom, Writer};
use version_set::VersionSet;
use xa_outside::Folder;

/// What a node is.
#[derive(Clone, Copy)]
pub(crate) enum Kind {
    Inner,
    Leaf,
}

/// Begins a node with this stamp and effective set.
pub(crate) fn begin_node<F: Folder>(
    folder: &mut F,
    writer: &mut Writer,
    kind: Kind,
    label: LabelFrom<'_, '_>,
    stamp: &Option<VersionSet>,
    set: &VersionSet,
) -> Result<(), MergeFault>
    requires no_leaf { (writer_view writer.old).leaf ≡ None }
    requires shaped { IsShapedLabelFrom label }
    ensures sends { (c : PlainCursor) → c.at ≤ c.length → Sent
        (call_of kind (given_label label.entry) (stamp_view stamp.now) (pairs_of set.now) ∷ [])
        (state F.files F.draft F.numbers F.faults folder.old c writer.old)
        (state F.files F.draft F.numbers F.faults folder.new c writer.new) (fault_of result) }
{
    match kind {
        Kind::Inner => written(writer.inner(folder, label, stamp, set)),
        Kind::Leaf => written(writer.leaf(folder, label, stamp, set)),
    }
}
