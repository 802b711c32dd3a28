// Beginning nodes.
ghost use Rattle.std.specs.Prelude.{◌≡◌, ◌≤◌, ◌∷◌, [], None, IfOk};
ghost use Rattle.std.specs.Option.{option_map};
ghost use Rattle.version_set.specs.View.{pairs_of};
ghost use Rattle.archive_tree.specs.View.{stamp_view};
ghost use Rattle.record_parts.specs.ShownViews.{shown_label};
ghost use Rattle.record_cursor.specs.View.{PlainCursor};
ghost use Rattle.record_writer.specs.View.{writer_view};
ghost use Rattle.record_copy.specs.Faults.{fault_of};
ghost use Rattle.record_copy.specs.Passes.{call_of};
ghost use Rattle.record_copy.specs.Runs.{Sent};
ghost use Rattle.record_copy.specs.State.{state};
ghost use Rattle.archive_cut.specs.Opened.{opening_calls};
ghost use Rattle.archive_cut.specs.Windows.{stamp_left};

use crate::window::{Window, cut_stamp};
use archive_tree::effective;
use record_copy::{CopyFault, Kind, written};
use record_format::LabelView;
use record_writer::{LabelFrom, Writer};
use version_set::VersionSet;
use xa_outside::Folder;

/// Begins a node that had this stamp, under a parent of which this set is left, with the stamp that
/// is left; or answers None where no version of the node is left.
pub(crate) fn open_node<F: Folder>(
    window: &Window,
    folder: &mut F,
    writer: &mut Writer,
    kind: Kind,
    label: LabelView<'_>,
    stamp: &Option<VersionSet>,
    now: &VersionSet,
) -> Result<Option<Option<VersionSet>>, CopyFault>
    requires no_leaf { (writer_view writer.old).leaf ≡ None }
    ensures sends { (c : PlainCursor) → c.at ≤ c.length → Sent
        (opening_calls kind (shown_label label.entry) (pairs_of now.entry.now)
        (stamp_left window.entry.now.first window.entry.now.last (pairs_of now.entry.now)
        (stamp_view stamp.entry.now)))
        (state F.files F.draft F.numbers F.faults folder.old c writer.old)
        (state F.files F.draft F.numbers F.faults folder.new c writer.new) (fault_of result) }
    ensures stamp { IfOk result (λ s. option_map stamp_view s
        ≡ stamp_left window.entry.now.first window.entry.now.last (pairs_of now.entry.now)
        (stamp_view stamp.entry.now)) }
{
    let left = cut_stamp(window, stamp, now)?;
    let Some(new) = left else {
        return Ok(None);
    };
    begin_node(folder, writer, kind, label, &new, effective(&new, now))?;
    Ok(Some(new))
}

// Begins a node with this stamp and effective set.
fn begin_node<F: Folder>(
    folder: &mut F,
    writer: &mut Writer,
    kind: Kind,
    label: LabelView<'_>,
    stamp: &Option<VersionSet>,
    set: &VersionSet,
) -> Result<(), CopyFault>
    requires no_leaf { (writer_view writer.old).leaf ≡ None }
    ensures sends { (c : PlainCursor) → c.at ≤ c.length → Sent
        (call_of kind (shown_label label.entry) (stamp_view stamp.now) (pairs_of set.now) ∷ [])
        (state F.files F.draft F.numbers F.faults folder.old c writer.old)
        (state F.files F.draft F.numbers F.faults folder.new c writer.new) (fault_of result) }
{
    let label = LabelFrom::Old(label);
    match kind {
        Kind::Inner => written(writer.inner(folder, label, stamp, set)),
        Kind::Leaf => written(writer.leaf(folder, label, stamp, set)),
    }
}
