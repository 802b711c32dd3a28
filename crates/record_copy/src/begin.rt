// Writing what was read.
ghost use Rattle.std.specs.Prelude.{◌≡◌, ◌≢◌, ◌≤◌, ◌∷◌, [], None};
ghost use Rattle.archive_tree.specs.View.{stamp_view};
ghost use Rattle.record_cursor.specs.View.{PlainCursor};
ghost use Rattle.record_writer.specs.Data.{call_alt};
ghost use Rattle.record_writer.specs.View.{writer_view};
ghost use Rattle.record_copy.specs.Faults.{fault_of};
ghost use Rattle.record_copy.specs.Parts.{alternative_view, head_view};
ghost use Rattle.record_copy.specs.Passes.{call_of};
ghost use Rattle.record_copy.specs.Runs.{Sent};
ghost use Rattle.record_copy.specs.State.{state};
ghost use Rattle.version_set.specs.View.{pairs_of};

use crate::fault::{CopyFault, written};
use crate::kind::Kind;
use crate::parts::{Alternative, Head};
use record_parts::{lend_body, lend_label};
use record_writer::{BodyFrom, LabelFrom, Writer};
use version_set::VersionSet;
use xa_outside::Folder;

/// Begins a node that was read, with this timestamp in the place of its own, and this effective
/// set.
pub fn begin_node<F: Folder>(
    folder: &mut F,
    writer: &mut Writer,
    head: &Head,
    stamp: &Option<VersionSet>,
    set: &VersionSet,
) -> Result<(), CopyFault>
    requires no_leaf { (writer_view writer.old).leaf ≡ None }
    ensures { (c : PlainCursor) → c.at ≤ c.length → Sent
        (call_of (head_view head.now).kind (head_view head.now).label (stamp_view stamp.now)
        (pairs_of set.now) ∷ [])
        (state F.files F.draft F.numbers F.faults folder.old c writer.old)
        (state F.files F.draft F.numbers F.faults folder.new c writer.new) (fault_of result) }
{
    let label = LabelFrom::Old(lend_label(&head.label));
    match head.kind {
        Kind::Inner => written(writer.inner(folder, label, stamp, set)),
        Kind::Leaf => written(writer.leaf(folder, label, stamp, set)),
    }
}

/// Writes an alternative that was read, with this timestamp in the place of its own.
pub fn put_alternative<F: Folder>(
    folder: &mut F,
    writer: &mut Writer,
    alternative: &Alternative,
    stamp: &Option<VersionSet>,
) -> Result<(), CopyFault>
    requires leaf { (writer_view writer.old).leaf ≢ None }
    ensures { (c : PlainCursor) → c.at ≤ c.length → Sent
        (call_alt (stamp_view stamp.now) (alternative_view alternative.now).body ∷ [])
        (state F.files F.draft F.numbers F.faults folder.old c writer.old)
        (state F.files F.draft F.numbers F.faults folder.new c writer.new) (fault_of result) }
{
    let body = BodyFrom::Old(lend_body(&alternative.body));
    written(writer.alt(folder, stamp, body))
}
