// The row of the virtual root.
ghost use Rattle.std.specs.Prelude.{◌≡◌, ◌≤◌};
ghost use Rattle.key_spec.specs.View.{spec_view};
ghost use Rattle.record_parts.specs.Bounds.{IsSet};
ghost use Rattle.version_set.specs.View.{pairs_of};
ghost use Rattle.node_walk.specs.Places.{IsAmongNodes};
ghost use Rattle.node_walk.specs.Walked.{RootJudged};
ghost use Rattle.node_walk.specs.Seen.{seen};

use crate::rows::judge_row;
use key_spec::Spec;
use node_judge::{Frame, divide};
use record_cursor::{Cursor, CursorFault};
use row_ends::{Kids, Room};
use std::alloc::Global;
use version_set::VersionSet;
use xa_outside::Folder;

/// Judges the row of the virtual root, whose versions are the set, and answers the length of the
/// body of its END. The sets of its nodes have to divide the versions.
pub(crate) fn judge_root<F: Folder>(
    alloc: Global,
    room: &mut Room,
    folder: &mut F,
    name: &str,
    cursor: &mut Cursor,
    spec: &Spec,
    set: &VersionSet,
) -> Result<u64, CursorFault>
    requires named { name.now ≡ cursor.old.name }
    requires within { cursor.old.at ≤ cursor.old.length }
    requires among { IsAmongNodes cursor.old.standing }
    requires set { IsSet (pairs_of set.now) }
    ensures { RootJudged (spec_view spec.now) (pairs_of set.now)
        (seen F.files F.draft F.numbers F.faults folder.old cursor.old)
        (seen F.files F.draft F.numbers F.faults folder.new cursor.new) result }
{
    let mut frame = Frame::root(alloc, spec, set);
    let mut kids = Kids::new(alloc);
    let length = judge_row(alloc, room, folder, name, cursor, &mut frame, &mut kids)?;
    if divide(set, kids.pairs(alloc, set)?) {
        Ok(length)
    } else {
        Err(CursorFault::Damage)
    }
}
