// The nodes of a file.
ghost use Rattle.record_cursor.specs.View.{header_view, IsHeader};
ghost use Rattle.node_walk.specs.Nodes.{NodesJudged, FolderSeen, folder_seen};

use crate::finish::read_finish;
use crate::root::judge_root;
use node_judge::rows_are_right_kid_by_kid;
use record_cursor::{Cursor, CursorFault, Header};
use row_ends::Room;
use std::alloc::Global;
use version_set::VersionSet;
use xa_outside::Folder;

/// Judges the nodes of the file of this name that has the header: whether they are those of an
/// archive that is keyed by the header's specification. Damage says that they are not.
///
/// It reads each byte behind the header once. It holds one record, a label and what is waited for of
/// each row that stands open, what is kept of finished kids, and the bodies of one leaf.
pub fn judge_nodes<F: Folder>(
    alloc: Global,
    folder: &mut F,
    name: &str,
    header: &Header,
) -> Result<(), CursorFault>
    requires { IsHeader (header_view header.now) }
    ensures { NodesJudged name.now (header_view header.now)
        (folder_seen F.files F.draft F.numbers F.faults folder.old)
        (folder_seen F.files F.draft F.numbers F.faults folder.new) result }
{
    // A law, for the proof: a row tells whether an archive is sound.
    rows_are_right_kid_by_kid();
    let mut cursor = Cursor::start(alloc, name, header)?;
    let mut room = Room::new(alloc)?;
    let set = VersionSet::upto(alloc, header.versions);
    judge_root(
        alloc,
        &mut room,
        folder,
        name,
        &mut cursor,
        &header.spec,
        &set,
    )?;
    read_finish(folder, &mut cursor)
}
