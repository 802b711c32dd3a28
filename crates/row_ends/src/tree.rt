// Expecting the timestamp tree over the sets of kids.
ghost use Rattle.std.specs.Prelude.{◌≡◌, ◌-◌, ◌≤◌, length, take, drop, IfOk, OnOk};
ghost use Rattle.version_set.specs.View.{pairs_of};
ghost use Rattle.timestamp_tree.specs.Bytes.{tree_bytes};
ghost use Rattle.timestamp_tree.specs.Data.{top};
ghost use Rattle.timestamp_tree.specs.Tree.{tree_of};
ghost use Rattle.row_ends.specs.Expected.{Expected};
ghost use Rattle.row_ends.specs.SetsView.{sets_view};

use crate::room::Room;
use crate::sets::Sets;
use crate::spell::expect_stored;
use crate::stop::Stop;
use timestamp_tree::union_of;
use version_set::VersionSet;
use xa_outside::Folder;

/// Expects the tree over so many of the last sets, takes these, and gives their union.
pub(crate) fn expect_tree<F: Folder>(
    room: &mut Room,
    folder: &mut F,
    name: &str,
    sets: &mut Sets<'_>,
    count: u32,
) -> Result<VersionSet, Stop>
    requires some { 1 ≤ count }
    requires within { count ≤ length (sets_view sets.old) }
    ensures set { IfOk result (λ set. pairs_of set
        ≡ top (tree_of (drop (length (sets_view sets.old) - count) (sets_view sets.old)))) }
    ensures left { OnOk result (sets_view sets.new
        ≡ take (length (sets_view sets.old) - count) (sets_view sets.old)) }
    ensures expected { Expected F.files F.draft F.numbers F.faults name.now
        (tree_bytes (tree_of (drop (length (sets_view sets.old) - count) (sets_view sets.old))))
        folder.old folder.new room.old room.new result }
{
    if count == 1 {
        let set = sets.take_last()?;
        expect_stored(room, folder, name, &set, 0)?;
        return Ok(set);
    }
    let half = count.div_ceil(2);
    let right = expect_tree(room, folder, name, sets, count - half)?;
    let middle = room.place();
    let left = expect_tree(room, folder, name, sets, half)?;
    let size = middle - room.place();
    let set = union_of(left, right)?;
    expect_stored(room, folder, name, &set, size)?;
    Ok(set)
}
