// Expecting sets.
ghost use Rattle.std.specs.Prelude.{◌≡◌, ◌++◌};
ghost use Rattle.std.specs.List.{flat_map};
ghost use Rattle.version_set.specs.View.{pairs_of};
ghost use Rattle.timestamp_tree.specs.Bytes.{pair_bytes, stored};
ghost use Rattle.row_ends.specs.Expected.{Expected};

use crate::room::Room;
use crate::stop::Stop;
use version_set::VersionSet;
use xa_outside::Folder;

/// Expects a node of a tree without its parts: the set's number of intervals, these, and the size
/// of the left part.
pub(crate) fn expect_stored<F: Folder>(
    room: &mut Room,
    folder: &mut F,
    name: &str,
    set: &VersionSet,
    left: u64,
) -> Result<(), Stop>
    ensures { Expected F.files F.draft F.numbers F.faults name.now (stored (pairs_of set.now) left)
        folder.old folder.new room.old room.new result }
{
    room.expect(folder, name, &left.to_be_bytes())?;
    expect_pairs(room, folder, name, set.pairs())?;
    room.expect(folder, name, &set.count().to_be_bytes())
}

fn expect_pairs<F: Folder>(
    room: &mut Room,
    folder: &mut F,
    name: &str,
    pairs: &[(u32, u32)],
) -> Result<(), Stop>
    ensures { Expected F.files F.draft F.numbers F.faults name.now (flat_map pair_bytes pairs.now)
        folder.old folder.new room.old room.new result }
{
    let mut index = pairs.len();
    while index > 0 {
        index -= 1;
        room.expect(folder, name, &spell_pair(pairs[index]))?;
    }
    Ok(())
}

fn spell_pair(pair: (u32, u32)) -> [u8; 8]
    ensures { result ≡ pair_bytes pair }
{
    let mut bytes = [0; 8];
    bytes[..4].copy_from_slice(&pair.0.to_be_bytes());
    bytes[4..].copy_from_slice(&pair.1.to_be_bytes());
    bytes
}
