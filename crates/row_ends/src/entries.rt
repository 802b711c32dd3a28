// Expecting the entries of kids.
ghost use Rattle.std.specs.Prelude.{◌≡◌, ◌+◌, ◌<◌, ◌^◌, ◌++◌, length, map};
ghost use Rattle.std.specs.List.{flat_map};
ghost use Rattle.record_format.specs.Spelling.{entry_bytes};
ghost use Rattle.row_ends.specs.Expected.{Expected};
ghost use Rattle.row_ends.specs.Kids.{entries_in, row_length};
ghost use Rattle.row_ends.specs.KidViews.{size_view};

use crate::parts::Size;
use crate::room::Room;
use crate::stop::Stop;
use xa_outside::Folder;

/// Expects the entries of kids that have so many bytes together.
pub(crate) fn expect_entries<F: Folder>(
    room: &mut Room,
    folder: &mut F,
    name: &str,
    sizes: &[Size],
    length: u64,
) -> Result<(), Stop>
    requires { length ≡ row_length (map size_view sizes.now) }
    ensures { Expected F.files F.draft F.numbers F.faults name.now
        (flat_map entry_bytes (entries_in 0 (map size_view sizes.now)))
        folder.old folder.new room.old room.new result }
{
    let mut start = length;
    let mut index = sizes.len();
    while index > 0 {
        index -= 1;
        start -= sizes[index].length;
        expect_entry(room, folder, name, start, sizes[index])?;
    }
    Ok(())
}

/// Expects the entry of a kid that begins at this offset from the first kid.
fn expect_entry<F: Folder>(
    room: &mut Room,
    folder: &mut F,
    name: &str,
    start: u64,
    size: Size,
) -> Result<(), Stop>
    ensures { Expected F.files F.draft F.numbers F.faults name.now
        (entry_bytes (record { start = start; length = size.length; dir = size.dir }))
        folder.old folder.new room.old room.new result }
{
    room.expect(folder, name, &size.dir.to_be_bytes())?;
    room.expect(folder, name, &size.length.to_be_bytes())?;
    room.expect(folder, name, &start.to_be_bytes())
}
