// Comparing the END of a row.
ghost use Rattle.std.specs.Prelude.{◌≡◌, ◌+◌, ◌<◌, ◌≤◌, ◌^◌, ℕ, List, length as size, take, drop, bytes_eq};
ghost use Rattle.version_set.specs.View.{pairs_of};
ghost use Rattle.xa_outside.specs.Numbers.{PullsAtMost};
ghost use Rattle.record_cursor.specs.Moves.{TellsFront};
ghost use Rattle.record_cursor.specs.Steps.{OnlyReads, fault_of, Filled};
ghost use Rattle.record_format.specs.Spelling.{dir_bytes, sets_bytes};
ghost use Rattle.row_ends.specs.Expected.{Expected, Compared, answered};
ghost use Rattle.row_ends.specs.Kids.{dir_in, sets_in};
ghost use Rattle.row_ends.specs.KidsView.{kids_view};

use crate::entries::expect_entries;
use crate::kids::Kids;
use crate::room::Room;
use crate::stop::Stop;
use crate::tree::expect_tree;
use record_cursor::CursorFault;
use version_set::VersionSet;
use xa_outside::Folder;

/// Whether the body of the END of a node that has this set and these kids stands in a file: so many
/// bytes from an offset on.
///
/// It is compared from its last byte to its first, in pieces of at most 64 KiB. It takes memory for
/// copies of the sets of kids and for their unions alone, about one for each level of the tree.
/// What the file says there never decides how much. Where the file has fewer bytes it is false or
/// Damage.
pub fn is_end<F: Folder>(
    room: &mut Room,
    folder: &mut F,
    name: &str,
    at: u64,
    length: u64,
    set: &VersionSet,
    kids: &Kids,
) -> Result<bool, CursorFault>
    requires { at + length < 2 ^ 64 }
    ensures reads { OnlyReads F.files F.draft F.faults folder.old folder.new (fault_of result) }
    ensures pulls { PullsAtMost length (F.numbers folder.old) (F.numbers folder.new) }

    // Where the file is told, it has these bytes there or others, and is not damaged.
    ensures told { (end : ℕ) (bytes : List ℕ) → TellsFront (F.files folder.old) name.now end bytes
        → at + length ≤ end → Filled result (λ b. b
        ≡ bytes_eq (dir_bytes (dir_in (pairs_of set.now) (kids_view kids.now)))
        (take length (drop at bytes))) }
{
    room.begin(at, at + length);
    answer(expect_end(room, folder, name, set, kids))
}

/// Whether all bytes were found, or the fault.
fn answer(given: Result<(), Stop>) -> Result<bool, CursorFault>
    ensures { result ≡ answered given }
{
    match given {
        Ok(()) => Ok(true),
        Err(Stop::Differs) => Ok(false),
        Err(Stop::Fault(fault)) => Err(fault),
    }
}

/// Compares the body of the END with the bytes of the room.
fn expect_end<F: Folder>(
    room: &mut Room,
    folder: &mut F,
    name: &str,
    set: &VersionSet,
    kids: &Kids,
) -> Result<(), Stop>
    requires { room.old.low ≤ room.old.at }
    ensures { Compared F.files F.draft F.numbers F.faults name.now
        (dir_bytes (dir_in (pairs_of set.now) (kids_view kids.now)))
        folder.old folder.new room.old result }
{
    expect_sets(room, folder, name, set, kids)?;
    expect_entries(room, folder, name, kids.sizes(), kids.length())?;
    room.expect(folder, name, &kids.count().to_be_bytes())?;
    room.finish(folder, name)
}

/// Expects the tree over the sets of kids, where there are any.
fn expect_sets<F: Folder>(
    room: &mut Room,
    folder: &mut F,
    name: &str,
    set: &VersionSet,
    kids: &Kids,
) -> Result<(), Stop>
    ensures { Expected F.files F.draft F.numbers F.faults name.now
        (sets_bytes (sets_in (pairs_of set.now) (kids_view kids.now).stamps))
        folder.old folder.new room.old room.new result }
{
    if kids.count() == 0 {
        return Ok(());
    }
    let mut sets = kids.sets(set);
    expect_tree(room, folder, name, &mut sets, kids.count())?;
    Ok(())
}
