// Looking for a version in a stored set.
ghost use Rattle.std.specs.Prelude.{◌≡◌, ◌+◌, ◌*◌, ◌≤◌, ◌<◌, ◌^◌, ℕ, List, length, Some};
ghost use Rattle.std.specs.List.{flat_map};
ghost use Rattle.xa_outside.specs.Numbers.{PullsAtMost};
ghost use Rattle.version_set.specs.Members.{members, has};
ghost use Rattle.timestamp_tree.specs.Bytes.{pair_bytes};
ghost use Rattle.record_parts.specs.Bounds.{IsSet, most};
ghost use Rattle.record_cursor.specs.Moves.{TellsFront};
ghost use Rattle.record_cursor.specs.Steps.{OnlyReads, fault_of, Filled};
ghost use Rattle.file_rows.specs.StandsAt.{StandsAt};
ghost use Rattle.file_get.specs.Searched.{searched};

use crate::body::is_among;
use crate::span::Ask;
use record_cursor::{CursorFault, fill_first, fill_part};
use record_parts::MOST_VERSIONS;
use xa_fields::take_u32;
use xa_outside::Folder;

/// So many intervals are read at once.
pub(crate) const FEW: u32 = 8;

/// Eight intervals.
const SHORT: usize = 64;

/// Whether the version is in the set whose intervals, so many, stand at an offset.
///
/// Of more than eight the one in the middle is read, and then those of the half where the version
/// would be. It takes no memory.
pub(crate) fn search_pairs<F: Folder>(
    ask: &Ask<'_>,
    folder: &mut F,
    at: u64,
    count: u32,
) -> Result<bool, CursorFault>
    requires { at + 8 * count < 2 ^ 64 }
    ensures reads { OnlyReads F.files F.draft F.faults folder.old folder.new (fault_of result) }
    ensures pulls { PullsAtMost (8 * searched count) (F.numbers folder.old) (F.numbers folder.new) }
    ensures told { (last : ℕ) (bytes : List ℕ) (s : List (ℕ × ℕ))
        → TellsFront (F.files folder.old) ask.now.name.now last bytes → at + 8 * count ≤ last
        → StandsAt bytes at (flat_map pair_bytes s) → count ≡ length s → IsSet s
        → Filled result (λ h. h ≡ has (members s) ask.now.version) }
{
    if count <= FEW {
        return read_few(ask, folder, at, count);
    }
    let half = count / 2;
    let middle = at + 8 * half as u64;
    let pair = match read_pair(ask, folder, middle) {
        Ok(pair) => pair,
        Err(fault) => return Err(fault),
    };
    let (from, to) = pair;
    if ask.version < from {
        return search_pairs(ask, folder, at, half);
    }
    if ask.version <= to {
        return Ok(true);
    }
    search_pairs(ask, folder, middle + 8, count - half - 1)
}

// Whether the version is in the set of eight intervals or fewer that stand at an offset.
fn read_few<F: Folder>(
    ask: &Ask<'_>,
    folder: &mut F,
    at: u64,
    count: u32,
) -> Result<bool, CursorFault>
    requires short { at + 8 * count < 2 ^ 64 }
    requires few { count ≤ 8 }
    ensures reads { OnlyReads F.files F.draft F.faults folder.old folder.new (fault_of result) }
    ensures pulls { PullsAtMost (8 * count) (F.numbers folder.old) (F.numbers folder.new) }
    ensures told { (last : ℕ) (bytes : List ℕ) (s : List (ℕ × ℕ))
        → TellsFront (F.files folder.old) ask.now.name.now last bytes → at + 8 * count ≤ last
        → StandsAt bytes at (flat_map pair_bytes s) → count ≡ length s → IsSet s
        → Filled result (λ h. h ≡ has (members s) ask.now.version) }
{
    let mut room = [0; SHORT];
    let size = 8 * count as usize;
    match fill_first(folder, ask.name, at, size, &mut room) {
        Ok(()) => is_among(&room[..size], count, ask.version),
        Err(fault) => Err(fault),
    }
}

// The interval at an offset.
fn read_pair<F: Folder>(ask: &Ask<'_>, folder: &mut F, at: u64) -> Result<(u32, u32), CursorFault>
    requires { at + 8 < 2 ^ 64 }
    ensures reads { OnlyReads F.files F.draft F.faults folder.old folder.new (fault_of result) }
    ensures pulls { PullsAtMost 8 (F.numbers folder.old) (F.numbers folder.new) }
    ensures told { (last : ℕ) (bytes : List ℕ) (p : ℕ × ℕ)
        → TellsFront (F.files folder.old) ask.now.name.now last bytes → at + 8 ≤ last
        → StandsAt bytes at (pair_bytes p) → 1 ≤ p.0 → p.0 ≤ p.1 → p.1 ≤ most
        → Filled result (λ q. q ≡ p) }
{
    let mut pair = [0; 8];
    match fill_part(folder, ask.name, at, &mut pair) {
        Ok(()) => pair_of(&pair).ok_or(CursorFault::Damage),
        Err(fault) => Err(fault),
    }
}

// The interval that these bytes are, of numbers that versions may have.
fn pair_of(bytes: &[u8]) -> Option<(u32, u32)>
    ensures told { (p : ℕ × ℕ) → 1 ≤ p.0 → p.0 ≤ p.1 → p.1 ≤ most → bytes.now ≡ pair_bytes p
        → result ≡ Some p }
{
    let (from, _) = take_u32(bytes, 0)?;
    let (to, _) = take_u32(bytes, 4)?;
    if from < 1 || to < from || MOST_VERSIONS < to {
        return None;
    }
    Some((from, to))
}
