// Rows of children, and the directories behind them.
ghost use Rattle.std.specs.Prelude.{◌≡◌, ◌≢◌, ◌+◌, ◌-◌, ◌*◌, ◌<◌, ◌≤◌, ℕ, List, [], length, take, drop, None, Some, IfOk, IfSome, IsTrue, option_map, slice_get};
ghost use Rattle.std.specs.Int.{w64};
ghost use Rattle.xa_fields.specs.Reading.{number_at};
ghost use Rattle.xa_fields.specs.Spelling.{u64_bytes};
ghost use Rattle.xa_outside.specs.Folder.{Files, front_of};
ghost use Rattle.xa_outside.specs.Numbers.{PullsAtMost};
ghost use Rattle.keyed_tree.specs.Data.{PlainLabel};
ghost use Rattle.archive_tree.specs.Data.{Stamp};
ghost use Rattle.record_format.specs.Bounds.{IsDir};
ghost use Rattle.record_format.specs.Data.{inner_rec};
ghost use Rattle.record_format.specs.Nodes.{Piece, dir_of, inner_piece};
ghost use Rattle.record_format.specs.Spelling.{rec_bytes};
ghost use Rattle.record_cursor.specs.Moves.{TellsFront};
ghost use Rattle.record_cursor.specs.Steps.{OnlyReads, fault_of, Filled};
ghost use Rattle.file_rows.specs.StandsAt.{StandsAt, RowLaid, ChildLaid, IsEntered, IsHead, has_room, start_in};
ghost use Rattle.file_rows.specs.View.{PlainRow, row_view, child_view};

use crate::entries::{ENTRY, HEAD, child_of, counted, row_before};
use crate::places::{Child, Row};
use record_cursor::{CursorFault, fill_part};
use record_format::FRAME;
use xa_fields::take_u64;
use xa_outside::Folder;

/// The END's length once more, behind it.
const TAIL: u64 = 8;

/// The row of the virtual root in the first `size` bytes of a file, whose header has `first`.
///
/// It reads the eight bytes of the tail, the last of those `size`.
pub fn root_row<F: Folder>(
    folder: &mut F,
    name: &str,
    first: u64,
    size: u64,
) -> Result<Row, CursorFault>
    requires { first ≤ size }
    ensures reads { OnlyReads F.files F.draft F.faults folder.old folder.new (fault_of result) }
    ensures pulls { PullsAtMost 8 (F.numbers folder.old) (F.numbers folder.new) }
    ensures inside { PullsAtMost (size - first) (F.numbers folder.old) (F.numbers folder.new) }
    ensures within { IfOk result (λ row. (row.first ≡ first)
        × (row.end + (9 + row.dir) + 8 ≡ size)) }

    // A file with fewer bytes has none.
    ensures short { (files : Files) → F.files folder.old ≡ Some files
        → front_of files name.now size ≡ None → IfOk result (λ _. ⊥) }

    // Where the file is told, the END's length is the number in the last eight bytes.
    ensures tail { (bytes : List ℕ) → TellsFront (F.files folder.old) name.now size bytes
        → IfOk result (λ row. number_at w64 (drop (size - 8) bytes) ≡ Some (row.dir, [])) }
    ensures told { (bytes : List ℕ) (row : PlainRow) (ps : List Piece)
        → TellsFront (F.files folder.old) name.now size bytes → RowLaid bytes row ps
        → row.first ≡ first → row.end + (9 + row.dir) + 8 ≡ size
        → StandsAt bytes (size - 8) (u64_bytes row.dir)
        → Filled result (λ r. RowLaid bytes (row_view r) ps) }
{
    if size - first < TAIL {
        return Err(CursorFault::Damage);
    }
    let end = size - TAIL;
    let mut tail = [0; 8];
    match fill_part(folder, name, end, &mut tail) {
        Ok(()) => tail_row(first, end, &tail).ok_or(CursorFault::Damage),
        Err(fault) => Err(fault),
    }
}

/// The row from an offset on, whose END ends at another and has the length in the tail behind it.
fn tail_row(first: u64, end: u64, tail: &[u8]) -> Option<Row>
    ensures within { IfSome result (λ row. (row.first ≡ first)
        × (row.end + (9 + row.dir) ≡ end)) }
    ensures is { (piece : List ℕ) → length piece ≡ 8 → tail.now ≡ take 8 piece
        → IfSome result (λ row. number_at w64 piece ≡ Some (row.dir, [])) }
    ensures told { (row : PlainRow) → row.first ≡ first → row.first ≤ row.end
        → row.end + (9 + row.dir) ≡ end → tail.now ≡ u64_bytes row.dir
        → option_map row_view result ≡ Some row }
{
    let (dir, _) = take_u64(tail, 0)?;
    row_before(first, end, dir)
}

/// The number of children in a row.
///
/// It reads 13 bytes: the kind and the length of the END, and the number. Where its body is not as
/// long as the entries and the tree of so many children can make it, the file is damaged.
pub fn count_children<F: Folder>(folder: &mut F, name: &str, row: Row) -> Result<u32, CursorFault>
    ensures reads { OnlyReads F.files F.draft F.faults folder.old folder.new (fault_of result) }
    ensures pulls { PullsAtMost 13 (F.numbers folder.old) (F.numbers folder.new) }
    ensures inside { PullsAtMost (9 + row.dir) (F.numbers folder.old) (F.numbers folder.new) }
    ensures room { IfOk result (λ count. IsTrue (has_room count row.dir)) }
    ensures within { IfOk result (λ count. 4 + 24 * count ≤ row.dir) }

    // Where the file is told, the kind, the length and the number stand there.
    ensures head { (end : ℕ) (bytes : List ℕ) → TellsFront (F.files folder.old) name.now end bytes
        → row.end + (9 + row.dir) ≤ end
        → IfOk result (IsHead (drop row.end bytes) row.dir) }
    ensures told { (end : ℕ) (bytes : List ℕ) (ps : List Piece)
        → TellsFront (F.files folder.old) name.now end bytes → row.end + (9 + row.dir) ≤ end
        → RowLaid bytes (row_view row) ps → IsDir (dir_of ps)
        → Filled result (λ count. count ≡ length ps) }
{
    if row.dir < 4 {
        return Err(CursorFault::Damage);
    }
    let mut head = [0; HEAD];
    match fill_part(folder, name, row.end, &mut head) {
        Ok(()) => counted(&head, row.dir).ok_or(CursorFault::Damage),
        Err(fault) => Err(fault),
    }
}

/// The offsets between which the stored tree over the sets of so many children stands: behind their
/// entries, up to where the END's body ends.
pub fn tree_of(row: Row, count: u32) -> (u64, u64)
    requires { 4 + 24 * count ≤ row.dir }
    ensures at { result.0 ≡ row.end + (13 + 24 * count) }
    ensures limit { result.1 ≡ row.end + (9 + row.dir) }
{
    let at = row.end + (HEAD as u64 + ENTRY as u64 * u64::from(count));
    (at, row.end + (FRAME as u64 + row.dir))
}

/// The child at a position, from 0, where it stands between two offsets.
///
/// It reads its entry, 24 bytes. A child that does not stand there is damage.
pub fn read_child<F: Folder>(
    folder: &mut F,
    name: &str,
    row: Row,
    position: u32,
    low: u64,
    high: u64,
) -> Result<Child, CursorFault>
    requires { 4 + 24 * (position + 1) ≤ row.dir }
    ensures reads { OnlyReads F.files F.draft F.faults folder.old folder.new (fault_of result) }
    ensures pulls { PullsAtMost 24 (F.numbers folder.old) (F.numbers folder.new) }
    ensures within { IfOk result (λ child. (low ≤ child.first) × (child.end ≤ high)) }

    // Where the file is told, the child is where its entry says.
    ensures entry { (end : ℕ) (bytes : List ℕ) → TellsFront (F.files folder.old) name.now end bytes
        → row.end + (9 + row.dir) ≤ end
        → IfOk result (λ child. IsEntered (drop (row.end + (13 + 24 * position)) bytes)
        row.first (child_view child)) }
    ensures told { (end : ℕ) (bytes : List ℕ) (ps : List Piece) (p : Piece)
        → TellsFront (F.files folder.old) name.now end bytes → row.end + (9 + row.dir) ≤ end
        → RowLaid bytes (row_view row) ps → IsDir (dir_of ps)
        → slice_get ps position ≡ Some p → low ≤ start_in row.first ps position
        → start_in row.first ps (position + 1) ≤ high
        → Filled result (λ child. ChildLaid bytes (child_view child) p
        × (child.first ≡ start_in row.first ps position)) }
{
    let at = row.end + HEAD as u64 + ENTRY as u64 * u64::from(position);
    let mut entry = [0; ENTRY];
    match fill_part(folder, name, at, &mut entry) {
        Ok(()) => child_of(&entry, row.first, low, high).ok_or(CursorFault::Damage),
        Err(fault) => Err(fault),
    }
}

/// The row inside an inner child whose opening record ends at this offset, or None where its END
/// would begin before that.
pub fn row_of(child: Child, behind: u64) -> Option<Row>
    ensures within { IfSome result (λ row. (row.first ≡ behind)
        × (row.end + (9 + row.dir) ≡ child.end)) }
    ensures dir { IfSome result (λ row. row.dir ≡ child.dir) }
    ensures told { (bytes : List ℕ) (l : PlainLabel) (s : Stamp) (set : List (ℕ × ℕ))
        (ps : List Piece) → ChildLaid bytes (child_view child) (inner_piece l s set ps)
        → behind ≡ child.first + length (rec_bytes (inner_rec l s))
        → IfSome result (λ row. RowLaid bytes (row_view row) ps) × (result ≢ None) }
{
    row_before(behind, child.end, child.dir)
}
