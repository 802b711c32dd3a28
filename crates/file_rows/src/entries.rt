// What the bytes of a directory say of a row and its children.
ghost use Rattle.std.specs.Prelude.{◌≡◌, ◌+◌, ◌*◌, ◌<◌, ◌≤◌, ◌^◌, ℕ, List, length, take, Some, IfSome, IsTrue, option_map};
ghost use Rattle.record_format.specs.Bounds.{IsEntry};
ghost use Rattle.record_format.specs.Data.{PlainEntry};
ghost use Rattle.record_format.specs.Spelling.{entry_bytes};
ghost use Rattle.record_format.specs.View.{entry_view};
ghost use Rattle.file_rows.specs.StandsAt.{IsEntered, IsHead, has_room, head_bytes};
ghost use Rattle.file_rows.specs.View.{PlainRow, row_view, child_view};

use crate::places::{Child, Row};
use record_format::{END, Entry};
use xa_fields::{take_u8, take_u32, take_u64};

/// The kind and the length of an END, and the number of children.
pub(crate) const HEAD: usize = 13;

/// An entry.
pub(crate) const ENTRY: usize = 24;

/// The row from an offset on, whose END has a body of so many bytes and ends at another offset.
pub(crate) fn row_before(first: u64, end: u64, dir: u64) -> Option<Row>
    ensures within { IfSome result (λ row. (row.first ≡ first)
        × (row.end + (9 + row.dir) ≡ end)) }
    ensures dir { IfSome result (λ row. row.dir ≡ dir) }
    ensures told { (row : PlainRow) → row.first ≡ first → row.first ≤ row.end → row.dir ≡ dir
        → row.end + (9 + row.dir) ≡ end → option_map row_view result ≡ Some row }
{
    let room = end.checked_sub(first)?;
    if room < 9 || room - 9 < dir {
        return None;
    }
    Some(Row {
        first,
        end: end - 9 - dir,
        dir,
    })
}

/// The number of children that the head of an END counts, whose body has so many bytes.
pub(crate) fn counted(head: &[u8], dir: u64) -> Option<u32>
    ensures room { IfSome result (λ count. IsTrue (has_room count dir)) }
    ensures is { (bytes : List ℕ) → 13 ≤ length bytes → head.now ≡ take 13 bytes
        → IfSome result (IsHead bytes dir) }
    ensures told { (n : ℕ) → n < 2 ^ 32 → IsTrue (has_room n dir) → head.now ≡ head_bytes dir n
        → result ≡ Some n }
{
    let (kind, _) = take_u8(head, 0)?;
    let (size, _) = take_u64(head, 1)?;
    let (count, _) = take_u32(head, 9)?;
    if kind != END || size != dir || !may_have(dir, count) {
        return None;
    }
    Some(count)
}

/// Whether the body of an END may have so many bytes, whose directory has so many children.
fn may_have(dir: u64, count: u32) -> bool
    ensures { result ≡ has_room count dir }
{
    let count = u64::from(count);
    if count == 0 {
        dir == 4
    } else {
        4 + 24 * count + 12 * (2 * count - 1) <= dir
    }
}

/// The entry that these bytes spell.
fn entry_of(bytes: &[u8]) -> Option<Entry>
    ensures is { (piece : List ℕ) → 24 ≤ length piece → bytes.now ≡ take 24 piece
        → IfSome result (λ e. IsEntered piece 0 (record {
          first = e.start;
          end = e.start + e.length;
          dir = e.dir;
        })) }
    ensures told { (e : PlainEntry) → IsEntry e → bytes.now ≡ entry_bytes e
        → option_map entry_view result ≡ Some e }
{
    let (start, _) = take_u64(bytes, 0)?;
    let (length, _) = take_u64(bytes, 8)?;
    let (dir, _) = take_u64(bytes, 16)?;
    Some(Entry { start, length, dir })
}

/// The child of the entry that these bytes spell, in a row that begins at `base`, where it stands
/// between two offsets.
pub(crate) fn child_of(bytes: &[u8], base: u64, low: u64, high: u64) -> Option<Child>
    ensures within { IfSome result (λ child. (low ≤ child.first) × (child.end ≤ high)) }
    ensures is { (piece : List ℕ) → 24 ≤ length piece → bytes.now ≡ take 24 piece
        → IfSome result (λ child. IsEntered piece base (child_view child)) }
    ensures told { (e : PlainEntry) → IsEntry e → bytes.now ≡ entry_bytes e
        → low ≤ base + e.start → base + e.start + e.length ≤ high
        → option_map child_view result ≡ Some (record {
          first = base + e.start;
          end = base + e.start + e.length;
          dir = e.dir;
        }) }
{
    child_in(entry_of(bytes)?, base, low, high)
}

/// The child of an entry in a row that begins at `base`, where it stands between two offsets.
fn child_in(entry: Entry, base: u64, low: u64, high: u64) -> Option<Child>
    ensures within { IfSome result (λ child. (low ≤ child.first) × (child.end ≤ high)) }
    ensures is { IfSome result (λ child. child_view child ≡ record {
      first = base + entry.start;
      end = base + entry.start + entry.length;
      dir = entry.dir;
    }) }
    ensures told { low ≤ base + entry.start → base + entry.start + entry.length ≤ high
        → option_map child_view result ≡ Some (record {
          first = base + entry.start;
          end = base + entry.start + entry.length;
          dir = entry.dir;
        }) }
{
    let first = base.checked_add(entry.start)?;
    let end = first.checked_add(entry.length)?;
    if first < low || high < end {
        return None;
    }
    Some(Child {
        first,
        end,
        dir: entry.dir,
    })
}
