// Reading the body that a leaf has in a version.
ghost use Rattle.std.specs.Prelude.{◌≡◌, ◌+◌, ◌-◌, ◌*◌, ◌/◌, ◌≤◌, ◌<◌, ◌^◌, ◌++◌, ℕ, List, Some, true, length, drop, is_some, IfOk, IfErr, IfSome, OnOk};
ghost use Rattle.std.specs.List.{flat_map};
ghost use Rattle.std.specs.Int.{w32};
ghost use Rattle.xa_fields.specs.Reading.{number_at};
ghost use Rattle.xa_fields.specs.Spelling.{u32_bytes};
ghost use Rattle.xa_outside.specs.Numbers.{PullsAtMost, after_pull};
ghost use Rattle.version_set.specs.Members.{members, has};
ghost use Rattle.keyed_tree.specs.Data.{PlainKey};
ghost use Rattle.archive_tree.specs.Data.{Stamp, PlainAlt};
ghost use Rattle.archive_tree.specs.Read.{body_at};
ghost use Rattle.timestamp_tree.specs.Bytes.{pair_bytes, set_bytes};
ghost use Rattle.record_parts.specs.Bounds.{IsSet, IsValue};
ghost use Rattle.record_parts.specs.Spelling.{value_bytes};
ghost use Rattle.record_format.specs.Bounds.{IsRec};
ghost use Rattle.record_format.specs.Nodes.{alt_of};
ghost use Rattle.record_format.specs.Spelling.{rec_bytes};
ghost use Rattle.record_cursor.specs.Faults.{IfFolder};
ghost use Rattle.record_cursor.specs.Moves.{TellsFront};
ghost use Rattle.record_cursor.specs.Steps.{OnlyReads, fault_of, Filled};
ghost use Rattle.file_rows.specs.StandsAt.{StandsAt};
ghost use Rattle.file_get.specs.Inside.{AltsTold, AltIs, IsAltHead, SetIs, head_bytes};
ghost use Rattle.file_get.specs.LeafBodies.{body_view};
ghost use Rattle.file_get.specs.Searched.{alts_read, searched, stamp_read};

use crate::sets::search_pairs;
use crate::span::Ask;
use crate::value::{Body, body_of};
use record_cursor::{Buffer, CursorFault, fill_part};
use record_format::ALT;
use record_parts::MOST_VERSIONS;
use timestamp_tree::pairs_contain;
use xa_fields::{take_u8, take_u32, take_u64};
use xa_outside::Folder;

/// An alternative: whether the version has it, and the offsets of its body and behind it.
#[derive(Clone, Copy)]
pub(crate) struct Alternative {
    pub(crate) has: bool,
    pub(crate) body: u64,
    pub(crate) end: u64,
}

/// The body that a leaf has in the version: that of its first alternative that has it, out of those
/// between two offsets. Of the alternatives before it the timestamps alone are read. The room takes
/// the bytes out of which it is lent.
pub(crate) fn read_body<'a, F: Folder>(
    ask: &Ask<'_>,
    folder: &mut F,
    at: u64,
    end: u64,
    room: &'a mut Buffer,
) -> Result<Body<'a>, CursorFault>
    requires { at ≤ end }
    ensures reads { OnlyReads F.files F.draft F.faults folder.old folder.new (fault_of result) }
    ensures pulls { PullsAtMost (end - at) (F.numbers folder.old) (F.numbers folder.new) }
    ensures told { (last : ℕ) (bytes more : List ℕ) (set : List (ℕ × ℕ)) (xs : List PlainAlt)
        → AltsTold ask.now.version (F.files folder.old) ask.now.name.now bytes last at end
        set xs more
        → Filled result (λ b. body_view b ≡ Some (body_at ask.now.version (members set) xs))
        × PullsAtMost (alts_read ask.now.version set xs)
        (F.numbers folder.old) (F.numbers folder.new) }
{
    let mut at = at;
    loop {
        let alternative = match read_alternative(ask, folder, at, end) {
            Ok(alternative) => alternative,
            Err(fault) => return Err(fault),
        };
        if alternative.has {
            return read_value(ask, folder, alternative.body, alternative.end, room);
        }
        at = alternative.end;
    }
}

// The alternative at an offset, of which the timestamp is read.
fn read_alternative<F: Folder>(
    ask: &Ask<'_>,
    folder: &mut F,
    at: u64,
    end: u64,
) -> Result<Alternative, CursorFault>
    requires { at ≤ end }
    ensures reads { OnlyReads F.files F.draft F.faults folder.old folder.new (fault_of result) }
    ensures within { IfOk result (λ a. (at + 9 ≤ a.body) × (a.body ≤ a.end) × (a.end ≤ end)) }
    ensures most { IfOk result (λ a. PullsAtMost (a.body - at)
        (F.numbers folder.old) (F.numbers folder.new)) }
    ensures few { IfOk result (λ a. PullsAtMost (14 + 8 * searched ((a.body - at - 14) / 8))
        (F.numbers folder.old) (F.numbers folder.new)) }
    ensures pulls { PullsAtMost (end - at) (F.numbers folder.old) (F.numbers folder.new) }
    ensures told { (last : ℕ) (bytes more : List ℕ) (set : List (ℕ × ℕ)) (x : PlainAlt)
        → TellsFront (F.files folder.old) ask.now.name.now last bytes → end ≤ last
        → StandsAt bytes at (rec_bytes (alt_of x) ++ more)
        → end ≡ at + length (rec_bytes (alt_of x) ++ more) → IsRec (alt_of x)
        → has (members set) ask.now.version ≡ true
        → Filled result (AltIs ask.now.version at set x)
        × PullsAtMost (stamp_read x.stamp)
        (F.numbers folder.old) (F.numbers folder.new) }
{
    let (end, is_stored) = match read_head(ask, folder, at, end) {
        Ok(head) => head,
        Err(fault) => return Err(fault),
    };
    if !is_stored {
        return Ok(Alternative {
            has: true,
            body: at + 10,
            end,
        });
    }
    match read_set(ask, folder, at + 10, end) {
        Ok((has, body)) => Ok(Alternative { has, body, end }),
        Err(fault) => Err(fault),
    }
}

// The offset behind the alternative at an offset, and whether its timestamp is stored.
fn read_head<F: Folder>(
    ask: &Ask<'_>,
    folder: &mut F,
    at: u64,
    end: u64,
) -> Result<(u64, bool), CursorFault>
    requires { at ≤ end }
    ensures reads { OnlyReads F.files F.draft F.faults folder.old folder.new (fault_of result) }
    ensures within { IfOk result (λ h. (at + 10 ≤ h.0) × (h.0 ≤ end)) }
    ensures numbers { OnOk result (F.numbers folder.new ≡ after_pull (F.numbers folder.old) 10) }
    ensures pulls { PullsAtMost 10 (F.numbers folder.old) (F.numbers folder.new) }
    ensures inside { PullsAtMost (end - at) (F.numbers folder.old) (F.numbers folder.new) }
    ensures told { (last : ℕ) (bytes more : List ℕ) (x : PlainAlt)
        → TellsFront (F.files folder.old) ask.now.name.now last bytes → end ≤ last
        → StandsAt bytes at (rec_bytes (alt_of x) ++ more)
        → end ≡ at + length (rec_bytes (alt_of x) ++ more) → IsRec (alt_of x)
        → Filled result (λ h. (h.0 ≡ at + length (rec_bytes (alt_of x)))
        × (h.1 ≡ is_some x.stamp)) }
{
    let room = end - at;
    if room < 10 {
        return Err(CursorFault::Damage);
    }
    let mut head = [0; 10];
    match fill_part(folder, ask.name, at, &mut head) {
        Ok(()) => match head_within(&head, room) {
            Some((size, is_stored)) => Ok((at + size, is_stored)),
            None => Err(CursorFault::Damage),
        },
        Err(fault) => Err(fault),
    }
}

// The size of an alternative that begins with these bytes and has no more than there is room for,
// and whether its timestamp is stored.
fn head_within(head: &[u8], room: u64) -> Option<(u64, bool)>
    requires { 10 ≤ room }
    ensures within { IfSome result (λ h. (10 ≤ h.0) × (h.0 ≤ room)) }
    ensures is { IfSome result (λ h. IsAltHead head.now h.0 h.1) }
    ensures told { (size : ℕ) (s : Stamp) → size < 2 ^ 64 → 1 ≤ size → 9 + size ≤ room
        → head.now ≡ head_bytes size s → result ≡ Some (9 + size, is_some s) }
{
    let (kind, _) = take_u8(head, 0)?;
    let (size, _) = take_u64(head, 1)?;
    let (flag, _) = take_u8(head, 9)?;
    if kind != ALT || size < 1 || room - 9 < size || flag > 1 {
        return None;
    }
    Some((9 + size, flag == 1))
}

// Whether the version is in the set at an offset, and the offset behind the set.
fn read_set<F: Folder>(
    ask: &Ask<'_>,
    folder: &mut F,
    at: u64,
    end: u64,
) -> Result<(bool, u64), CursorFault>
    requires { at ≤ end }
    ensures reads { OnlyReads F.files F.draft F.faults folder.old folder.new (fault_of result) }
    ensures within { IfOk result (λ r. (at ≤ r.1) × (r.1 ≤ end)) }
    ensures most { IfOk result (λ r. PullsAtMost (r.1 - at)
        (F.numbers folder.old) (F.numbers folder.new)) }
    ensures few { IfOk result (λ r. PullsAtMost (4 + 8 * searched ((r.1 - at - 4) / 8))
        (F.numbers folder.old) (F.numbers folder.new)) }
    ensures pulls { PullsAtMost (end - at) (F.numbers folder.old) (F.numbers folder.new) }
    ensures told { (last : ℕ) (bytes : List ℕ) (s : List (ℕ × ℕ))
        → TellsFront (F.files folder.old) ask.now.name.now last bytes → end ≤ last
        → StandsAt bytes at (set_bytes s) → at + length (set_bytes s) ≤ end → IsSet s
        → Filled result (SetIs ask.now.version (at + length (set_bytes s)) s)
        × PullsAtMost (4 + 8 * searched (length s)) (F.numbers folder.old) (F.numbers folder.new) }
{
    let count = match read_count(ask, folder, at, end) {
        Ok(count) => count,
        Err(fault) => return Err(fault),
    };
    match search_pairs(ask, folder, at + 4, count) {
        Ok(has) => Ok((has, at + 4 + 8 * count as u64)),
        Err(fault) => Err(fault),
    }
}

/// How many intervals the set at an offset has, all of which stand in front of the end.
pub(crate) fn read_count<F: Folder>(
    ask: &Ask<'_>,
    folder: &mut F,
    at: u64,
    end: u64,
) -> Result<u32, CursorFault>
    requires { at ≤ end }
    ensures reads { OnlyReads F.files F.draft F.faults folder.old folder.new (fault_of result) }
    ensures within { IfOk result (λ n. at + (4 + 8 * n) ≤ end) }
    ensures numbers { OnOk result (F.numbers folder.new ≡ after_pull (F.numbers folder.old) 4) }
    ensures pulls { PullsAtMost 4 (F.numbers folder.old) (F.numbers folder.new) }
    ensures inside { PullsAtMost (end - at) (F.numbers folder.old) (F.numbers folder.new) }
    ensures told { (last : ℕ) (bytes : List ℕ) (s : List (ℕ × ℕ))
        → TellsFront (F.files folder.old) ask.now.name.now last bytes → end ≤ last
        → StandsAt bytes at (set_bytes s) → at + length (set_bytes s) ≤ end → IsSet s
        → Filled result (λ n. n ≡ length s) }
{
    let room = end - at;
    if room < 4 {
        return Err(CursorFault::Damage);
    }
    let mut front = [0; 4];
    match fill_part(folder, ask.name, at, &mut front) {
        Ok(()) => count_within(&front, room).ok_or(CursorFault::Damage),
        Err(fault) => Err(fault),
    }
}

/// The count of a set's intervals, where there is room for them behind it.
pub(crate) fn count_within(front: &[u8], room: u64) -> Option<u32>
    requires { 4 ≤ room }
    ensures within { IfSome result (λ n. 4 + 8 * n ≤ room) }
    ensures is { IfSome result (λ n. number_at w32 front.now ≡ Some (n, drop 4 front.now)) }
    ensures told { (n : ℕ) → n < 2 ^ 32 → 4 + 8 * n ≤ room → front.now ≡ u32_bytes n
        → result ≡ Some n }
{
    let (count, _) = take_u32(front, 0)?;
    if room - 4 < 8 * count as u64 {
        return None;
    }
    Some(count)
}

/// Whether the number is in the set that has these intervals, so many.
pub(crate) fn is_among(pairs: &[u8], count: u32, version: u32) -> Result<bool, CursorFault>
    ensures cause { IfErr result (λ e. IfFolder e ⊥) }
    ensures told { (s : List (ℕ × ℕ)) → pairs.now ≡ flat_map pair_bytes s → count ≡ length s
        → IsSet s → Filled result (λ h. h ≡ has (members s) version) }
{
    pairs_contain(pairs, 0, count, MOST_VERSIONS, version).ok_or(CursorFault::Damage)
}

// What a leaf holds whose value stands between two offsets.
fn read_value<'a, F: Folder>(
    ask: &Ask<'_>,
    folder: &mut F,
    at: u64,
    end: u64,
    room: &'a mut Buffer,
) -> Result<Body<'a>, CursorFault>
    requires { at ≤ end }
    ensures reads { OnlyReads F.files F.draft F.faults folder.old folder.new (fault_of result) }
    ensures pulls { PullsAtMost (end - at) (F.numbers folder.old) (F.numbers folder.new) }
    ensures told { (last : ℕ) (bytes : List ℕ) (b : PlainKey)
        → TellsFront (F.files folder.old) ask.now.name.now last bytes → end ≤ last
        → StandsAt bytes at (value_bytes b) → end ≡ at + length (value_bytes b) → IsValue b
        → Filled result (λ v. body_view v ≡ Some b) }
{
    match room.fill(folder, ask.name, at, (end - at) as usize) {
        Ok(()) => body_of(room.as_slice()).ok_or(CursorFault::Damage),
        Err(fault) => Err(fault),
    }
}
