// Reading one node of a stored tree.
ghost use Rattle.std.specs.Prelude.{◌≡◌, ◌+◌, ◌-◌, ◌*◌, ◌/◌, ◌≤◌, ◌<◌, ◌%◌, ◌^◌, ◌==◌, ◌&&◌, ℕ, List, length, take, drop, nat_le, option_map, IfOk, IfSome};
ghost use Rattle.xa_fields.specs.Reading.{whole};
ghost use Rattle.xa_fields.specs.Spelling.{u64_bytes};
ghost use Rattle.xa_outside.specs.Numbers.{PullsAtMost};
ghost use Rattle.version_set.specs.Members.{members, has};
ghost use Rattle.timestamp_tree.specs.Bytes.{stored};
ghost use Rattle.timestamp_tree.specs.Reading.{some_stored_at};
ghost use Rattle.record_parts.specs.Bounds.{most};
ghost use Rattle.record_cursor.specs.Moves.{TellsFront};
ghost use Rattle.record_cursor.specs.Steps.{OnlyReads, fault_of, Filled};
ghost use Rattle.file_rows.specs.StandsAt.{StandsAt};
ghost use Rattle.file_get.specs.Nodes.{NodeTold, probe_view, says, says_of};
ghost use Rattle.file_get.specs.Searched.{inner_read, searched};

use crate::body::{count_within, read_count};
use crate::sets::{FEW, search_pairs};
use crate::span::Ask;
use record_cursor::{CursorFault, fill_first, fill_part};
use record_parts::MOST_VERSIONS;
use timestamp_tree::pairs_contain;
use xa_fields::{take_u32, take_u64};
use xa_outside::Folder;

/// A node of one interval: the number of intervals, that interval, and the size of the left part.
const LEAST: usize = 20;

/// A node of eight intervals.
const SHORT: usize = 76;

/// What a node of a stored tree says of the version, without its parts: whether the union of the
/// sets below has it, the byte size of the left part, 0 of a leaf, and how many bytes the node has.
#[derive(Clone, Copy)]
pub(crate) struct Probe {
    pub(crate) has: bool,
    pub(crate) left: u64,
    pub(crate) size: u64,
}

// What the node says of the version that all of these bytes are.
fn node_of(node: &[u8], version: u32) -> Option<Probe>
    ensures size { IfSome result (λ probe. probe.size ≡ length node.now) }
    ensures exact { option_map probe_view result
        ≡ option_map (says_of version) (whole (some_stored_at most) node.now) }
{
    let Some((count, _)) = take_u32(node, 0) else {
        return None;
    };
    let size = node.len() as u64;
    if count < 1 || 12 + 8 * count as u64 != size {
        return None;
    }
    let Some(has) = pairs_contain(node, 4, count, MOST_VERSIONS, version) else {
        return None;
    };
    let Some((left, _)) = take_u64(node, 4 + 8 * count as usize) else {
        return None;
    };
    Some(Probe { has, left, size })
}

/// Whether the version is in the set of the stored leaf that stands between two offsets. A leaf of
/// eight intervals or fewer is read at once, and of more the version is looked for by halving.
pub(crate) fn read_leaf<F: Folder>(
    ask: &Ask<'_>,
    folder: &mut F,
    at: u64,
    limit: u64,
) -> Result<bool, CursorFault>
    requires ordered { at ≤ limit }
    requires short { limit < 2 ^ 64 }
    ensures reads { OnlyReads F.files F.draft F.faults folder.old folder.new (fault_of result) }
    ensures pulls { PullsAtMost (limit - at) (F.numbers folder.old) (F.numbers folder.new) }
    ensures few { PullsAtMost (12 + 8 * searched ((limit - at - 12) / 8))
        (F.numbers folder.old) (F.numbers folder.new) }
    ensures told { (last : ℕ) (bytes : List ℕ) (s : List (ℕ × ℕ))
        → NodeTold (F.files folder.old) ask.now.name.now bytes last at limit s 0
        → limit ≡ at + length (stored s 0)
        → Filled result (λ h. h ≡ has (members s) ask.now.version) }
{
    let size = limit - at;
    if size > SHORT as u64 {
        return read_long_leaf(ask, folder, at, limit);
    }
    if has_intervals(size) {
        return read_short_leaf(ask, folder, at, size as usize);
    }
    Err(CursorFault::Damage)
}

// Whether a node of one interval or more may have so many bytes.
fn has_intervals(size: u64) -> bool
    ensures { result ≡ (nat_le 20 size && size % 8 == 4) }
{
    20 <= size && size % 8 == 4
}

// Whether the version is in the set of the stored leaf that so many bytes at an offset are.
fn read_short_leaf<F: Folder>(
    ask: &Ask<'_>,
    folder: &mut F,
    at: u64,
    size: usize,
) -> Result<bool, CursorFault>
    requires short { at + size < 2 ^ 64 }
    requires few { size ≤ 76 }
    ensures reads { OnlyReads F.files F.draft F.faults folder.old folder.new (fault_of result) }
    ensures pulls { PullsAtMost size (F.numbers folder.old) (F.numbers folder.new) }
    ensures told { (last : ℕ) (bytes : List ℕ) (s : List (ℕ × ℕ))
        → NodeTold (F.files folder.old) ask.now.name.now bytes last at (at + size) s 0
        → size ≡ length (stored s 0)
        → Filled result (λ h. h ≡ has (members s) ask.now.version) }
{
    let mut node = [0; SHORT];
    match fill_first(folder, ask.name, at, size, &mut node) {
        Ok(()) => match node_of(&node[..size], ask.version) {
            Some(probe) if probe.left == 0 => Ok(probe.has),
            _ => Err(CursorFault::Damage),
        },
        Err(fault) => Err(fault),
    }
}

// The same of a leaf of any size. Its left part's size and its number of intervals are read first.
fn read_long_leaf<F: Folder>(
    ask: &Ask<'_>,
    folder: &mut F,
    at: u64,
    limit: u64,
) -> Result<bool, CursorFault>
    requires room { at + 12 ≤ limit }
    requires short { limit < 2 ^ 64 }
    ensures reads { OnlyReads F.files F.draft F.faults folder.old folder.new (fault_of result) }
    ensures pulls { PullsAtMost (limit - at) (F.numbers folder.old) (F.numbers folder.new) }
    ensures few { PullsAtMost (12 + 8 * searched ((limit - at - 12) / 8))
        (F.numbers folder.old) (F.numbers folder.new) }
    ensures told { (last : ℕ) (bytes : List ℕ) (s : List (ℕ × ℕ))
        → NodeTold (F.files folder.old) ask.now.name.now bytes last at limit s 0
        → limit ≡ at + length (stored s 0)
        → Filled result (λ h. h ≡ has (members s) ask.now.version) }
{
    let left = match read_left(ask, folder, limit - 8) {
        Ok(left) => left,
        Err(fault) => return Err(fault),
    };
    match read_count(ask, folder, at, limit - 8) {
        Ok(count) => {
            if is_leaf(left, count, limit - at) {
                return search_pairs(ask, folder, at + 4, count);
            }
            Err(CursorFault::Damage)
        }
        Err(fault) => Err(fault),
    }
}

// Whether a node without a left part, of so many intervals, has so many bytes.
fn is_leaf(left: u64, count: u32, size: u64) -> bool
    ensures { result ≡ (left == 0 && 12 + 8 * count == size) }
{
    left == 0 && 12 + 8 * count as u64 == size
}

// The byte size of a left part, which stands at an offset.
fn read_left<F: Folder>(ask: &Ask<'_>, folder: &mut F, at: u64) -> Result<u64, CursorFault>
    requires { at + 8 < 2 ^ 64 }
    ensures reads { OnlyReads F.files F.draft F.faults folder.old folder.new (fault_of result) }
    ensures pulls { PullsAtMost 8 (F.numbers folder.old) (F.numbers folder.new) }
    ensures told { (last left : ℕ) (bytes : List ℕ)
        → TellsFront (F.files folder.old) ask.now.name.now last bytes → at + 8 ≤ last
        → StandsAt bytes at (u64_bytes left) → left < 2 ^ 64 → Filled result (λ n. n ≡ left) }
{
    let mut left = [0; 8];
    match fill_part(folder, ask.name, at, &mut left) {
        Ok(()) => Ok(u64::from_be_bytes(left)),
        Err(fault) => Err(fault),
    }
}

/// What the node says of the version whose bytes begin at an offset. Where it would not end before
/// another there is none.
///
/// It reads twenty bytes, and then the rest of a node that has more; of one that has more than eight
/// intervals the size of the left part, and those that halving asks for. It takes no memory.
pub(crate) fn read_node<F: Folder>(
    ask: &Ask<'_>,
    folder: &mut F,
    at: u64,
    limit: u64,
) -> Result<Probe, CursorFault>
    requires ordered { at ≤ limit }
    requires short { limit < 2 ^ 64 }
    ensures reads { OnlyReads F.files F.draft F.faults folder.old folder.new (fault_of result) }
    ensures within { IfOk result (λ probe. at + probe.size ≤ limit) }
    ensures most { IfOk result (λ probe. PullsAtMost probe.size
        (F.numbers folder.old) (F.numbers folder.new)) }
    ensures few { IfOk result (λ probe. PullsAtMost (28 + 8 * searched ((probe.size - 12) / 8))
        (F.numbers folder.old) (F.numbers folder.new)) }
    ensures pulls { PullsAtMost (limit - at) (F.numbers folder.old) (F.numbers folder.new) }
    ensures told { (last left : ℕ) (bytes : List ℕ) (s : List (ℕ × ℕ))
        → NodeTold (F.files folder.old) ask.now.name.now bytes last at limit s left
        → Filled result (λ probe. probe_view probe ≡ says ask.now.version s left)
        × PullsAtMost (inner_read (length s)) (F.numbers folder.old) (F.numbers folder.new) }
{
    if limit - at < LEAST as u64 {
        return Err(CursorFault::Damage);
    }
    let mut node = [0; SHORT];
    match fill_first(folder, ask.name, at, LEAST, &mut node) {
        Ok(()) => read_begun(ask, folder, at, limit, &mut node),
        Err(fault) => Err(fault),
    }
}

// What the node says whose first twenty bytes stand at the front of the room for a short one.
fn read_begun<F: Folder>(
    ask: &Ask<'_>,
    folder: &mut F,
    at: u64,
    limit: u64,
    node: &mut [u8],
) -> Result<Probe, CursorFault>
    requires node { length node.old ≡ 76 }
    requires room { at + 20 ≤ limit }
    requires short { limit < 2 ^ 64 }
    ensures reads { OnlyReads F.files F.draft F.faults folder.old folder.new (fault_of result) }
    ensures within { IfOk result (λ probe. (20 ≤ probe.size) × (at + probe.size ≤ limit)) }
    ensures most { IfOk result (λ probe. PullsAtMost (probe.size - 20)
        (F.numbers folder.old) (F.numbers folder.new)) }
    ensures few { IfOk result (λ probe. PullsAtMost (8 + 8 * searched ((probe.size - 12) / 8))
        (F.numbers folder.old) (F.numbers folder.new)) }
    ensures pulls { PullsAtMost (limit - at - 20) (F.numbers folder.old) (F.numbers folder.new) }
    ensures told { (last left : ℕ) (bytes : List ℕ) (s : List (ℕ × ℕ))
        → NodeTold (F.files folder.old) ask.now.name.now bytes last at limit s left
        → take 20 node.old ≡ take 20 (drop at bytes)
        → Filled result (λ probe. probe_view probe ≡ says ask.now.version s left)
        × PullsAtMost (inner_read (length s) - 20)
        (F.numbers folder.old) (F.numbers folder.new) }
{
    match count_within(&node[..4], limit - at - 8) {
        Some(0) => Err(CursorFault::Damage),
        Some(count) => read_counted(ask, folder, at, count, node),
        None => Err(CursorFault::Damage),
    }
}

// What the node of so many intervals says whose first twenty bytes stand at the front of the room.
fn read_counted<F: Folder>(
    ask: &Ask<'_>,
    folder: &mut F,
    at: u64,
    count: u32,
    node: &mut [u8],
) -> Result<Probe, CursorFault>
    requires node { length node.old ≡ 76 }
    requires some { 1 ≤ count }
    requires short { at + (12 + 8 * count) < 2 ^ 64 }
    ensures reads { OnlyReads F.files F.draft F.faults folder.old folder.new (fault_of result) }
    ensures size { IfOk result (λ probe. probe.size ≡ 12 + 8 * count) }
    ensures pulls { PullsAtMost (8 * count - 8) (F.numbers folder.old) (F.numbers folder.new) }
    ensures few { PullsAtMost (8 + 8 * searched count)
        (F.numbers folder.old) (F.numbers folder.new) }
    ensures told { (last left : ℕ) (bytes : List ℕ) (s : List (ℕ × ℕ))
        → NodeTold (F.files folder.old) ask.now.name.now bytes last at (at + (12 + 8 * count))
        s left → count ≡ length s → take 20 node.old ≡ take 20 (drop at bytes)
        → Filled result (λ probe. probe_view probe ≡ says ask.now.version s left) }
{
    if count > FEW {
        return read_long(ask, folder, at, count);
    }
    read_short(ask, folder, at, &mut node[..12 + 8 * count as usize])
}

// What the node says that has so many bytes as the room, at whose front the first twenty stand.
fn read_short<F: Folder>(
    ask: &Ask<'_>,
    folder: &mut F,
    at: u64,
    node: &mut [u8],
) -> Result<Probe, CursorFault>
    requires node { 20 ≤ length node.old }
    requires short { at + length node.old < 2 ^ 64 }
    ensures reads { OnlyReads F.files F.draft F.faults folder.old folder.new (fault_of result) }
    ensures size { IfOk result (λ probe. probe.size ≡ length node.old) }
    ensures pulls { PullsAtMost (length node.old - 20)
        (F.numbers folder.old) (F.numbers folder.new) }
    ensures told { (last left : ℕ) (bytes : List ℕ) (s : List (ℕ × ℕ))
        → NodeTold (F.files folder.old) ask.now.name.now bytes last at (at + length node.old)
        s left → length node.old ≡ length (stored s left)
        → take 20 node.old ≡ take 20 (drop at bytes)
        → Filled result (λ probe. probe_view probe ≡ says ask.now.version s left) }
{
    match fill_part(folder, ask.name, at + LEAST as u64, &mut node[LEAST..]) {
        Ok(()) => node_of(node, ask.version).ok_or(CursorFault::Damage),
        Err(fault) => Err(fault),
    }
}

// What the node of more than eight intervals says that stands at an offset.
fn read_long<F: Folder>(
    ask: &Ask<'_>,
    folder: &mut F,
    at: u64,
    count: u32,
) -> Result<Probe, CursorFault>
    requires short { at + (12 + 8 * count) < 2 ^ 64 }
    ensures reads { OnlyReads F.files F.draft F.faults folder.old folder.new (fault_of result) }
    ensures size { IfOk result (λ probe. probe.size ≡ 12 + 8 * count) }
    ensures pulls { PullsAtMost (8 + 8 * searched count)
        (F.numbers folder.old) (F.numbers folder.new) }
    ensures told { (last left : ℕ) (bytes : List ℕ) (s : List (ℕ × ℕ))
        → NodeTold (F.files folder.old) ask.now.name.now bytes last at (at + (12 + 8 * count))
        s left → count ≡ length s
        → Filled result (λ probe. probe_view probe ≡ says ask.now.version s left) }
{
    let left = match read_left(ask, folder, at + 4 + 8 * count as u64) {
        Ok(left) => left,
        Err(fault) => return Err(fault),
    };
    match search_pairs(ask, folder, at + 4, count) {
        Ok(has) => Ok(Probe {
            has,
            left,
            size: 12 + 8 * count as u64,
        }),
        Err(fault) => Err(fault),
    }
}
