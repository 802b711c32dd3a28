// Reading the fixed fields of a header.
ghost use Rattle.std.specs.Prelude.{◌≡◌, ◌+◌, ◌<◌, ◌≤◌, ◌^◌, ℕ, List, length, take, drop, None, Some, IfOk, IfErr, bytes_eq};
ghost use Rattle.xa_outside.specs.Numbers.{PullsAtMost};
ghost use Rattle.record_format.specs.Files.{magic};
ghost use Rattle.record_format.specs.Fronts.{fixed};
ghost use Rattle.record_cursor.specs.Faults.{IfFolder};
ghost use Rattle.record_cursor.specs.Moves.{TellsFront};
ghost use Rattle.record_cursor.specs.Steps.{OnlyReads, fault_of, Finds, HasText};
ghost use Rattle.record_cursor.specs.Fixed.{count_in, FirstIs};

use crate::fault::CursorFault;
use crate::fill::fill_part;
use crate::front::{FIELDS, FRONT, TEXT_LENGTH};
use record_parts::MOST_VERSIONS;
use xa_fields::take_u32;
use xa_outside::Folder;

/// The first bytes of each archive file.
const MAGIC: [u8; 6] = *b"XARC1\n";

/// The number of versions that a header counts, and the offset behind the header.
#[derive(Clone, Copy)]
pub struct Fixed {
    pub versions: u32,
    pub first: u64,
}

/// The fixed fields of the header of the first `size` bytes of a file: fourteen bytes.
///
/// Only these are read: whether the file has `size` bytes is not asked.
pub fn read_fixed<F: Folder>(folder: &mut F, name: &str, size: u64) -> Result<Fixed, CursorFault>
    ensures reads { OnlyReads F.files F.draft F.faults folder.old folder.new (fault_of result) }
    ensures within { IfOk result (λ f. (14 ≤ f.first) × (f.first ≤ size)) }
    ensures pulls { PullsAtMost 14 (F.numbers folder.old) (F.numbers folder.new) }
    ensures inside { PullsAtMost size (F.numbers folder.old) (F.numbers folder.new) }
    ensures told { (bytes : List ℕ) → TellsFront (F.files folder.old) name.now size bytes
        → Finds (λ f. Some f.versions) result (fixed bytes) }
    ensures text { (bytes : List ℕ) → TellsFront (F.files folder.old) name.now size bytes
        → IfOk result (λ f. HasText bytes f.first) }
{
    let first = match read_first(folder, name, size) {
        Ok(first) => first,
        Err(fault) => return Err(fault),
    };
    match read_count(folder, name, first - 4) {
        Ok(versions) => Ok(Fixed { versions, first }),
        Err(fault) => Err(fault),
    }
}

// The length of the header, which ends within the file.
fn read_first<F: Folder>(folder: &mut F, name: &str, size: u64) -> Result<u64, CursorFault>
    ensures reads { OnlyReads F.files F.draft F.faults folder.old folder.new (fault_of result) }
    ensures within { IfOk result (λ first. (14 ≤ first) × (first ≤ size)) }
    ensures pulls { PullsAtMost 10 (F.numbers folder.old) (F.numbers folder.new) }
    ensures inside { PullsAtMost size (F.numbers folder.old) (F.numbers folder.new) }
    ensures told { (bytes : List ℕ) → TellsFront (F.files folder.old) name.now size bytes
        → FirstIs result bytes }
{
    if size < FIELDS {
        return Err(CursorFault::Damage);
    }
    let mut front = [0; FRONT];
    match fill_part(folder, name, 0, &mut front) {
        Ok(()) => first_of(&front, size),
        Err(fault) => Err(fault),
    }
}

// The length of a header of which this is the front, where it ends within the file.
fn first_of(front: &[u8], size: u64) -> Result<u64, CursorFault>
    requires { length front.now ≡ 10 }
    ensures within { IfOk result (λ first. (14 ≤ first) × (first ≤ size)) }
    ensures cause { IfErr result (λ e. IfFolder e ⊥) }
    ensures told { (bytes : List ℕ) → length bytes ≡ size → front.now ≡ take 10 bytes
        → FirstIs result bytes }
{
    if !is_magic(&front[..TEXT_LENGTH]) {
        return Err(CursorFault::Damage);
    }
    let Some((text, _)) = take_u32(front, TEXT_LENGTH) else {
        return Err(CursorFault::Damage);
    };
    let first = FIELDS + text as u64;
    if size < first {
        return Err(CursorFault::Damage);
    }
    Ok(first)
}

fn is_magic(bytes: &[u8]) -> bool
    ensures { result ≡ bytes_eq bytes.now magic }
{
    bytes == MAGIC.as_slice()
}

// The number of versions in the four bytes of a file at an offset.
fn read_count<F: Folder>(folder: &mut F, name: &str, at: u64) -> Result<u32, CursorFault>
    requires { at + 4 < 2 ^ 64 }
    ensures reads { OnlyReads F.files F.draft F.faults folder.old folder.new (fault_of result) }
    ensures pulls { PullsAtMost 4 (F.numbers folder.old) (F.numbers folder.new) }
    ensures told { (end : ℕ) (bytes : List ℕ) → TellsFront (F.files folder.old) name.now end bytes
        → at + 4 ≤ end → Finds (λ n. Some n) result (count_in (drop at bytes)) }
{
    let mut count = [0; 4];
    match fill_part(folder, name, at, &mut count) {
        Ok(()) => count_of(&count).ok_or(CursorFault::Damage),
        Err(fault) => Err(fault),
    }
}

// The number of versions that the bytes are, where an archive may have so many.
#[tactic(auto, unfolding(xa_fields::specs::Reading::only_at))]
fn count_of(bytes: &[u8]) -> Option<u32>
    ensures { result ≡ count_in bytes.now }
{
    let (versions, _) = take_u32(bytes, 0)?;
    if MOST_VERSIONS < versions {
        return None;
    }
    Some(versions)
}
