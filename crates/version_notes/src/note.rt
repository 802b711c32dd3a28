// One note of a file.
ghost use Rattle.std.specs.Prelude.{◌≡◌, ◌+◌, ◌-◌, ◌<◌, ◌≤◌, ◌^◌, ℕ, List, length, drop, take, min, Some, IfOk, IfErr, OnOk, string_bytes};
ghost use Rattle.xa_outside.specs.Folder.{Files};
ghost use Rattle.xa_outside.specs.Numbers.{PullsAtMost, after_pull};
ghost use Rattle.version_notes.specs.Faults.{IfFolder, OnlyReads, fault_of};
ghost use Rattle.version_notes.specs.Notes.{IsNote, note_at};
ghost use Rattle.version_notes.specs.Reader.{TellsBytes, TellsFront, TellsNote, TellsSize, TellsText, file_of, left_of};
ghost use Rattle.version_notes.specs.declared.limits.TheConstants.{LONGEST_NOTE};

use crate::fault::NotesFault;
use crate::limits::LONGEST_NOTE;
use crate::place::Place;
use crate::text::is_note;
use std::alloc::Global;
use xa_fields::take_u32;
use xa_outside::{Folder, fill_at};

/// The length of a note has four bytes.
pub(crate) const SIZE: u64 = 4;

/// The note that stands at this place.
///
/// It takes memory only for one that is no longer than a note may be, and that does not end behind
/// the notes.
pub(crate) fn read_note<F: Folder>(
    alloc: Global,
    folder: &mut F,
    name: &str,
    place: Place,
) -> Result<String, NotesFault>
    requires { place.at ≤ place.end }
    ensures reads { OnlyReads F.files F.draft F.faults folder.old folder.new (fault_of result) }
    ensures note { IfOk result (λ note. IsNote (string_bytes note)) }
    ensures within { IfOk result (λ note.
        place.at + (4 + length (string_bytes note)) ≤ place.end) }
    ensures numbers { IfOk result (λ note. F.numbers folder.new
        ≡ after_pull (F.numbers folder.old) (4 + length (string_bytes note))) }
    ensures pulls { PullsAtMost (min 1028 (place.end - place.at))
        (F.numbers folder.old) (F.numbers folder.new) }
    ensures told { (files : Files) → F.files folder.old ≡ Some files
        → TellsNote (left_of place (file_of files name.now)) result }

    // Where a note stands there, no byte behind it is pulled, whatever is answered.
    ensures only { (files : Files) (note rest : List ℕ) → F.files folder.old ≡ Some files
        → note_at (left_of place (file_of files name.now)) ≡ Some (note, rest)
        → PullsAtMost (4 + length note) (F.numbers folder.old) (F.numbers folder.new) }
{
    match read_size(folder, name, place) {
        Ok(size) => read_text(alloc, folder, name, place.at + SIZE, size),
        Err(fault) => Err(fault),
    }
}

/// The length of the note that stands at this place, which ends where the notes do or before.
fn read_size<F: Folder>(folder: &mut F, name: &str, place: Place) -> Result<u32, NotesFault>
    requires { place.at ≤ place.end }
    ensures reads { OnlyReads F.files F.draft F.faults folder.old folder.new (fault_of result) }
    ensures short { IfOk result (λ n. n ≤ LONGEST_NOTE) }
    ensures within { IfOk result (λ n. place.at + (4 + n) ≤ place.end) }
    ensures numbers { OnOk result (F.numbers folder.new ≡ after_pull (F.numbers folder.old) 4) }
    ensures pulls { PullsAtMost (min 4 (place.end - place.at))
        (F.numbers folder.old) (F.numbers folder.new) }
    ensures told { (files : Files) → F.files folder.old ≡ Some files
        → TellsSize (left_of place (file_of files name.now)) result }
{
    if place.end - place.at < SIZE {
        return Err(NotesFault::Damage);
    }
    let mut front = [0; SIZE as usize];
    match fill(folder, name, place.at, &mut front) {
        Ok(()) => size_within(&front, place.end - place.at),
        Err(fault) => Err(fault),
    }
}

/// The length in the first four bytes of a note, which has no more bytes than there is room for.
fn size_within(front: &[u8], room: u64) -> Result<u32, NotesFault>
    requires front { length front.now ≡ 4 }
    ensures short { IfOk result (λ n. n ≤ LONGEST_NOTE) }
    ensures within { IfOk result (λ n. 4 + n ≤ room) }
    ensures cause { IfErr result (λ e. IfFolder e ⊥) }
    ensures told { (piece : List ℕ) → length piece ≤ room → front.now ≡ take 4 piece
        → TellsSize piece result }
{
    match take_u32(front, 0) {
        Some((size, _)) if size as usize <= LONGEST_NOTE && SIZE + u64::from(size) <= room => Ok(
            size,
        ),
        _ => Err(NotesFault::Damage),
    }
}

/// The note of so many bytes that stand at this offset.
fn read_text<F: Folder>(
    alloc: Global,
    folder: &mut F,
    name: &str,
    at: u64,
    size: u32,
) -> Result<String, NotesFault>
    requires { at + size < 2 ^ 64 }
    ensures reads { OnlyReads F.files F.draft F.faults folder.old folder.new (fault_of result) }
    ensures note { IfOk result (λ note. IsNote (string_bytes note)) }
    ensures size { IfOk result (λ note. length (string_bytes note) ≡ size) }
    ensures numbers { OnOk result (F.numbers folder.new
        ≡ after_pull (F.numbers folder.old) size) }
    ensures pulls { PullsAtMost size (F.numbers folder.old) (F.numbers folder.new) }
    ensures told { (files : Files) (end : ℕ) → F.files folder.old ≡ Some files → at + size ≤ end
        → TellsFront size (drop at (take end (file_of files name.now))) result }
{
    let mut bytes = Vec::new(alloc);
    if bytes.resize(size as usize, 0).is_err() {
        return Err(NotesFault::Memory);
    }
    match fill(folder, name, at, &mut bytes) {
        Ok(()) => note_of(bytes),
        Err(fault) => Err(fault),
    }
}

/// The note that has these bytes.
fn note_of(bytes: Vec<u8>) -> Result<String, NotesFault>
    ensures cause { IfErr result (λ e. IfFolder e ⊥) }
    ensures told { TellsText bytes.items result }
{
    let Ok(text) = String::from_utf8(bytes) else {
        return Err(NotesFault::Damage);
    };
    if is_note(&text) {
        Ok(text)
    } else {
        Err(NotesFault::Damage)
    }
}

/// Fills the buffer with the bytes of a file from the offset on. Where the file has fewer, no note
/// stands there.
fn fill<F: Folder>(folder: &mut F, name: &str, at: u64, out: &mut [u8]) -> Result<(), NotesFault>
    requires { at + length out.old < 2 ^ 64 }
    ensures reads { OnlyReads F.files F.draft F.faults folder.old folder.new (fault_of result) }
    ensures numbers { OnOk result
        (F.numbers folder.new ≡ after_pull (F.numbers folder.old) (length out.old)) }
    ensures pulls { PullsAtMost (length out.old) (F.numbers folder.old) (F.numbers folder.new) }
    ensures told { (files : Files) (end : ℕ) → F.files folder.old ≡ Some files
        → at + length out.old ≤ end
        → TellsBytes (length out.old) (drop at (take end (file_of files name.now))) out.new result }
{
    match fill_at(folder, name, at, out) {
        Ok(count) if count < out.len() => Err(NotesFault::Damage),
        Ok(_) => Ok(()),
        Err(_) => Err(NotesFault::Folder),
    }
}
