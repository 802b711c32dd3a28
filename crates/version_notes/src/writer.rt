// Writing notes behind a file.
ghost use Rattle.std.specs.Prelude.{◌≡◌, ◌+◌, ◌*◌, ◌<◌, ◌≤◌, ◌^◌, ◌++◌, ◌∷◌, [], length, take, true, false, OnOk, IsTrue, if◌then◌else◌};
ghost use Rattle.xa_fields.specs.Spelling.{text_bytes};
ghost use Rattle.version_notes.specs.Notes.{ending, is_note, most};
ghost use Rattle.version_notes.specs.Writer.{Appends, after, appended, fresh, last_appended, empty_texts};
ghost use Rattle.version_notes.specs.declared.limits.TheConstants.{LONGEST_NOTE};

use crate::limits::LONGEST_NOTE;
use crate::note::SIZE;
use crate::parts::MARK;
use std::marker::Model;
use xa_outside::{Failed, Folder};

/// The longest text of a note: its length and its bytes.
const LONGEST_TEXT: usize = 4 + LONGEST_NOTE;

/// Empty notes that waited are appended in pieces of so many bytes.
const PIECE: usize = 4096;

/// Appends notes to the draft of a folder, behind a file.
///
/// `push` gives one note after another, and `finish` comes last. Where it is known that some note is
/// not empty, a writer can append each at once; else it counts the empty ones at the front, and
/// appends nothing where all are empty. After a call that failed it is of no use.
#[derive(Drop)]
pub struct NoteWriter {
    at_once: bool,
    /// Whether some note was not empty.
    used: bool,
    /// How many notes were pushed.
    pushed: u32,
    /// How many empty notes wait.
    waiting: u32,
    /// How many bytes were appended.
    written: u64,
}

impl Model for NoteWriter {
    ghost use Rattle.std.specs.Prelude.{◌≤◌, ◌+◌, ◌*◌};
    ghost use Rattle.version_notes.specs.Writer.{PlainWriter};

    ghost Value = { PlainWriter };

    ghost view = { λ w. record {
      at_once = w.at_once;
      used = w.used;
      pushed = w.pushed;
      waiting = w.waiting;
      written = w.written;
    } };

    ghost invariant = { λ w.
        (w.written + 4 * w.waiting ≤ 1028 * w.pushed) × (w.waiting ≤ w.pushed) };
}

impl NoteWriter {
    /// A writer that appends each note at once, or lets the empty ones at the front wait.
    pub fn start(at_once: bool) -> NoteWriter
        ensures { result ≡ fresh at_once }
    {
        NoteWriter {
            at_once,
            used: false,
            pushed: 0,
            waiting: 0,
            written: 0,
        }
    }

    /// Gives the next note.
    pub fn push<F: Folder>(&mut self, folder: &mut F, note: &str) -> Result<(), Failed>
        requires note { IsTrue (is_note note.now) }
        requires few { self.old.pushed < most }
        ensures folder { Appends F.files F.draft F.numbers F.faults folder.old folder.new
            (appended self.old note.now) result }
        ensures after { OnOk result (self.new ≡ after self.old note.now) }
    {
        self.pushed += 1;
        if note.is_empty() && !self.at_once && !self.used {
            self.waiting += 1;
            return Ok(());
        }
        append_notes(folder, self.waiting, note)?;
        self.written += 4 * u64::from(self.waiting) + SIZE + note.len() as u64;
        self.waiting = 0;
        self.used = self.used || !note.is_empty();
        Ok(())
    }

    /// Closes what was appended, if some note was not empty.
    pub fn finish<F: Folder>(self, folder: &mut F) -> Result<(), Failed>
        requires { self.at_once ≡ true → self.used ≡ true }
        ensures { Appends F.files F.draft F.numbers F.faults folder.old folder.new
            (last_appended self) result }
    {
        if self.used {
            append_ending(folder, self.written)
        } else {
            Ok(())
        }
    }
}

/// Appends so many empty notes, and another note.
fn append_notes<F: Folder>(folder: &mut F, empty: u32, note: &str) -> Result<(), Failed>
    requires { length note.now ≤ LONGEST_NOTE }
    ensures { Appends F.files F.draft F.numbers F.faults folder.old folder.new
        (empty_texts empty ++ text_bytes note.now) result }
{
    if empty == 0 {
        return append_text(folder, note);
    }
    match append_empty(folder, empty) {
        Ok(()) => append_text(folder, note),
        Err(failed) => Err(failed),
    }
}

/// Appends a note in one piece.
fn append_text<F: Folder>(folder: &mut F, note: &str) -> Result<(), Failed>
    requires { length note.now ≤ LONGEST_NOTE }
    ensures { Appends F.files F.draft F.numbers F.faults folder.old folder.new
        (text_bytes note.now) result }
{
    let mut room = [0; LONGEST_TEXT];
    let size = spell_text(&mut room, note);
    folder.append(&room[..size])
}

/// Puts a note at the front of the room, and answers how many bytes it takes.
fn spell_text(room: &mut [u8], note: &str) -> usize
    requires room { 4 + length note.now ≤ length room.old }
    requires short { length note.now < 2 ^ 32 }
    ensures size { result ≡ 4 + length note.now }
    ensures bytes { take result room.new ≡ text_bytes note.now }
    ensures same { length room.new ≡ length room.old }
{
    let size = 4 + note.len();
    room[..4].copy_from_slice(&(note.len() as u32).to_be_bytes());
    room[4..size].copy_from_slice(note.as_bytes());
    size
}

/// Appends the texts of so many empty notes.
fn append_empty<F: Folder>(folder: &mut F, count: u32) -> Result<(), Failed>
    ensures { Appends F.files F.draft F.numbers F.faults folder.old folder.new
        (empty_texts count) result }
{
    let zeros = [0; PIECE];
    let size = 4 * u64::from(count);
    let mut done = 0;
    while done < size {
        let piece = (size - done).min(PIECE as u64);
        folder.append(&zeros[..piece as usize])?;
        done += piece;
    }
    Ok(())
}

/// Appends the number of the notes' bytes, and the mark.
fn append_ending<F: Folder>(folder: &mut F, written: u64) -> Result<(), Failed>
    ensures { Appends F.files F.draft F.numbers F.faults folder.old folder.new
        (ending written) result }
{
    folder.append(&spell_ending(written))
}

fn spell_ending(written: u64) -> [u8; 16]
    ensures { result ≡ ending written }
{
    let mut bytes = [0; 16];
    bytes[..8].copy_from_slice(&written.to_be_bytes());
    bytes[8..].copy_from_slice(&MARK);
    bytes
}
