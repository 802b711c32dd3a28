// Reading the notes of a file.
ghost use Rattle.std.specs.Prelude.{◌≡◌, ◌+◌, ◌-◌, ◌<◌, ◌≤◌, ◌^◌, ℕ, List, length, Some, IfOk, IfErr, IfSome, None, Ok, Err, option_map, string_bytes, if◌then◌else◌};
ghost use Rattle.xa_outside.specs.Causes.{Rose};
ghost use Rattle.xa_outside.specs.Folder.{Files};
ghost use Rattle.xa_outside.specs.Numbers.{PullsAtMost, after_pull};
ghost use Rattle.version_notes.specs.Faults.{IfFolder};
ghost use Rattle.version_notes.specs.Reader.{IsNext, IsSettled, Moves, TellsNext, at_first, file_of, is_done, most_read, next_of, place_behind, read_for};
ghost use Rattle.version_notes.specs.declared.fault.NotesFault.TheVariants.{Damage};

use crate::fault::NotesFault;
use crate::note::{SIZE, read_note};
use crate::parts::Parts;
use crate::place::Place;
use std::alloc::{AllocError, Global};
use std::marker::Model;
use xa_outside::Folder;

/// Reads the notes of a file, one after another.
#[derive(Drop)]
pub struct NoteReader {
    alloc: Global,
    name: String,
    /// How many notes are still to be given.
    due: u32,
    place: Option<Place>,
}

impl Model for NoteReader {
    ghost use Rattle.std.specs.Prelude.{◌≤◌, IfSome, string_bytes};
    ghost use Rattle.version_notes.specs.Reader.{PlainReader};

    ghost Value = { PlainReader };

    ghost view = { λ r. record { name = string_bytes r.name; due = r.due; place = r.place } };

    ghost invariant = { λ r. IfSome r.place (λ p. p.at ≤ p.end) };
}

impl NoteReader {
    /// A reader of so many notes of the file of this name, all empty where it has none.
    ///
    /// It copies the name and reads nothing.
    pub fn start(
        alloc: Global,
        name: &str,
        parts: &Parts,
        versions: u32,
    ) -> Result<NoteReader, AllocError>
        requires { IfSome parts.now.notes (λ n. parts.now.core + n < 2 ^ 64 - 16) }
        ensures { IfOk result (λ r. r ≡ at_first name.now parts.now versions) }
    {
        let place = match parts.notes {
            Some(notes) => Some(Place {
                at: parts.core,
                end: parts.core + notes,
                used: false,
            }),
            None => None,
        };
        let name = String::from_str(alloc, name)?;
        Ok(NoteReader {
            alloc,
            name,
            due: versions,
            place,
        })
    }

    /// The next note; behind the last, that none comes any more, and so again in each call after
    /// that.
    ///
    /// A note is read once: its length, and then its bytes. The file is damaged where a note is due
    /// and none stands next, and where after the last one bytes are left or all were empty.
    pub fn next<F: Folder>(&mut self, folder: &mut F) -> Result<Option<String>, NotesFault>
        // Behind the note that is given, and else where it stood.
        ensures after { Moves self.old result self.new }
        ensures files { F.files folder.new ≡ F.files folder.old }
        ensures draft { F.draft folder.new ≡ F.draft folder.old }
        ensures numbers { IfOk result (λ found. F.numbers folder.new
            ≡ after_pull (F.numbers folder.old)
            (read_for self.old (option_map string_bytes found))) }
        ensures pulls { PullsAtMost (most_read self.old)
            (F.numbers folder.old) (F.numbers folder.new) }
        ensures later { F.faults folder.old ≤ F.faults folder.new }
        ensures cause { IfErr result (λ e.
            IfFolder e (Rose (F.faults folder.old) (F.faults folder.new))) }

        // Where the file has no notes, and behind the last one, nothing is read, and the answer is
        // the same over every folder.
        ensures settled { IsSettled self.old
            → (file : List ℕ) → IsNext result (next_of self.old file) }
        ensures unread { IsSettled self.old → F.numbers folder.new ≡ F.numbers folder.old }

        // Where files are told, it is what comes next, and damage where nothing that may come does.
        ensures told { (files : Files) → F.files folder.old ≡ Some files
            → TellsNext result (next_of self.old (file_of files self.old.name)) }

        // Where a note comes next, no byte behind it is pulled, whatever is answered.
        ensures only { (files : Files) (note : List ℕ) → F.files folder.old ≡ Some files
            → next_of self.old (file_of files self.old.name) ≡ Some (Some note)
            → PullsAtMost (4 + length note) (F.numbers folder.old) (F.numbers folder.new) }
    {
        let Some(place) = self.place else {
            return Ok(self.next_empty());
        };
        if self.due == 0 {
            return after_last(place);
        }
        match read_note(self.alloc, folder, self.name.as_str(), place) {
            Ok(note) => {
                self.due -= 1;
                self.place = Some(behind(place, &note));
                Ok(Some(note))
            }
            Err(fault) => Err(fault),
        }
    }

    /// The next of the notes of a file that has none.
    fn next_empty(&mut self) -> Option<String>
        requires { self.old.place ≡ None }
        ensures after { Moves self.old (Ok result) self.new }
        ensures next { (file : List ℕ) → IsNext (Ok result) (next_of self.old file) }
    {
        if self.due == 0 {
            return None;
        }
        self.due -= 1;
        Some(String::new(self.alloc))
    }
}

/// What comes behind the last note.
fn after_last(place: Place) -> Result<Option<String>, NotesFault>
    ensures { result ≡ (if is_done place then Ok None else Err Damage) }
{
    if place.at == place.end && place.used {
        Ok(None)
    } else {
        Err(NotesFault::Damage)
    }
}

/// The place behind a note.
fn behind(place: Place, note: &str) -> Place
    requires { place.at + (4 + length note.now) < 2 ^ 64 }
    ensures { result ≡ place_behind place note.now }
{
    Place {
        at: place.at + (SIZE + note.len() as u64),
        end: place.end,
        used: place.used || !note.is_empty(),
    }
}
