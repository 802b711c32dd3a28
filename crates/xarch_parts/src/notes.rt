//! The notes behind an archive that is stored.
#![tactic(auto)]

ghost use Rattle.std.specs.Prelude.{◌≡◌, ◌++◌, ℕ, Some, None, option_map, map, IfErr, OnOk, string_bytes};
ghost use Rattle.std.specs.FinMap as finite;
ghost use Rattle.xa_outside.specs.Causes.{HasCause};
ghost use Rattle.xa_outside.specs.Folder.{Files, IsBlank};
ghost use Rattle.version_notes.specs.Notes.{notes_part};
ghost use Rattle.xarch_words.specs.Refusal.{folder_fault};
ghost use Rattle.xarch_words.specs.View.{fault_view};
ghost use Rattle.xarch_parts.specs.Ends.{IsCaused, TellsOnly, fault_of};
ghost use Rattle.xarch_parts.specs.Folders.{WritesOnly};
ghost use Rattle.xarch_parts.specs.Noted.{CanFollow};

use crate::archives::{commit, draft};
use version_notes::{NoteWriter, writers_append_the_part};
use xa_outside::{Failed, Folder};
use xarch_words::Fault;

/// Makes an archive, and its notes behind it, the file of this name, by a draft that is empty so far.
///
/// Each note is appended at once where it is said that some note is not empty.
pub fn store_noted<F: Folder>(
    name: &str,
    core: &[u8],
    notes: &[String],
    noted: bool,
    folder: &mut F,
) -> Result<(), Fault>
    requires blank { IsBlank (F.draft folder.old) }
    requires follow { CanFollow noted (map string_bytes notes.now) }
    ensures writes { WritesOnly F.files F.draft F.numbers folder.old folder.new (fault_of result) }
    ensures caused { (out : ℕ)
        → IsCaused (F.faults folder.old) (F.faults folder.new) out out (fault_of result) }
    ensures stored { (files : Files) → F.files folder.old ≡ Some files
        → OnOk result (TellsOnly (F.files folder.new) (finite.insert files name.now
        (core.now ++ notes_part (map string_bytes notes.now)))) }
    ensures fault { IfErr result (λ f. fault_view f ≡ folder_fault) }
{
    draft(folder, core)?;
    match push_notes(notes, noted, folder) {
        Ok(()) => commit(folder, name),
        Err(_) => Err(Fault::FolderFault),
    }
}

/// Appends what stands behind an archive with these notes: each note at once where it is said that
/// some note is not empty.
pub fn push_notes<F: Folder>(notes: &[String], noted: bool, folder: &mut F) -> Result<(), Failed>
    requires { CanFollow noted (map string_bytes notes.now) }
    ensures writes { WritesOnly F.files F.draft F.numbers folder.old folder.new None }
    ensures files { F.files folder.new ≡ F.files folder.old }
    ensures gains { OnOk result (F.draft folder.new ≡ option_map
        (λ d. d ++ notes_part (map string_bytes notes.now)) (F.draft folder.old)) }
    ensures cause { HasCause (F.faults folder.old) (F.faults folder.new) result }
{
    // A law, for the proof of `gains`.
    writers_append_the_part();
    let mut writer = NoteWriter::start(noted);
    for note in notes {
        writer.push(folder, note)?;
    }
    writer.finish(folder)
}
