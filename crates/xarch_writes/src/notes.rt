//! The notes behind an archive.
#![tactic(auto, using(xarch_parts::specs::EndLaws::endings), unfolding(xarch_parts::specs::Ends::IsInside, xarch_parts::specs::Ends::IsOfFolder))]

ghost use Rattle.std.specs.Prelude.{◌≡◌, ◌+◌, ◌-◌, ◌<◌, ◌≤◌, ◌^◌, ◌++◌, true, false, Some, IfSome, IfErr, IfOk, OnOk, IsTrue, length, map, max, string_bytes};
ghost use Rattle.std.specs.List.{AllByRecursion};
ghost use Rattle.xa_outside.specs.Folder.{Files};
ghost use Rattle.version_notes.specs.Notes.{IsNote, are_empty, is_note, most};
ghost use Rattle.version_notes.specs.Reader.{at_first, file_of};
ghost use Rattle.version_notes.specs.Reading.{notes_from};
ghost use Rattle.xa_outside.specs.Numbers.{lead};
ghost use Rattle.version_notes.specs.Writer.{Appends, after, appended, last_appended};
ghost use Rattle.xarch_words.specs.Refusal.{folder_fault};
ghost use Rattle.xarch_words.specs.View.{fault_view};
ghost use Rattle.xarch_parts.specs.Ends.{fault_of};
ghost use Rattle.xarch_parts.specs.Folders.{ReadsOnly};
ghost use Rattle.xarch_parts.specs.Noted.{notes_bytes};
ghost use Rattle.xarch_writes.specs.Appending.{GainsNotes, Grows, NotesEnd};
ghost use Rattle.xarch_meanings.specs.Meanings.{IsLimited};

use std::alloc::Global;
use version_notes::{
    NoteReader, NoteWriter, Parts, copy_notes, read_notes, writers_append_the_part,
};
use xa_outside::{Failed, Folder};
use xarch_parts::notes_fault;
use xarch_words::Fault;

/// Appends the notes of the archive of this name, which has so many versions, and another note.
///
/// Each note is appended before the next is read, and no two are held.
pub(crate) fn append_notes<F: Folder>(
    alloc: Global,
    archive: &str,
    parts: &Parts,
    versions: u32,
    note: &str,
    folder: &mut F,
) -> Result<(), Fault>
    requires few { versions < most }
    requires room { IfSome parts.now.notes (λ n. parts.now.core + n < 2 ^ 64 - 16) }
    requires note { IsTrue (is_note note.now) }
    ensures grows { Grows F.files F.draft F.numbers F.faults (notes_bytes parts.now.notes)
        folder.old folder.new (fault_of result) }
    ensures gains { OnOk result (GainsNotes (F.files folder.old) archive.now parts.now versions
        note.now (F.draft folder.old) (F.draft folder.new)) }
    ensures ends { (files : Files) → F.files folder.old ≡ Some files
        → NotesEnd files archive.now parts.now versions (fault_of result) }
    ensures unlimited { ¬ IsLimited (fault_of result) }
    ensures gap { (F.numbers folder.new).gap
        ≤ max (F.numbers folder.old).gap (lead (F.numbers folder.old) + 1028) }
{
    // A law, for the proof of `gains`.
    writers_append_the_part();
    let mut writer = NoteWriter::start(parts.notes.is_some());
    match NoteReader::start(alloc, archive, parts, versions) {
        Ok(reader) => match copy_notes(folder, reader, &mut writer) {
            Ok(()) => append_last(writer, note, folder),
            Err(fault) => Err(notes_fault(alloc, archive, fault)),
        },
        Err(_) => Err(Fault::Memory),
    }
}

/// Appends the last note, and what closes them.
fn append_last<F: Folder>(writer: NoteWriter, note: &str, folder: &mut F) -> Result<(), Fault>
    requires few { writer.pushed < most }
    requires note { IsTrue (is_note note.now) }
    requires some { writer.at_once ≡ true → writer.used ≡ true }
    ensures appends { Appends F.files F.draft F.numbers F.faults folder.old folder.new
        (appended writer note.now ++ last_appended (after writer note.now)) result }
    ensures fault { IfErr result (λ f. fault_view f ≡ folder_fault) }
{
    match push_last(writer, note, folder) {
        Ok(()) => Ok(()),
        Err(_) => Err(Fault::FolderFault),
    }
}

fn push_last<F: Folder>(writer: NoteWriter, note: &str, folder: &mut F) -> Result<(), Failed>
    requires few { writer.pushed < most }
    requires note { IsTrue (is_note note.now) }
    requires some { writer.at_once ≡ true → writer.used ≡ true }
    ensures { Appends F.files F.draft F.numbers F.faults folder.old folder.new
        (appended writer note.now ++ last_appended (after writer note.now)) result }
{
    let mut writer = writer;
    match writer.push(folder, note) {
        Ok(()) => writer.finish(folder),
        Err(failed) => Err(failed),
    }
}

/// The notes of the archive of this name, which has so many versions. They are held.
pub(crate) fn notes_of<F: Folder>(
    alloc: Global,
    archive: &str,
    parts: &Parts,
    versions: u32,
    folder: &mut F,
) -> Result<Vec<String>, Fault>
    requires { IfSome parts.now.notes (λ n. parts.now.core + n < 2 ^ 64 - 16) }
    ensures reads { ReadsOnly F.files F.draft F.numbers F.faults (notes_bytes parts.now.notes)
        folder.old folder.new (fault_of result) }
    ensures told { (files : Files) → F.files folder.old ≡ Some files → IfOk result (λ notes.
        notes_from (at_first archive.now parts.now versions) (file_of files archive.now)
        ≡ Some (map string_bytes notes.items)) }
    ensures ends { (files : Files) → F.files folder.old ≡ Some files
        → NotesEnd files archive.now parts.now versions (fault_of result) }
    ensures count { IfOk result (λ notes. length notes.items ≡ versions) }
    ensures each { IfOk result (λ notes. AllByRecursion IsNote (map string_bytes notes.items)) }
    ensures some { IfSome parts.now.notes (λ n. IfOk result (λ notes.
        are_empty (map string_bytes notes.items) ≡ false)) }
{
    match NoteReader::start(alloc, archive, parts, versions) {
        Ok(reader) => match read_notes(alloc, folder, reader) {
            Ok(notes) => Ok(notes),
            Err(fault) => Err(notes_fault(alloc, archive, fault)),
        },
        Err(_) => Err(Fault::Memory),
    }
}
