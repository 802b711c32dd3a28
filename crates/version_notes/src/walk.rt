// Going through all notes that are left.
ghost use Rattle.std.specs.Prelude.{◌≡◌, ◌+◌, ◌≤◌, ◌||◌, not, true, length, map, max, Some, None, IfOk, IfErr, IfSome, IsSome, OnOk, OnErr, MatchResult, string_bytes};
ghost use Rattle.std.specs.List.{AllByRecursion};
ghost use Rattle.xa_outside.specs.Causes.{Rose};
ghost use Rattle.xa_outside.specs.Folder.{Files, Lengthens};
ghost use Rattle.xa_outside.specs.Numbers.{PullsAndDrafts, PullsAtMost, lead};
ghost use Rattle.version_notes.specs.Faults.{IfDamage, IfFolder};
ghost use Rattle.version_notes.specs.Notes.{IsNote, are_empty, most};
ghost use Rattle.version_notes.specs.Reader.{file_of};
ghost use Rattle.version_notes.specs.Reading.{all_read, notes_from};
ghost use Rattle.version_notes.specs.Walk.{Copies, IsPrompt};

use crate::fault::NotesFault;
use crate::reader::NoteReader;
use crate::writer::NoteWriter;
use std::alloc::Global;
use xa_outside::Folder;

/// Reads all notes that are left, and keeps none.
///
/// It holds one note at a time.
pub fn check_notes<F: Folder>(folder: &mut F, reader: NoteReader) -> Result<(), NotesFault>
    ensures files { F.files folder.new ≡ F.files folder.old }
    ensures draft { F.draft folder.new ≡ F.draft folder.old }
    ensures pulls { PullsAtMost (all_read reader) (F.numbers folder.old) (F.numbers folder.new) }
    ensures later { F.faults folder.old ≤ F.faults folder.new }
    ensures cause { IfErr result (λ e.
        IfFolder e (Rose (F.faults folder.old) (F.faults folder.new))) }

    // Where files are told, the reader still gives notes, and damage is where it gives none.
    ensures told { (files : Files) → F.files folder.old ≡ Some files
        → MatchResult result
        (λ _. IsSome (notes_from reader (file_of files reader.name)))
        (λ e. IfDamage e (notes_from reader (file_of files reader.name) ≡ None)) }
{
    let mut reader = reader;
    while let Some(_) = reader.next(folder)? {}
    Ok(())
}

/// Reads all notes that are left, and gives them in their order.
///
/// It takes memory for each note as it comes, and none before.
pub fn read_notes<F: Folder>(
    alloc: Global,
    folder: &mut F,
    reader: NoteReader,
) -> Result<Vec<String>, NotesFault>
    ensures files { F.files folder.new ≡ F.files folder.old }
    ensures draft { F.draft folder.new ≡ F.draft folder.old }
    ensures pulls { PullsAtMost (all_read reader) (F.numbers folder.old) (F.numbers folder.new) }
    ensures later { F.faults folder.old ≤ F.faults folder.new }
    ensures cause { IfErr result (λ e.
        IfFolder e (Rose (F.faults folder.old) (F.faults folder.new))) }

    // As many notes as were due; where the file has notes, one of them is not empty, or one before
    // them; and where files are told, those that the reader still gives, and damage where it gives
    // none.
    ensures count { IfOk result (λ notes. length notes.items ≡ reader.due) }
    ensures each { IfOk result (λ notes. AllByRecursion IsNote (map string_bytes notes.items)) }
    ensures some { IfSome reader.place (λ p. IfOk result (λ notes.
        (p.used || not (are_empty (map string_bytes notes.items))) ≡ true)) }
    ensures told { (files : Files) → F.files folder.old ≡ Some files
        → MatchResult result
        (λ notes. notes_from reader (file_of files reader.name)
        ≡ Some (map string_bytes notes.items))
        (λ e. IfDamage e (notes_from reader (file_of files reader.name) ≡ None)) }
{
    let mut reader = reader;
    let mut notes = Vec::new(alloc);
    while let Some(note) = reader.next(folder)? {
        if notes.push(note).is_err() {
            return Err(NotesFault::Memory);
        }
    }
    Ok(notes)
}

/// Pushes all notes that are left to a writer, each before the next is read.
///
/// It holds one note at a time.
pub fn copy_notes<F: Folder>(
    folder: &mut F,
    reader: NoteReader,
    writer: &mut NoteWriter,
) -> Result<(), NotesFault>
    requires { writer.old.pushed + reader.due ≤ most }
    ensures files { F.files folder.new ≡ F.files folder.old }
    ensures copies { OnOk result (Copies (F.files folder.old) reader writer.old writer.new
        (F.draft folder.old) (F.draft folder.new)) }
    ensures drafted { OnErr result (Lengthens (F.draft folder.old) (F.draft folder.new)) }
    ensures pulls { PullsAndDrafts (all_read reader)
        (F.numbers folder.old) (F.numbers folder.new) }
    ensures later { F.faults folder.old ≤ F.faults folder.new }
    ensures cause { IfErr result (λ e.
        IfFolder e (Rose (F.faults folder.old) (F.faults folder.new))) }

    // Where files are told, damage is where the reader gives no notes.
    ensures told { (files : Files) → F.files folder.old ≡ Some files
        → IfErr result (λ e.
        IfDamage e (notes_from reader (file_of files reader.name) ≡ None)) }

    // Where each note is appended at once, no more than one is held.
    ensures gap { IsPrompt reader writer.old → (F.numbers folder.new).gap
        ≤ max (F.numbers folder.old).gap (lead (F.numbers folder.old) + 1028) }
    ensures ahead { IsPrompt reader writer.old
        → OnOk result (lead (F.numbers folder.new) ≤ lead (F.numbers folder.old)) }
{
    let mut reader = reader;
    while let Some(note) = reader.next(folder)? {
        writer.push(folder, &note)?;
    }
    Ok(())
}
