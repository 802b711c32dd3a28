#![tactic(auto, using(xarch_parts::specs::EndLaws::endings), unfolding(xarch_parts::specs::Ends::IsInside, xarch_parts::specs::Ends::IsDefined))]

ghost use Rattle.std.specs.Prelude.{◌≡◌, ◌≢◌, ◌-◌, ◌+◌, ◌≤◌, ℕ, Some, Ok, IfOk, IfErr, OnOk, IsTrue, length};
ghost use Rattle.xa_outside.specs.Folder.{Files, IsBlank};
ghost use Rattle.xa_outside.specs.Numbers.{PullsAtMost};
ghost use Rattle.xa_outside.specs.Taken.{Taken};
ghost use Rattle.jsonml_text.specs.Texts.{AreTexts};
ghost use Rattle.key_annotate.specs.LentView.{lent_view};
ghost use Rattle.keyed_tree.specs.Data.{PlainKeyed};
ghost use Rattle.keyed_tree.specs.Plain.{plain};
ghost use Rattle.archive_file.specs.KeyedBy.{IsKeyedBy};
ghost use Rattle.record_cursor.specs.View.{header_view, IsHeader};
ghost use Rattle.version_notes.specs.Notes.{is_note, is_printed};
ghost use Rattle.version_notes.specs.declared.limits.TheConstants.{LONGEST_NOTE};
ghost use Rattle.noted_file.specs.Contents.{Contents};
ghost use Rattle.xarch_words.specs.Commands.{add};
ghost use Rattle.xarch_words.specs.Refusal as refusal;
ghost use Rattle.xarch_words.specs.Refusal.{refused};
ghost use Rattle.xarch_words.specs.View.{fault_view, note_view};
ghost use Rattle.xarch_words.specs.declared.limits.TheConstants.{DOCUMENT};
ghost use Rattle.xarch_meanings.specs.Add.{document_size, text_behind, text_read, tree_of};
ghost use Rattle.stream_merge.specs.Added.{Appended, Overfull};
ghost use Rattle.stream_merge.specs.Short.{IsShortTree};
ghost use Rattle.xarch_writes.specs.Added.{IsToldAs, KeepsUp, Merges, RecordsEnd, read_view};
ghost use Rattle.xarch_writes.specs.Appending.{Grows};
ghost use Rattle.xarch_meanings.specs.Meanings.{FillsUp, IsLimited};
ghost use Rattle.xarch_meanings.specs.History.{front_size};
ghost use Rattle.xarch_meanings.specs.Performs.{Performs};
ghost use Rattle.xarch_parts.specs.Archives.{ArchiveIs, IsFrontOf, PartsAre, short_note};
ghost use Rattle.xarch_parts.specs.Ends.{IsCaused, IsInside, Matches, fault_of};
ghost use Rattle.xarch_parts.specs.Folders.{ReadsOnly, Streams};
ghost use Rattle.xarch_parts.specs.Inputs.{file_length, read_in, size_in};
ghost use Rattle.xarch_parts.specs.Noted.{AreWithin, notes_bytes};
ghost use Rattle.xarch_parts.specs.Outcome.{and_then};
ghost use Rattle.xarch_parts.specs.Readings.{front_in};
ghost use Rattle.record_parts.specs.declared.limits.TheConstants.{MOST_VERSIONS};

use crate::notes::append_notes;
use key_annotate::LentKeyed;
use noted_file::{full_files_are_read_note_by_note, full_files_have_parts};
use record_cursor::{Cursor, Header, files_give_their_items};
use record_format::{LONGEST, versions_have_one_file};
use record_parts::MOST_VERSIONS;
use std::alloc::Global;
use stream_merge::{AddFault, stream_append};
use version_notes::LONGEST_NOTE;
use xa_outside::Folder;
use xarch_parts::{
    Front, at_most, begin, commit, damaged, doc_from, keyed_from, length_of, limited_length,
    read_front, read_whole,
};
use xarch_words::{Fault, Quantity, limits};

/// Adds a document to an archive as its next version, with a note: an empty one where none is
/// given.
///
/// The archive is read once, and each record and each note is written before the next is read.
pub fn run_add<F: Folder>(
    alloc: Global,
    archive: &str,
    doc: &str,
    note: Option<&str>,
    folder: &mut F,
) -> Result<(), Fault>
    requires { IsTrue (is_printed (note_view note)) }
    ensures performs { (t : Taken) (n : ℕ) → Performs F.files F.draft F.numbers F.faults
        (add archive.now doc.now (note_view note.entry))
        folder.old folder.new t t n n (fault_of result) }
    ensures fills { FillsUp (Some (add archive.now doc.now (note_view note.entry)))
        (F.files folder.old) (F.draft folder.new) (IsLimited (fault_of result)) }
{
    match note {
        Some(note) => add_noted(alloc, archive, doc, note, folder),
        None => add_noted(alloc, archive, doc, "", folder),
    }
}

// Adds a document to an archive as its next version, with this note.
fn add_noted<F: Folder>(
    alloc: Global,
    archive: &str,
    doc: &str,
    note: &str,
    folder: &mut F,
) -> Result<(), Fault>
    requires { IsTrue (is_printed note.now) }
    ensures performs { (t : Taken) (n : ℕ) → Performs F.files F.draft F.numbers F.faults
        (add archive.now doc.now note.now) folder.old folder.new t t n n (fault_of result) }
    ensures fills { FillsUp (Some (add archive.now doc.now note.now)) (F.files folder.old)
        (F.draft folder.new) (IsLimited (fault_of result)) }
{
    // Laws, for the proof of what may come of it and of how often it reads.
    versions_have_one_file();
    files_give_their_items();
    full_files_have_parts();
    full_files_are_read_note_by_note();
    begin(folder)?;
    check_note(note)?;
    let (front, text) = read_added(alloc, archive, doc, folder)?;
    add_text(alloc, archive, &front, &text, note, folder)
}

// Nothing, where the note is not too long. It takes no memory.
fn check_note(note: &str) -> Result<(), Fault>
    ensures cause { IsInside (fault_of result) }
    ensures told { Matches (λ _. tt) (short_note note.now) result }
    ensures short { OnOk result (length note.now ≤ LONGEST_NOTE) }
    ensures refused { IfErr result
        (λ f. fault_view f ≡ refused (refusal.limit refusal.note LONGEST_NOTE)) }
{
    at_most(note.len() as u64, Quantity::Note, LONGEST_NOTE as u64)?;
    Ok(())
}

// What stands in front of the archive, and the bytes of the document.
fn read_added<F: Folder>(
    alloc: Global,
    archive: &str,
    doc: &str,
    folder: &mut F,
) -> Result<(Front, Vec<u8>), Fault>
    ensures reads { ReadsOnly F.files F.draft F.numbers F.faults
        (size_in (F.files folder.old) archive.now + (16 + DOCUMENT))
        folder.old folder.new (fault_of result) }
    ensures told { (files : Files) → F.files folder.old ≡ Some files
        → Matches (λ r. read_view r.0 r.1.items) (text_read files archive.now doc.now) result }
    ensures front { (files : Files) → F.files folder.old ≡ Some files
        → IfOk result (λ r. PartsAre files archive.now r.0.parts
        × IsFrontOf files archive.now (header_view r.0.header)) }
    ensures few { (files : Files) (c : Contents)
        → F.files folder.old ≡ Some files → ArchiveIs files archive.now c
        → PullsAtMost (16 + front_size c.rules c.versions + document_size files doc.now)
        (F.numbers folder.old) (F.numbers folder.new) }
    ensures once { IfOk result (λ r.
        AreWithin (size_in (F.files folder.old) archive.now) r.0.parts
        × PullsAtMost (16 + (header_view r.0.header).first + DOCUMENT)
        (F.numbers folder.old) (F.numbers folder.new)) }
    ensures known { IfOk result (λ r. length r.1.items ≤ DOCUMENT) }
{
    let size = length_of(alloc, folder, archive)?;
    let doc_size = limited_length(alloc, folder, doc, Quantity::Document, limits::DOCUMENT)?;
    read_text(alloc, archive, size, doc, doc_size, folder)
}

// What stands in front of the archive in a file of this size, and the bytes of the document in
// another.
fn read_text<F: Folder>(
    alloc: Global,
    archive: &str,
    size: u64,
    doc: &str,
    doc_size: u64,
    folder: &mut F,
) -> Result<(Front, Vec<u8>), Fault>
    requires { doc_size ≤ DOCUMENT }
    ensures reads { ReadsOnly F.files F.draft F.numbers F.faults (16 + size + DOCUMENT)
        folder.old folder.new (fault_of result) }
    ensures told { (files : Files) → F.files folder.old ≡ Some files
        → file_length files archive.now ≡ Ok size → file_length files doc.now ≡ Ok doc_size
        → Matches (λ r. read_view r.0 r.1.items)
        (and_then (read_in files archive.now (front_in archive.now))
        (text_behind files doc.now)) result }
    ensures front { (files : Files) → F.files folder.old ≡ Some files
        → file_length files archive.now ≡ Ok size
        → IfOk result (λ r. PartsAre files archive.now r.0.parts
        × IsFrontOf files archive.now (header_view r.0.header)) }
    ensures few { (files : Files) (c : Contents)
        → F.files folder.old ≡ Some files → file_length files archive.now ≡ Ok size
        → ArchiveIs files archive.now c
        → PullsAtMost (16 + front_size c.rules c.versions + doc_size)
        (F.numbers folder.old) (F.numbers folder.new) }
    ensures once { IfOk result (λ r. AreWithin size r.0.parts
        × PullsAtMost (16 + (header_view r.0.header).first + doc_size)
        (F.numbers folder.old) (F.numbers folder.new)) }
    ensures known { IfOk result (λ r. length r.1.items ≤ DOCUMENT) }
{
    let front = read_front(alloc, folder, archive, size)?;
    let text = read_whole(alloc, folder, doc, doc_size)?;
    Ok((front, text))
}

// Adds the document that some bytes spell to the archive of this name, in front of which this
// stands.
//
// The bytes lend the document its texts, and the document lends them to its keyed tree.
fn add_text<F: Folder>(
    alloc: Global,
    archive: &str,
    front: &Front,
    text: &[u8],
    note: &str,
    folder: &mut F,
) -> Result<(), Fault>
    requires short { length text.now ≤ DOCUMENT }
    requires note { IsTrue (is_note note.now) }
    requires blank { IsBlank (F.draft folder.old) }
    ensures streams { Streams F.files F.draft F.numbers
        ((header_view front.now.header).length - (header_view front.now.header).first
        + notes_bytes front.now.parts.notes) folder.old folder.new (fault_of result) }
    ensures caused { (out : ℕ)
        → IsCaused (F.faults folder.old) (F.faults folder.new) out out (fault_of result) }
    ensures merges { (files : Files) → F.files folder.old ≡ Some files
        → PartsAre files archive.now front.now.parts
        → IsFrontOf files archive.now (header_view front.now.header)
        → Merges files archive.now (header_view front.now.header)
        (tree_of (header_view front.now.header).rules text.now) note.now
        (F.files folder.new) (F.numbers folder.old) (F.numbers folder.new) (fault_of result) }
    ensures fills { (tree : PlainKeyed) (b : ℕ)
        → tree_of (header_view front.now.header).rules text.now ≡ Ok tree
        → (header_view front.now.header).versions ≢ MOST_VERSIONS → IsLimited (fault_of result)
        → (header_view front.now.header).length + 12 ≤ b → IsShortTree b tree
        → Overfull b (header_view front.now.header).rules
        ((header_view front.now.header).versions + 1) (F.draft folder.new) }
{
    let doc = doc_from(alloc, text)?;
    let keyed = keyed_from(alloc, &front.header.spec, &doc)?;
    add_tree(alloc, archive, front, &keyed, note, folder)
}

// Adds the keyed tree to the archive of this name, in front of which this stands: its records, its
// notes, and then the file is there.
fn add_tree<F: Folder>(
    alloc: Global,
    archive: &str,
    front: &Front,
    new: &LentKeyed<'_, '_>,
    note: &str,
    folder: &mut F,
) -> Result<(), Fault>
    requires keyed { IsKeyedBy (header_view front.now.header).rules (lent_view new.now) }
    requires texts { AreTexts (plain (lent_view new.now)) }
    requires note { IsTrue (is_note note.now) }
    requires blank { IsBlank (F.draft folder.old) }
    ensures streams { Streams F.files F.draft F.numbers
        ((header_view front.now.header).length - (header_view front.now.header).first
        + notes_bytes front.now.parts.notes) folder.old folder.new (fault_of result) }
    ensures caused { (out : ℕ)
        → IsCaused (F.faults folder.old) (F.faults folder.new) out out (fault_of result) }
    ensures merges { (files : Files) → F.files folder.old ≡ Some files
        → PartsAre files archive.now front.now.parts
        → IsFrontOf files archive.now (header_view front.now.header)
        → Merges files archive.now (header_view front.now.header) (Ok (lent_view new.now)) note.now
        (F.files folder.new) (F.numbers folder.old) (F.numbers folder.new) (fault_of result) }
    ensures fills { (b : ℕ) → (header_view front.now.header).versions ≢ MOST_VERSIONS
        → IsLimited (fault_of result) → (header_view front.now.header).length + 12 ≤ b
        → IsShortTree b (lent_view new.now)
        → Overfull b (header_view front.now.header).rules
        ((header_view front.now.header).versions + 1) (F.draft folder.new) }
{
    // Laws, for the proof of `merges`.
    versions_have_one_file();
    full_files_have_parts();
    full_files_are_read_note_by_note();
    append_records(alloc, archive, &front.header, new, folder)?;
    append_notes(
        alloc,
        archive,
        &front.parts,
        front.header.versions,
        note,
        folder,
    )?;
    commit(folder, archive)
}

// Appends the records of the archive of this name to the draft, with the keyed tree.
fn append_records<F: Folder>(
    alloc: Global,
    archive: &str,
    header: &Header,
    new: &LentKeyed<'_, '_>,
    folder: &mut F,
) -> Result<(), Fault>
    requires header { IsHeader (header_view header.now) }
    requires keyed { IsKeyedBy (header_view header.now).rules (lent_view new.now) }
    requires texts { AreTexts (plain (lent_view new.now)) }
    requires blank { IsBlank (F.draft folder.old) }
    ensures grows { Grows F.files F.draft F.numbers F.faults
        ((header_view header.now).length - (header_view header.now).first)
        folder.old folder.new (fault_of result) }
    ensures room { OnOk result ((header_view header.now).versions ≢ MOST_VERSIONS) }
    ensures appended { OnOk result (Appended (header_view header.now) archive.now
        (lent_view new.now) (F.files folder.old) (F.draft folder.old) (F.draft folder.new)) }
    ensures ends { (files : Files) → F.files folder.old ≡ Some files
        → IsFrontOf files archive.now (header_view header.now)
        → RecordsEnd files archive.now (header_view header.now) (lent_view new.now)
        (fault_of result) }
    ensures keeps_up { (files : Files) → F.files folder.old ≡ Some files
        → IsFrontOf files archive.now (header_view header.now)
        → KeepsUp files archive.now (header_view header.now)
        (F.numbers folder.old) (F.numbers folder.new) (fault_of result) }
    ensures fills { (b : ℕ) → (header_view header.now).versions ≢ MOST_VERSIONS
        → IsLimited (fault_of result) → (header_view header.now).length + 12 ≤ b
        → IsShortTree b (lent_view new.now)
        → Overfull b (header_view header.now).rules ((header_view header.now).versions + 1)
        (F.draft folder.new) }
{
    // A law, for the proof of `ends`.
    full_files_have_parts();
    match Cursor::start(alloc, archive, header) {
        Ok(cursor) => match stream_append(alloc, folder, archive, header, cursor, new) {
            Ok(()) => Ok(()),
            Err(fault) => Err(told_fault(alloc, archive, fault)),
        },
        Err(_) => Err(Fault::Memory),
    }
}

// What is said of the fault, where it befell the archive of this name.
fn told_fault(alloc: Global, archive: &str, fault: AddFault) -> Fault
    ensures { IsToldAs archive.now fault (fault_view result) }
{
    match fault {
        AddFault::Damage => damaged(alloc, archive),
        AddFault::Folder => Fault::FolderFault,
        AddFault::Limit => Fault::Limit {
            quantity: Quantity::Versions,
            number: u64::from(MOST_VERSIONS),
        },
        AddFault::TooLong => Fault::Limit {
            quantity: Quantity::Archive,
            number: LONGEST,
        },
        AddFault::Memory => Fault::Memory,
    }
}
