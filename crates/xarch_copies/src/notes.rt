//! The notes behind an archive.
#![tactic(auto, using(xarch_parts::specs::EndLaws::endings))]

ghost use Rattle.std.specs.Prelude.{◌+◌, ◌-◌, ◌<◌, ◌≤◌, ◌^◌, IfSome, MatchResult};
ghost use Rattle.record_cursor.specs.View.{header_view};
ghost use Rattle.version_notes.specs.Notes.{most};
ghost use Rattle.version_notes.specs.Reader.{at_first};
ghost use Rattle.xarch_words.specs.View.{fault_view};
ghost use Rattle.xarch_parts.specs.Noted.{notes_bytes};
ghost use Rattle.xarch_copies.specs.Cutting.{Unnoted};
ghost use Rattle.xarch_copies.specs.Joining.{BothNotesEnd, Carries, CopiesAll, FrontNotesEnd, front_reader};
ghost use Rattle.xarch_copies.specs.Making.{Fails};
ghost use Rattle.xarch_copies.specs.Slicing.{Slices};

use crate::slice::push_slice;
use std::alloc::Global;
use version_notes::{NoteReader, NoteWriter, Parts, copy_notes, writers_append_the_part};
use xa_outside::Folder;
use xarch_parts::{Front, notes_fault};
use xarch_words::Fault;

/// Appends the notes of the versions from the first to the last, of the archive of this name, which
/// has so many versions.
///
/// Each note is appended before the next is read, and no two are held.
pub(crate) fn append_notes<F: Folder>(
    alloc: Global,
    archive: &str,
    parts: &Parts,
    versions: u32,
    first: u32,
    last: u32,
    folder: &mut F,
) -> Result<(), Fault>
    requires few { versions ≤ most }
    requires room { IfSome parts.now.notes (λ n. parts.now.core + n < 2 ^ 64 - 16) }
    requires from { 1 ≤ first }
    requires order { first ≤ last }
    requires there { last ≤ versions }
    ensures { MatchResult result
        (λ _. Slices F.files F.draft F.numbers F.faults folder.old folder.new
        (at_first archive.now parts.now versions) (first - 1) (last + 1 - first))
        (λ f. Unnoted F.files F.draft F.numbers F.faults archive.now parts.now versions
        folder.old folder.new (fault_view f)) }
{
    match NoteReader::start(alloc, archive, parts, versions) {
        Ok(reader) => match push_slice(folder, reader, first, last) {
            Ok(()) => Ok(()),
            Err(fault) => Err(notes_fault(alloc, archive, fault)),
        },
        Err(_) => Err(Fault::Memory),
    }
}

/// Appends the notes of the versions of two archives of these names, and what closes them.
///
/// All notes of both are judged. Each is appended before the next is read, and no two are held.
pub(crate) fn append_both<F: Folder>(
    alloc: Global,
    one: &str,
    first: &Front,
    two: &str,
    second: &Front,
    folder: &mut F,
) -> Result<(), Fault>
    requires few { (header_view first.now.header).versions
        + (header_view second.now.header).versions ≤ most }
    ensures { MatchResult result
        (λ _. Carries F.files F.draft F.numbers F.faults folder.old folder.new
        (front_reader one.now first.now) (front_reader two.now second.now))
        (λ f. Fails F.files F.draft F.numbers F.faults
        (notes_bytes first.now.parts.notes + notes_bytes second.now.parts.notes)
        (BothNotesEnd (F.files folder.old) one.now first.now two.now second.now)
        folder.old folder.new (fault_view f)) }
{
    // A law, for the proof of what is appended.
    writers_append_the_part();
    let mut writer = NoteWriter::start(false);
    copy_front_notes(alloc, one, first, &mut writer, folder)?;
    copy_front_notes(alloc, two, second, &mut writer, folder)?;
    match writer.finish(folder) {
        Ok(()) => Ok(()),
        Err(_) => Err(Fault::FolderFault),
    }
}

// Gives a writer the notes of all versions of the archive of this name. All are judged.
fn copy_front_notes<F: Folder>(
    alloc: Global,
    archive: &str,
    front: &Front,
    writer: &mut NoteWriter,
    folder: &mut F,
) -> Result<(), Fault>
    requires few { writer.old.pushed + (header_view front.now.header).versions ≤ most }
    ensures { MatchResult result
        (λ _. CopiesAll F.files F.draft F.numbers F.faults folder.old folder.new
        (front_reader archive.now front.now) writer.old writer.new)
        (λ f. Fails F.files F.draft F.numbers F.faults (notes_bytes front.now.parts.notes)
        (FrontNotesEnd (F.files folder.old) archive.now front.now)
        folder.old folder.new (fault_view f)) }
{
    match NoteReader::start(alloc, archive, &front.parts, front.header.versions) {
        Ok(reader) => match copy_notes(folder, reader, writer) {
            Ok(()) => Ok(()),
            Err(fault) => Err(notes_fault(alloc, archive, fault)),
        },
        Err(_) => Err(Fault::Memory),
    }
}
