#![tactic(auto, using(xarch_parts::specs::EndLaws::endings), unfolding(xarch_parts::specs::Ends::IsInside, xarch_parts::specs::Ends::IsDefined))]

ghost use Rattle.std.specs.Prelude.{◌≡◌, ◌≤◌, ◌++◌, codes};
ghost use Rattle.xa_outside.specs.Causes.{HasCause};
ghost use Rattle.xa_outside.specs.Taken.{Puts};
ghost use Rattle.version_notes.specs.Notes.{most};
ghost use Rattle.xarch_words.specs.Commands as commands;
ghost use Rattle.xarch_parts.specs.Ends.{fault_of};
ghost use Rattle.xarch_meanings.specs.Performs.{Performs};
ghost use Rattle.xarch_meanings.specs.Versions.{note_text, version_line};
ghost use Rattle.xarch_reads.specs.Listed.{Lists};
ghost use Rattle.xarch_reads.specs.Written.{written_state};

use crate::fronts::front_of;
use itoa::Buffer;
use noted_file::{full_files_are_read_note_by_note, full_files_have_parts};
use record_format::versions_have_one_file;
use std::alloc::Global;
use version_notes::{NoteReader, notes_come_one_by_one};
use xa_outside::{Buffered, Failed, Folder, Sink, put_all};
use xarch_parts::notes_fault;
use xarch_words::Fault;

/// Writes the number of each version of an archive, and its note.
///
/// Of the archive the header is read, and then one note after another, each written before the next
/// is read; it is held in memory alone.
pub fn run_versions<F: Folder, O: Sink>(
    alloc: Global,
    archive: &str,
    folder: &mut F,
    out: &mut O,
) -> Result<(), Fault>
    ensures { Performs F.files F.draft F.numbers F.faults (commands.versions archive.now)
        folder.old folder.new (O.taken out.old) (O.taken out.new)
        (O.faults out.old) (O.faults out.new) (fault_of result) }
{
    // Laws, for the proof of what may come of it.
    versions_have_one_file();
    full_files_have_parts();
    full_files_are_read_note_by_note();
    let front = front_of(alloc, archive, folder)?;
    match NoteReader::start(alloc, archive, &front.parts, front.header.versions) {
        Ok(reader) => list_versions(alloc, archive, reader, folder, out),
        Err(_) => Err(Fault::Memory),
    }
}

// Writes a line for each note that the reader gives.
fn list_versions<F: Folder, O: Sink>(
    alloc: Global,
    archive: &str,
    reader: NoteReader,
    folder: &mut F,
    out: &mut O,
) -> Result<(), Fault>
    requires { reader.due ≤ most }
    ensures { Lists archive.now reader
        (written_state F.files F.draft F.numbers F.faults O.taken O.faults folder.old out.old)
        (written_state F.files F.draft F.numbers F.faults O.taken O.faults folder.new out.new)
        (fault_of result) }
{
    let mut lines = Buffered::new(out);
    match put_versions(alloc, archive, reader, folder, &mut lines) {
        Ok(()) => match lines.flush() {
            Ok(()) => Ok(()),
            Err(_) => Err(Fault::OutFault),
        },
        Err(fault) => Err(fault),
    }
}

// The same, to a sink that takes short pieces well.
fn put_versions<F: Folder, K: Sink>(
    alloc: Global,
    archive: &str,
    reader: NoteReader,
    folder: &mut F,
    sink: &mut K,
) -> Result<(), Fault>
    requires { reader.due ≤ most }
    ensures { Lists archive.now reader
        (written_state F.files F.draft F.numbers F.faults K.taken K.faults folder.old sink.old)
        (written_state F.files F.draft F.numbers F.faults K.taken K.faults folder.new sink.new)
        (fault_of result) }
{
    // A law, for the proof of what is written.
    notes_come_one_by_one();
    let mut reader = reader;
    let mut number = 0;
    loop {
        match reader.next(folder) {
            Ok(Some(note)) => {
                number += 1;
                if put_version(number, &note, sink).is_err() {
                    return Err(Fault::OutFault);
                }
            }
            Ok(None) => return Ok(()),
            Err(fault) => return Err(notes_fault(alloc, archive, fault)),
        }
    }
}

/// Writes the line of the version of this number.
#[tactic(auto, using(xa_outside::specs::TakenLaws::outputs))]
fn put_version<K: Sink>(number: u32, note: &str, sink: &mut K) -> Result<(), Failed>
    ensures bytes { Puts (K.taken sink.old) (K.taken sink.new) result
        (version_line number note.now) }
    ensures cause { HasCause (K.faults sink.old) (K.faults sink.new) result }
{
    let mut buffer = Buffer::new();
    put_all(sink, buffer.format(number).as_bytes())?;
    put_note(note, sink)?;
    put_all(sink, b"\n")
}

/// Writes a note that is not empty, behind a blank.
fn put_note<K: Sink>(note: &str, sink: &mut K) -> Result<(), Failed>
    ensures bytes { Puts (K.taken sink.old) (K.taken sink.new) result (note_text note.now) }
    ensures cause { HasCause (K.faults sink.old) (K.faults sink.new) result }
{
    match note.as_bytes() {
        [] => Ok(()),
        bytes => put_behind_blank(bytes, sink),
    }
}

#[tactic(auto, using(xa_outside::specs::TakenLaws::outputs))]
fn put_behind_blank<K: Sink>(bytes: &[u8], sink: &mut K) -> Result<(), Failed>
    ensures bytes { Puts (K.taken sink.old) (K.taken sink.new) result (codes " " ++ bytes.now) }
    ensures cause { HasCause (K.faults sink.old) (K.faults sink.new) result }
{
    put_all(sink, b" ")?;
    put_all(sink, bytes)
}
