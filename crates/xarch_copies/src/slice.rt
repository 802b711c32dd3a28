// The notes of some versions.
ghost use Rattle.std.specs.Prelude.{◌+◌, ◌-◌, ◌≤◌, MatchResult};
ghost use Rattle.version_notes.specs.Notes.{most};
ghost use Rattle.xarch_copies.specs.Slicing.{Pushes, Skips, Slices, Stops};

use version_notes::{
    NoteReader, NoteWriter, NotesFault, notes_come_one_by_one, writers_append_the_part,
};
use xa_outside::Folder;

/// Appends the notes from the first number to the last, and what closes them.
///
/// Those before are read, and those behind are not. Each is appended before the next is read, but
/// for empty ones at the front, which are counted.
pub(crate) fn push_slice<F: Folder>(
    folder: &mut F,
    reader: NoteReader,
    first: u32,
    last: u32,
) -> Result<(), NotesFault>
    requires from { 1 ≤ first }
    requires order { first ≤ last }
    requires due { last ≤ reader.due }
    requires few { reader.due ≤ most }
    ensures { MatchResult result
        (λ _. Slices F.files F.draft F.numbers F.faults folder.old folder.new reader
        (first - 1) (last + 1 - first))
        (λ e. Stops F.files F.draft F.numbers F.faults folder.old folder.new reader e) }
{
    // A law, for the proof of what is appended.
    writers_append_the_part();
    let mut reader = reader;
    let mut writer = NoteWriter::start(false);
    skip_notes(folder, &mut reader, first - 1)?;
    push_notes(folder, &mut reader, &mut writer, last - first + 1)?;
    writer.finish(folder)?;
    Ok(())
}

/// Reads so many notes, and drops them.
fn skip_notes<F: Folder>(
    folder: &mut F,
    reader: &mut NoteReader,
    count: u32,
) -> Result<(), NotesFault>
    requires { count ≤ reader.old.due }
    ensures { MatchResult result
        (λ _. Skips F.files F.draft F.numbers F.faults folder.old folder.new
        reader.old reader.new count)
        (λ e. Stops F.files F.draft F.numbers F.faults folder.old folder.new reader.old e) }
{
    // A law, for the proof of what is read.
    notes_come_one_by_one();
    for _ in 0..count {
        reader.next(folder)?;
    }
    Ok(())
}

// Reads so many notes, and pushes each before it reads the next.
fn push_notes<F: Folder>(
    folder: &mut F,
    reader: &mut NoteReader,
    writer: &mut NoteWriter,
    count: u32,
) -> Result<(), NotesFault>
    requires due { count ≤ reader.old.due }
    requires few { writer.old.pushed + count ≤ most }
    ensures { MatchResult result
        (λ _. Pushes F.files F.draft F.numbers F.faults folder.old folder.new
        reader.old reader.new writer.old writer.new count)
        (λ e. Stops F.files F.draft F.numbers F.faults folder.old folder.new reader.old e) }
{
    // A law, for the proof of what is read.
    notes_come_one_by_one();
    for _ in 0..count {
        if let Some(note) = reader.next(folder)? {
            writer.push(folder, &note)?;
        }
    }
    Ok(())
}
