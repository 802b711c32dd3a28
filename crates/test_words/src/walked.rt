// All notes of a file in one call.
ghost use Rattle.std.specs.Prelude.{◌≤◌};
ghost use Rattle.version_notes.specs.Notes.{most};

use crate::found::{FIRST, TINY, folder};
use crate::given::{reader, size};
use given_outside::told;
use std::alloc::Global;
use std::test::Fail;
use version_notes::{NoteWriter, NotesFault, check_notes, copy_notes, read_notes};
use xa_outside::{Folder, FolderCall, MemFolder};

/// What is asked of the notes of a file.
enum Asked {
    /// Whether these are checked, each of their bytes pulled once, and read.
    Reads(&'static [&'static str]),
    /// Whether two notes are damage, checked, read and copied.
    IsDamage,
    /// Whether three notes are copied as they stand, and nothing is read far ahead.
    Copies,
    /// Whether a copy of the first nine bytes meets the folder's fault.
    Fails,
}

/// Bytes of notes, and the call of the folder that fails.
const ASKED: &[(&str, &[u8], FolderCall, u64, Asked)] = &[
    (
        "a note",
        b"\0\0\0\x05first",
        FolderCall::ReadAt,
        100,
        Asked::Reads(&["first"]),
    ),
    (
        "an empty note at the end",
        b"\0\0\0\x05first\0\0\0\0",
        FolderCall::ReadAt,
        100,
        Asked::Reads(&["first", ""]),
    ),
    (
        "an empty note at the front",
        b"\0\0\0\0\0\0\0\x02\xc3\xa9\0\0\0\x03a b",
        FolderCall::ReadAt,
        100,
        Asked::Reads(&["", "\u{e9}", "a b"]),
    ),
    (
        "no second note",
        b"\0\0\0\x05first",
        FolderCall::ReadAt,
        100,
        Asked::IsDamage,
    ),
    (
        "a second note that is cut off",
        b"\0\0\0\x05first\0\0\0\x02b",
        FolderCall::ReadAt,
        100,
        Asked::IsDamage,
    ),
    (
        "a second note that is none",
        b"\0\0\0\x05first\0\0\0\x01\n",
        FolderCall::ReadAt,
        100,
        Asked::IsDamage,
    ),
    (
        "a byte behind the second",
        b"\0\0\0\x05first\0\0\0\x01bc",
        FolderCall::ReadAt,
        100,
        Asked::IsDamage,
    ),
    (
        "two empty notes",
        b"\0\0\0\0\0\0\0\0",
        FolderCall::ReadAt,
        100,
        Asked::IsDamage,
    ),
    (
        "notes that are copied",
        b"\0\0\0\0\0\0\0\x05first\0\0\0\0",
        FolderCall::ReadAt,
        100,
        Asked::Copies,
    ),
    (
        "a copy whose second read fails",
        FIRST,
        FolderCall::ReadAt,
        2,
        Asked::Fails,
    ),
    (
        "a copy whose second append fails",
        FIRST,
        FolderCall::Append,
        2,
        Asked::Fails,
    ),
];

fn checked(alloc: Global, folder: &mut MemFolder, size: u32, count: u32) -> Result<(), NotesFault> {
    match reader(alloc, size, count) {
        Ok(reader) => check_notes(folder, reader),
        Err(_) => Err(NotesFault::Memory),
    }
}

fn found(
    alloc: Global,
    folder: &mut MemFolder,
    size: u32,
    count: u32,
) -> Result<Vec<String>, NotesFault> {
    match reader(alloc, size, count) {
        Ok(reader) => read_notes(alloc, folder, reader),
        Err(_) => Err(NotesFault::Memory),
    }
}

/// Copies so many notes behind the same records, and makes these the file `b.xar`.
fn copied(
    alloc: Global,
    folder: &mut MemFolder,
    size: u32,
    count: u32,
) -> Option<Result<(), NotesFault>>
    requires { count ≤ most }
{
    if folder.begin().is_err() || folder.append(TINY).is_err() {
        return None;
    }
    let Ok(reader) = reader(alloc, size, count) else {
        return None;
    };
    let mut writer = NoteWriter::start(true);
    let copied = copy_notes(folder, reader, &mut writer);
    match folder.commit("b.xar") {
        Ok(()) => Some(copied),
        Err(_) => None,
    }
}

fn are_same(found: &[String], notes: &[&str]) -> bool {
    for (note, wanted) in found.iter().zip(notes.iter()) {
        if note.as_str() != *wanted {
            return false;
        }
    }
    found.len() == notes.len()
}

fn count_of(notes: &[&str]) -> u32 {
    u32::try_from(notes.len()).unwrap_or(u32::MAX)
}

fn are_found(alloc: Global, folder: &mut MemFolder, size: u32, notes: &[&str]) -> bool {
    match found(alloc, folder, size, count_of(notes)) {
        Ok(found) => are_same(&found, notes),
        Err(_) => false,
    }
}

fn are_read(alloc: Global, folder: &mut MemFolder, size: u32, notes: &[&str]) -> bool {
    checked(alloc, folder, size, count_of(notes)) == Ok(())
        && folder.pulled() == u64::from(size)
        && are_found(alloc, folder, size, notes)
}

fn are_damage(alloc: Global, folder: &mut MemFolder, size: u32) -> bool {
    checked(alloc, folder, size, 2) == Err(NotesFault::Damage)
        && matches!(found(alloc, folder, size, 2), Err(NotesFault::Damage))
        && copied(alloc, folder, size, 2) == Some(Err(NotesFault::Damage))
}

fn are_copied(alloc: Global, folder: &mut MemFolder, bytes: &[u8]) -> bool {
    if copied(alloc, folder, size(bytes), 3) != Some(Ok(())) || folder.gap() != 0 {
        return false;
    }
    match folder.file("b.xar") {
        Some(file) => file.strip_prefix(TINY) == Some(bytes),
        None => false,
    }
}

fn answers(alloc: Global, folder: &mut MemFolder, bytes: &[u8], asked: &Asked) -> bool {
    match asked {
        Asked::Reads(notes) => are_read(alloc, folder, size(bytes), notes),
        Asked::IsDamage => are_damage(alloc, folder, size(bytes)),
        Asked::Copies => are_copied(alloc, folder, bytes),
        Asked::Fails => copied(alloc, folder, 9, 1) == Some(Err(NotesFault::Folder)),
    }
}

fn is_so(alloc: Global, bytes: &[u8], call: FolderCall, number: u64, asked: &Asked) -> bool {
    match folder(alloc, &[TINY, bytes], call, number) {
        Ok(mut folder) => answers(alloc, &mut folder, bytes, asked),
        Err(_) => false,
    }
}

#[test]
fn all_notes_are_checked_read_and_copied(rt: HostRuntime) -> Result<(), Fail> {
    for (name, bytes, call, number, asked) in ASKED {
        told(is_so(rt.alloc(), bytes, *call, *number, asked), name)?;
    }
    Ok(())
}
