// Notes that are read.
ghost use Rattle.std.specs.Prelude.{◌≡◌, IfOk};

use crate::found::{TINY, folder};
use std::alloc::{AllocError, Global};
use version_notes::{NoteReader, NotesFault, Parts};
use xa_outside::{FolderCall, MemFolder};

/// What a call gives: `-` behind the last note, `!` of a damaged file, and `?` where the folder
/// failed or there is no memory.
pub(crate) fn told<'a>(found: &'a Result<Option<String>, NotesFault>) -> &'a str {
    match found {
        Ok(Some(note)) => note.as_str(),
        Ok(None) => "-",
        Err(NotesFault::Damage) => "!",
        Err(_) => "?",
    }
}

/// A reader of the notes behind the file of one version, which have so many bytes.
pub(crate) fn reader(alloc: Global, size: u32, versions: u32) -> Result<NoteReader, AllocError>
    ensures { IfOk result (λ r. r.due ≡ versions) }
{
    let parts = Parts {
        core: 142,
        notes: Some(u64::from(size)),
    };
    NoteReader::start(alloc, "a.xar", &parts, versions)
}

/// Bytes of notes, how many versions the file has, and what is given, call by call. What comes last
/// comes again.
const NOTES: &[(&[u8], u32, &[&str])] = &[
    (b"\0\0\0\x05first", 1, &["first", "-", "-"]),
    (b"\0\0\0\x05first", 2, &["first", "!", "!"]),
    (b"\0\0\0\x05first\0\0\0\0", 2, &["first", "", "-", "-"]),
    (b"\0\0\0\0\0\0\0\x01b\0\0\0\0", 3, &["", "b", "", "-"]),
    (b"\0\0\0\x05first\0", 1, &["first", "!", "!"]),
    (b"\0\0\0\x05firs", 1, &["!", "!"]),
    (b"\0\0\0", 1, &["!", "!"]),
    (b"", 1, &["!", "!"]),
    (b"", 0, &["!", "!"]),
    (b"\0\0\0\0", 1, &["", "!", "!"]),
    (b"\0\0\0\x02\xc3\xa9", 1, &["\u{e9}", "-"]),
    (b"\0\0\0\x02\xc3(", 1, &["!"]),
    (b"\0\0\0\x01 ", 1, &[" ", "-"]),
    (b"\0\0\0\x01\x1f", 1, &["!"]),
    (b"\0\0\0\x02a\n", 1, &["!"]),
    (b"\xff\xff\xff\xffabc", 1, &["!", "!"]),
];

/// Whether the reader gives these, call by call.
fn are_given(folder: &mut MemFolder, reader: &mut NoteReader, wanted: &[&str]) -> bool {
    for text in wanted {
        if told(&reader.next(folder)) != *text {
            return false;
        }
    }
    true
}

/// How many bytes there are.
pub(crate) fn size(bytes: &[u8]) -> u32 {
    u32::try_from(bytes.len()).unwrap_or(u32::MAX)
}

/// Whether the notes of a file, of which a read fails, are given so, call by call.
fn are_read(alloc: Global, notes: &[u8], versions: u32, failing: u64, wanted: &[&str]) -> bool {
    match (
        folder(alloc, &[TINY, notes], FolderCall::ReadAt, failing),
        reader(alloc, size(notes), versions),
    ) {
        (Ok(mut folder), Ok(mut reader)) => are_given(&mut folder, &mut reader, wanted),
        _ => false,
    }
}

#[test]
fn notes_are_given_in_order(rt: HostRuntime) {
    for (index, (notes, versions, wanted)) in NOTES.iter().enumerate() {
        assert!(rt;
            are_read(rt.alloc(), notes, *versions, 0, wanted),
            "notes {index}"
        );
    }
}

fn are_none_given(alloc: Global) -> bool {
    let parts = Parts {
        core: 142,
        notes: None,
    };
    match (
        folder(alloc, &[TINY], FolderCall::ReadAt, 1),
        NoteReader::start(alloc, "a.xar", &parts, 2),
    ) {
        (Ok(mut folder), Ok(mut reader)) => {
            are_given(&mut folder, &mut reader, &["", "", "-", "-"])
        }
        _ => false,
    }
}

/// A note of so many letters.
fn letters(alloc: Global, count: u32) -> Result<Vec<u8>, AllocError> {
    let mut note = Vec::from_slice(alloc, &count.to_be_bytes())?;
    note.resize(4 + count as usize, b'a')?;
    Ok(note)
}

/// How many bytes are pulled where a note of so many letters is read, and how long what is told is.
fn pulled(alloc: Global, count: u32) -> Option<(u64, usize)> {
    let note = letters(alloc, count).ok()?;
    let mut folder = folder(alloc, &[TINY, &note], FolderCall::ReadAt, 0).ok()?;
    let mut reader = reader(alloc, size(&note), 1).ok()?;
    let length = told(&reader.next(&mut folder)).len();
    Some((folder.pulled(), length))
}

#[test]
fn files_without_notes_and_long_notes_are_read(rt: HostRuntime) {
    let alloc = rt.alloc();
    assert!(rt; are_none_given(alloc));
    assert!(rt; pulled(alloc, 1024) == Some((1028, 1024)) && pulled(alloc, 1025) == Some((4, 1)));
}

#[test]
fn a_read_that_fails_can_be_tried_again(rt: HostRuntime) {
    let (notes, wanted): (&[u8], &[&str]) = (b"\0\0\0\x05first", &["?", "first", "-"]);
    let alloc = rt.alloc();
    assert!(rt; are_read(alloc, notes, 1, 1, wanted) && are_read(alloc, notes, 1, 2, wanted));
}
