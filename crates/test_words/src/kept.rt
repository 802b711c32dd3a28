// Notes that are written, and what they are read back as.
ghost use Rattle.std.specs.Prelude.{◌≡◌, ◌+◌, ◌≤◌, false, length, OnOk};
ghost use Rattle.version_notes.specs.Notes.{most};

use crate::found::{FIRST, TINY};
use crate::given::told;
use std::alloc::{AllocError, Global};
use version_notes::{NoteReader, NoteWriter, is_note, parts_of};
use xa_outside::{Failed, Folder, FolderCall, FolderFail, MemFolder};

/// So many empty notes.
fn push_empty(folder: &mut MemFolder, writer: &mut NoteWriter, count: u32) -> Result<(), Failed>
    requires { writer.old.pushed + count ≤ most }
    ensures pushed { OnOk result (writer.new.pushed ≡ writer.old.pushed + count) }
    ensures at_once { OnOk result (writer.new.at_once ≡ writer.old.at_once) }
{
    for _ in 0..count {
        writer.push(folder, "")?;
    }
    Ok(())
}

fn push_all(folder: &mut MemFolder, writer: &mut NoteWriter, notes: &[&str]) -> Result<(), Failed>
    requires { writer.old.pushed + length notes.now ≤ most }
    ensures at_once { OnOk result (writer.new.at_once ≡ writer.old.at_once) }
{
    for note in notes {
        if !is_note(note) {
            return Err(Failed);
        }
        writer.push(folder, note)?;
    }
    Ok(())
}

/// A file of one version's records, and behind these so many empty notes and others.
fn write(folder: &mut MemFolder, empty: u32, notes: &[&str]) -> Result<(), Failed>
    requires { empty + length notes.now ≤ most }
{
    folder.begin()?;
    folder.append(TINY)?;
    let mut writer = NoteWriter::start(false);
    push_empty(folder, &mut writer, empty)?;
    push_all(folder, &mut writer, notes)?;
    writer.finish(folder)?;
    folder.commit("a.xar")
}

fn failing(alloc: Global, number: u64) -> Result<MemFolder, AllocError> {
    let call = FolderCall::Append;
    let fails = vec![in alloc; FolderFail { call, number }]?;
    Ok(MemFolder::new(alloc, fails))
}

/// Notes, and what stands behind the file.
const LISTS: &[(&[&str], &[u8])] = &[
    (&[], b""),
    (&["first"], FIRST),
    (&["", ""], b""),
    (
        &["a"],
        b"\0\0\0\x01a\0\0\0\0\0\0\0\x05\xff\xff\xff\xff\xff\xff\xff\xff",
    ),
    (
        &["", "b", ""],
        b"\0\0\0\0\0\0\0\x01b\0\0\0\0\0\0\0\0\0\0\0\x0d\xff\xff\xff\xff\xff\xff\xff\xff",
    ),
    (
        &["\u{e9}", "a b"],
        b"\0\0\0\x02\xc3\xa9\0\0\0\x03a b\0\0\0\0\0\0\0\x0d\xff\xff\xff\xff\xff\xff\xff\xff",
    ),
];

/// Whether the file has these bytes behind its records.
fn is_behind(folder: &MemFolder, behind: &[u8]) -> bool {
    match folder.file("a.xar") {
        Some(file) => file.strip_prefix(TINY) == Some(behind),
        None => false,
    }
}

/// Whether the reader gives these notes, and no more.
fn are_given(folder: &mut MemFolder, reader: &mut NoteReader, notes: &[&str]) -> bool {
    for note in notes {
        if told(&reader.next(folder)) != *note {
            return false;
        }
    }
    told(&reader.next(folder)) == "-"
}

/// Whether these are the notes of the first bytes of the file.
fn are_read_back(alloc: Global, folder: &mut MemFolder, length: usize, notes: &[&str]) -> bool {
    let Ok(parts) = parts_of(folder, "a.xar", length as u64) else {
        return false;
    };
    let due = u32::try_from(notes.len()).unwrap_or(u32::MAX);
    match NoteReader::start(alloc, "a.xar", &parts, due) {
        Ok(mut reader) => are_given(folder, &mut reader, notes),
        Err(_) => false,
    }
}

fn are_kept(alloc: Global, notes: &[&str], behind: &[u8]) -> bool {
    if notes.len() > 9 {
        return false;
    }
    let Ok(mut folder) = failing(alloc, 0) else {
        return false;
    };
    let length = TINY.len().saturating_add(behind.len());
    write(&mut folder, 0, notes).is_ok()
        && is_behind(&folder, behind)
        && are_read_back(alloc, &mut folder, length, notes)
}

#[test]
fn notes_stand_behind_the_file_and_are_read_back(rt: HostRuntime) {
    for (notes, behind) in LISTS {
        assert!(rt;
            are_kept(rt.alloc(), notes, behind),
            "{} notes",
            notes.len()
        );
    }
}

/// Whether many empty notes wait: the file, 977 pieces of empty notes, the last note and the end are appended, and the
/// call behind these would fail.
fn do_many_wait(alloc: Global) -> bool {
    let Ok(mut folder) = failing(alloc, 981) else {
        return false;
    };
    let end = b"\0\0\0\x01b\0\0\0\0\0\x3d\x08\xfd\xff\xff\xff\xff\xff\xff\xff\xff";
    let is_written = write(&mut folder, 999998, &["b"]).is_ok();
    match folder.file("a.xar") {
        Some(file) => is_written && file.len() == 142 + 3999992 + 5 + 16 && file.ends_with(end),
        None => false,
    }
}

/// Whether an append that fails leaves no file: of the file, an empty note, two more notes and the end.
fn is_none_left(alloc: Global, number: u64) -> bool {
    match failing(alloc, number) {
        Ok(mut folder) => {
            write(&mut folder, 1, &["b", ""]).is_err() && folder.file("a.xar").is_none()
        }
        Err(_) => false,
    }
}

#[test]
fn empty_notes_wait_and_no_failed_file_stays(rt: HostRuntime) {
    let alloc = rt.alloc();
    assert!(rt; do_many_wait(alloc));
    assert!(rt; (1..6u64).all(|number| is_none_left(alloc, number)));
}

/// What comes of notes that are appended at once, between other bytes.
fn append_at_once(folder: &mut MemFolder) -> Result<(), Failed> {
    folder.begin()?;
    let mut writer = NoteWriter::start(true);
    writer.push(folder, "")?;
    folder.append(b"|")?;
    writer.push(folder, "b")?;
    folder.append(b"|")?;
    writer.finish(folder)?;
    folder.commit("a.xar")
}

fn are_appended(alloc: Global) -> bool {
    let wanted = b"\0\0\0\0|\0\0\0\x01b|\0\0\0\0\0\0\0\x09\xff\xff\xff\xff\xff\xff\xff\xff";
    match failing(alloc, 0) {
        Ok(mut folder) => {
            append_at_once(&mut folder).is_ok() && folder.file("a.xar") == Some(wanted.as_slice())
        }
        Err(_) => false,
    }
}

#[test]
fn notes_are_appended_at_once(rt: HostRuntime) {
    assert!(rt; are_appended(rt.alloc()));
}

/// A text, and whether it is a note.
const TEXTS: &[(&str, bool)] = &[
    ("", true),
    ("a b", true),
    ("\u{7f}", true),
    ("\u{1f}", false),
    ("a\nb", false),
    ("a\0", false),
];

fn are_notes(alloc: Global) -> bool {
    match ("abcdefgh".repeat(alloc, 128), "abc".repeat(alloc, 342)) {
        (Ok(longest), Ok(longer)) => is_note(longest.as_str()) && !is_note(longer.as_str()),
        _ => false,
    }
}

#[test]
fn a_text_may_be_a_note(rt: HostRuntime) {
    let are_judged = TEXTS.iter().all(|(text, is)| is_note(text) == *is);
    assert!(rt; are_judged && are_notes(rt.alloc()));
}
