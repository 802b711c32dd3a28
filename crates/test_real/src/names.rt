//! Names that lead to files and to none, and streams that are closed, over a disk in memory.
use given_disk::{MemDisk, OnDisk, PLAIN, Row, Sort, State};
use given_outside::{holds, told};
use real_objects::DiskFolder;
use std::alloc::Global;
use std::io;
use std::io::Write;
use std::test::Fail;
use xa_outside::Folder;

const OLD: &[u8] = b"what stood there";

/// Writes to each stream.
fn chat(disk: &MemDisk) {
    for number in 0..3 {
        let _ = disk.stream(number).write(b"chatter");
    }
}

/// Whether the piece is written twice, and committed as `A`, while the streams are written to.
fn is_written(alloc: Global, disk: &MemDisk, piece: &[u8]) -> bool {
    let on = disk.on();
    let mut folder = DiskFolder::new(&on, alloc);
    chat(disk);
    let is_begun = holds(&mut folder, alloc, "B", 0, OLD) && folder.begin().is_ok();
    chat(disk);
    let is_added = is_begun && folder.append(piece).is_ok();
    chat(disk);
    let is_added = is_added && folder.append(piece).is_ok();
    chat(disk);
    is_added && folder.commit("A").is_ok() && holds(&mut folder, alloc, "A", 66_000, piece)
}

/// Whether files are written and read where these streams are closed, and nothing else gets into them.
fn are_apart(alloc: Global, closed: [bool; 3], piece: &[u8]) -> io::Result<bool> {
    let disk = MemDisk::new(State::of(alloc, &[Row("B", Sort::File, OLD, PLAIN)])?);
    for number in 0..3 {
        if closed[number] {
            disk.close(number);
        }
    }
    let is_done = is_written(alloc, &disk, piece);
    chat(&disk);
    let state = disk.state()?;
    let is_whole = match state.found("A") {
        Some(inode) => inode.bytes.strip_prefix(piece) == Some(piece),
        None => false,
    };
    Ok(is_done && is_whole && state.holds("B", OLD))
}

/// Which streams are closed.
const CLOSED: [[bool; 3]; 8] = [
    [false, false, false],
    [false, false, true],
    [false, true, false],
    [false, true, true],
    [true, false, false],
    [true, false, true],
    [true, true, false],
    [true, true, true],
];

#[test]
fn what_is_written_to_a_closed_stream_is_in_no_file(rt: HostRuntime) -> Result<(), Fail> {
    let piece = vec![in rt.alloc(); b'1'; 66_000]?;
    for closed in CLOSED {
        let is_right = are_apart(rt.alloc(), closed, &piece)?;
        told(is_right, "a file and a closed stream")?;
    }
    Ok(())
}

/// Whether the folder tells the length and the bytes of the file that has its own name in it.
fn is_read(folder: &mut DiskFolder<OnDisk>, alloc: Global, name: &str) -> bool {
    folder.length(name) == Ok(Some(name.len() as u64))
        && holds(folder, alloc, name, 0, name.as_bytes())
}

/// Names of one length, that differ in one letter or in all.
const NAMES: &[&str] = &["one", "oNe", "onE", "One", "two"];

/// Whether of two files that stand open side by side each is read under its own name, whichever was read last.
fn are_read(folder: &mut DiskFolder<OnDisk>, alloc: Global, name: &str, other: &str) -> bool {
    is_read(folder, alloc, name)
        && is_read(folder, alloc, other)
        && holds(folder, alloc, name, 0, name.as_bytes())
}

/// Checks a name beside each of them.
fn paired(folder: &mut DiskFolder<OnDisk>, alloc: Global, name: &'static str) -> Result<(), Fail> {
    for other in NAMES {
        told(are_read(folder, alloc, name, other), name)?;
    }
    Ok(())
}

#[test]
fn names_that_differ_in_a_letter_are_of_different_files(rt: HostRuntime) -> Result<(), Fail> {
    let mut state = State::of(rt.alloc(), &[])?;
    for name in NAMES {
        state.put(name, Sort::File, name.as_bytes())?;
    }
    let disk = MemDisk::new(state);
    let on = disk.on();
    let mut folder = DiskFolder::new(&on, rt.alloc());
    for name in NAMES {
        paired(&mut folder, rt.alloc(), name)?;
    }
    Ok(())
}

const ROWS: &[Row] = &[
    Row("file", Sort::File, OLD, PLAIN),
    Row("nowhere", Sort::Link, b"none", PLAIN),
    Row("closed", Sort::Closed, b"", PLAIN),
    Row("folder", Sort::Folder, b"", PLAIN),
    Row("pipe", Sort::Pipe, b"", PLAIN),
    Row("loop", Sort::Link, b"./loop", PLAIN),
    Row(".xarch-draft", Sort::File, OLD, PLAIN),
    Row("folder/.xarch-draft.12", Sort::File, OLD, PLAIN),
];

/// Names that lead to no file, and whether they are absent; else they are refused.
const NO_FILES: &[(&str, bool)] = &[
    ("none", true),
    ("none/x", true),
    ("file/x", true),
    ("nowhere", true),
    ("closed/x", false),
    ("folder", false),
    ("pipe", false),
    ("loop", false),
    ("file\0", false),
    (".xarch-draft", false),
    ("folder/.xarch-draft.12", false),
];

/// Whether the name is absent where that is said, and else refused.
fn is_no_file(folder: &mut DiskFolder<OnDisk>, name: &str, absent: bool) -> bool {
    let length = folder.length(name);
    let read = folder.read_at(name, 0, &mut [0u8; 1]);
    if absent {
        length == Ok(None) && read == Ok(0)
    } else {
        length.is_err() && read.is_err()
    }
}

#[test]
fn what_is_no_file_is_absent_or_refused(rt: HostRuntime) -> Result<(), Fail> {
    let disk = MemDisk::new(State::of(rt.alloc(), ROWS)?);
    let on = disk.on();
    let mut folder = DiskFolder::new(&on, rt.alloc());
    for (name, absent) in NO_FILES {
        told(is_no_file(&mut folder, name, *absent), name)?;
    }
    Ok(())
}
