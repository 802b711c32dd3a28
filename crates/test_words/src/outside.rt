use given_outside::{folder, sink, told};
use std::alloc::{AllocError, Global};
use std::test::Fail;
use xa_outside::{
    Buffered, Failed, Folder, FolderCall, FolderFail, MemFolder, MemSink, MemSource, ReadFault,
    Sink, Source, SureFolder, SureSink, SureSource, fill, fill_at, put_all, put_buffered,
    read_front,
};

/// A call of a folder, and what it answers.
enum Call {
    Begin(Result<(), Failed>),
    Append(&'static [u8], Result<(), Failed>),
    Commit(&'static str, Result<(), Failed>),
    Length(&'static str, Result<Option<u64>, Failed>),
    /// The byte at this offset of the file of this name.
    Byte(&'static str, u64, u8),
    /// A buffer of so many bytes, at most eight, is filled from this offset on.
    Fill(&'static str, u32, usize, &'static [u8]),
    /// The first bytes of the file of this name, at most so many.
    Front(&'static str, u64, Result<&'static [u8], ReadFault>),
}

fn is_byte<F: Folder>(folder: &mut F, name: &str, at: u64, byte: u8) -> bool {
    let mut buf = [0; 1];
    folder.read_at(name, at, &mut buf) == Ok(1) && buf[0] == byte
}

fn is_filled<F: Folder>(folder: &mut F, name: &str, at: u32, size: usize, bytes: &[u8]) -> bool {
    let mut buf = [0; 8];
    let part = &mut buf[..size.min(8)];
    match fill_at(folder, name, at as u64, part) {
        Ok(count) => count == bytes.len() && buf.starts_with(bytes),
        Err(Failed) => false,
    }
}

fn is_front<F: Folder>(
    alloc: Global,
    folder: &mut F,
    name: &str,
    length: u64,
    wanted: &Result<&[u8], ReadFault>,
) -> bool {
    match (read_front(alloc, folder, name, length), wanted) {
        (Ok(front), Ok(bytes)) => front.as_slice() == *bytes,
        (Err(fault), Err(wanted)) => fault == *wanted,
        _ => false,
    }
}

fn is_answered<F: Folder>(alloc: Global, folder: &mut F, call: &Call) -> bool {
    match call {
        Call::Begin(wanted) => folder.begin() == *wanted,
        Call::Append(bytes, wanted) => folder.append(bytes) == *wanted,
        Call::Commit(name, wanted) => folder.commit(name) == *wanted,
        Call::Length(name, wanted) => folder.length(name) == *wanted,
        Call::Byte(name, at, byte) => is_byte(folder, name, *at, *byte),
        Call::Fill(name, at, size, bytes) => is_filled(folder, name, *at, *size, bytes),
        Call::Front(name, length, wanted) => is_front(alloc, folder, name, *length, wanted),
    }
}

/// How many calls answer as they should, up to the first that does not.
fn answered<F: Folder>(alloc: Global, folder: &mut F, calls: &[Call]) -> usize {
    for (index, call) in calls.iter().enumerate() {
        if !is_answered(alloc, folder, call) {
            return index;
        }
    }
    calls.len()
}

/// What is done with a folder in memory: its name, the calls that fail, the files that are put, and the calls.
const FOLDERS: &[(&str, &[FolderFail], &[(&str, &[u8])], &[Call])] = &[
    (
        "a file that was put is given back",
        &[],
        &[("a", &[1, 2]), ("b", &[3]), ("a", &[4, 5, 6])],
        &[
            Call::Fill("a", 0, 8, &[4, 5, 6]),
            Call::Fill("b", 0, 8, &[3]),
            Call::Length("c", Ok(None)),
        ],
    ),
    (
        "a draft becomes a file",
        &[FolderFail {
            call: FolderCall::Append,
            number: 2,
        }],
        &[],
        &[
            Call::Begin(Ok(())),
            Call::Append(b"ab", Ok(())),
            Call::Append(b"xx", Err(Failed)),
            Call::Append(b"cd", Ok(())),
            Call::Length("f", Ok(None)),
            Call::Commit("f", Ok(())),
            Call::Length("f", Ok(Some(4))),
            Call::Byte("f", 3, b'd'),
            Call::Fill("f", 1, 8, b"bcd"),
        ],
    ),
    (
        "the front of a file is read",
        &[],
        &[("a", &[1, 2, 3])],
        &[
            Call::Front("a", 2, Ok(&[1, 2])),
            Call::Front("a", 5, Ok(&[1, 2, 3])),
            Call::Front("b", 5, Ok(&[])),
        ],
    ),
    (
        "a front is not read where the folder fails",
        &[FolderFail {
            call: FolderCall::ReadAt,
            number: 1,
        }],
        &[("a", &[1, 2, 3])],
        &[Call::Front("a", 2, Err(ReadFault::Folder))],
    ),
];

/// Whether the calls answer as they should and no growth was refused.
fn are_answered(alloc: Global, folder: &mut MemFolder, calls: &[Call]) -> bool {
    answered(alloc, folder, calls) == calls.len() && folder.starved() == 0
}

#[test]
fn folders_in_memory_answer(rt: HostRuntime) -> Result<(), Fail> {
    for (name, fails, files, calls) in FOLDERS {
        let mut folder = folder(rt.alloc(), fails, files)?;
        told(are_answered(rt.alloc(), &mut folder, calls), name)?;
    }
    Ok(())
}

const PUT_TWICE: &[(&str, &[u8])] = &[("a", &[1, 2]), ("b", &[3]), ("a", &[4, 5, 6])];

/// Whether each name has the bytes that were put there last.
fn are_given_back(alloc: Global) -> bool {
    match folder(alloc, &[], PUT_TWICE) {
        Ok(folder) => {
            folder.file("a") == Some(&[4, 5, 6])
                && folder.file("b") == Some(&[3])
                && folder.file("c").is_none()
        }
        Err(_) => false,
    }
}

fn sure_folder(alloc: Global) -> Result<SureFolder, AllocError> {
    let mut folder = SureFolder::new(alloc);
    folder.put("f", Vec::from_slice(alloc, &[1, 2, 3])?)?;
    Ok(folder)
}

const SURE: &[Call] = &[
    Call::Length("f", Ok(Some(3))),
    Call::Fill("f", 1, 4, &[2, 3]),
    Call::Begin(Ok(())),
    Call::Append(b"x", Ok(())),
    Call::Commit("g", Ok(())),
];

fn are_answered_surely(alloc: Global) -> bool {
    match sure_folder(alloc) {
        Ok(mut folder) => answered(alloc, &mut folder, SURE) == SURE.len(),
        Err(_) => false,
    }
}

#[test]
fn a_sure_folder_answers(rt: HostRuntime) {
    assert!(rt; are_answered_surely(rt.alloc()) && are_given_back(rt.alloc()));
}

/// A failed write keeps what was taken.
fn keeps_what_was_taken(sink: &mut MemSink) -> bool {
    put_all(sink, b"one").is_ok()
        && put_all(sink, b"two").is_err()
        && put_all(sink, b"three").is_ok()
        && sink.taken() == b"onethree".as_slice()
        && sink.starved() == 0
}

/// Whether a failed flush leaves the rest for the next.
fn is_flushed_again(sink: &mut MemSink) -> bool {
    let mut buffered = Buffered::new(sink);
    put_all(&mut buffered, b"abc").is_ok()
        && buffered.flush().is_err()
        && put_all(&mut buffered, b"de").is_ok()
        && buffered.flush().is_ok()
}

fn keeps_the_rest(sink: &mut MemSink) -> bool {
    is_flushed_again(sink) && sink.taken() == b"abcde".as_slice()
}

/// Pieces leave a buffer together: the second write would fail.
fn leave_together(sink: &mut MemSink) -> bool {
    put_buffered(sink, &[b"a", b"bc", b"", b"d"]).is_ok() && sink.taken() == b"abcd".as_slice()
}

/// A piece that is longer than the buffer goes by itself.
fn leave_around_a_long_one(sink: &mut MemSink) -> bool {
    let long = [9; 70_000];
    put_buffered(sink, &[b"a", &long, b"b", b"c"]).is_ok() && sink.taken().len() == 70_003
}

/// A piece of the buffer's whole length waits for the next one.
fn waits_where_it_fits(sink: &mut MemSink) -> bool {
    let whole = [9; 65_536];
    put_buffered(sink, &[&whole, b"b"]).is_ok() && sink.taken().len() == 65_537
}

/// What a sink keeps.
enum Kept {
    Taken,
    Rest,
    Together,
    AroundALongOne,
    WhatFits,
}

/// The number of the write that fails, and what is kept.
const KEPT: &[(&str, u64, Kept)] = &[
    ("what was taken", 2, Kept::Taken),
    ("what a flush left", 1, Kept::Rest),
    ("pieces that go together", 2, Kept::Together),
    ("a piece longer than the buffer", 4, Kept::AroundALongOne),
    ("a piece of the buffer's length", 3, Kept::WhatFits),
];

fn does_keep(sink: &mut MemSink, kept: &Kept) -> bool {
    match kept {
        Kept::Taken => keeps_what_was_taken(sink),
        Kept::Rest => keeps_the_rest(sink),
        Kept::Together => leave_together(sink),
        Kept::AroundALongOne => leave_around_a_long_one(sink),
        Kept::WhatFits => waits_where_it_fits(sink),
    }
}

fn is_kept(alloc: Global, fail: u64, kept: &Kept) -> bool {
    match sink(alloc, fail) {
        Ok(mut sink) => does_keep(&mut sink, kept),
        Err(_) => false,
    }
}

#[test]
fn sinks_keep_what_they_took(rt: HostRuntime) -> Result<(), Fail> {
    for (name, fail, kept) in KEPT {
        told(is_kept(rt.alloc(), *fail, kept), name)?;
    }
    told(SureSink::new().write(b"gone") == Ok(4), "a sure sink")
}

/// A listed read fails, and the next goes on.
fn goes_on(source: &mut MemSource) -> bool {
    let mut buf = [0; 3];
    let is_read = source.read(&mut buf) == Ok(3) && buf == [1, 2, 3];
    let fails = source.read(&mut buf) == Err(Failed);
    is_read && fails && fill(source, &mut buf) == Ok(1) && buf == [4, 2, 3]
}

/// Whether a source with these bytes ends behind them.
fn ends(bytes: Vec<u8>) -> bool {
    let mut source = SureSource::new(bytes);
    let mut buf = [0; 4];
    fill(&mut source, &mut buf) == Ok(2) && buf == [7, 8, 0, 0]
}

fn does_go_on(alloc: Global) -> bool {
    match (vec![in alloc; 1, 2, 3, 4], vec![in alloc; 2]) {
        (Ok(bytes), Ok(fails)) => goes_on(&mut MemSource::new(bytes, fails)),
        _ => false,
    }
}

fn does_end(alloc: Global) -> bool {
    match vec![in alloc; 7, 8] {
        Ok(bytes) => ends(bytes),
        Err(_) => false,
    }
}

#[test]
fn sources_give_their_bytes(rt: HostRuntime) {
    assert!(rt; does_go_on(rt.alloc()) && does_end(rt.alloc()));
}
