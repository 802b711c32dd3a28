// The parts of a file.
use std::alloc::{AllocError, Global};
use version_notes::{Parts, PartsFault, parts_of};
use xa_outside::{FolderCall, FolderFail, MemFolder};

/// The file of one version, the element `db`, without notes.
pub(crate) const TINY: &[u8] = b"\
    XARC1\n\0\0\0\x0e(/, (db, {}))\n\0\0\0\x01\x02\0\0\0\0\0\0\0\x0c\x01\0\0\0\x02db\0\0\0\0\0\x03\
    \0\0\0\0\0\0\0\n\0\x01\0\0\0\0\0\0\0\0\x05\0\0\0\0\0\0\0\0\x04\0\0\0\0\0\0\00\0\0\0\x01\0\0\0\
    \0\0\0\0\0\0\0\0\0\0\0\01\0\0\0\0\0\0\0\0\0\0\0\x01\0\0\0\x01\0\0\0\x01\0\0\0\0\0\0\0\0\0\0\0\
    \0\0\0\00";

/// What stands behind it where its version has the note `first`.
pub(crate) const FIRST: &[u8] =
    b"\0\0\0\x05first\0\0\0\0\0\0\0\x09\xff\xff\xff\xff\xff\xff\xff\xff";

/// A folder with this file, whose call of this number fails.
pub(crate) fn folder(
    alloc: Global,
    pieces: &[&[u8]],
    call: FolderCall,
    number: u64,
) -> Result<MemFolder, AllocError> {
    let mut folder = MemFolder::new(alloc, vec![in alloc; FolderFail { call, number }]?);
    let mut file = Vec::new(alloc);
    for piece in pieces {
        file.extend_from_slice(piece)?;
    }
    folder.put("a.xar", file)?;
    Ok(folder)
}

/// Whether these are the parts of the first bytes of a file, or why there are none.
fn are_told(
    alloc: Global,
    pieces: &[&[u8]],
    name: &str,
    length: u64,
    wanted: Result<Parts, PartsFault>,
) -> bool {
    match folder(alloc, pieces, FolderCall::ReadAt, 0) {
        Ok(mut folder) => parts_of(&mut folder, name, length) == wanted,
        Err(_) => false,
    }
}

/// The parts of a file without notes.
fn core(length: u64) -> Result<Parts, PartsFault> {
    Ok(Parts {
        core: length,
        notes: None,
    })
}

/// The last bytes of a front end in the mark only where the file does.
fn has_each_front_no_notes(alloc: Global) -> bool {
    for length in 0..167 {
        if !are_told(alloc, &[TINY, FIRST], "a.xar", length, core(length)) {
            return false;
        }
    }
    true
}

fn has_a_shorter_file_no_notes(alloc: Global) -> bool {
    let pieces: &[&[u8]] = &[TINY, FIRST];
    are_told(alloc, pieces, "a.xar", 168, core(168))
        && are_told(alloc, pieces, "a.xar", u64::MAX, core(u64::MAX))
        && are_told(alloc, pieces, "b.xar", 8, core(8))
}

/// Whether the parts are found, of which sixteen bytes are read, once a read that failed was told.
fn are_parts_found(alloc: Global) -> bool {
    let Ok(mut folder) = folder(alloc, &[TINY, FIRST], FolderCall::ReadAt, 1) else {
        return false;
    };
    let wanted = Parts {
        core: 142,
        notes: Some(9),
    };
    parts_of(&mut folder, "a.xar", 167) == Err(PartsFault::Folder)
        && parts_of(&mut folder, "a.xar", 0) == core(0)
        && parts_of(&mut folder, "a.xar", 167) == Ok(wanted)
        && folder.pulled() == 16
}

const MARK: &[u8] = b"\xff\xff\xff\xff\xff\xff\xff\xff";

/// Files that end in the mark, the number of the notes' bytes, and where the file has parts, the
/// core's length.
const MARKED: &[(&[u8], Option<(u64, u64)>)] = &[
    (b"", None),
    (b"\0", None),
    (b"\0\0\0\0\0\0\0", None),
    (b"\0\0\0\0\0\0\0\0", Some((0, 0))),
    (b"\0\0\0\0\0\0\0\x01", None),
    (b"a\0\0\0\0\0\0\0\x01", Some((0, 1))),
    (b"a\0\0\0\0\0\0\0\0", Some((1, 0))),
    (b"a\0\0\0\0\0\0\0\x02", None),
    (b"abc\0\0\0\0\0\0\0\x02", Some((1, 2))),
    (b"abc\0\0\0\0\0\0\x01\x02", None),
    (b"abc\xff\xff\xff\xff\xff\xff\xff\xff", None),
];

fn is_mark_told(alloc: Global, front: &[u8], wanted: &Option<(u64, u64)>) -> bool {
    let length = (front.len() + MARK.len()) as u64;
    let wanted = match wanted {
        Some((core, notes)) => Ok(Parts {
            core: *core,
            notes: Some(*notes),
        }),
        None => Err(PartsFault::Damage),
    };
    are_told(alloc, &[front, MARK], "a.xar", length, wanted)
}

#[test]
fn what_stands_before_the_mark(rt: HostRuntime) {
    for (front, wanted) in MARKED {
        assert!(rt;
            is_mark_told(rt.alloc(), front, wanted),
            "{} bytes",
            front.len()
        );
    }
}

#[test]
fn the_notes_stand_behind_the_core(rt: HostRuntime) {
    let alloc = rt.alloc();
    assert!(rt; are_parts_found(alloc) && has_each_front_no_notes(alloc));
    assert!(rt; has_a_shorter_file_no_notes(alloc));
}
