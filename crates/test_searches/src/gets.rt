// Versions out of a file.
ghost use Rattle.std.specs.Prelude.{◌≡◌, ◌<◌};

use crate::files::{NAME, ONE, SIX, changed, folder};
use file_get::{GetFault, get};
use given_archives::{GREAT_SIZES, SIZES, Size, documents_of, file, keys_of, lent};
use given_parts::bytes::{ALT, END, Edits, HEADER, LEAF, LEAF_END, Pieces, TAIL, edited};
use given_parts::told;
use std::alloc::Global;
use std::marker::Brand;
use std::sync::ledger::{Blank, Ledger};
use std::test::Fail;
use timestamp_tree::Steps;
use xa_outside::{MemFolder, MemSink};

fn counted<L: Ledger>(
    blank: Blank,
    alloc: Global,
    folder: &mut MemFolder,
    size: u64,
    version: u32,
    out: &mut MemSink,
) -> Result<(), GetFault>
    requires name { blank.name ≡ L.name }
    requires parts { blank.parts ≡ L.parts }
    requires some { 0 < blank.parts }
{
    let mut steps: Steps<L> = Steps::new(blank);
    get(alloc, folder, NAME, size, version, out, &mut steps)
}

/// Writes a version of the first bytes of the file in the folder.
pub(crate) fn written(
    alloc: Global,
    folder: &mut MemFolder,
    size: u64,
    version: u32,
    out: &mut MemSink,
) -> Result<(), GetFault> {
    counted::<Brand>(Blank::new(1), alloc, folder, size, version, out)
}

/// Whether this version of the file has the text, and so many bytes are pulled at most.
fn is_written(alloc: Global, file: &[u8], version: u32, most: u64, text: &[u8]) -> bool {
    let Some(mut folder) = folder(alloc, file, 100) else {
        return false;
    };
    let mut out = MemSink::new(alloc, Vec::new(alloc));
    written(alloc, &mut folder, file.len() as u64, version, &mut out).is_ok()
        && out.taken() == text
        && folder.pulled() <= most
}

/// A file, a version's number, how many bytes are pulled at most, and the version's text.
const WRITTEN: &[(&[u8], u32, u64, &[u8])] = &[
    (ONE, 1, 138, b"[\"db\"]\n"),
    (
        SIX,
        3,
        1349,
        b"[\"db\",[\"e\",{\"id\":5}],[\"e\",{\"id\":6}]]\n",
    ),
    (SIX, 5, 404, b"[\"db\",[\"e\",{\"id\":3}]]\n"),
    (SIX, 6, 133, b"[\"db\"]\n"),
];

#[test]
fn versions_are_written(rt: HostRuntime) -> Result<(), Fail> {
    for (file, version, most, text) in WRITTEN {
        let holds = is_written(rt.alloc(), file, *version, *most, text);
        assert!(rt; holds, "version {version}");
    }
    Ok(())
}

/// Whether a version is refused so, where a read and a write of these numbers fail.
fn is_refused(
    alloc: Global,
    file: &[u8],
    version: u32,
    wanted: GetFault,
    read: u64,
    write: u64,
) -> bool {
    let Some(mut folder) = folder(alloc, file, read) else {
        return false;
    };
    let mut fails = Vec::new(alloc);
    if fails.push(write).is_err() {
        return false;
    }
    let mut out = MemSink::new(alloc, fails);
    written(alloc, &mut folder, file.len() as u64, version, &mut out) == Err(wanted)
}

/// Whether version 7 is told to be missing in so many first bytes of the file of one version, of
/// which so many are pulled.
fn is_missing(alloc: Global, size: u64, pulled: u64) -> bool {
    let Some(mut folder) = folder(alloc, ONE, 100) else {
        return false;
    };
    let mut out = MemSink::new(alloc, Vec::new(alloc));
    written(alloc, &mut folder, size, 7, &mut out) == Err(GetFault::NoVersion { n: 1 })
        && folder.pulled() == pulled
}

#[test]
fn a_version_that_is_not_there_is_told(rt: HostRuntime) -> Result<(), Fail> {
    let alloc = rt.alloc();
    let none = GetFault::NoVersion { n: 6 };
    told(is_refused(alloc, SIX, 0, none, 100, 100), "version 0")?;
    told(is_refused(alloc, SIX, 7, none, 100, 100), "version 7")?;
    told(is_missing(alloc, 142, 15), "a file and its last byte")?;
    told(is_missing(alloc, 28, 14), "a header alone")
}

#[test]
fn a_call_that_fails_is_no_damage(rt: HostRuntime) -> Result<(), Fail> {
    let alloc = rt.alloc();
    let folder = GetFault::Folder;
    told(is_refused(alloc, ONE, 1, folder, 1, 100), "the header")?;
    told(is_refused(alloc, ONE, 1, folder, 3, 100), "the tail")?;
    told(is_refused(alloc, ONE, 2, folder, 3, 100), "the last byte")?;
    let out = GetFault::Out;
    told(is_refused(alloc, ONE, 1, out, 100, 1), "the output")
}

/// Whether a version is refused as damage in so many first bytes of the file of one version.
fn is_short(alloc: Global, size: u64, version: u32) -> bool {
    let Some(mut folder) = folder(alloc, ONE, 100) else {
        return false;
    };
    let mut out = MemSink::new(alloc, Vec::new(alloc));
    written(alloc, &mut folder, size, version, &mut out) == Err(GetFault::Damage)
        && out.taken().is_empty()
        && folder.pulled() <= 22
}

/// More bytes than the file has, and a version.
const SHORT: &[(u64, u32)] = &[(143, 1), (143, 7), (150, 0), (1 << 40, 1)];

#[test]
fn a_file_with_fewer_bytes_is_damaged(rt: HostRuntime) -> Result<(), Fail> {
    for (size, version) in SHORT {
        let holds = is_short(rt.alloc(), *size, *version);
        assert!(rt; holds, "version {version} of {size} bytes");
    }
    Ok(())
}

/// What was changed, at which offset, and to which bytes.
const DAMAGED: &[(&str, usize, &[u8])] = &[
    ("the magic", 0, b"Y"),
    ("the length of the specification", 6, b"\xff\xff\xff\xff"),
    ("the number of versions", 24, b"\0\x0f\x42\x40"),
    ("the kind of a child", 28, b"\x03"),
    (
        "the length of a record",
        29,
        b"\xff\xff\xff\xff\xff\xff\xff\xff",
    ),
    ("the kind of an alternative", 49, b"\x05"),
    ("the kind of a value", 59, b"\x02"),
    ("a scalar for a content", 59, b"\0"),
    ("the number of attributes", 60, b"\xff\xff\xff\xff"),
    ("the number of items", 64, b"\xff\xff\xff\xff"),
    ("the kind of the END", 77, b"\x05"),
    ("the length of the END", 85, b"\x31"),
    ("no child and its entry", 86, b"\0\0\0\0"),
    ("the number of children", 86, b"\xff\xff\xff\xff"),
    ("the start of a child", 90, b"\0\0\0\0\0\0\0\x01"),
    (
        "the length of a child",
        98,
        b"\xff\xff\xff\xff\xff\xff\xff\xff",
    ),
    ("the size of the left part", 126, b"\0\0\0\0\0\0\0\x14"),
    ("an END of a leaf", 106, b"\0\0\0\0\0\0\0\x01"),
    ("the tail", 134, b"\0\0\0\0\0\0\0\xff"),
];

/// The same in the content of an element with an attribute.
const DAMAGED_CONTENT: &[(&str, usize, &[u8])] = &[
    ("no attribute, and its bytes behind", 120, b"\0\0\0\0"),
    ("one attribute more", 120, b"\0\0\0\x02"),
    ("the length of a name", 124, b"\xff\xff\xff\xff"),
    ("a name that is no UTF-8", 128, b"\xff"),
    ("the kind of an attribute's value", 130, b"\x06"),
    ("a number that is a logical value", 130, b"\x01"),
    ("one item more", 139, b"\0\0\0\x01"),
];

/// The same in the row of eight elements: its entries, its END, and the left part of its tree.
const DAMAGED_ROW: &[(&str, usize, &[u8])] = &[
    ("one child more", 764, b"\0\0\0\x09"),
    ("one child less", 764, b"\0\0\0\x07"),
    ("a child in the one before it", 792, b"\0\0\0\0\0\0\0\x54"),
    ("an END that begins sooner", 1313, b"\0\0\0\0\0\0\x02\x09"),
    ("an END that begins later", 1313, b"\0\0\0\0\0\0\x02\x07"),
    ("no left part", 972, b"\0\0\0\0\0\0\0\0"),
    ("no right part", 972, b"\0\0\0\0\0\0\x01\x30"),
    ("a left part behind the tree", 972, b"\0\0\0\0\0\0\x01\x31"),
];

/// What is damage also where no element has the version.
const DAMAGED_TREE: &[(&str, usize, &[u8])] = &[
    ("no left part", 972, b"\0\0\0\0\0\0\0\0"),
    ("no right part", 972, b"\0\0\0\0\0\0\x01\x30"),
    ("a left part behind the tree", 972, b"\0\0\0\0\0\0\x01\x31"),
];

/// Files that are damaged, and a version of theirs.
const DAMAGED_FILES: &[(&[u8], u32, &[(&str, usize, &[u8])])] = &[
    (ONE, 1, DAMAGED),
    (SIX, 1, DAMAGED_CONTENT),
    (SIX, 1, DAMAGED_ROW),
    (SIX, 6, DAMAGED_TREE),
];

/// Whether the version is refused in each of the files that come of these changes.
fn are_refused(
    alloc: Global,
    file: &[u8],
    version: u32,
    rows: &[(&'static str, usize, &[u8])],
) -> Result<(), Fail> {
    for (what, at, bytes) in rows {
        let holds = match changed(alloc, file, *at, bytes) {
            Some(file) => is_refused(alloc, &file, version, GetFault::Damage, 0, 0),
            None => false,
        };
        told(holds, what)?;
    }
    Ok(())
}

/// The file of one version, whose END has one byte more behind its tree.
const LONGER: Pieces = &[
    (HEADER, 1),
    (LEAF, 1),
    (ALT, 1),
    (LEAF_END, 1),
    (END, 1),
    (b"\0", 1),
    (TAIL, 1),
];

/// The length of that END, in front of it and in the tail.
const LONGER_LENGTHS: Edits = &[(85, 0x31), (142, 0x31)];

fn is_longer_refused(alloc: Global) -> bool {
    match edited(alloc, LONGER, LONGER_LENGTHS) {
        Ok(file) => is_refused(alloc, &file, 1, GetFault::Damage, 0, 0),
        Err(_) => false,
    }
}

#[test]
fn no_damaged_file_has_the_version(rt: HostRuntime) -> Result<(), Fail> {
    for (file, version, rows) in DAMAGED_FILES {
        are_refused(rt.alloc(), file, *version, rows)?;
    }
    told(is_longer_refused(rt.alloc()), "a byte behind the tree")
}

/// Whether the last version of the file is this document.
fn is_last(alloc: Global, file: &[u8], version: usize, document: &str) -> bool {
    let (Some(mut folder), Ok(version)) = (folder(alloc, file, 0), u32::try_from(version)) else {
        return false;
    };
    let mut out = MemSink::new(alloc, Vec::new(alloc));
    written(alloc, &mut folder, file.len() as u64, version, &mut out).is_ok()
        && out.taken().strip_suffix(b"\n") == Some(document.as_bytes())
}

fn is_last_written(alloc: Global, keys: &str, documents: &[&str]) -> bool {
    match (file(alloc, keys, documents), documents.last()) {
        (Some(file), Some(last)) => is_last(alloc, &file, documents.len(), last),
        _ => false,
    }
}

fn is_large_written(alloc: Global, size: Size) -> bool {
    let Ok(documents) = documents_of(alloc, size) else {
        return false;
    };
    match lent(alloc, &documents) {
        Some(documents) => is_last_written(alloc, keys_of(size), &documents),
        None => false,
    }
}

fn are_large_written(alloc: Global, sizes: &[(&'static str, Size)]) -> Result<(), Fail> {
    for (name, size) in sizes {
        told(is_large_written(alloc, *size), name)?;
    }
    Ok(())
}

#[test]
fn large_versions_are_written(rt: HostRuntime) -> Result<(), Fail> {
    are_large_written(rt.alloc(), SIZES)
}

#[test]
fn great_versions_are_written(rt: HostRuntime) -> Result<(), Fail> {
    are_large_written(rt.alloc(), GREAT_SIZES)
}
