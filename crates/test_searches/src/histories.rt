// Histories out of a file.
ghost use Rattle.std.specs.Prelude.{◌≡◌, ◌<◌};

use crate::files::{NAME, ONE, SIX, changed, folder};
use file_history::{HistFault, history};
use given_archives::{Size, documents_of, keys_of, lent};
use given_parts::bytes::NO_VERSIONS;
use given_parts::told;
use jsonml_tree::Scalar;
use keyed_tree::{KeyVal, Label, Name};
use record_cursor::read_header;
use std::alloc::Global;
use std::marker::Brand;
use std::sync::ledger::{Blank, Ledger};
use std::test::Fail;
use timestamp_tree::Steps;
use version_set::VersionSet;
use xa_outside::MemFolder;

fn counted<L: Ledger>(
    blank: Blank,
    alloc: Global,
    folder: &mut MemFolder,
    size: u64,
    path: &[Label],
) -> Result<VersionSet, HistFault>
    requires name { blank.name ≡ L.name }
    requires parts { blank.parts ≡ L.parts }
    requires some { 0 < blank.parts }
{
    let mut steps: Steps<L> = Steps::new(blank);
    match read_header(alloc, folder, NAME, size) {
        Ok(header) => history(alloc, folder, NAME, &header, path, &mut steps),
        Err(fault) => Err(HistFault::from(fault)),
    }
}

/// The history of a path in the first bytes of the file in the folder.
pub(crate) fn history_of(
    alloc: Global,
    folder: &mut MemFolder,
    size: u64,
    path: &[Label],
) -> Result<VersionSet, HistFault> {
    counted::<Brand>(Blank::new(1), alloc, folder, size, path)
}

/// The label of an element of this name, with these keys.
pub(crate) fn label(alloc: Global, name: &str, keys: &[u64]) -> Option<Label> {
    let name = Name::Tag(String::from_str(alloc, name).ok()?);
    let mut values = Vec::new(alloc);
    for key in keys {
        values
            .push(KeyVal::Scalar(Scalar::Whole(i128::from(*key))))
            .ok()?;
    }
    Some(Label { name, keys: values })
}

/// The path of these names and keys.
fn path(alloc: Global, names: &[(&str, &[u64])]) -> Option<Vec<Label>> {
    let mut path = Vec::new(alloc);
    for (name, keys) in names {
        path.push(label(alloc, name, keys)?).ok()?;
    }
    Some(path)
}

/// Whether the path has this history, and so many bytes are pulled at most.
fn is_told(alloc: Global, names: &[(&str, &[u64])], pairs: &[(u32, u32)], most: u64) -> bool {
    let Some(mut folder) = folder(alloc, SIX, 100) else {
        return false;
    };
    let Some(path) = path(alloc, names) else {
        return false;
    };
    match history_of(alloc, &mut folder, SIX.len() as u64, &path) {
        Ok(set) => set.pairs() == pairs && folder.pulled() <= most,
        Err(_) => false,
    }
}

/// A path, its history, and how many bytes are pulled at most.
const TOLD: &[(&str, &[(&str, &[u64])], &[(u32, u32)], u64)] = &[
    ("the empty path", &[], &[(1, 6)], 54),
    ("the root", &[("db", &[])], &[(1, 6)], 112),
    (
        "a child",
        &[("db", &[]), ("e", &[3])],
        &[(2, 2), (5, 5)],
        397,
    ),
    (
        "the last child",
        &[("db", &[]), ("e", &[8])],
        &[(4, 4)],
        397,
    ),
    ("no child", &[("db", &[]), ("e", &[9])], &[], 397),
    (
        "no child of a leaf",
        &[("db", &[]), ("e", &[3]), ("f", &[])],
        &[],
        397,
    ),
    ("another root", &[("dc", &[])], &[], 112),
];

#[test]
fn histories_are_told(rt: HostRuntime) -> Result<(), Fail> {
    for (what, names, pairs, most) in TOLD {
        let holds = is_told(rt.alloc(), names, pairs, *most);
        told(holds, what)?;
    }
    Ok(())
}

/// Whether the last element of a great row has both versions.
fn is_last_told(alloc: Global, file: &[u8]) -> bool {
    let Some(mut folder) = folder(alloc, file, 0) else {
        return false;
    };
    match path(alloc, &[("db", &[]), ("e", &[69_999])]) {
        Some(path) => match history_of(alloc, &mut folder, file.len() as u64, &path) {
            Ok(set) => set.pairs() == [(1, 2)].as_slice(),
            Err(_) => false,
        },
        None => false,
    }
}

fn is_row_told(alloc: Global, documents: &[&str]) -> bool {
    match given_archives::file(alloc, keys_of(Size::Row), documents) {
        Some(file) => is_last_told(alloc, &file),
        None => false,
    }
}

fn is_great_row_told(alloc: Global) -> bool {
    let Ok(documents) = documents_of(alloc, Size::Row) else {
        return false;
    };
    match lent(alloc, &documents) {
        Some(documents) => is_row_told(alloc, &documents),
        None => false,
    }
}

#[test]
fn a_history_is_told_in_a_great_row(rt: HostRuntime) {
    assert!(rt; is_great_row_told(rt.alloc()));
}

/// Whether the history of `db` is refused so, where a read of this number fails.
fn is_refused(alloc: Global, file: &[u8], wanted: HistFault, read: u64) -> bool {
    let Some(mut folder) = folder(alloc, file, read) else {
        return false;
    };
    match path(alloc, &[("db", &[])]) {
        Some(path) => match history_of(alloc, &mut folder, file.len() as u64, &path) {
            Ok(_) => false,
            Err(fault) => fault == wanted,
        },
        None => false,
    }
}

#[test]
fn a_read_that_fails_is_no_damage(rt: HostRuntime) -> Result<(), Fail> {
    let alloc = rt.alloc();
    let failed = HistFault::Folder;
    told(is_refused(alloc, ONE, failed, 1), "the header")?;
    told(is_refused(alloc, ONE, failed, 3), "the tail")?;
    told(is_refused(alloc, ONE, failed, 6), "a record")
}

/// What was changed, at which offset, and to which bytes.
const DAMAGED: &[(&str, usize, &[u8])] = &[
    ("the length of the specification", 6, b"\xff\xff\xff\xff"),
    ("the number of versions", 24, b"\0\x0f\x42\x40"),
    ("the kind of a child", 28, b"\x03"),
    (
        "the length of a record",
        29,
        b"\xff\xff\xff\xff\xff\xff\xff\xff",
    ),
    ("the kind of the END", 77, b"\x05"),
    ("no child and its entry", 86, b"\0\0\0\0"),
    ("the number of children", 86, b"\xff\xff\xff\xff"),
    ("the number of children by one", 86, b"\0\0\0\x02"),
    (
        "the length of a child",
        98,
        b"\xff\xff\xff\xff\xff\xff\xff\xff",
    ),
    ("an END of a leaf", 106, b"\0\0\0\0\0\0\0\x01"),
    ("the tail", 134, b"\0\0\0\0\0\0\0\xff"),
];

/// Whether the history is refused in the file with other bytes there.
fn is_damaged(alloc: Global, file: &[u8], at: usize, bytes: &[u8]) -> bool {
    match changed(alloc, file, at, bytes) {
        Some(file) => is_refused(alloc, &file, HistFault::Damage, 0),
        None => false,
    }
}

#[test]
fn no_damaged_file_tells_the_history(rt: HostRuntime) -> Result<(), Fail> {
    for (what, at, bytes) in DAMAGED {
        told(is_damaged(rt.alloc(), ONE, *at, bytes), what)?;
    }
    let is_tail_damage = is_damaged(rt.alloc(), NO_VERSIONS, 48, b"\xff");
    told(is_tail_damage, "the tail behind no child")
}
