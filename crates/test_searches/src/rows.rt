// Rows and children of a file, each part at its offset.
ghost use Rattle.std.specs.Prelude.{◌≤◌};

use crate::files::{NAME, ONE, SIX, changed, folder};
use file_rows::{Child, Row, count_children, read_child, root_row, row_of};
use given_parts::bytes::NO_VERSIONS;
use given_parts::told;
use record_cursor::CursorFault;
use std::alloc::Global;
use std::test::Fail;
use xa_outside::MemFolder;

/// The row of the virtual root in a file, behind a header of so many bytes.
fn root(folder: &mut MemFolder, first: u64, size: u64) -> Result<Row, CursorFault>
    requires { first ≤ size }
{
    root_row(folder, NAME, first, size)
}

/// The child of a row at a position, between the row's offsets.
fn child(folder: &mut MemFolder, row: Row, position: u32) -> Result<Child, CursorFault> {
    if row.dir < 4 + 24 * (u64::from(position) + 1) {
        return Err(CursorFault::Damage);
    }
    read_child(folder, NAME, row, position, row.first, row.end)
}

fn is_row(row: Row, first: u64, end: u64, dir: u64) -> bool {
    row.first == first && row.end == end && row.dir == dir
}

fn is_child(child: Child, first: u64, end: u64, dir: u64) -> bool {
    child.first == first && child.end == end && child.dir == dir
}

/// Whether the row of `db` has eight children, of which the last stands at these offsets.
fn has_eight(folder: &mut MemFolder, db: Child) -> bool {
    let Some(row) = row_of(db, 67) else {
        return false;
    };
    match count_children(folder, NAME, row) {
        Ok(count) => count == 8,
        Err(_) => false,
    }
}

/// Whether the root's row has one child, `db`, at these offsets.
fn has_db(folder: &mut MemFolder, row: Row) -> bool {
    if count_children(folder, NAME, row) != Ok(1) {
        return false;
    }
    match child(folder, row, 0) {
        Ok(db) => is_child(db, 46, 1284, 520) && has_eight(folder, db),
        Err(_) => false,
    }
}

fn are_told(folder: &mut MemFolder) -> bool {
    match root(folder, 46, 1349) {
        Ok(row) => is_row(row, 46, 1284, 48) && has_db(folder, row),
        Err(_) => false,
    }
}

#[test]
fn rows_and_children_stand_where_the_file_says(rt: HostRuntime) -> Result<(), Fail> {
    let mut folder = folder(rt.alloc(), SIX, 100).ok_or("no folder")?;
    told(are_told(&mut folder), "the root, db and its children")?;
    told(folder.pulled() == 58, "the bytes that are pulled")
}

/// Whether the file is damaged where its root is read, its children are counted or the first one is
/// read.
fn is_damaged(alloc: Global, at: usize, bytes: &[u8]) -> bool {
    let Some(file) = changed(alloc, ONE, at, bytes) else {
        return false;
    };
    let Some(mut folder) = folder(alloc, &file, 100) else {
        return false;
    };
    let row = match root(&mut folder, 28, 142) {
        Ok(row) => row,
        Err(fault) => return fault == CursorFault::Damage,
    };
    match count_children(&mut folder, NAME, row) {
        Ok(_) => match child(&mut folder, row, 0) {
            Ok(_) => false,
            Err(fault) => fault == CursorFault::Damage,
        },
        Err(fault) => fault == CursorFault::Damage,
    }
}

/// What was changed, at which offset, and to which bytes.
const DAMAGED: &[(&str, usize, &[u8])] = &[
    ("the kind of the END", 77, b"\x05"),
    ("the length of the END", 85, b"\x31"),
    ("no child and its entry", 86, b"\0\0\0\0"),
    ("one child more", 86, b"\0\0\0\x02"),
    ("the start of a child", 90, b"\0\0\0\0\0\0\0\x01"),
    ("the length of a child", 98, b"\0\0\0\0\0\0\0\x32"),
    ("the tail", 134, b"\0\0\0\0\0\0\0\xff"),
];

/// Whether no row stands in front of a tail that is longer than an archive of no versions.
fn is_tail_damage(alloc: Global) -> bool {
    let Some(file) = changed(alloc, NO_VERSIONS, 48, b"\xff") else {
        return false;
    };
    match folder(alloc, &file, 0) {
        Some(mut folder) => matches!(root(&mut folder, 28, 49), Err(CursorFault::Damage)),
        None => false,
    }
}

#[test]
fn what_does_not_fit_is_damage(rt: HostRuntime) -> Result<(), Fail> {
    for (what, at, bytes) in DAMAGED {
        told(is_damaged(rt.alloc(), *at, bytes), what)?;
    }
    told(is_tail_damage(rt.alloc()), "the tail behind no child")
}

/// A child, where it ends and the length of its directory; and where the row inside it ends, whose
/// opening record ends at 21.
const INSIDE: &[(&str, u64, u64, Option<u64>)] = &[
    ("no child", 34, 4, Some(21)),
    ("one child", 142, 48, Some(85)),
    ("a directory that is a byte too long", 34, 5, None),
    ("the longest directory", 34, u64::MAX, None),
    ("no room for an END", 29, 0, None),
    ("an end in front of its row", 20, 0, None),
];

/// Whether the row inside a child ends there, and has the child's directory.
fn is_inside(end: u64, dir: u64, wanted: Option<u64>) -> bool {
    let child = Child { first: 0, end, dir };
    match (row_of(child, 21), wanted) {
        (Some(row), Some(end)) => is_row(row, 21, end, dir),
        (None, None) => true,
        _ => false,
    }
}

#[test]
fn a_row_has_the_directory_of_its_child(rt: HostRuntime) -> Result<(), Fail> {
    for (what, end, dir, wanted) in INSIDE {
        told(is_inside(*end, *dir, *wanted), what)?;
    }
    Ok(())
}

/// What is read last, whose read fails.
#[derive(Clone, Copy)]
enum Last {
    Tail,
    Count,
    Child,
}

fn is_folder_fault<T>(found: &Result<T, CursorFault>) -> bool {
    matches!(found, Err(CursorFault::Folder))
}

fn is_told(folder: &mut MemFolder, last: Last) -> bool {
    match (root(folder, 28, 142), last) {
        (Ok(row), Last::Count) => is_folder_fault(&count_children(folder, NAME, row)),
        (Ok(row), Last::Child) => is_folder_fault(&child(folder, row, 0)),
        (found, Last::Tail) => is_folder_fault(&found),
        _ => false,
    }
}

fn is_failure_told(alloc: Global, failing: u64, last: Last) -> bool {
    match folder(alloc, ONE, failing) {
        Some(mut folder) => is_told(&mut folder, last),
        None => false,
    }
}

#[test]
fn a_read_that_fails_is_no_damage(rt: HostRuntime) -> Result<(), Fail> {
    told(is_failure_told(rt.alloc(), 1, Last::Tail), "the tail")?;
    told(is_failure_told(rt.alloc(), 2, Last::Count), "the count")?;
    told(is_failure_told(rt.alloc(), 2, Last::Child), "a child")
}
