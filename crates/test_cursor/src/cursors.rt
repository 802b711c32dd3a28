// Walking over the records of the archive of one version, the element `db`.
use crate::bodies::are_lent;
use crate::headers::{TINY, folder};
use crate::nested::{Record, are_records_given};
use given_parts::bytes::edit;
use given_parts::told;
use keyed_tree::Label;
use record_cursor::{Buffer, Cursor, CursorFault, Item, read_header, read_opening};
use std::alloc::Global;
use std::test::Fail;
use xa_outside::MemFolder;

/// What was given: its kind as in the file, 0 for the end, and the length of an END's body.
fn given(found: Result<Item<'_>, CursorFault>) -> Result<(u8, u64), CursorFault> {
    match found {
        Ok(Item::Inner { .. }) => Ok((1, 0)),
        Ok(Item::Leaf { .. }) => Ok((2, 0)),
        Ok(Item::Alt { .. }) => Ok((3, 0)),
        Ok(Item::End { length }) => Ok((4, length)),
        Ok(Item::LeafEnd) => Ok((5, 0)),
        Ok(Item::Finish) => Ok((0, 0)),
        Err(fault) => Err(fault),
    }
}

/// A cursor at the first record of the file, of which it sees so many bytes.
fn cursor(alloc: Global, folder: &mut MemFolder, length: u64) -> Result<Cursor, CursorFault> {
    let header = read_header(alloc, folder, "a.xar", length)?;
    Ok(Cursor::start(alloc, "a.xar", &header)?)
}

/// The items of the file, of which the last comes again and again.
const ITEMS: &[(u8, u64)] = &[(2, 0), (3, 0), (5, 0), (4, 48), (0, 0), (0, 0)];

/// Whether these items are given.
fn are_given(cursor: &mut Cursor, folder: &mut MemFolder, items: &[(u8, u64)]) -> bool {
    for item in items {
        if given(cursor.next(folder)) != Ok(*item) {
            return false;
        }
    }
    true
}

/// Whether so many items are given and then this fault; and again, or once it was a fault of the folder, all that come
/// behind.
fn is_stopped(
    cursor: &mut Cursor,
    folder: &mut MemFolder,
    count: usize,
    fault: CursorFault,
) -> bool {
    let Some((front, rest)) = ITEMS.split_at_checked(count) else {
        return false;
    };
    let stops = are_given(cursor, folder, front) && given(cursor.next(folder)) == Err(fault);
    match fault {
        CursorFault::Folder => stops && are_given(cursor, folder, rest),
        _ => stops && given(cursor.next(folder)) == Err(fault),
    }
}

/// What is asked of a cursor at the first record of a file.
#[derive(Clone, Copy)]
pub(crate) enum Asked<'a> {
    /// Whether so many items are given and then this fault; where all are given, none comes.
    Stops(usize, CursorFault),
    /// Whether the leaf of this label is given, and then an alternative of this body.
    Lends(&'a Label, &'a [u8]),
    /// Whether these records are given and then the end.
    Gives(&'a [Record]),
}

fn answers(cursor: &mut Cursor, folder: &mut MemFolder, asked: Asked<'_>) -> bool {
    match asked {
        Asked::Stops(count, fault) => {
            if count == ITEMS.len() {
                are_given(cursor, folder, ITEMS)
            } else {
                is_stopped(cursor, folder, count, fault)
            }
        }
        Asked::Lends(label, body) => are_lent(cursor, folder, label, body),
        Asked::Gives(records) => are_records_given(cursor, folder, records),
    }
}

fn is_so_in(alloc: Global, folder: &mut MemFolder, length: u64, asked: Asked<'_>) -> bool {
    match cursor(alloc, folder, length) {
        Ok(mut cursor) => answers(&mut cursor, folder, asked),
        Err(_) => false,
    }
}

/// Whether that is so in the first bytes of the file, whose read of this number fails.
pub(crate) fn is_so(
    alloc: Global,
    file: &[u8],
    length: u64,
    failing: u64,
    asked: Asked<'_>,
) -> bool {
    match folder(alloc, file, failing) {
        Ok(mut folder) => is_so_in(alloc, &mut folder, length, asked),
        Err(_) => false,
    }
}

/// The number of a read, and how many items are given before that one fails. The header takes two reads, each record one
/// for its front and, where it has parts, one for its body.
const CALLS: &[(u64, usize)] = &[
    (0, 6),
    (3, 0),
    (4, 0),
    (5, 1),
    (6, 1),
    (7, 2),
    (8, 3),
    (9, 4),
];

fn are_reads_told(alloc: Global, rows: &[(u64, usize)]) -> bool {
    for (call, count) in rows {
        if !is_so(
            alloc,
            TINY,
            142,
            *call,
            Asked::Stops(*count, CursorFault::Folder),
        ) {
            return false;
        }
    }
    true
}

/// An offset and the byte that stands there instead, and how many items are given before damage. The
/// label stands at 37: the kind of its name, the name's length and bytes, and the number of keys.
const DAMAGED: &[(usize, u8, usize)] = &[
    (28, 3, 0),
    (36, 200, 0),
    (37, 2, 0),
    (41, 200, 0),
    (42, 255, 0),
    (47, 1, 0),
    (48, 2, 0),
    (49, 4, 1),
    (49, 2, 1),
    (68, 1, 2),
    (77, 5, 3),
    (90, 7, 6),
    (141, 49, 4),
];

fn is_damaged(alloc: Global, at: usize, byte: u8, count: usize) -> bool {
    match Vec::from_slice(alloc, TINY) {
        Ok(mut file) => {
            edit(&mut file, &[(at, byte)]);
            is_so(
                alloc,
                &file,
                142,
                0,
                Asked::Stops(count, CursorFault::Damage),
            )
        }
        Err(_) => false,
    }
}

fn are_damaged(alloc: Global, rows: &[(usize, u8, usize)]) -> bool {
    for (at, byte, count) in rows {
        if !is_damaged(alloc, *at, *byte, *count) {
            return false;
        }
    }
    true
}

/// How many items are given of so many bytes of the file.
fn count_of(length: u64) -> usize {
    match length {
        0..=48 => 0,
        49..=67 => 1,
        68..=76 => 2,
        77..=133 => 3,
        142 => 6,
        _ => 4,
    }
}

fn is_each_front_walked(alloc: Global, file: &[u8]) -> bool {
    for length in 28..144u64 {
        let asked = Asked::Stops(count_of(length), CursorFault::Damage);
        if !is_so(alloc, file, length, 0, asked) {
            return false;
        }
    }
    true
}

fn are_cut_files_walked(alloc: Global) -> bool {
    match Vec::from_slice(alloc, TINY) {
        Ok(mut file) => file.push(0).is_ok() && is_each_front_walked(alloc, &file),
        Err(_) => false,
    }
}

/// Two offsets, and what stands at the first, in the part of the file that ends at the second: the kind of a record that may come
/// among nodes, the length of an END's body, and the offset behind it.
const OPENINGS: &[(u64, u64, Result<(u8, u64, u64), CursorFault>)] = &[
    (28, 142, Ok((2, 0, 49))),
    (28, 49, Ok((2, 0, 49))),
    (28, 48, Err(CursorFault::Damage)),
    (28, 36, Err(CursorFault::Damage)),
    (49, 142, Err(CursorFault::Damage)),
    (68, 142, Err(CursorFault::Damage)),
    (77, 142, Ok((4, 48, 134))),
    (77, 134, Ok((4, 48, 134))),
    (77, 133, Err(CursorFault::Damage)),
    (142, 142, Err(CursorFault::Damage)),
];

fn opened(found: Result<(Item<'_>, u64), CursorFault>) -> Result<(u8, u64, u64), CursorFault> {
    let (item, behind) = found?;
    let (kind, length) = given(Ok(item))?;
    Ok((kind, length, behind))
}

fn is_opened(
    alloc: Global,
    at: u64,
    end: u64,
    wanted: Result<(u8, u64, u64), CursorFault>,
) -> bool {
    let Ok(mut folder) = folder(alloc, TINY, 0) else {
        return false;
    };
    let mut buffer = Buffer::new(alloc);
    at <= end && opened(read_opening(&mut folder, "a.xar", at, end, &mut buffer)) == wanted
}

fn are_opened(alloc: Global) -> bool {
    for (at, end, wanted) in OPENINGS {
        if !is_opened(alloc, *at, *end, *wanted) {
            return false;
        }
    }
    true
}

#[test]
fn records_are_given_in_order_until_a_fault(rt: HostRuntime) -> Result<(), Fail> {
    told(
        are_reads_told(rt.alloc(), CALLS),
        "each read that fails is told and made good",
    )?;
    told(
        are_damaged(rt.alloc(), DAMAGED),
        "damage comes where nothing that fits stands",
    )?;
    told(are_cut_files_walked(rt.alloc()), "a file that is cut")?;
    told(
        are_opened(rt.alloc()),
        "a record among nodes is read where it stands",
    )
}
