// Walking over an archive whose nodes nest: `db`, in it `dept` with the attribute `n`, and in that
// `emp`, whose text is `x` in the first version and `y` in the second.
use crate::cursors::{Asked, is_so};
use record_cursor::{Cursor, Item};
use std::alloc::{AllocError, Global};
use xa_outside::MemFolder;

const HEADER: &[u8] = b"\
    XARC1\n\0\0\0;(/, (db, {}))\n(/db, (dept, {@n}))\n(/db/dept, (emp, {@id}))\n\0\0\0\x02";

/// A record: the kind, and the two parts of the body, a directory as the first.
pub(crate) type Record = (u8, &'static [u8], &'static [u8]);

/// The records of the file.
const RECORDS: &[Record] = &[
    (1, b"\x01\0\0\0\x02db\0\0\0\0", b"\0"),
    (1, b"\x01\0\0\0\x04dept\0\0\0\x01\0\x05\0\0\0\x01f", b"\0"),
    (2, b"\0\0\0\0\x01n\0\0\0\0", b"\0"),
    (3, b"\0", b"\0\x05\0\0\0\x01f"),
    (5, b"", b""),
    (
        2,
        b"\x01\0\0\0\x03emp\0\0\0\x01\0\x03\0\0\0\0\0\0\0\x07",
        b"\0",
    ),
    (
        3,
        b"\x01\0\0\0\x01\0\0\0\x01\0\0\0\x01",
        b"\x01\0\0\0\x01\0\0\0\x02id\x03\0\0\0\0\0\0\0\x07\0\0\0\x01\0\0\0\0\x01x",
    ),
    (
        3,
        b"\x01\0\0\0\x01\0\0\0\x02\0\0\0\x02",
        b"\x01\0\0\0\x01\0\0\0\x02id\x03\0\0\0\0\0\0\0\x07\0\0\0\x01\0\0\0\0\x01y",
    ),
    (5, b"", b""),
    (
        4,
        b"\0\0\0\x02\0\0\0\0\0\0\0\0\0\0\0\0\0\0\0.\0\0\0\0\0\0\0\0\0\0\0\0\0\0\0.\0\0\0\0\0\0\0\x91\
        \0\0\0\0\0\0\0\0\0\0\0\x01\0\0\0\x01\0\0\0\x02\0\0\0\0\0\0\0\x14\0\0\0\x01\0\0\0\x01\0\0\0\
        \x02\0\0\0\0\0\0\0\0\0\0\0\x01\0\0\0\x01\0\0\0\x02\0\0\0\0\0\0\0\0",
        b"",
    ),
    (
        4,
        b"\0\0\0\x01\0\0\0\0\0\0\0\0\0\0\0\0\0\0\x01V\0\0\0\0\0\0\0p\0\0\0\x01\0\0\0\x01\0\0\0\x02\
        \0\0\0\0\0\0\0\0",
        b"",
    ),
    (
        4,
        b"\0\0\0\x01\0\0\0\0\0\0\0\0\0\0\0\0\0\0\x01\xa4\0\0\0\0\0\0\00\0\0\0\x01\0\0\0\x01\0\0\0\
        \x02\0\0\0\0\0\0\0\0",
        b"",
    ),
];

/// The length of the last directory once more.
const TAIL: &[u8] = b"\0\0\0\0\0\0\00";

/// The bytes of a record: its kind, the length of its body in eight bytes, and the body.
pub(crate) fn record(
    alloc: Global,
    kind: u8,
    first: &[u8],
    second: &[u8],
) -> Result<Vec<u8>, AllocError> {
    let mut body = Vec::from_slice(alloc, first)?;
    body.extend_from_slice(second)?;
    let mut bytes = Vec::new(alloc);
    bytes.push(kind)?;
    bytes.extend_from_slice(&(body.len() as u64).to_be_bytes())?;
    bytes.extend_from_slice(&body)?;
    Ok(bytes)
}

fn put_records(alloc: Global, file: &mut Vec<u8>, records: &[Record]) -> Result<(), AllocError> {
    for (kind, first, second) in records {
        file.extend_from_slice(&record(alloc, *kind, first, second)?)?;
    }
    file.extend_from_slice(TAIL)
}

/// Whether the item is the record of this kind with these parts.
fn is_given(item: &Item<'_>, kind: u8, first: &[u8], second: &[u8]) -> bool {
    match item {
        Item::Inner { label, stamp } => {
            kind == 1 && label.bytes() == first && stamp.bytes() == second
        }
        Item::Leaf { label, stamp } => kind == 2
            && label.bytes() == first
            && stamp.bytes() == second,
        Item::Alt { stamp, body } => kind == 3 && stamp.bytes() == first && body.bytes() == second,
        Item::End { length } => kind == 4 && *length == first.len() as u64,
        Item::LeafEnd => kind == 5,
        Item::Finish => false,
    }
}

pub(crate) fn are_records_given(
    cursor: &mut Cursor,
    folder: &mut MemFolder,
    records: &[Record],
) -> bool {
    for (kind, first, second) in records {
        match cursor.next(folder) {
            Ok(item) if is_given(&item, *kind, first, second) => (),
            _ => return false,
        }
    }
    matches!(cursor.next(folder), Ok(Item::Finish))
}

/// Whether the file of these records is given, record by record.
fn are_walked(alloc: Global, records: &[Record]) -> bool {
    match Vec::from_slice(alloc, HEADER) {
        Ok(mut file) => {
            put_records(alloc, &mut file, records).is_ok()
                && is_so(alloc, &file, 558, 0, Asked::Gives(records))
        }
        Err(_) => false,
    }
}

#[test]
fn nested_nodes_are_given_part_by_part(rt: HostRuntime) {
    assert!(rt; are_walked(rt.alloc(), RECORDS));
}
