// Files that are no sound archives.
use crate::archives::add;
use given_archives::{NAME, NEVER, folder};
use given_parts::bytes::edit;
use given_parts::told;
use std::alloc::Global;
use std::test::Fail;
use stream_merge::AddFault;

/// Two versions of an element `db`: in its child `a`, which the second alone has, the text `x`, and
/// in its child `b` first the text `y` and then `z`.
const NESTED: &[u8] = b"\
    XARC1\n\0\0\0,(/, (db, {}))\n(/db, (a, {}))\n(/db, (b, {}))\n\0\0\0\x02\x01\0\0\0\0\0\0\0\
    \x0c\x01\0\0\0\x02db\0\0\0\0\0\x02\0\0\0\0\0\0\0\x17\x01\0\0\0\x01a\0\0\0\0\x01\0\0\0\x01\0\
    \0\0\x02\0\0\0\x02\x03\0\0\0\0\0\0\0\x10\0\x01\0\0\0\0\0\0\0\x01\0\0\0\0\x01x\x05\0\0\0\0\0\
    \0\0\0\x02\0\0\0\0\0\0\0\x0b\x01\0\0\0\x01b\0\0\0\0\0\x03\0\0\0\0\0\0\0\x1c\x01\0\0\0\x01\0\
    \0\0\x01\0\0\0\x01\x01\0\0\0\0\0\0\0\x01\0\0\0\0\x01y\x03\0\0\0\0\0\0\0\x1c\x01\0\0\0\x01\0\
    \0\0\x02\0\0\0\x02\x01\0\0\0\0\0\0\0\x01\0\0\0\0\x01z\x05\0\0\0\0\0\0\0\0\x04\0\0\0\0\0\0\0p\
    \0\0\0\x02\0\0\0\0\0\0\0\0\0\0\0\0\0\0\0B\0\0\0\0\0\0\0\0\0\0\0\0\0\0\0B\0\0\0\0\0\0\0g\0\0\
    \0\0\0\0\0\0\0\0\0\x01\0\0\0\x01\0\0\0\x02\0\0\0\0\0\0\0\x14\0\0\0\x01\0\0\0\x02\0\0\0\x02\0\
    \0\0\0\0\0\0\0\0\0\0\x01\0\0\0\x01\0\0\0\x02\0\0\0\0\0\0\0\0\x04\0\0\0\0\0\0\00\0\0\0\x01\0\
    \0\0\0\0\0\0\0\0\0\0\0\0\0\x017\0\0\0\0\0\0\0p\0\0\0\x01\0\0\0\x01\0\0\0\x02\0\0\0\0\0\0\0\0\
    \0\0\0\0\0\0\00";

const DOCUMENT: &str = r#"["db",["a","x"],["b","z"]]"#;

/// The number of versions stands in four bytes behind the specification's text.
const COUNT: usize = 57;

/// The kind of the first record.
const KIND: usize = 58;

/// The byte that is another, and what it is then.
const DAMAGED: &[(&str, usize, u8)] = &[
    ("another number in the tail", 433, 0x31),
    ("a stored number above the number of versions", COUNT, 1),
    ("a kind that is none", KIND, 9),
    ("an alternative where a node comes", KIND, 3),
    ("the end of a leaf where a node comes", KIND, 5),
    ("a record that is longer than the file", KIND + 2, 1),
];

// Whether nothing is added to the bytes, which are damaged, and they stay.
fn is_refused(alloc: Global, bytes: &[u8]) -> bool {
    let Some(mut folder) = folder(alloc, &[(NAME, bytes)], NEVER) else {
        return false;
    };
    add(alloc, &mut folder, bytes.len(), DOCUMENT) == Ok(Err(AddFault::Damage))
        && folder.file(NAME) == Some(bytes)
}

fn is_changed_refused(alloc: Global, at: usize, byte: u8) -> bool {
    match Vec::from_slice(alloc, NESTED) {
        Ok(mut bytes) => {
            edit(&mut bytes, &[(at, byte)]);
            bytes.as_slice() != NESTED && is_refused(alloc, &bytes)
        }
        Err(_) => false,
    }
}

// Whether the bytes without so many at their end are refused.
fn is_cut_refused(alloc: Global, less: usize) -> bool {
    match NESTED.get(..NESTED.len().saturating_sub(less)) {
        Some(front) => is_refused(alloc, front),
        None => false,
    }
}

#[test]
fn a_damaged_file_stays(rt: HostRuntime) -> Result<(), Fail> {
    let alloc = rt.alloc();
    for (name, at, byte) in DAMAGED {
        told(is_changed_refused(alloc, *at, *byte), name)?;
    }
    let are_refused = [1, 8, 9, 65, 375]
        .iter()
        .all(|less| is_cut_refused(alloc, *less));
    told(are_refused, "a file that is cut")
}
