// ENDs of files, compared with the rows that they close.
use crate::kids::{
    DB, EMPTY, FIVE, FOUR, IN_DB, IN_E, Kid, NAME, ONE, ROOT, Row, STORED, folder, kids, set,
};
use given_parts::told;
use record_cursor::CursorFault;
use row_ends::{Room, is_end};
use std::alloc::Global;
use std::test::Fail;
use xa_outside::{Folder, MemFolder};

/// A file, where the body of an END stands in it, and how many bytes that has.
#[derive(Clone, Copy)]
struct Place {
    file: &'static [u8],
    at: u64,
    length: u64,
}

const AFTER_ONE: Place = Place {
    file: ONE,
    at: 86,
    length: 48,
};

const AFTER_E: Place = Place {
    file: FOUR,
    at: 321,
    length: 112,
};

const AFTER_DB: Place = Place {
    file: FOUR,
    at: 442,
    length: 48,
};

const AFTER_ROOT: Place = Place {
    file: FOUR,
    at: 499,
    length: 48,
};

const ALONE: Place = Place {
    file: STORED,
    at: 0,
    length: 336,
};

const NOTHING: Place = Place {
    file: b"....\0\0\0\0....",
    at: 4,
    length: 4,
};

/// The ENDs of the files, and the rows that they close.
const ENDS: &[(&str, Place, Row)] = &[
    ("the root of one version", AFTER_ONE, DB),
    ("two kids that inherit", AFTER_E, IN_E),
    ("one kid with a directory", AFTER_DB, IN_DB),
    ("the root of four versions", AFTER_ROOT, ROOT),
    ("kids that store their sets", ALONE, FIVE),
    ("no kids", NOTHING, EMPTY),
];

/// What is answered of the END of a row in a folder, or None where there is no memory for the row.
fn judged(
    alloc: Global,
    room: &mut Room,
    folder: &mut MemFolder,
    at: u64,
    length: u64,
    row: Row,
) -> Option<Result<bool, CursorFault>> {
    let parent = set(alloc, &[row.set])?;
    let kids = kids(alloc, row.kids)?;
    if u64::MAX - at < length {
        return None;
    }
    Some(is_end(room, folder, NAME, at, length, &parent, &kids))
}

/// Whether the END stands there, and each of its bytes is pulled once.
fn stands(alloc: Global, room: &mut Room, place: Place, row: Row) -> bool {
    let Some(mut folder) = folder(alloc, place.file, 1000) else {
        return false;
    };
    match judged(alloc, room, &mut folder, place.at, place.length, row) {
        Some(Ok(true)) => folder.pulled() == place.length,
        _ => false,
    }
}

/// Whether the bytes there are told to be another END, and no more than these are pulled.
fn differs(alloc: Global, room: &mut Room, file: &[u8], at: u64, length: u64, row: Row) -> bool {
    let Some(mut folder) = folder(alloc, file, 1000) else {
        return false;
    };
    match judged(alloc, room, &mut folder, at, length, row) {
        Some(Ok(false)) => folder.pulled() <= length,
        _ => false,
    }
}

#[test]
fn ends_stand_in_the_files(rt: HostRuntime) -> Result<(), Fail> {
    let mut room = Room::new(rt.alloc())?;
    for (what, place, row) in ENDS {
        told(stands(rt.alloc(), &mut room, *place, *row), what)?;
    }
    Ok(())
}

/// Whether each change of one byte of the END makes it another.
fn each_byte_counts(alloc: Global, room: &mut Room, place: Place, row: Row) -> bool {
    let Ok(mut file) = Vec::from_slice(alloc, place.file) else {
        return false;
    };
    for index in place.at as usize..place.at.saturating_add(place.length) as usize {
        let Some(byte) = file.get(index) else {
            return false;
        };
        let old = *byte;
        file[index] = old ^ 1;
        if !differs(alloc, room, &file, place.at, place.length, row) {
            return false;
        }
        file[index] = old;
    }
    true
}

#[test]
fn each_byte_of_an_end_is_compared(rt: HostRuntime) -> Result<(), Fail> {
    let mut room = Room::new(rt.alloc())?;
    for (what, place, row) in ENDS {
        told(each_byte_counts(rt.alloc(), &mut room, *place, *row), what)?;
    }
    Ok(())
}

/// ENDs with other bytes at an offset of their file.
const CHANGED: &[(&str, Place, Row, usize, &[u8])] = &[
    ("zero intervals", AFTER_ONE, DB, 117, b"\0"),
    ("the left size of a leaf", AFTER_ONE, DB, 133, b"\x14"),
    ("the directory of a leaf", AFTER_ONE, DB, 113, b"\x01"),
    ("one version more in the tree", AFTER_ONE, DB, 125, b"\x02"),
    ("a claim that is not the union", AFTER_E, IN_E, 384, b"\x03"),
    ("the left size of the root", AFTER_E, IN_E, 392, b"\x15"),
    ("intervals of a claim", AFTER_E, IN_E, 376, b"\x02"),
    ("a hostile count", AFTER_E, IN_E, 373, b"\xff\xff\xff\xff"),
    ("a count of kids", AFTER_E, IN_E, 324, b"\x01"),
    ("a count past all", AFTER_E, IN_E, 321, b"\xff\xff\xff\xff"),
    (
        "the directory of the last kid",
        AFTER_ROOT,
        ROOT,
        526,
        b"\x31",
    ),
];

/// Whether the file with these bytes at an offset has another END.
fn is_changed(
    alloc: Global,
    room: &mut Room,
    place: Place,
    row: Row,
    at: usize,
    bytes: &[u8],
) -> bool {
    let Ok(mut file) = Vec::from_slice(alloc, place.file) else {
        return false;
    };
    for (index, byte) in bytes.iter().enumerate() {
        match file.get_mut(at.saturating_add(index)) {
            Some(place) => *place = *byte,
            None => return false,
        }
    }
    differs(alloc, room, &file, place.at, place.length, row)
}

#[test]
fn changed_ends_differ(rt: HostRuntime) -> Result<(), Fail> {
    let mut room = Room::new(rt.alloc())?;
    for (what, place, row, at, bytes) in CHANGED {
        told(
            is_changed(rt.alloc(), &mut room, *place, *row, *at, bytes),
            what,
        )?;
    }
    Ok(())
}

/// Rows that the END of `e` does not close.
const OTHERS: &[(&str, (u32, u32), &[Kid])] = &[
    ("no kids", (1, 4), &[]),
    ("one kid", (1, 4), &[(50, 0, &[])]),
    (
        "one kid more",
        (1, 4),
        &[(50, 0, &[]), (148, 0, &[]), (9, 0, &[])],
    ),
    ("another length", (1, 4), &[(50, 0, &[]), (149, 0, &[])]),
    (
        "another first length",
        (1, 4),
        &[(49, 0, &[]), (148, 0, &[])],
    ),
    ("another directory", (1, 4), &[(50, 0, &[]), (148, 4, &[])]),
    ("another set", (1, 5), &[(50, 0, &[]), (148, 0, &[])]),
    (
        "another stored set",
        (1, 4),
        &[(50, 0, &[]), (148, 0, &[(1, 3)])],
    ),
    (
        "sets exchanged",
        (1, 3),
        &[(50, 0, &[(1, 4)]), (148, 0, &[])],
    ),
];

#[test]
fn ends_of_other_rows_differ(rt: HostRuntime) -> Result<(), Fail> {
    let alloc = rt.alloc();
    let mut room = Room::new(alloc)?;
    for (what, set, kids) in OTHERS {
        let row = Row { set: *set, kids };
        told(differs(alloc, &mut room, FOUR, 321, 112, row), what)?;
    }
    told(
        differs(alloc, &mut room, FOUR, 321, 111, IN_E),
        "one byte fewer",
    )?;
    told(
        differs(alloc, &mut room, FOUR, 321, 113, IN_E),
        "one byte more",
    )?;
    told(
        differs(alloc, &mut room, FOUR, 320, 112, IN_E),
        "one byte before",
    )?;
    told(differs(alloc, &mut room, FOUR, 321, 0, IN_E), "no byte")
}

/// The kids of `e`, where they store their sets.
const STORING: &[(&str, (u32, u32), &[Kid])] = &[
    ("both", (9, 9), &[(50, 0, &[(1, 4)]), (148, 0, &[(1, 4)])]),
    ("the first", (1, 4), &[(50, 0, &[(1, 4)]), (148, 0, &[])]),
    ("the last", (1, 4), &[(50, 0, &[]), (148, 0, &[(1, 4)])]),
];

#[test]
fn a_set_that_is_stored_is_compared_as_one(rt: HostRuntime) -> Result<(), Fail> {
    let mut room = Room::new(rt.alloc())?;
    for (what, set, kids) in STORING {
        let row = Row { set: *set, kids };
        told(stands(rt.alloc(), &mut room, AFTER_E, row), what)?;
    }
    Ok(())
}

/// What is answered where the read of this number fails.
fn failing(alloc: Global, file: &[u8], number: u64, length: u64) -> Option<CursorFault> {
    let mut folder = folder(alloc, file, number)?;
    let mut room = Room::new(alloc).ok()?;
    match judged(alloc, &mut room, &mut folder, 321, length, IN_E)? {
        Ok(_) => None,
        Err(fault) => Some(fault),
    }
}

#[test]
fn faults_are_told_apart(rt: HostRuntime) -> Result<(), Fail> {
    let alloc = rt.alloc();
    let short = FOUR.get(..432).ok_or("no short file")?;
    let damage = failing(alloc, short, 1000, 112);
    told(
        damage == Some(CursorFault::Damage),
        "a file that ends before",
    )?;
    let failed = failing(alloc, FOUR, 1, 112);
    told(failed == Some(CursorFault::Folder), "a read that fails")?;
    told(failing(alloc, FOUR, 2, 112).is_none(), "no second read")
}
