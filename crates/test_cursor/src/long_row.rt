// A row whose END is read in several pieces.
use crate::kids::{NAME, folder, push, set};
use given_parts::told;
use record_format::{Entry, put_end};
use row_ends::{Kids, Room, is_end};
use std::alloc::Global;
use std::test::Fail;
use version_set::VersionSet;
use xa_outside::Folder;

/// So many kids.
const COUNT: u32 = 3000;

/// The set of the kid at a position: of every third that of its parent, and else two numbers.
fn stamp(alloc: Global, index: u32) -> Option<Option<VersionSet>> {
    if index.is_multiple_of(3) {
        return Some(None);
    }
    let low = index % 7 + 1;
    Some(Some(set(alloc, &[(low, low), (low + 2, low + 2)])?))
}

/// The kids of the row.
fn row(alloc: Global) -> Option<Kids> {
    let mut kids = Kids::new(alloc);
    for index in 0..COUNT {
        let stamp = stamp(alloc, index)?;
        if !push(
            &mut kids,
            u64::from(index % 50 + 9),
            u64::from(index % 3),
            stamp,
        ) {
            return None;
        }
    }
    Some(kids)
}

/// What the END says of the kids.
fn entries(alloc: Global) -> Option<Vec<Entry>> {
    let mut entries = Vec::new(alloc);
    let mut start = 0u64;
    for index in 0..COUNT {
        let length = u64::from(index % 50 + 9);
        let dir = u64::from(index % 3);
        entries.push(Entry { start, length, dir }).ok()?;
        start = start.saturating_add(length);
    }
    Some(entries)
}

/// The set of the kid at a position.
fn set_of(alloc: Global, parent: &VersionSet, index: u32) -> Option<VersionSet> {
    match stamp(alloc, index)? {
        Some(set) => Some(set),
        None => parent.copy().ok(),
    }
}

/// The sets of the kids.
fn sets(alloc: Global, parent: &VersionSet) -> Option<Vec<VersionSet>> {
    let mut sets = Vec::new(alloc);
    for index in 0..COUNT {
        sets.push(set_of(alloc, parent, index)?).ok()?;
    }
    Some(sets)
}

fn lent(alloc: Global, sets: &[VersionSet]) -> Option<Vec<&VersionSet>> {
    let mut lent = Vec::new(alloc);
    for set in sets {
        lent.push(set).ok()?;
    }
    Some(lent)
}

/// The END of the row, as the records of a file are written.
fn end_of(alloc: Global, entries: &[Entry], sets: &[VersionSet]) -> Option<Vec<u8>> {
    match lent(alloc, sets) {
        Some(lent) => spelled(alloc, entries, &lent),
        None => None,
    }
}

fn end(alloc: Global, parent: &VersionSet) -> Option<Vec<u8>> {
    match (entries(alloc), sets(alloc, parent)) {
        (Some(entries), Some(sets)) => end_of(alloc, &entries, &sets),
        _ => None,
    }
}

fn spelled(alloc: Global, entries: &[Entry], sets: &[&VersionSet]) -> Option<Vec<u8>> {
    if entries.len() > COUNT as usize || sets.len() != entries.len() {
        return None;
    }
    let mut bytes = Vec::new(alloc);
    put_end(&mut bytes, entries, sets).ok()?;
    Some(bytes)
}

/// A row, its END and the set of its parent.
#[derive(Drop)]
struct Given {
    kids: Kids,
    parent: VersionSet,
    end: Vec<u8>,
}

fn large_row(alloc: Global) -> Option<Given> {
    let kids = row(alloc)?;
    let parent = set(alloc, &[(1, 9)])?;
    let end = end(alloc, &parent)?;
    Some(Given { kids, parent, end })
}

/// Whether the bytes of a file are the END, and how many of them were pulled.
fn judged(alloc: Global, room: &mut Room, given: &Given, file: &[u8]) -> Option<(bool, u64)> {
    let length = (given.end.len() as u64).saturating_sub(9);
    let mut folder = folder(alloc, file, 1000)?;
    let same = is_end(
        room,
        &mut folder,
        NAME,
        9,
        length,
        &given.parent,
        &given.kids,
    )
    .ok()?;
    Some((same, folder.pulled()))
}

/// What is answered where the byte at an offset is another.
fn changed(alloc: Global, room: &mut Room, given: &Given, at: usize) -> Option<(bool, u64)> {
    let mut file = Vec::from_slice(alloc, &given.end).ok()?;
    *file.get_mut(at)? ^= 4;
    judged(alloc, room, given, &file)
}

/// Offsets of changed bytes, from the front or from the end, and how many bytes are pulled at most.
const CHANGED: &[(bool, usize, u64)] = &[
    (false, 1, 65_536),
    (true, 9, u64::MAX),
    (true, 12, u64::MAX),
    (true, 13, u64::MAX),
    (true, 36, u64::MAX),
    (true, 72_012, u64::MAX),
    (true, 72_013, u64::MAX),
    (true, 100_000, u64::MAX),
    (false, 65_540, u64::MAX),
    (false, 65_530, u64::MAX),
];

/// Whether the changed END is another.
fn differs(alloc: Global, room: &mut Room, given: &Given, at: usize, most: u64) -> bool {
    match changed(alloc, room, given, at) {
        Some((same, pulled)) => !same && pulled <= most,
        None => false,
    }
}

fn do_changed_differ(alloc: Global, room: &mut Room, given: &Given) -> bool {
    let size = given.end.len();
    for (is_front, offset, most) in CHANGED {
        let at = if *is_front {
            *offset
        } else {
            size.saturating_sub(*offset)
        };
        if !differs(alloc, room, given, at, *most) {
            return false;
        }
    }
    true
}

/// Whether the END has more than three pieces, and each of its bytes is pulled once.
fn is_whole(alloc: Global, room: &mut Room, given: &Given) -> bool {
    let size = given.end.len() as u64;
    size > 200_000 && judged(alloc, room, given, &given.end) == Some((true, size.saturating_sub(9)))
}

fn is_compared(alloc: Global, room: &mut Room, given: &Given) -> Result<(), Fail> {
    told(is_whole(alloc, room, given), "the END of the row")?;
    told(
        do_changed_differ(alloc, room, given),
        "a byte that is changed",
    )?;
    told(
        is_whole(alloc, room, given),
        "the END again, in the same room",
    )
}

fn is_row_compared(alloc: Global, room: &mut Room) -> Result<(), Fail> {
    match large_row(alloc) {
        Some(given) => is_compared(alloc, room, &given),
        None => Err(Fail::new("no row")),
    }
}

#[test]
fn a_large_end_is_compared_in_pieces(rt: HostRuntime) -> Result<(), Fail> {
    let mut room = Room::new(rt.alloc())?;
    is_row_compared(rt.alloc(), &mut room)
}
