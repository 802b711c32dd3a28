// Files with ENDs, and the kids that these close.
use row_ends::Kids;
use std::alloc::Global;
use version_set::VersionSet;
use xa_outside::{FolderCall, FolderFail, MemFolder};

pub(crate) const NAME: &str = "a.xar";

/// The file of one version, the element `db`. The body of its END stands at 86.
pub(crate) const ONE: &[u8] = b"\
    XARC1\n\0\0\0\x0e(/, (db, {}))\n\0\0\0\x01\x02\0\0\0\0\0\0\0\x0c\x01\0\0\0\x02db\0\0\0\0\0\x03\
    \0\0\0\0\0\0\0\n\0\x01\0\0\0\0\0\0\0\0\x05\0\0\0\0\0\0\0\0\x04\0\0\0\0\0\0\00\0\0\0\x01\0\0\0\
    \0\0\0\0\0\0\0\0\0\0\0\01\0\0\0\0\0\0\0\0\0\0\0\x01\0\0\0\x01\0\0\0\x01\0\0\0\0\0\0\0\0\0\0\0\
    \0\0\0\00";

/// The file of four versions of `db`, with an element `e` whose attribute `id` is its key, and in it
/// an element `v`. The bodies of its ENDs stand at 321, 442 and 499.
pub(crate) const FOUR: &[u8] = b"\
    XARC1\n\0\0\01(/, (db, {}))\n(/db, (e, {@id}))\n(/db/e, (v, {}))\n\0\0\0\x04\x01\0\0\0\0\0\0\
    \0\x0c\x01\0\0\0\x02db\0\0\0\0\0\x01\0\0\0\0\0\0\0\x15\x01\0\0\0\x01e\0\0\0\x01\0\x03\0\0\0\
    \0\0\0\0\x07\0\x02\0\0\0\0\0\0\0\x0c\0\0\0\0\x02id\0\0\0\0\0\x03\0\0\0\0\0\0\0\x0b\0\0\x03\0\
    \0\0\0\0\0\0\x07\x05\0\0\0\0\0\0\0\0\x02\0\0\0\0\0\0\0\x0b\x01\0\0\0\x01v\0\0\0\0\0\x03\0\0\
    \0\0\0\0\0$\x01\0\0\0\x02\0\0\0\x01\0\0\0\x01\0\0\0\x04\0\0\0\x04\x01\0\0\0\0\0\0\0\x01\0\0\
    \0\0\x01A\x03\0\0\0\0\0\0\0\x1c\x01\0\0\0\x01\0\0\0\x02\0\0\0\x02\x01\0\0\0\0\0\0\0\x01\0\0\
    \0\0\x01B\x03\0\0\0\0\0\0\0\x1c\x01\0\0\0\x01\0\0\0\x03\0\0\0\x03\x01\0\0\0\0\0\0\0\x01\0\0\
    \0\0\x01C\x05\0\0\0\0\0\0\0\0\x04\0\0\0\0\0\0\0p\0\0\0\x02\0\0\0\0\0\0\0\0\0\0\0\0\0\0\02\0\
    \0\0\0\0\0\0\0\0\0\0\0\0\0\02\0\0\0\0\0\0\0\x94\0\0\0\0\0\0\0\0\0\0\0\x01\0\0\0\x01\0\0\0\
    \x04\0\0\0\0\0\0\0\x14\0\0\0\x01\0\0\0\x01\0\0\0\x04\0\0\0\0\0\0\0\0\0\0\0\x01\0\0\0\x01\0\0\
    \0\x04\0\0\0\0\0\0\0\0\x04\0\0\0\0\0\0\00\0\0\0\x01\0\0\0\0\0\0\0\0\0\0\0\0\0\0\x01]\0\0\0\0\
    \0\0\0p\0\0\0\x01\0\0\0\x01\0\0\0\x04\0\0\0\0\0\0\0\0\x04\0\0\0\0\0\0\00\0\0\0\x01\0\0\0\0\0\
    \0\0\0\0\0\0\0\0\0\x01\xab\0\0\0\0\0\0\00\0\0\0\x01\0\0\0\x01\0\0\0\x04\0\0\0\0\0\0\0\0\0\0\
    \0\0\0\0\00";

/// The body of an END of kids that store their sets: 2 and 4; 1; 6 to 7; 3. One before the last has
/// the set of its parent, 1 to 7.
pub(crate) const STORED: &[u8] = b"\
    \0\0\0\x05\
    \0\0\0\0\0\0\0\0\0\0\0\0\0\0\0\x0a\0\0\0\0\0\0\0\0\
    \0\0\0\0\0\0\0\x0a\0\0\0\0\0\0\0\x14\0\0\0\0\0\0\0\x04\
    \0\0\0\0\0\0\0\x1e\0\0\0\0\0\0\x01\0\0\0\0\0\0\0\0\0\
    \0\0\0\0\0\0\x01\x1e\0\0\0\0\0\0\0\x09\0\0\0\0\0\0\0\0\
    \0\0\0\0\0\0\x01\x27\0\0\0\0\0\0\0\x28\0\0\0\0\0\0\0\x30\
    \0\0\0\x01\0\0\0\x01\0\0\0\x07\0\0\0\0\0\0\0\x84\
    \0\0\0\x03\0\0\0\x01\0\0\0\x02\0\0\0\x04\0\0\0\x04\0\0\0\x06\0\0\0\x07\0\0\0\0\0\0\0\x4c\
    \0\0\0\x02\0\0\0\x01\0\0\0\x02\0\0\0\x04\0\0\0\x04\0\0\0\0\0\0\0\x1c\
    \0\0\0\x02\0\0\0\x02\0\0\0\x02\0\0\0\x04\0\0\0\x04\0\0\0\0\0\0\0\0\
    \0\0\0\x01\0\0\0\x01\0\0\0\x01\0\0\0\0\0\0\0\0\
    \0\0\0\x01\0\0\0\x06\0\0\0\x07\0\0\0\0\0\0\0\0\
    \0\0\0\x01\0\0\0\x01\0\0\0\x07\0\0\0\0\0\0\0\x14\
    \0\0\0\x01\0\0\0\x01\0\0\0\x07\0\0\0\0\0\0\0\0\
    \0\0\0\x01\0\0\0\x03\0\0\0\x03\0\0\0\0\0\0\0\0";

/// A kid: its length, that of the body of its END, and the intervals of its set, none where it
/// inherits it.
pub(crate) type Kid = (u64, u64, &'static [(u32, u32)]);

/// A row: the set of its parent, and the kids.
#[derive(Clone, Copy)]
pub(crate) struct Row {
    pub(crate) set: (u32, u32),
    pub(crate) kids: &'static [Kid],
}

/// The row of `db` in `ONE`.
pub(crate) const DB: Row = Row {
    set: (1, 1),
    kids: &[(49, 0, &[])],
};

/// The rows in `FOUR`: in `e`, in `db`, and that of the virtual root.
pub(crate) const IN_E: Row = Row {
    set: (1, 4),
    kids: &[(50, 0, &[]), (148, 0, &[])],
};

pub(crate) const IN_DB: Row = Row {
    set: (1, 4),
    kids: &[(349, 112, &[])],
};

pub(crate) const ROOT: Row = Row {
    set: (1, 4),
    kids: &[(427, 48, &[])],
};

/// The row of `STORED`.
pub(crate) const FIVE: Row = Row {
    set: (1, 7),
    kids: &[
        (10, 0, &[(2, 2), (4, 4)]),
        (20, 4, &[(1, 1)]),
        (256, 0, &[(6, 7)]),
        (9, 0, &[]),
        (40, 48, &[(3, 3)]),
    ],
};

/// A row without kids.
pub(crate) const EMPTY: Row = Row {
    set: (1, 9),
    kids: &[],
};

/// The set of these intervals.
pub(crate) fn set(alloc: Global, pairs: &[(u32, u32)]) -> Option<VersionSet> {
    VersionSet::from_pairs(alloc, pairs).ok()?
}

/// The kids of a table.
pub(crate) fn kids(alloc: Global, table: &[Kid]) -> Option<Kids> {
    let mut kids = Kids::new(alloc);
    for (length, dir, pairs) in table {
        let stamp = if pairs.is_empty() {
            None
        } else {
            Some(set(alloc, pairs)?)
        };
        if !push(&mut kids, *length, *dir, stamp) {
            return None;
        }
    }
    Some(kids)
}

/// Adds a kid where there may be one more, and answers whether it did.
pub(crate) fn push(kids: &mut Kids, length: u64, dir: u64, stamp: Option<VersionSet>) -> bool {
    if kids.count() == u32::MAX || u64::MAX - kids.length() < length {
        return false;
    }
    kids.push(length, dir, stamp).is_ok()
}

/// A folder with this file, whose read of this number fails.
pub(crate) fn folder(alloc: Global, file: &[u8], failing: u64) -> Option<MemFolder> {
    let fail = FolderFail {
        call: FolderCall::ReadAt,
        number: failing,
    };
    let mut fails = Vec::new(alloc);
    fails.push(fail).ok()?;
    let bytes = Vec::from_slice(alloc, file).ok()?;
    let mut folder = MemFolder::new(alloc, fails);
    folder.put(NAME, bytes).ok()?;
    Some(folder)
}
