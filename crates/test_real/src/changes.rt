//! A file changes while a folder has it open, over a disk in memory.
use given_disk::{Event, MemDisk, OnDisk, PLAIN, Row, Sort, State, Trouble, What};
use given_outside::{holds, told};
use real_objects::DiskFolder;
use std::alloc::{AllocError, Global};
use std::io;
use std::test::Fail;
use xa_outside::Folder;

/// A file, and how often it has which byte. All but the empty one have bytes behind the first page of 4,096.
#[derive(Clone, Copy)]
struct Filled {
    name: &'static str,
    byte: u8,
    count: usize,
}

const BEFORE: Filled = Filled {
    name: "before",
    byte: b'b',
    count: 5_000,
};

const SAME_LENGTH: Filled = Filled {
    name: "same",
    byte: b's',
    count: 5_000,
};

const LONGER: Filled = Filled {
    name: "longer",
    byte: b'l',
    count: 9_000,
};

const SHORTER: Filled = Filled {
    name: "shorter",
    byte: b'h',
    count: 4_200,
};

const EMPTY: Filled = Filled {
    name: "empty",
    byte: b'e',
    count: 0,
};

const MOVED: Filled = Filled {
    name: "moved",
    byte: b'm',
    count: 5_000,
};

const MOVED_SHORTER: Filled = Filled {
    name: "short",
    byte: b'n',
    count: 4_200,
};

const FILES: &[Filled] = &[
    BEFORE,
    SAME_LENGTH,
    LONGER,
    SHORTER,
    EMPTY,
    MOVED,
    MOVED_SHORTER,
];

/// What another process does to the file `A`, and what this has then, or that there is no such file.
struct Change {
    about: &'static str,
    event: Event,
    then: Option<Filled>,
}

const CHANGES: &[Change] = &[
    Change {
        about: "rewritten with the same length",
        event: Event::Copies("same", "A"),
        then: Some(SAME_LENGTH),
    },
    Change {
        about: "rewritten longer",
        event: Event::Copies("longer", "A"),
        then: Some(LONGER),
    },
    Change {
        about: "rewritten shorter",
        event: Event::Copies("shorter", "A"),
        then: Some(SHORTER),
    },
    Change {
        about: "emptied",
        event: Event::Copies("empty", "A"),
        then: Some(EMPTY),
    },
    Change {
        about: "as it was at first",
        event: Event::Copies("before", "A"),
        then: Some(BEFORE),
    },
    Change {
        about: "replaced by one of the same length",
        event: Event::Moves("moved", "A"),
        then: Some(MOVED),
    },
    Change {
        about: "replaced by a shorter one",
        event: Event::Moves("short", "A"),
        then: Some(MOVED_SHORTER),
    },
    Change {
        about: "removed",
        event: Event::Removes("A"),
        then: None,
    },
];

/// A disk with these files, `A` as `before`, a link to it, and `B`.
fn disk_of(alloc: Global, is_still: bool) -> Result<MemDisk, AllocError> {
    let rows = [
        Row("B", Sort::File, b"another file", PLAIN),
        Row("link", Sort::Link, b"A", PLAIN),
    ];
    let mut state = State::of(alloc, &rows)?;
    state.limits.is_still = is_still;
    let bytes = vec![in alloc; BEFORE.byte; BEFORE.count]?;
    state.put("A", Sort::File, &bytes)?;
    put_files(alloc, &mut state)?;
    Ok(MemDisk::new(state))
}

fn put_files(alloc: Global, state: &mut State) -> Result<(), AllocError> {
    for file in FILES {
        let bytes = vec![in alloc; file.byte; file.count]?;
        state.put(file.name, Sort::File, &bytes)?;
    }
    Ok(())
}

/// Whether the folder gives these bytes of the name, from the front and from behind the first page.
fn gives(folder: &mut DiskFolder<OnDisk>, alloc: Global, name: &str, bytes: &[u8]) -> bool {
    let is_given = holds(folder, alloc, name, 0, bytes);
    match bytes.get(4_100..) {
        Some(rest) => is_given && holds(folder, alloc, name, 4_100, rest),
        None => is_given,
    }
}

/// Whether the folder tells the length and the bytes of this file under the name.
fn is_read(folder: &mut DiskFolder<OnDisk>, alloc: Global, name: &str, file: Filled) -> bool {
    let is_long = folder.length(name) == Ok(Some(file.count as u64));
    match vec![in alloc; file.byte; file.count] {
        Ok(bytes) => is_long && gives(folder, alloc, name, &bytes),
        Err(_) => false,
    }
}

fn is_absent(folder: &mut DiskFolder<OnDisk>, name: &str) -> bool {
    folder.length(name) == Ok(None) && folder.read_at(name, 0, &mut [0u8; 1]) == Ok(0)
}

/// Whether the folder tells this under the name: a file, or that there is none.
fn is_told(
    folder: &mut DiskFolder<OnDisk>,
    alloc: Global,
    name: &str,
    then: Option<Filled>,
) -> bool {
    match then {
        Some(file) => is_read(folder, alloc, name, file),
        None => is_absent(folder, name),
    }
}

/// Whether the folder reads the file as it is after the change, by each of its two names. It keeps two files open.
fn is_seen(
    alloc: Global,
    disk: &MemDisk,
    folder: &mut DiskFolder<OnDisk>,
    change: &Change,
) -> io::Result<bool> {
    let what = What::Meets(change.event);
    disk.state()?.plan(Some(Trouble { at: 0, what }));
    Ok(is_told(folder, alloc, "A", change.then) && is_told(folder, alloc, "link", change.then))
}

/// Whether one change and then the other are seen, by a folder that has the file open.
fn are_seen(alloc: Global, is_still: bool, changes: [&Change; 2]) -> io::Result<bool> {
    let disk = disk_of(alloc, is_still)?;
    let on = disk.on();
    let mut folder = DiskFolder::new(&on, alloc);
    let is_open = is_read(&mut folder, alloc, "A", BEFORE)
        && is_read(&mut folder, alloc, "link", BEFORE);
    Ok(
        is_open
            && is_seen(alloc, &disk, &mut folder, changes[0])?
            && is_seen(alloc, &disk, &mut folder, changes[1])?,
    )
}

/// Checks a change of each kind, and then one of the first three, which rewrite.
fn seen(alloc: Global, is_still: bool) -> Result<(), Fail> {
    for first in CHANGES {
        for second in CHANGES.iter().take(3) {
            told(are_seen(alloc, is_still, [first, second])?, first.about)?;
        }
    }
    Ok(())
}

#[test]
fn a_file_is_read_as_it_is_when_its_length_is_asked(rt: HostRuntime) -> Result<(), Fail> {
    seen(rt.alloc(), false)?;
    seen(rt.alloc(), true)
}
