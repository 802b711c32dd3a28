//! Two commands that write in one folder take turns, over a disk in memory.
use given_disk::{MemDisk, OnDisk, PLAIN, Row, Sort, State};
use given_outside::told;
use real_objects::DiskFolder;
use std::alloc::Global;
use std::io;
use std::test::Fail;
use xa_outside::Folder;

const OLD: &[u8] = b"what stood there";

/// A command: it begins a draft, adds its piece twice, and commits it, in this order.
#[derive(Drop)]
struct Command {
    name: &'static str,
    step: u8,
    is_done: bool,
}

impl Command {
    fn new(name: &'static str) -> Command {
        Command {
            name,
            step: 0,
            is_done: false,
        }
    }

    fn go_on(&mut self, folder: &mut DiskFolder<OnDisk>, piece: &[u8]) {
        self.is_done = match self.step {
            0 => folder.begin().is_ok(),
            1 | 2 => folder.append(piece).is_ok(),
            _ => folder.commit(self.name).is_ok(),
        };
        self.step = self.step.saturating_add(1);
    }
}

/// In which order the steps of two commands are taken: those of the second where the bit is set, from the lowest on. The names, and
/// how much each adds at a time.
#[derive(Clone, Copy)]
struct Turns {
    order: u8,
    names: [&'static str; 2],
    size: usize,
}

impl Turns {
    fn is_of_second(&self, turn: u8) -> bool {
        turn < 8 && (self.order >> turn) & 1 == 1
    }

    /// Which of the two wrote what stands under the name of this one: of those that say so, the last.
    fn writer(&self, of_second: bool, done: Done) -> Writer {
        let (own, other) = if of_second {
            (done.second, done.first)
        } else {
            (done.first, done.second)
        };
        let is_other = other && self.names[0] == self.names[1];
        if is_other && (!own || self.is_of_second(7) != of_second) {
            return if of_second {
                Writer::First
            } else {
                Writer::Second
            };
        }
        match (own, of_second) {
            (false, _) => Writer::Neither,
            (true, false) => Writer::First,
            (true, true) => Writer::Second,
        }
    }
}

/// Whose commit went well.
#[derive(Clone, Copy)]
struct Done {
    first: bool,
    second: bool,
}

#[derive(Clone, Copy)]
enum Writer {
    First,
    Second,
    Neither,
}

/// What the two commands add.
#[derive(Clone, Copy)]
struct Added<'a> {
    first: &'a [u8],
    second: &'a [u8],
}

/// Whose commit goes well.
fn committed(alloc: Global, disk: &MemDisk, turns: &Turns, added: Added) -> Done {
    let on = disk.on();
    let mut folder = DiskFolder::new(&on, alloc);
    let mut other = DiskFolder::new(&on, alloc);
    let mut first = Command::new(turns.names[0]);
    let mut second = Command::new(turns.names[1]);
    for turn in 0..8 {
        if turns.is_of_second(turn) {
            second.go_on(&mut other, added.second);
        } else {
            first.go_on(&mut folder, added.first);
        }
    }
    folder.discard();
    other.discard();
    Done {
        first: first.is_done,
        second: second.is_done,
    }
}

/// Whether the file of this name has a piece twice.
fn has_twice(state: &State, name: &str, piece: &[u8]) -> bool {
    match state.found(name) {
        Some(inode) => inode.bytes.strip_prefix(piece) == Some(piece),
        None => false,
    }
}

/// Whether the name has all that its writer added.
fn is_whole(state: &State, name: &str, writer: Writer, added: Added) -> bool {
    match writer {
        Writer::First => has_twice(state, name, added.first),
        Writer::Second => has_twice(state, name, added.second),
        Writer::Neither => state.holds(name, OLD),
    }
}

/// Whether two commands that take turns leave whole files, and no draft. The one that began its draft last commits it.
fn is_right(alloc: Global, turns: &Turns, added: Added) -> io::Result<bool> {
    let rows = [
        Row("A", Sort::File, OLD, PLAIN),
        Row("B", Sort::File, OLD, PLAIN),
    ];
    let disk = MemDisk::new(State::of(alloc, &rows)?);
    let done = committed(alloc, &disk, turns, added);
    let is_last_done = if turns.is_of_second(0) {
        done.first
    } else {
        done.second
    };
    let state = disk.state()?;
    let (first, second) = (turns.writer(false, done), turns.writer(true, done));
    Ok(
        is_last_done
            && is_whole(&state, turns.names[0], first, added)
            && is_whole(&state, turns.names[1], second, added)
            && !state.has_draft(),
    )
}

/// Checks all orders in which each command takes four steps.
fn ordered(alloc: Global, names: [&'static str; 2], size: usize) -> Result<(), Fail> {
    let first = vec![in alloc; b'1'; size]?;
    let second = vec![in alloc; b'2'; size]?;
    let added = Added {
        first: &first,
        second: &second,
    };
    for order in 0..=255u8 {
        if order.count_ones() == 4 {
            let turns = Turns { order, names, size };
            told(is_right(alloc, &turns, added)?, "two commands in turns")?;
        }
    }
    Ok(())
}

#[test]
fn two_commands_take_turns_in_each_order(rt: HostRuntime) -> Result<(), Fail> {
    // (short pieces are gathered, and long ones are written at once)
    for size in [10, 66_000] {
        ordered(rt.alloc(), ["A", "B"], size)?;
        ordered(rt.alloc(), ["A", "A"], size)?;
    }
    Ok(())
}
