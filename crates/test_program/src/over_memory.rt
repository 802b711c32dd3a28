//! Whole commands over a disk in memory: each call in turn fails, is interrupted, is the last of its process, or meets another
//! command; streams are closed; files change between two lines of a batch.
use given_disk::{Event, MemDisk, PLAIN, Row, Sort, State, Trouble, What};
use given_outside::{texts, told};
use real_objects::{DiskFolder, ReaderSource, WriterSink};
use std::alloc::{AllocError, Global};
use std::io;
use std::io::ErrorKind;
use std::test::Fail;
use xarch_run::run;

const SPEC: &[u8] = b"(/, (db, {}))\n(/db, (e, {@id}))\n";

const WIDE_SPEC: &[u8] = b"(/, (db, {}))\n";

const ONE: &[u8] = b"[\"db\",[\"e\",{\"id\":1},\"a\"],[\"e\",{\"id\":2}]]\n";

const TWO: &[u8] = b"[\"db\",[\"e\",{\"id\":1},\"b\"],[\"e\",{\"id\":3}]]\n";

const TABLE: &[u8] = b"id,name\n2,Ann\n1,Bo\n";

const LONGER_TABLE: &[u8] = b"id,name\n2,Annabel\n1,Bo\n";

/// What there is before any archive.
const GIVEN: &[Row] = &[
    Row("spec", Sort::File, SPEC, PLAIN),
    Row("wide", Sort::File, WIDE_SPEC, PLAIN),
    Row("one", Sort::File, ONE, PLAIN),
    Row("two", Sort::File, TWO, PLAIN),
    Row("csv", Sort::File, TABLE, PLAIN),
    Row("longer", Sort::File, LONGER_TABLE, PLAIN),
];

/// The archives `A`, of two versions, and `B`, of one.
const ARCHIVED: &[&[&str]] = &[
    &["init", "A", "spec"],
    &["add", "A", "one"],
    &["add", "A", "two", "a note"],
    &["init", "B", "spec"],
    &["add", "B", "two"],
];

/// Words, and the input of a batch.
struct Command {
    words: &'static [&'static str],
    input: &'static [u8],
}

impl Command {
    fn name(&self) -> &'static str {
        self.words.first().copied().unwrap_or("")
    }
}

const BATCH: &[u8] =
    b"[\"add\",\"A\",\"one\"]\n[\"get\",\"A\",\"3\"]\n[\"cut\",\"A\",\"N\",\"1\",\"2\"]\n[\"history\",\"N\",\"[\\\"db\\\"]\"]\n";

const COMMANDS: &[Command] = &[
    Command {
        words: &["init", "N", "spec"],
        input: b"",
    },
    Command {
        words: &["add", "A", "one"],
        input: b"",
    },
    Command {
        words: &["add", "A", "one", "why"],
        input: b"",
    },
    Command {
        words: &["rekey", "A", "wide"],
        input: b"",
    },
    Command {
        words: &["cut", "A", "N", "2", "2"],
        input: b"",
    },
    Command {
        words: &["join", "A", "B", "N"],
        input: b"",
    },
    Command {
        words: &["import", "text", "N"],
        input: b"",
    },
    Command {
        words: &["table", "csv", "t", "id", "N"],
        input: b"",
    },
    Command {
        words: &["tablekeys", "t", "id", "N"],
        input: b"",
    },
    Command {
        words: &["demo", "1", "2", "N"],
        input: b"",
    },
    Command {
        words: &["norm", "spec", "two"],
        input: b"",
    },
    Command {
        words: &["get", "A", "1"],
        input: b"",
    },
    Command {
        words: &["history", "A", "[\"db\",[\"e\",1]]"],
        input: b"",
    },
    Command {
        words: &["check", "A"],
        input: b"",
    },
];

/// A batch of four lines, of which two make files.
const FOUR: Command = Command {
    words: &["batch"],
    input: BATCH,
};

/// The status of these words on the disk, by a process of their own. Its streams are those of the disk.
fn status_of(alloc: Global, disk: &MemDisk, words: &[String]) -> u8 {
    let on = disk.on();
    let mut folder = DiskFolder::new(&on, alloc);
    let mut input = ReaderSource::new(disk.stream(0));
    let mut out = WriterSink::new(disk.stream(1));
    let mut err = WriterSink::new(disk.stream(2));
    let status = run(alloc, words, &mut folder, &mut input, &mut out, &mut err);
    folder.discard();
    status
}

/// The same. Want of memory has its status.
fn answered(alloc: Global, disk: &MemDisk, words: &[&str]) -> u8 {
    match texts(alloc, words) {
        Ok(words) => status_of(alloc, disk, &words),
        Err(_) => 16,
    }
}

/// The disk with the archives, and the text of one of them.
fn archived(alloc: Global) -> Result<State, Fail> {
    let disk = MemDisk::new(State::of(alloc, GIVEN)?);
    for words in ARCHIVED {
        told(answered(alloc, &disk, words) == 0, "an archive is made")?;
    }
    told(
        answered(alloc, &disk, &["export", "A"]) == 0,
        "an archive is exported",
    )?;
    let mut state = disk.state()?.copied()?;
    state.keep_printed("text")?;
    Ok(state)
}

/// The disk on which the command is to be run, with its input.
fn given(before: &State, command: &Command) -> Result<State, AllocError> {
    let mut state = before.copied()?;
    state.say(&[command.input])?;
    Ok(state)
}

/// A command, the disk before it and after it, and how many calls it made.
#[derive(Drop)]
struct Course<'a> {
    command: &'a Command,
    before: State,
    after: State,
    calls: usize,
}

/// What the command does where nothing comes.
fn course_of<'a>(before: &State, command: &'a Command) -> Result<Course<'a>, Fail> {
    let before = given(before, command)?;
    let disk = MemDisk::new(before.copied()?);
    told(
        answered(before.alloc(), &disk, command.words) == 0,
        command.name(),
    )?;
    let state = disk.state()?;
    told(
        state.are_calls_in_order() && !state.has_draft(),
        command.name(),
    )?;
    let calls = state.log.len();
    let after = state.copied()?;
    Ok(Course {
        command,
        before,
        after,
        calls,
    })
}

const THEIRS: &[u8] = b"what another command has drafted until now";

/// What comes at each call in turn.
const TROUBLES: &[What] = &[
    What::Fails(ErrorKind::Other),
    What::IsInterrupted(1),
    What::IsInterrupted(2_000),
    What::Stops,
    What::Meets(Event::Replaces(".xarch-draft", THEIRS)),
];

impl Course<'_> {
    fn is_batch(&self) -> bool {
        self.command.words.len() == 1
    }

    /// The status of the command on this disk.
    fn status(&self, disk: &MemDisk) -> u8 {
        answered(self.before.alloc(), disk, self.command.words)
    }

    /// Whether the disk is what the status says: all is done and printed, or nothing is done. Of a batch some lines may be done.
    fn is_as_told(&self, state: &State, status: u8) -> bool {
        match status {
            0 => state.is_like(&self.after) && state.printed() == self.after.printed(),
            13 if self.is_batch() => state.is_between(&self.before, &self.after),
            13 => state.is_like(&self.before),
            _ => false,
        }
    }

    /// Whether the command ends well though this comes.
    fn ends_well(&self, disk: &MemDisk, come: Trouble) -> io::Result<bool> {
        let status = self.status(disk);
        let state = disk.state()?;
        Ok(match come.what {
            What::Fails(_) => {
                self.is_as_told(&state, status) && (status == 13 || state.may_go_on(come.at))
            }
            What::IsInterrupted(1) => {
                status == 0 && self.is_as_told(&state, 0) && !state.has_draft()
            }
            What::Stops => state.is_between(&self.before, &self.after),
            _ => self.is_as_told(&state, status),
        })
    }

    /// Whether another process goes on after this one died: the archive is sound, and the command does what it does, unless it is done.
    fn goes_on(&self, disk: &MemDisk) -> io::Result<bool> {
        disk.state()?.plan(None);
        if answered(self.before.alloc(), disk, &["check", "A"]) != 0 {
            return Ok(false);
        }
        if self.is_batch() || disk.state()?.is_like(&self.after) {
            return Ok(true);
        }
        let status = self.status(disk);
        let state = disk.state()?;
        Ok(status == 0 && state.is_like(&self.after))
    }

    fn is_overcome(&self, come: Trouble) -> io::Result<bool> {
        let mut state = self.before.copied()?;
        state.plan(Some(come));
        let disk = MemDisk::new(state);
        let ends = self.ends_well(&disk, come)?;
        Ok(ends && (!matches!(come.what, What::Stops) || self.goes_on(&disk)?))
    }

    /// Whether the command does what it does where these streams are closed. With no output it is refused if it prints.
    fn goes_without(&self, closed: [bool; 3]) -> io::Result<bool> {
        let disk = MemDisk::new(self.before.copied()?);
        for number in 0..3 {
            if closed[number] {
                disk.close(number);
            }
        }
        let status = self.status(&disk);
        let state = disk.state()?;
        if closed[1] && !self.after.printed().is_empty() {
            return Ok(status == 14 && state.is_like(&self.before));
        }
        Ok(status == 0 && state.is_like(&self.after))
    }

    /// Whether the command does what it does where reads and writes move at most so many bytes.
    fn goes_in_pieces(&self, piece: usize) -> io::Result<bool> {
        let mut state = self.before.copied()?;
        state.limits.piece = piece;
        let disk = MemDisk::new(state);
        let status = self.status(&disk);
        let state = disk.state()?;
        Ok(status == 0 && self.is_as_told(&state, 0))
    }
}

/// Checks that the command ends well with each trouble at each call.
fn overcome(before: &State, command: &Command) -> Result<(), Fail> {
    let course = course_of(before, command)?;
    for at in 0..course.calls {
        for what in TROUBLES {
            let come = Trouble { at, what: *what };
            told(course.is_overcome(come)?, command.name())?;
        }
    }
    Ok(())
}

#[test]
fn whatever_comes_at_a_call_files_are_the_new_ones_or_the_old(rt: HostRuntime) -> Result<(), Fail> {
    let before = archived(rt.alloc())?;
    for command in COMMANDS {
        overcome(&before, command)?;
    }
    overcome(&before, &FOUR)
}

/// Which streams are closed.
const CLOSED: [[bool; 3]; 4] = [
    [false, true, false],
    [true, false, true],
    [true, true, false],
    [true, true, true],
];

#[test]
fn what_is_printed_to_a_closed_stream_is_in_no_file(rt: HostRuntime) -> Result<(), Fail> {
    let before = archived(rt.alloc())?;
    for command in COMMANDS {
        let course = course_of(&before, command)?;
        for closed in CLOSED {
            told(course.goes_without(closed)?, command.name())?;
        }
    }
    Ok(())
}

#[test]
fn short_reads_and_writes_change_nothing(rt: HostRuntime) -> Result<(), Fail> {
    let before = archived(rt.alloc())?;
    for command in COMMANDS {
        let course = course_of(&before, command)?;
        for piece in [1, 7] {
            told(course.goes_in_pieces(piece)?, command.name())?;
        }
    }
    Ok(())
}

/// A line of a batch that stands there twice, and what another process does in between.
struct Turn {
    line: &'static [u8],
    event: Event,
}

const NORM: &[u8] = b"[\"norm\",\"spec\",\"one\"]\n";

const GET: &[u8] = b"[\"get\",\"A\",\"1\"]\n";

const HISTORY: &[u8] = b"[\"history\",\"A\",\"[\\\"db\\\",[\\\"e\\\",1]]\"]\n";

const TURNS: &[Turn] = &[
    Turn {
        line: NORM,
        event: Event::Copies("two", "one"),
    },
    Turn {
        line: NORM,
        event: Event::Moves("two", "one"),
    },
    Turn {
        line: NORM,
        event: Event::Rewrites("one", b"[\"db\"]"),
    },
    Turn {
        line: NORM,
        event: Event::Removes("one"),
    },
    Turn {
        line: GET,
        event: Event::Copies("B", "A"),
    },
    Turn {
        line: GET,
        event: Event::Moves("B", "A"),
    },
    Turn {
        line: HISTORY,
        event: Event::Copies("B", "A"),
    },
    Turn {
        line: HISTORY,
        event: Event::Moves("B", "A"),
    },
    Turn {
        line: HISTORY,
        event: Event::Removes("A"),
    },
];

/// The disk behind a batch of these lines, where another process does this before the call of this number.
fn batched(before: &State, lines: &[&[u8]], event: Event, at: usize) -> io::Result<MemDisk> {
    let mut state = before.copied()?;
    state.say(lines)?;
    let what = What::Meets(event);
    state.plan(Some(Trouble { at, what }));
    let disk = MemDisk::new(state);
    let _ = answered(before.alloc(), &disk, &["batch"]);
    Ok(disk)
}

/// Whether the second of two equal lines answers of what another process has put there by then, and the first of what stood there
/// before: as batches of one line would.
fn is_read_anew(before: &State, turn: &Turn) -> io::Result<bool> {
    let first = batched(before, &[turn.line], turn.event, usize::MAX)?;
    let second = batched(before, &[turn.line], turn.event, 0)?;
    let at = first.state()?.log.len();
    let both = batched(before, &[turn.line, turn.line], turn.event, at)?;
    let (first, second, both) = (first.state()?, second.state()?, both.state()?);
    Ok(both.printed().strip_prefix(first.printed()) == Some(second.printed()))
}

#[test]
fn a_batch_reads_what_is_there_then(rt: HostRuntime) -> Result<(), Fail> {
    let mut before = archived(rt.alloc())?;
    for is_still in [false, true] {
        before.limits.is_still = is_still;
        for turn in TURNS {
            told(is_read_anew(&before, turn)?, "two lines of a batch")?;
        }
    }
    Ok(())
}

/// A command, and the file that another process puts in the place of one that it reads.
struct Replaced {
    words: &'static [&'static str],
    event: Event,
}

const REPLACED: &[Replaced] = &[
    Replaced {
        words: &["norm", "spec", "one"],
        event: Event::Moves("two", "one"),
    },
    Replaced {
        words: &["norm", "spec", "one"],
        event: Event::Moves("wide", "spec"),
    },
    Replaced {
        words: &["table", "csv", "t", "id", "N"],
        event: Event::Moves("longer", "csv"),
    },
    Replaced {
        words: &["table", "longer", "t", "id", "N"],
        event: Event::Moves("csv", "longer"),
    },
    Replaced {
        words: &["get", "A", "1"],
        event: Event::Moves("B", "A"),
    },
    Replaced {
        words: &["history", "A", "[\"db\",[\"e\",1]]"],
        event: Event::Moves("B", "A"),
    },
    Replaced {
        words: &["log", "A", "[\"db\",[\"e\",1]]"],
        event: Event::Moves("B", "A"),
    },
    Replaced {
        words: &["stats", "A"],
        event: Event::Moves("B", "A"),
    },
    Replaced {
        words: &["cut", "A", "N", "1", "1"],
        event: Event::Moves("B", "A"),
    },
    Replaced {
        words: &["check", "A"],
        event: Event::Moves("B", "A"),
    },
];

impl Replaced {
    /// The disk behind the command, where the file is replaced before the call of this number.
    fn behind(&self, before: &State, at: usize) -> io::Result<MemDisk> {
        let mut state = before.copied()?;
        let what = What::Meets(self.event);
        state.plan(Some(Trouble { at, what }));
        let disk = MemDisk::new(state);
        let _ = answered(before.alloc(), &disk, self.words);
        Ok(disk)
    }

    /// Whether the command, if the file is replaced before this call, prints and makes what it does of the old file or of the new.
    fn is_of_one(&self, before: &State, at: usize) -> io::Result<bool> {
        let (old, new) = (self.behind(before, usize::MAX)?, self.behind(before, 0)?);
        let met = self.behind(before, at)?;
        let (old, new, met) = (old.state()?, new.state()?, met.state()?);
        Ok(is_answer(&met, &old) || is_answer(&met, &new))
    }
}

/// Whether both commands printed the same, and made the same file.
fn is_answer(state: &State, other: &State) -> bool {
    let made = match (state.found("N"), other.found("N")) {
        (Some(made), Some(other)) => made.bytes == other.bytes,
        (None, None) => true,
        _ => false,
    };
    made && state.printed() == other.printed()
}

/// Checks a file that is replaced before each call.
fn of_one(before: &State, replaced: &Replaced) -> Result<(), Fail> {
    let calls = replaced.behind(before, usize::MAX)?.state()?.log.len();
    for at in 0..calls {
        told(
            replaced.is_of_one(before, at)?,
            "a file is replaced while it is read",
        )?;
    }
    Ok(())
}

#[test]
fn what_is_read_is_of_the_file_whose_length_was_told(rt: HostRuntime) -> Result<(), Fail> {
    let before = archived(rt.alloc())?;
    for replaced in REPLACED {
        of_one(&before, replaced)?;
    }
    Ok(())
}
