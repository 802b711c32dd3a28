use given_outside::{is_stored, told};
use real_objects::DiskFolder;
use real_program::serve;
use std::alloc::Global;
use std::env::FillError;
use std::fs;
use std::rt::Env;
use std::test::Fail;

/// The words that a program is given, the first of which is its name. They need not be text.
#[derive(Drop)]
struct Given<'a> {
    words: &'a [&'a [u8]],
}

impl Env for Given<'_> {
    fn arg(&self, i: usize, buf: &mut [u8]) -> Result<usize, FillError> {
        if i == 0 {
            return Ok(0);
        }
        let Some(word) = self.words.get(i - 1) else {
            return Err(FillError::NotPresent);
        };
        let count = word.len();
        if count > buf.len() {
            return Err(FillError::TooLong);
        }
        buf[..count].copy_from_slice(word);
        Ok(count)
    }

    fn var(&self, _name: &str, _buf: &mut [u8]) -> Result<usize, FillError> {
        Err(FillError::NotPresent)
    }

    fn var_at(&self, _i: usize, _buf: &mut [u8]) -> Result<usize, FillError> {
        Err(FillError::NotPresent)
    }
}

/// A call of the program: the words behind its name, its input, its status, and what it writes on either stream.
struct Call(
    &'static [&'static [u8]],
    &'static [u8],
    u8,
    &'static [u8],
    &'static [u8],
);

const FILES: &[(&str, &[u8])] = &[
    ("xarch-test-spec", b"(/, (db, {}))\n"),
    ("xarch-test-other-spec", b"(/, (db, {}))\n(/db, (r, {k}))\n"),
    ("xarch-test-doc", b"[\"db\"]\n"),
    ("xarch-test-no-json", b"not json"),
    ("xarch-test-csv", b"id,name\n1,a\n2,b\n"),
    ("xarch-test-bad-csv", b"id,name\n1\n"),
    ("xarch-test-no-text", b"no text"),
];

const MADE: &[&str] = &[
    "xarch-test-A",
    "xarch-test-B",
    "xarch-test-C",
    "xarch-test-rows",
    "xarch-test-rows-spec",
];

const CALLS: &[Call] = &[
    Call(
        &[b"init", b"xarch-test-A", b"xarch-test-spec"],
        b"",
        0,
        b"",
        b"",
    ),
    Call(
        &[b"add", b"xarch-test-A", b"xarch-test-doc"],
        b"",
        0,
        b"",
        b"",
    ),
    Call(
        &[b"add", b"xarch-test-A", b"xarch-test-doc", b"a note"],
        b"",
        0,
        b"",
        b"",
    ),
    Call(
        &[b"cut", b"xarch-test-A", b"xarch-test-B", b"2", b"2"],
        b"",
        0,
        b"",
        b"",
    ),
    Call(&[b"get", b"xarch-test-B", b"1"], b"", 0, b"[\"db\"]\n", b""),
    Call(&[b"versions", b"xarch-test-B"], b"", 0, b"1 a note\n", b""),
    Call(
        &[
            b"table",
            b"xarch-test-csv",
            b"db",
            b"id",
            b"xarch-test-rows",
        ],
        b"",
        0,
        b"",
        b"",
    ),
    Call(
        &[b"tablekeys", b"db", b"id", b"xarch-test-rows-spec"],
        b"",
        0,
        b"",
        b"",
    ),
    Call(
        &[b"norm", b"xarch-test-rows-spec", b"xarch-test-rows"],
        b"",
        0,
        b"[\"db\",[\"row\",{\"id\":\"1\",\"name\":\"a\"}],[\"row\",{\"id\":\"2\",\"name\":\"b\"}]]\n",
        b"",
    ),
    Call(
        &[b"batch"],
        b"[\"get\",\"xarch-test-B\",\"1\"]\n[\"log\",\"xarch-test-A\",\"[]\"]\n",
        0,
        b"[\"db\"]\nstatus 0\nstatus 17\n",
        b"xarch: path is not at the frontier\n",
    ),
    // Words that are no command.
    Call(&[], b"", 2, b"", b"xarch: these words are no command\n"),
    Call(
        &[b"cut", b"xarch-test-A", b"xarch-test-B", b"2", b"2", b"2"],
        b"",
        2,
        b"",
        b"xarch: these words are no command\n",
    ),
    Call(
        &[b"get", b"xarch-test-\xff", b"1"],
        b"",
        2,
        b"",
        b"xarch: these words are no command\n",
    ),
    // Refusals, and a fault of the folder.
    Call(
        &[b"init", b"xarch-test-A", b"xarch-test-spec"],
        b"",
        4,
        b"",
        b"xarch: xarch-test-A exists\n",
    ),
    Call(
        &[b"add", b"xarch-test-A", b"xarch-test-no-json"],
        b"",
        6,
        b"",
        b"xarch: bad json\n",
    ),
    Call(
        &[b"get", b"xarch-test-A", b"9"],
        b"",
        9,
        b"",
        b"xarch: no version 9 of 2\n",
    ),
    Call(
        &[b"get", b".", b"1"],
        b"",
        13,
        b"",
        b"xarch: folder fault\n",
    ),
    Call(
        &[b"log", b"xarch-test-A", b"[]"],
        b"",
        17,
        b"",
        b"xarch: path is not at the frontier\n",
    ),
    Call(
        &[b"init", b"xarch-test-C", b"xarch-test-other-spec"],
        b"",
        0,
        b"",
        b"",
    ),
    Call(
        &[b"join", b"xarch-test-A", b"xarch-test-C", b"xarch-test-D"],
        b"",
        18,
        b"",
        b"xarch: keys of xarch-test-A and xarch-test-C differ\n",
    ),
    Call(
        &[
            b"table",
            b"xarch-test-bad-csv",
            b"db",
            b"id",
            b"xarch-test-D",
        ],
        b"",
        19,
        b"",
        b"xarch: bad table, record 2, why 2\n",
    ),
    Call(
        &[b"import", b"xarch-test-no-text", b"xarch-test-D"],
        b"",
        20,
        b"",
        b"xarch: bad text\n",
    ),
];

/// Whether these words are answered so, and no draft is left.
fn is_answered(rt: &HostRuntime, called: &Call) -> bool {
    let Call(words, input, status, out, err) = called;
    let given = (Given { words }, rt.alloc());
    let mut written = Vec::new(rt.alloc());
    let mut said = Vec::new(rt.alloc());
    let answer = serve(rt, &given, *input, &mut written, &mut said);
    answer == *status
        && written.as_slice() == *out
        && said.as_slice() == *err
        && fs::open(rt, ".xarch-draft").is_err()
}

/// Whether each file is stored.
fn are_stored(rt: &HostRuntime) -> bool {
    let mut folder = DiskFolder::new(rt, rt.alloc());
    for (name, bytes) in FILES {
        if !is_stored(&mut folder, name, &[bytes]) {
            return false;
        }
    }
    true
}

/// Whether each file that stands is taken away.
fn are_removed(rt: &HostRuntime) -> bool {
    for (name, _) in FILES {
        if fs::remove_file(rt, name).is_err() {
            return false;
        }
    }
    for name in MADE {
        if fs::remove_file(rt, name).is_err() {
            return false;
        }
    }
    true
}

#[test]
fn each_call_answers_on_the_stream_that_is_for_it(rt: HostRuntime) -> Result<(), Fail> {
    assert!(rt; are_stored(&rt));
    for called in CALLS {
        assert!(rt; is_answered(&rt, called), "{}", called.2);
    }
    told(are_removed(&rt), "a file is missing")
}

#[test]
fn an_output_without_room_is_a_fault(rt: HostRuntime) {
    let given = (
        Given {
            words: &[b"demo", b"7", b"1", b"xarch-test-of-the-output"],
        },
        rt.alloc(),
    );
    let mut said = Vec::new(rt.alloc());
    let (input, mut room): (&[u8], [u8; 3]) = (&[], [0; 3]);
    let answer = serve(&rt, &given, input, &mut room[..], &mut said);
    assert!(rt; answer == 14 && said.as_slice() == b"xarch: output fault\n".as_slice());
    assert!(rt; fs::open(&rt, "xarch-test-of-the-output").is_err());
    assert!(rt; fs::open(&rt, ".xarch-draft").is_err());
}
