//! Commands over objects that never fail.
ghost use Rattle.std.specs.Prelude.{◌≡◌, ◌≢◌, ◌⊎◌, Some};
ghost use Rattle.xa_outside.specs.Folder.{Files};
ghost use Rattle.xa_outside.specs.InMemory.{sure_state};
ghost use Rattle.xarch_words.specs.Commands.{batch, command_of};
ghost use Rattle.xarch_words.specs.View.{words_view};
ghost use Rattle.xarch_parts.specs.Outcome.{Step};
ghost use Rattle.xarch_meanings.specs.Step.{StepIs};

use given_outside::{texts, told};
use std::alloc::{AllocError, Global};
use std::test::Fail;
use xa_outside::{SureFolder, SureSink, SureSource};
use xarch_run::run;

/// Nothing but memory can keep a defined step from being taken.
fn run_surely(
    alloc: Global,
    words: &[String],
    folder: &mut SureFolder,
    input: &mut SureSource,
    out: &mut SureSink,
    err: &mut SureSink,
) -> u8
    ensures answers { (files : Files) (s : Step) → command_of (words_view words.now) ≢ Some batch
        → (sure_state folder.old).files ≡ Some files → StepIs files (words_view words.now) s
        → (result ≡ 16) ⊎ (result ≡ s.status) }
{
    run(alloc, words, folder, input, out, err)
}

/// The archive file of one version, an empty element `db`.
const ARCHIVE: &[u8] = b"\
    XARC1\n\0\0\0\x0e(/, (db, {}))\n\0\0\0\x01\x02\0\0\0\0\0\0\0\x0c\x01\0\0\0\x02db\0\0\0\0\0\x03\
    \0\0\0\0\0\0\0\n\0\x01\0\0\0\0\0\0\0\0\x05\0\0\0\0\0\0\0\0\x04\0\0\0\0\0\0\00\0\0\0\x01\0\0\0\
    \0\0\0\0\0\0\0\0\0\0\0\01\0\0\0\0\0\0\0\0\0\0\0\x01\0\0\0\x01\0\0\0\x01\0\0\0\0\0\0\0\0\0\0\0\
    \0\0\0\00";

/// A specification, and a document of its one element.
const SPEC: &[u8] = b"(/, (db, {}))\n";

const DOC: &[u8] = b"[\"db\",[\"dept\",[\"name\",\"finance\"]]]\n";

const FILES: &[(&str, &[u8])] = &[("A", ARCHIVE), ("spec", SPEC), ("doc", DOC)];

/// Words, and the status that they have.
const ANSWERS: &[(&[&str], u8)] = &[
    (&["norm", "spec", "doc"], 0),
    (&["norm", "spec", "none"], 3),
    (&["get", "A", "1"], 0),
    (&["get", "A", "2"], 9),
    (&["history", "A", "[\"db\"]"], 0),
    (&["history", "A", "[\"a\"]"], 10),
    (&["check", "A"], 0),
    (&["check", "doc"], 11),
    (&["stats", "A"], 0),
    (&["stats", "none"], 3),
    (&["versions", "A"], 0),
    (&["versions", "none"], 3),
    (&["log", "A", "[\"db\"]"], 0),
    (&["log", "A", "[]"], 17),
    (&["export", "A"], 0),
    (&["export", "doc"], 11),
    (&["import", "doc", "B"], 20),
    (&["import", "doc", "A"], 4),
    (&["join", "A", "A", "B"], 0),
    (&["join", "A", "doc", "B"], 11),
];

fn sure_files(alloc: Global) -> Result<SureFolder, AllocError> {
    let mut folder = SureFolder::new(alloc);
    for (name, bytes) in FILES {
        folder.put(name, Vec::from_slice(alloc, bytes)?)?;
    }
    Ok(folder)
}

/// The status of these words.
fn status_of(alloc: Global, words: &[&str]) -> Result<u8, AllocError> {
    let words = texts(alloc, words)?;
    let mut folder = sure_files(alloc)?;
    let mut input = SureSource::new(Vec::new(alloc));
    let mut out = SureSink::new();
    let mut err = SureSink::new();
    Ok(run_surely(alloc, &words, &mut folder, &mut input, &mut out, &mut err))
}

#[test]
fn objects_without_faults_give_what_is_defined(rt: HostRuntime) -> Result<(), Fail> {
    for (words, status) in ANSWERS {
        told(status_of(rt.alloc(), words)? == *status, words[0])?;
    }
    Ok(())
}
