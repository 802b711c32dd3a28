ghost use Rattle.std.specs.Prelude.{◌≡◌, ◌≢◌, ◌≤◌, IfOk, IfErr};
ghost use Rattle.std.specs.IoError.{error_kind};
ghost use Rattle.xarch_words.specs.Lines.{fault_line, fault_status};
ghost use Rattle.xarch_words.specs.Refusal.{memory, refused, usage};
ghost use Rattle.xarch_words.specs.View.{fault_view, words_view};
ghost use Rattle.xarch_meanings.specs.Ran.{Says};
ghost use Rattle.xarch_run.specs.Batch.{shown};
ghost use Rattle.real_program.specs.Serves.{IsOfWords, IsStatus, Runs, counted};

use real_objects::{DiskFolder, ReaderSource, System, WriterSink};
use std::alloc::Global;
use std::env;
use std::io::{Error, ErrorKind, Read, Write};
use std::rt::Env;
use xa_outside::{Folder, Sink, Source};
use xarch_run::{run, say};
use xarch_words::Fault;

/// Why the words that were given could not be read: one of them is not UTF-8, or no memory was found for them.
fn fault_of_words(error: &Error) -> Fault
    ensures usage { error_kind error.now ≡ ErrorKind.InvalidData
        → fault_view result ≡ refused usage }
    ensures memory { error_kind error.now ≢ ErrorKind.InvalidData → fault_view result ≡ memory }
{
    if error.kind() == ErrorKind::InvalidData {
        Fault::Usage
    } else {
        Fault::Memory
    }
}

/// The words after the program's name, or the fault with which the program ends without them.
fn words_of<V: Env + AllocGlobal>(given: &V) -> Result<Vec<String>, Fault>
    ensures { IfErr result (λ fault. IsOfWords (fault_view fault)) }
{
    let all = match env::args(given) {
        Ok(all) => all,
        Err(error) => return Err(fault_of_words(&error)),
    };
    let mut words = Vec::new(given.alloc());
    for word in all.skip(1) {
        words.push(word)?;
    }
    Ok(words)
}

/// Does what the words say, and answers the status: what `run` says of the files, the answer, the output and the line, as one
/// record.
fn run_given<F: Folder, S: Source, O: Sink, E: Sink>(
    alloc: Global,
    words: &[String],
    folder: &mut F,
    input: &mut S,
    out: &mut O,
    err: &mut E,
) -> u8
    ensures ran { Runs (words_view words.now)
        (shown F.files O.taken E.taken E.faults folder.old folder.new
        out.old out.new err.old err.new)
        (counted F.faults S.faults O.faults S.rest folder.old folder.new
        input.old input.new out.old out.new) result }
    ensures status { IsStatus result }
{
    run(alloc, words, folder, input, out, err)
}

/// Does what the words say, or says why there are none, and answers the status.
pub fn run_words<F: Folder, S: Source, O: Sink, E: Sink>(
    alloc: Global,
    words: &Result<Vec<String>, Fault>,
    folder: &mut F,
    input: &mut S,
    out: &mut O,
    err: &mut E,
) -> u8
    // Where there are words: what `run` does with them.
    ensures ran { IfOk words.now (λ given. Runs (words_view given.items)
        (shown F.files O.taken E.taken E.faults folder.old folder.new
        out.old out.new err.old err.new)
        (counted F.faults S.faults O.faults S.rest folder.old folder.new
        input.old input.new out.old out.new) result) }

    // Where there are none: the status and the line of the fault, and nothing else.
    ensures refused { IfErr words.now (λ fault. result ≡ fault_status (fault_view fault)) }
    ensures said { IfErr words.now (λ fault. Says (E.taken err.old) (E.taken err.new)
        (E.faults err.old) (E.faults err.new) (fault_line (fault_view fault))) }
    ensures folder_stays { IfErr words.now (λ _. folder.new ≡ folder.old) }
    ensures input_stays { IfErr words.now (λ _. input.new ≡ input.old) }
    ensures out_stays { IfErr words.now (λ _. out.new ≡ out.old) }
    ensures status { IsStatus result }
{
    match words {
        Ok(words) => run_given(alloc, words, folder, input, out, err),
        Err(fault) => say(fault, err),
    }
}

/// The program: does what the words after the first of those given say, over the folder that the system runs it in and
/// these streams, and answers the status with which it ends. No draft is left.
pub fn serve<R: System, V: Env + AllocGlobal, I: Read + Drop, O: Write + Drop, E: Write + Drop>(
    system: &R,
    given: &V,
    input: I,
    out: O,
    err: E,
) -> u8
    ensures { IsStatus result }
{
    let alloc = given.alloc();
    let words = words_of(given);
    let mut folder = DiskFolder::new(system, alloc);
    let mut input = ReaderSource::new(input);
    let mut out = WriterSink::new(out);
    let mut err = WriterSink::new(err);
    let status = run_words(alloc, &words, &mut folder, &mut input, &mut out, &mut err);
    folder.discard();
    status
}
