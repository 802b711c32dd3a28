ghost use Rattle.std.specs.Prelude.{◌≡◌, ◌≢◌, ◌≤◌, ℕ, List, IfOk, IfErr, OnErr};
ghost use Rattle.xa_outside.specs.Causes.{Rose};
ghost use Rattle.xarch_run.specs.Batch.{shown};
ghost use Rattle.xarch_run.specs.Shown.{Shows};
ghost use Rattle.xarch_run.specs.Stays.{Stays};
ghost use Rattle.xarch_run.specs.Turns.{IsLastStatus, IsUntouched, LineRuns, LineTakes, StatusEnds};

use crate::answers::{put_status, say};
use crate::line::Line;
use crate::step::take_step;
use crate::words::read_line_words;
use std::alloc::{AllocError, Global};
use xa_outside::{Folder, Sink};
use xarch_words::limits::LINE;
use xarch_words::{Fault, Quantity, status};

/// Runs one line, unless it is blank, and writes its status line. An error is the status with which
/// it ends the batch.
pub(crate) fn run_line<F: Folder, O: Sink, E: Sink>(
    alloc: Global,
    line: &Line,
    folder: &mut F,
    out: &mut O,
    err: &mut E,
) -> Result<(), u8>
    ensures runs { (bytes : List ℕ) → Shows line.now bytes
        → LineRuns (shown F.files O.taken E.taken E.faults folder.old folder.new
        out.old out.new err.old err.new) bytes result }
    ensures status { IfErr result (IsLastStatus (F.faults folder.old) (F.faults folder.new)
        (O.faults out.old) (O.faults out.new)) }
    ensures folder { Stays F.files F.draft F.faults folder.old folder.new }
    ensures out_later { O.faults out.old ≤ O.faults out.new }
    ensures err_later { E.faults err.old ≤ E.faults err.new }
{
    if line.is_blank() {
        return Ok(());
    }
    match take_line(alloc, line, folder, out, err) {
        Ok(status) => end_line(status, out, err),
        Err(_) => Err(say(&Fault::Memory, err)),
    }
}

/// Has the words of a line done, and answers their status. On want of memory for the words nothing
/// is done.
fn take_line<F: Folder, O: Sink, E: Sink>(
    alloc: Global,
    line: &Line,
    folder: &mut F,
    out: &mut O,
    err: &mut E,
) -> Result<u8, AllocError>
    ensures takes { (bytes : List ℕ) → Shows line.now bytes
        → IfOk result (λ status. LineTakes (F.files folder.old) (F.files folder.new) bytes status
        (O.taken out.old) (O.taken out.new) (E.taken err.old) (E.taken err.new)
        (E.faults err.old) (E.faults err.new)) }
    ensures no_words { OnErr result (IsUntouched (F.files folder.old) (F.files folder.new)
        (O.taken out.old) (O.taken out.new) (E.taken err.old) (E.taken err.new)
        (E.faults err.old) (E.faults err.new)) }
    ensures folder_fault { IfOk result (λ status. status ≡ 13
        → Rose (F.faults folder.old) (F.faults folder.new)) }
    ensures out_fault { IfOk result (λ status. status ≡ 14
        → Rose (O.faults out.old) (O.faults out.new)) }
    ensures never_input_fault { IfOk result (λ status. status ≢ 15) }
    ensures folder { Stays F.files F.draft F.faults folder.old folder.new }
    ensures out_later { O.faults out.old ≤ O.faults out.new }
    ensures err_later { E.faults err.old ≤ E.faults err.new }
{
    if line.is_too_long() {
        return Ok(say(
            &Fault::Limit {
                quantity: Quantity::Line,
                number: LINE as u64,
            },
            err,
        ));
    }
    match read_line_words(alloc, line.bytes())? {
        None => Ok(say(&Fault::Usage, err)),
        Some(words) => Ok(take_step(alloc, &words, folder, out, err)),
    }
}

/// Writes the status line, unless a write of the command failed. An error is the status with which
/// the batch ends.
fn end_line<O: Sink, E: Sink>(answer: u8, out: &mut O, err: &mut E) -> Result<(), u8>
    requires { answer ≢ 15 }
    ensures ends { StatusEnds answer (O.taken out.old) (O.taken out.new) (E.taken err.old)
        (E.taken err.new) (E.faults err.old) (E.faults err.new) (O.faults out.old)
        (O.faults out.new) result }
    ensures out_later { O.faults out.old ≤ O.faults out.new }
    ensures err_later { E.faults err.old ≤ E.faults err.new }
{
    if answer == status(&Fault::OutFault) {
        return Err(answer);
    }
    if put_status(out, answer).is_err() {
        return Err(say(&Fault::OutFault, err));
    }
    if answer == status(&Fault::FolderFault) || answer == status(&Fault::Memory) {
        return Err(answer);
    }
    Ok(())
}
