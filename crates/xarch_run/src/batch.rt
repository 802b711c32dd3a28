ghost use Rattle.std.specs.Prelude.{◌≡◌, ◌≤◌, ℕ, List, Some};
ghost use Rattle.xarch_words.specs.View.{fault_view};
ghost use Rattle.xarch_run.specs.Batch.{BatchEnds, IsAnswer, ReadsAsSaid, shown};
ghost use Rattle.xarch_run.specs.Faults.{stop_fault};
ghost use Rattle.xarch_run.specs.Stays.{Stays};

use crate::answers::say;
use crate::lines::Lines;
use crate::stop::Stop;
use crate::turn::run_line;
use std::alloc::Global;
use xa_outside::{Folder, Sink, Source};
use xarch_words::limits::BATCH;
use xarch_words::{Fault, Quantity};

/// Runs the lines of the input, one after another, and answers the status with which the batch
/// ends.
pub(crate) fn run_batch<F: Folder, S: Source, O: Sink, E: Sink>(
    alloc: Global,
    folder: &mut F,
    input: &mut S,
    out: &mut O,
    err: &mut E,
) -> u8
    ensures ends { (bytes : List ℕ) → S.rest input.old ≡ Some bytes
        → BatchEnds (shown F.files O.taken E.taken E.faults folder.old folder.new
        out.old out.new err.old err.new) bytes (S.rest input.new) result }
    ensures answer { IsAnswer (F.faults folder.old) (F.faults folder.new) (S.faults input.old)
        (S.faults input.new) (O.faults out.old) (O.faults out.new) result }
    ensures read { (bytes : List ℕ) → S.rest input.old ≡ Some bytes
        → ReadsAsSaid bytes (S.rest input.new) result }
    ensures folder { Stays F.files F.draft F.faults folder.old folder.new }
    ensures input_later { S.faults input.old ≤ S.faults input.new }
    ensures out_later { O.faults out.old ≤ O.faults out.new }
    ensures err_later { E.faults err.old ≤ E.faults err.new }
{
    let mut lines = match Lines::new(alloc) {
        Ok(lines) => lines,
        Err(_) => return say(&Fault::Memory, err),
    };
    loop {
        let ended = match lines.next(input) {
            Ok(ended) => ended,
            Err(stop) => return say(&fault_of(stop), err),
        };
        if let Err(status) = run_line(alloc, lines.line(), folder, out, err) {
            return status;
        }
        if !ended {
            return 0;
        }
    }
}

/// The fault with which a batch ends where no further line comes.
fn fault_of(stop: Stop) -> Fault
    ensures { fault_view result ≡ stop_fault stop }
{
    match stop {
        Stop::Failed => Fault::InFault,
        Stop::PastLimit => Fault::Limit {
            quantity: Quantity::Batch,
            number: BATCH as u64,
        },
        Stop::Memory => Fault::Memory,
    }
}
