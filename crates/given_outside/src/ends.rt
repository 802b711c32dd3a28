ghost use Rattle.std.specs.Prelude.{◌≡◌, [], ◌∷◌, IfOk};
ghost use Rattle.xa_outside.specs.InMemory.{sink_state};

use given_parts::bytes::{Pieces, joined};
use std::alloc::{AllocError, Global};
use xa_outside::{MemSink, MemSource};

/// The input, and which calls of the input, of the output and of the errors' sink fail.
#[derive(Drop)]
pub struct Outside<'a> {
    pub input: Pieces,
    pub input_fails: &'a [u64],
    pub output_fails: &'a [u64],
    pub error_fails: &'a [u64],
}

/// No input, and no call fails.
pub const QUIET: Outside<'static> = Outside {
    input: &[],
    input_fails: &[],
    output_fails: &[],
    error_fails: &[],
};

/// The input, the output and the sink of errors of a run.
#[derive(Drop)]
pub struct Ends {
    pub input: MemSource,
    pub out: MemSink,
    pub err: MemSink,
}

fn source(alloc: Global, outside: &Outside) -> Result<MemSource, AllocError> {
    let bytes = joined(alloc, outside.input)?;
    let fails = Vec::from_slice(alloc, outside.input_fails)?;
    Ok(MemSource::new(bytes, fails))
}

/// The ends of a run over this outside.
pub fn ends_of(alloc: Global, outside: &Outside) -> Result<Ends, AllocError>
    ensures out { IfOk result (λ ends. sink_state ends.out ≡ record {
      taken = [];
      plan = record { fails = outside.now.output_fails.now; made = 0 };
      starved = 0;
    }) }
    ensures err { IfOk result (λ ends. sink_state ends.err ≡ record {
      taken = [];
      plan = record { fails = outside.now.error_fails.now; made = 0 };
      starved = 0;
    }) }
{
    let output_fails = Vec::from_slice(alloc, outside.output_fails)?;
    let error_fails = Vec::from_slice(alloc, outside.error_fails)?;
    let input = source(alloc, outside)?;
    let out = MemSink::new(alloc, output_fails);
    let err = MemSink::new(alloc, error_fails);
    Ok(Ends { input, out, err })
}

/// A sink whose write of this number fails.
pub fn sink(alloc: Global, fail: u64) -> Result<MemSink, AllocError>
    ensures { IfOk result (λ sink. sink_state sink ≡ record {
      taken = [];
      plan = record { fails = fail ∷ []; made = 0 };
      starved = 0;
    }) }
{
    let fails = vec![in alloc; fail]?;
    Ok(MemSink::new(alloc, fails))
}
