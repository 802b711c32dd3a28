ghost use Rattle.std.specs.Prelude.{◌≡◌, ◌<◌, [], Some, IfOk, length};
ghost use Rattle.std.specs.Io.{WritesAtMost};
ghost use Rattle.xa_outside.specs.Causes.{HasCause};
ghost use Rattle.xa_outside.specs.Taken.{Writes, plainly};

use crate::script::Script;
use crate::{Failed, Sink};
use std::alloc::Global;

/// Takes bytes into memory; listed writes fail.
#[derive(Drop)]
pub struct MemSink {
    taken: Vec<u8>,
    script: Script,
    starved: u64,
}

impl MemSink {
    ghost use Rattle.xa_outside.specs.InMemory.{sink_state};

    /// The writes numbered in `fails`, counted from 1, fail.
    pub fn new(alloc: Global, fails: Vec<u64>) -> MemSink
        ensures { sink_state result
            ≡ record { taken = []; plan = record { fails = fails.items; made = 0 }; starved = 0 } }
    {
        MemSink {
            taken: Vec::new(alloc),
            script: Script::new(fails),
            starved: 0,
        }
    }

    /// All bytes taken so far.
    pub fn taken(&self) -> &[u8]
        ensures { result.now ≡ (sink_state self.now).taken }
    {
        &self.taken
    }

    /// How many growths were refused.
    pub fn starved(&self) -> u64
        ensures { result ≡ (sink_state self.now).starved }
    {
        self.starved
    }
}

impl Sink for MemSink {
    ghost use Rattle.xa_outside.specs.InMemory.{WritesByPlan, sink_faults, sink_state};

    ghost taken = { λ s. plainly (Some (sink_state s).taken) };

    ghost faults = { sink_faults };

    /// Takes the whole piece.
    fn write(&mut self, piece: &[u8]) -> Result<usize, Failed>
        ensures bound { WritesAtMost result piece.now }
        ensures whole { IfOk result (λ n. n ≡ length piece.now) }
        ensures some { IfOk result (λ n. 0 < length piece.now → 0 < n) }
        ensures bytes { Writes (plainly (Some (sink_state self.old).taken))
            (plainly (Some (sink_state self.new).taken)) result piece.now }
        ensures cause { HasCause (sink_faults self.old) (sink_faults self.new) result }
        ensures by_plan { WritesByPlan (sink_state self.old) (sink_state self.new) result }
    {
        let listed = self.script.next_fails();
        if listed || self.starved == u64::MAX {
            return Err(Failed);
        }
        match self.taken.extend_from_slice(piece) {
            Ok(()) => Ok(piece.len()),
            Err(_) => {
                self.starved += 1;
                Err(Failed)
            }
        }
    }
}
