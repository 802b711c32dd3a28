ghost use Rattle.std.specs.Prelude.{◌≡◌, ◌≤◌, ◌↔◌, Some, IsErr, IfOk, length, min, vec_len};
ghost use Rattle.std.specs.Io.{ReadsAtMost};
ghost use Rattle.std.specs.Io.KnownBytes.{ReadConsumes};
ghost use Rattle.xa_outside.specs.Causes.{HasCause};
ghost use Rattle.xa_outside.specs.Planned.{IsNextListed, after_call};

use crate::copy::copy_front;
use crate::script::Script;
use crate::{Failed, Source};

/// Bytes in memory, whose listed reads fail.
#[derive(Drop)]
pub struct MemSource {
    bytes: Vec<u8>,
    at: usize,
    script: Script,
    ghost in_range: { at ≤ vec_len bytes },
}

impl MemSource {
    ghost use Rattle.xa_outside.specs.InMemory.{source_state};

    /// The reads numbered in `fails`, counted from 1, fail.
    pub fn new(bytes: Vec<u8>, fails: Vec<u64>) -> MemSource
        ensures { source_state result
            ≡ record { rest = bytes.items; plan = record { fails = fails.items; made = 0 } } }
    {
        MemSource {
            bytes,
            at: 0,
            script: Script::new(fails),
        }
    }
}

impl Source for MemSource {
    ghost use Rattle.xa_outside.specs.InMemory.{source_faults, source_state};

    ghost rest = { λ s. Some (source_state s).rest };

    ghost faults = { source_faults };

    /// Gives as much as there is, and as there is room for.
    fn read(&mut self, buf: &mut [u8]) -> Result<usize, Failed>
        ensures bound { ReadsAtMost result buf.new }
        ensures count { IfOk result (λ n.
            n ≡ min (length buf.new) (length (source_state self.old).rest)) }
        ensures bytes { ReadConsumes (Some (source_state self.old).rest)
            (Some (source_state self.new).rest) result buf.new }
        ensures cause { HasCause (source_faults self.old) (source_faults self.new) result }
        ensures listed { IsErr result ↔ IsNextListed (source_state self.old).plan }
        ensures plan { (source_state self.new).plan ≡ after_call (source_state self.old).plan }
    {
        if self.script.next_fails() {
            return Err(Failed);
        }
        let count = copy_front(&self.bytes[self.at..], buf);
        self.at += count;
        Ok(count)
    }
}
