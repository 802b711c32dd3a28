ghost use Rattle.std.specs.Prelude.{◌≡◌, ◌+◌, ◌<◌, ◌≤◌, [], IfOk, drop, length, vec_len};
ghost use Rattle.xarch_words.specs.declared.limits.TheConstants.{BATCH};

use crate::front::read_front;
use crate::stop::Stop;
use std::alloc::{AllocError, Global};
use xa_outside::Source;
use xarch_words::limits::BATCH;

/// How many bytes are read at once at most.
const SIZE: usize = 65_536;

/// The bytes of a batch that are read and not yet taken, in a buffer of fixed size.
#[derive(Drop)]
pub(crate) struct Feed {
    buffer: Vec<u8>,
    start: usize,
    end: usize,
    left: usize,
    ghost ordered: { start ≤ end },
    ghost in_range: { end ≤ vec_len buffer },
    ghost some: { 0 < vec_len buffer },
}

impl Feed {
    ghost use Rattle.xarch_run.specs.Feed.{Fills, StopIsCaused, budget, pending};

    pub(crate) fn new(alloc: Global) -> Result<Feed, AllocError>
        ensures empty { IfOk result (λ f. pending f ≡ []) }
        ensures budget { IfOk result (λ f. budget f ≡ BATCH) }
    {
        Ok(Feed {
            buffer: vec![in alloc; 0u8; SIZE]?,
            start: 0,
            end: 0,
            left: BATCH,
        })
    }

    pub(crate) fn pending(&self) -> &[u8]
        ensures { result.now ≡ pending self.now }
    {
        &self.buffer[self.start..self.end]
    }

    /// Takes the first of the pending bytes.
    pub(crate) fn skip(&mut self, count: usize)
        requires { count ≤ length (pending self.old) }
        ensures pending { pending self.new ≡ drop count (pending self.old) }
        ensures budget { count + budget self.new ≡ budget self.old }
    {
        self.start += count;
    }

    /// Whether a byte is pending, after a read where none was. It reads no byte past those that a
    /// batch may have but the one behind them.
    pub(crate) fn has_more<S: Source>(&mut self, input: &mut S) -> Result<bool, Stop>
        ensures fills { Fills self.old self.new (S.rest input.old) (S.rest input.new) result }
        ensures later { S.faults input.old ≤ S.faults input.new }
        ensures cause { StopIsCaused (S.faults input.old) (S.faults input.new) result }
    {
        if self.start < self.end {
            return Ok(true);
        }
        self.read_more(input)
    }

    fn read_more<S: Source>(&mut self, input: &mut S) -> Result<bool, Stop>
        requires { pending self.old ≡ [] }
        ensures fills { Fills self.old self.new (S.rest input.old) (S.rest input.new) result }
        ensures later { S.faults input.old ≤ S.faults input.new }
        ensures cause { StopIsCaused (S.faults input.old) (S.faults input.new) result }
    {
        let room = self.buffer.len().min(self.left.max(1));
        let count = match read_front(input, &mut self.buffer, room) {
            Ok(count) => count,
            Err(_) => return Err(Stop::Failed),
        };
        if count == 0 {
            return Ok(false);
        }
        if count > self.left {
            return Err(Stop::PastLimit);
        }
        self.start = 0;
        self.end = count;
        self.left -= count;
        Ok(true)
    }
}
