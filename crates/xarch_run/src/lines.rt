ghost use Rattle.std.specs.Prelude.{◌≡◌, ◌≤◌, ℕ, List, [], IfOk};
ghost use Rattle.std.specs.List.{position};
ghost use Rattle.xarch_words.specs.declared.limits.TheConstants.{BATCH};
ghost use Rattle.xarch_run.specs.Lines.{is_line_feed};

use crate::feed::Feed;
use crate::line::Line;
use crate::stop::Stop;
use std::alloc::{AllocError, Global};
use xa_outside::Source;

/// The reader of a batch, and the line that it read last.
#[derive(Drop)]
pub(crate) struct Lines {
    feed: Feed,
    line: Line,
}

impl Lines {
    ghost use Rattle.xarch_run.specs.Feed.{StopIsCaused, budget, pending};
    ghost use Rattle.xarch_run.specs.Shown.{Shows};
    ghost use Rattle.xarch_run.specs.Taking.{PutsPiece, TakesLine};

    pub(crate) fn new(alloc: Global) -> Result<Lines, AllocError>
        ensures empty { IfOk result (λ l. pending l.feed ≡ []) }
        ensures budget { IfOk result (λ l. budget l.feed ≡ BATCH) }
    {
        Ok(Lines {
            feed: Feed::new(alloc)?,
            line: Line::new(alloc),
        })
    }

    pub(crate) fn line(&self) -> &Line
        ensures { result.now ≡ self.now.line }
    {
        &self.line
    }

    /// Reads the next line, and answers whether an LF ended it. Else it ends with the input.
    pub(crate) fn next<S: Source>(&mut self, input: &mut S) -> Result<bool, Stop>
        ensures takes { TakesLine self.old self.new (S.rest input.old) (S.rest input.new) result }
        ensures later { S.faults input.old ≤ S.faults input.new }
        ensures cause { StopIsCaused (S.faults input.old) (S.faults input.new) result }
    {
        self.line.clear();
        loop {
            if !self.feed.has_more(input)? {
                return Ok(false);
            }
            if self.take_piece()? {
                return Ok(true);
            }
        }
    }

    /// Puts the pending bytes to the line, up to the first LF, and answers whether there is one.
    fn take_piece(&mut self) -> Result<bool, AllocError>
        ensures puts { (line : List ℕ) → Shows self.old.line line
            → IfOk result (PutsPiece self.old self.new line) }
        ensures left { self.new.feed.left ≡ self.old.feed.left }
    {
        match line_feed_in(self.feed.pending()) {
            Some(at) => {
                self.line.add(&self.feed.pending()[..at])?;
                self.feed.skip(at + 1);
                Ok(true)
            }
            None => {
                self.line.add(self.feed.pending())?;
                self.feed.skip(self.feed.pending().len());
                Ok(false)
            }
        }
    }
}

/// Where the first LF is.
fn line_feed_in(bytes: &[u8]) -> Option<usize>
    ensures { result ≡ position is_line_feed bytes.now }
{
    bytes.iter().position(|byte| *byte == b'\n')
}
