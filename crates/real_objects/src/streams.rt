ghost use Rattle.std.specs.Prelude.{◌≡◌};

use crate::again::{read_again, write_again};
use std::io::{Read, Write};
use xa_outside::{Failed, Sink, Source};

/// A reader as a source, with a count of its failures. A read that a signal interrupts is tried again, at most 1,000 times.
#[derive(Drop)]
pub struct ReaderSource<R> {
    inner: R,
    faults: u64,
}

impl<R: Read> ReaderSource<R> {
    /// What the reader has left, as a source that has not failed.
    pub fn new(inner: R) -> ReaderSource<R>
        ensures rest { ⟦<ReaderSource<R> as Source>⟧.rest result ≡ R.remaining inner }
        ensures faults { ⟦<ReaderSource<R> as Source>⟧.faults result ≡ 0 }
    {
        ReaderSource { inner, faults: 0 }
    }
}

impl<R: Read> Source for ReaderSource<R> {
    ghost rest = { λ s. R.remaining s.inner };

    ghost faults = { λ s. s.faults };

    fn read(&mut self, buf: &mut [u8]) -> Result<usize, Failed> {
        match read_again(&mut self.inner, buf) {
            Ok(count) => Ok(count),
            Err(_) => {
                self.faults = self.faults.saturating_add(1);
                Err(Failed)
            }
        }
    }
}

/// A writer as a sink, with a count of its failures. Taking nothing of a piece that is not empty is one. A write that a signal
/// interrupts is tried again, at most 1,000 times.
#[derive(Drop)]
pub struct WriterSink<W> {
    inner: W,
    faults: u64,
}

impl<W: Write> WriterSink<W> {
    ghost use Rattle.xa_outside.specs.Taken.{plainly};

    /// What the writer has taken, as a sink that has not failed.
    pub fn new(inner: W) -> WriterSink<W>
        ensures taken { ⟦<WriterSink<W> as Sink>⟧.taken result ≡ plainly (W.contents inner) }
        ensures faults { ⟦<WriterSink<W> as Sink>⟧.faults result ≡ 0 }
    {
        WriterSink { inner, faults: 0 }
    }
}

impl<W: Write> Sink for WriterSink<W> {
    ghost use Rattle.xa_outside.specs.Taken.{plainly};

    ghost taken = { λ s. plainly (W.contents s.inner) };

    ghost faults = { λ s. s.faults };

    fn write(&mut self, piece: &[u8]) -> Result<usize, Failed> {
        match write_again(&mut self.inner, piece) {
            Ok(count) if count > 0 || piece.is_empty() => Ok(count),
            _ => {
                self.faults = self.faults.saturating_add(1);
                Err(Failed)
            }
        }
    }
}
