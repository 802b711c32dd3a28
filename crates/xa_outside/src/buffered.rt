ghost use Rattle.std.specs.Prelude.{◌≡◌, ◌<◌, ◌≤◌, [], OnOk, IfOk, length, take};
ghost use Rattle.xa_outside.specs.Taken.{Takes, TakesNone, Writes};
ghost use Rattle.std.specs.Io.{WritesAtMost};
ghost use Rattle.xa_outside.specs.Held.{held_end};
ghost use Rattle.xa_outside.specs.Causes.{HasCause};
ghost use Rattle.xa_outside.specs.Buffered.{buffered_faults, buffered_taken, sink_behind, waiting_bytes};

use crate::held::{Held, SIZE};
use crate::{Failed, Sink};

/// A sink in front of another one, to which it passes on what it takes, in pieces of kilobytes.
///
/// It has a fixed buffer of 64 KiB and takes no memory. A piece that is longer than the buffer goes
/// straight through. What still waits when the buffer is dropped is lost, so end with a `flush`.
#[derive(Drop)]
pub struct Buffered<'a, O> {
    out: &'a mut O,
    held: Held,
}

impl<'a, O: Sink> Buffered<'a, O> {
    /// An empty buffer in front of the sink.
    pub fn new(out: &'a mut O) -> Buffered<'a, O>
        ensures same_sink { (sink_behind result).ghost_name ≡ out.entry.ghost_name }
        ensures same { (sink_behind result).now ≡ out.old }
        ensures empty { waiting_bytes result ≡ [] }
    {
        Buffered {
            out,
            held: Held::new(),
        }
    }

    /// Passes on all that waits. What a failure leaves still waits, and a later flush goes on
    /// with it.
    pub fn flush(&mut self) -> Result<(), Failed>
        ensures bytes { TakesNone (buffered_taken O.taken self.old)
            (buffered_taken O.taken self.new) }
        ensures empty { OnOk result (waiting_bytes self.new ≡ []) }
        ensures cause { HasCause (buffered_faults O.faults self.old)
            (buffered_faults O.faults self.new) result }
    {
        self.pass_on()
    }

    fn pass_on(&mut self) -> Result<(), Failed>
        ensures bytes { TakesNone (buffered_taken O.taken self.old)
            (buffered_taken O.taken self.new) }
        ensures empty { OnOk result (waiting_bytes self.new ≡ []) }
        ensures room { OnOk result (held_end self.new.held ≡ 0) }
        ensures cause { HasCause (buffered_faults O.faults self.old)
            (buffered_faults O.faults self.new) result }
    {
        let (written, result) = write_out(self.held.waiting(), self.out);
        self.held.drop_front(written);
        result
    }

    /// Takes a piece that does not fit behind what waits.
    #[inline(never)]
    fn write_past(&mut self, piece: &[u8]) -> Result<usize, Failed>
        ensures bound { WritesAtMost result piece.now }
        ensures some { IfOk result (λ n. 0 < length piece.now → 0 < n) }
        ensures bytes { Writes (buffered_taken O.taken self.old)
            (buffered_taken O.taken self.new) result piece.now }
        ensures cause { HasCause (buffered_faults O.faults self.old)
            (buffered_faults O.faults self.new) result }
    {
        if piece.len() > SIZE {
            return self.write_through(piece);
        }
        self.pass_on()?;
        self.held.add(piece);
        Ok(piece.len())
    }

    /// Passes on a piece that is too long to wait, behind what waits.
    fn write_through(&mut self, piece: &[u8]) -> Result<usize, Failed>
        ensures bound { WritesAtMost result piece.now }
        ensures some { IfOk result (λ n. 0 < length piece.now → 0 < n) }
        ensures bytes { Writes (buffered_taken O.taken self.old)
            (buffered_taken O.taken self.new) result piece.now }
        ensures cause { HasCause (buffered_faults O.faults self.old)
            (buffered_faults O.faults self.new) result }
    {
        self.pass_on()?;
        self.out.write(piece)
    }
}

impl<O: Sink> Sink for Buffered<'_, O> {
    ghost taken = { buffered_taken O.taken };

    ghost faults = { buffered_faults O.faults };

    #[inline]
    fn write(&mut self, piece: &[u8]) -> Result<usize, Failed> {
        if self.held.has_room(piece.len()) {
            self.held.add(piece);
            return Ok(piece.len());
        }
        self.write_past(piece)
    }
}

/// Writes until all is written or a write fails, and answers how many bytes were written.
fn write_out<O: Sink>(bytes: &[u8], to: &mut O) -> (usize, Result<(), Failed>)
    ensures bound { result.0 ≤ length bytes.now }
    ensures all { OnOk result.1 (result.0 ≡ length bytes.now) }
    ensures bytes { Takes (O.taken to.old) (O.taken to.new) (take result.0 bytes.now) }
    ensures cause { HasCause (O.faults to.old) (O.faults to.new) result.1 }
{
    let mut written = 0;
    while written < bytes.len() {
        match to.write(&bytes[written..]) {
            Ok(count) => written += count,
            Err(failed) => return (written, Err(failed)),
        }
    }
    (written, Ok(()))
}
