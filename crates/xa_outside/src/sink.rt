ghost use Rattle.std.specs.Prelude.{ℕ, ◌<◌, length, IfOk};
ghost use Rattle.std.specs.Io.{WritesAtMost};
ghost use Rattle.xa_outside.specs.Taken.{Taken, Writes, Puts};
ghost use Rattle.xa_outside.specs.Causes.{HasCause};

use crate::Failed;

/// A place where bytes go.
pub trait Sink {
    /// All bytes taken so far, where the sink tells them, and the sinks behind it.
    ghost taken: { Self → Taken };

    /// How often it has failed.
    ghost faults: { Self → ℕ };

    /// Takes bytes of the front of the piece, and answers how many. Taking none is a fault.
    fn write(&mut self, piece: &[u8]) -> Result<usize, Failed>
        ensures bound { WritesAtMost result piece.now }
        ensures some { IfOk result (λ n. 0 < length piece.now → 0 < n) }
        ensures bytes { Writes (taken self.old) (taken self.new) result piece.now }
        ensures cause { HasCause (faults self.old) (faults self.new) result };
}

/// Writes the whole piece.
#[inline]
pub fn put_all<K: Sink>(sink: &mut K, piece: &[u8]) -> Result<(), Failed>
    ensures bytes { Puts (K.taken sink.old) (K.taken sink.new) result piece.now }
    ensures cause { HasCause (K.faults sink.old) (K.faults sink.new) result }
{
    if piece.is_empty() {
        return Ok(());
    }
    let done = sink.write(piece)?;
    if done < piece.len() {
        return put_rest(sink, &piece[done..]);
    }
    Ok(())
}

/// Writes what a first write of a piece has left.
#[inline(never)]
fn put_rest<K: Sink>(sink: &mut K, piece: &[u8]) -> Result<(), Failed>
    ensures bytes { Puts (K.taken sink.old) (K.taken sink.new) result piece.now }
    ensures cause { HasCause (K.faults sink.old) (K.faults sink.new) result }
{
    let mut done = 0;
    while done < piece.len() {
        done += sink.write(&piece[done..])?;
    }
    Ok(())
}
