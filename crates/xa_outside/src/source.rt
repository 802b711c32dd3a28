ghost use Rattle.std.specs.Prelude.{List, ℕ, Option};
ghost use Rattle.std.specs.Io.{ReadsAtMost};
ghost use Rattle.std.specs.Io.KnownBytes.{ReadConsumes};
ghost use Rattle.xa_outside.specs.Filled.{Fills};
ghost use Rattle.xa_outside.specs.Causes.{HasCause};

use crate::Failed;

/// Bytes that come in.
pub trait Source {
    /// The bytes still to be read, where the source tells them.
    ghost rest: { Self → Option (List ℕ) };

    /// How often it has failed.
    ghost faults: { Self → ℕ };

    /// Puts bytes at the front of the buffer, and answers how many.
    fn read(&mut self, buf: &mut [u8]) -> Result<usize, Failed>
        ensures bound { ReadsAtMost result buf.new }
        ensures bytes { ReadConsumes (rest self.old) (rest self.new) result buf.new }
        ensures cause { HasCause (faults self.old) (faults self.new) result };
}

/// Reads until the buffer is full or the source ends.
pub fn fill<S: Source>(src: &mut S, buf: &mut [u8]) -> Result<usize, Failed>
    ensures bound { ReadsAtMost result buf.new }
    ensures bytes { Fills (S.rest src.old) (S.rest src.new) result buf.new }
    ensures cause { HasCause (S.faults src.old) (S.faults src.new) result }
{
    let mut done = 0;
    while done < buf.len() {
        let count = src.read(&mut buf[done..])?;
        if count == 0 {
            break;
        }
        done += count;
    }
    Ok(done)
}
