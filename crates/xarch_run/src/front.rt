ghost use Rattle.std.specs.Prelude.{◌<◌, ◌≤◌, IfOk, length};
ghost use Rattle.xa_outside.specs.Causes.{HasCause};
ghost use Rattle.xarch_run.specs.Front.{ReadsFront};

use xa_outside::{Failed, Source};

/// Reads into the front of a buffer.
pub(crate) fn read_front<S: Source>(
    input: &mut S,
    buf: &mut [u8],
    room: usize,
) -> Result<usize, Failed>
    requires some { 0 < room }
    requires in_range { room ≤ length buf.old }
    ensures bound { IfOk result (λ n. n ≤ room) }
    ensures bytes { ReadsFront (S.rest input.old) (S.rest input.new) result buf.new }
    ensures cause { HasCause (S.faults input.old) (S.faults input.new) result }
{
    input.read(&mut buf[..room])
}
