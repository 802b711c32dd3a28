ghost use Rattle.std.specs.Prelude.{◌≡◌, ◌≤◌};
ghost use Rattle.xa_outside.specs.Causes.{HasCause};
ghost use Rattle.xa_outside.specs.Taken.{Puts};
ghost use Rattle.xarch_words.specs.Lines.{fault_line, fault_status};
ghost use Rattle.xarch_words.specs.View.{fault_view};
ghost use Rattle.xarch_meanings.specs.Ran.{Says};
ghost use Rattle.xarch_run.specs.Steps.{status_line};

use itoa::Buffer;
use xa_outside::{Failed, Sink, put_buffered};
use xarch_words::{Fault, status, write_fault};

/// Writes the line of a fault, and answers its status.
///
/// It takes no memory. A failure of the sink is not answered: its own count of faults tells it.
pub fn say<E: Sink>(fault: &Fault, err: &mut E) -> u8
    ensures status { result ≡ fault_status (fault_view fault.now) }
    ensures line { Says (E.taken err.old) (E.taken err.new) (E.faults err.old) (E.faults err.new)
        (fault_line (fault_view fault.now)) }
    ensures later { E.faults err.old ≤ E.faults err.new }
{
    let _ = write_fault(fault, err);
    status(fault)
}

/// Writes the status line of a command.
#[tactic(auto, unfolding(crate::specs::Steps::status_line))]
pub(crate) fn put_status<O: Sink>(out: &mut O, status: u8) -> Result<(), Failed>
    ensures bytes { Puts (O.taken out.old) (O.taken out.new) result (status_line status) }
    ensures cause { HasCause (O.faults out.old) (O.faults out.new) result }
{
    let mut buffer = Buffer::new();
    put_buffered(out, &[b"status ", buffer.format(status).as_bytes(), b"\n"])
}
