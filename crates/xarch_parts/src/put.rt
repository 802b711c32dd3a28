//! Bytes of the output.

ghost use Rattle.std.specs.Prelude.{◌≤◌};
ghost use Rattle.xa_outside.specs.Taken.{Puts};
ghost use Rattle.key_annotate.specs.LentView.{lent_view};
ghost use Rattle.keyed_print.specs.KeyedText.{keyed_text};
ghost use Rattle.xarch_parts.specs.Ends.{IsOfOutput, fault_of};

use key_annotate::LentKeyed;
use keyed_print::put_keyed;
use xa_outside::{Sink, put_all};
use xarch_words::Fault;

/// Writes the element that a keyed tree spells as JSON, and a line feed, in pieces of kilobytes.
#[tactic(auto, unfolding(crate::specs::Ends::IsOfOutput))]
pub fn write_keyed<O: Sink>(keyed: &LentKeyed<'_, '_>, out: &mut O) -> Result<(), Fault>
    ensures bytes { Puts (O.taken out.old) (O.taken out.new) result
        (keyed_text (lent_view keyed.now)) }
    ensures later { O.faults out.old ≤ O.faults out.new }
    ensures cause { IsOfOutput (O.faults out.old) (O.faults out.new) (fault_of result) }
{
    match put_keyed(keyed, out) {
        Ok(()) => Ok(()),
        Err(_) => Err(Fault::OutFault),
    }
}

/// Writes the bytes.
#[tactic(auto, unfolding(crate::specs::Ends::IsOfOutput))]
pub fn write_bytes<O: Sink>(bytes: &[u8], out: &mut O) -> Result<(), Fault>
    ensures bytes { Puts (O.taken out.old) (O.taken out.new) result bytes.now }
    ensures later { O.faults out.old ≤ O.faults out.new }
    ensures cause { IsOfOutput (O.faults out.old) (O.faults out.new) (fault_of result) }
{
    match put_all(out, bytes) {
        Ok(()) => Ok(()),
        Err(_) => Err(Fault::OutFault),
    }
}
