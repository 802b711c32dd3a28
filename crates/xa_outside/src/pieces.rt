#![tactic(auto, using(crate::specs::TakenLaws::outputs))]

ghost use Rattle.std.specs.List.{flat_map};
ghost use Rattle.xa_outside.specs.Taken.{Puts};
ghost use Rattle.xa_outside.specs.Causes.{HasCause};

use crate::{Buffered, Failed, Sink, put_all};

/// Writes the pieces, one after the other.
pub(crate) fn put_pieces<K: Sink>(sink: &mut K, pieces: &[&[u8]]) -> Result<(), Failed>
    ensures bytes { Puts (K.taken sink.old) (K.taken sink.new) result
        (flat_map (λ p. p.now) pieces.now) }
    ensures cause { HasCause (K.faults sink.old) (K.faults sink.new) result }
{
    for piece in pieces {
        put_all(sink, piece)?;
    }
    Ok(())
}

/// Writes the pieces, one after the other, through a buffer: one write for all of them where they
/// are shorter than the buffer together.
pub fn put_buffered<O: Sink>(out: &mut O, pieces: &[&[u8]]) -> Result<(), Failed>
    ensures bytes { Puts (O.taken out.old) (O.taken out.new) result
        (flat_map (λ p. p.now) pieces.now) }
    ensures cause { HasCause (O.faults out.old) (O.faults out.new) result }
{
    let mut buffered = Buffered::new(out);
    put_pieces(&mut buffered, pieces)?;
    buffered.flush()
}
