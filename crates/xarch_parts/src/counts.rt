#![tactic(auto)]

ghost use Rattle.std.specs.Prelude.{◌≤◌, ◌++◌, codes};
ghost use Rattle.xa_outside.specs.Causes.{HasCause};
ghost use Rattle.xa_outside.specs.Taken.{Puts};
ghost use Rattle.archive_stats.specs.View.{counts_view};
ghost use Rattle.xarch_parts.specs.Ends.{IsOfOutput, fault_of};
ghost use Rattle.xarch_parts.specs.Counts.{counts_text, nodes_text, sizes_text};

use archive_stats::Counts;
use itoa::{Buffer, Integer};
use xa_outside::{Buffered, Failed, Sink, put_all};
use xarch_words::Fault;

/// Writes a number behind its name, and a line feed.
#[tactic(auto, unfolding(crate::specs::Ends::IsOfOutput))]
pub fn write_count<O: Sink, N: Integer>(out: &mut O, name: &[u8], number: N) -> Result<(), Fault>
    ensures bytes { Puts (O.taken out.old) (O.taken out.new) result
        (name.now ++ N.text number ++ codes "\n") }
    ensures later { O.faults out.old ≤ O.faults out.new }
    ensures cause { IsOfOutput (O.faults out.old) (O.faults out.new) (fault_of result) }
{
    match put_count(out, name, number) {
        Ok(()) => Ok(()),
        Err(_) => Err(Fault::OutFault),
    }
}

/// Writes the seven lines of counts.
#[tactic(auto, unfolding(crate::specs::Ends::IsOfOutput))]
pub fn write_counts<O: Sink>(counts: &Counts, out: &mut O) -> Result<(), Fault>
    ensures bytes { Puts (O.taken out.old) (O.taken out.new) result
        (counts_text (counts_view counts.now)) }
    ensures later { O.faults out.old ≤ O.faults out.new }
    ensures cause { IsOfOutput (O.faults out.old) (O.faults out.new) (fault_of result) }
{
    match put_counts(counts, out) {
        Ok(()) => Ok(()),
        Err(_) => Err(Fault::OutFault),
    }
}

fn put_counts<O: Sink>(counts: &Counts, out: &mut O) -> Result<(), Failed>
    ensures bytes { Puts (O.taken out.old) (O.taken out.new) result
        (counts_text (counts_view counts.now)) }
    ensures cause { HasCause (O.faults out.old) (O.faults out.new) result }
{
    let mut lines = Buffered::new(out);
    put_lines(counts, &mut lines)?;
    lines.flush()
}

#[tactic(auto, using(xa_outside::specs::TakenLaws::outputs), unfolding(crate::specs::Counts::counts_text))]
fn put_lines<K: Sink>(counts: &Counts, sink: &mut K) -> Result<(), Failed>
    ensures bytes { Puts (K.taken sink.old) (K.taken sink.new) result
        (counts_text (counts_view counts.now)) }
    ensures cause { HasCause (K.faults sink.old) (K.faults sink.new) result }
{
    put_nodes(counts, sink)?;
    put_sizes(counts, sink)
}

#[tactic(auto, using(xa_outside::specs::TakenLaws::outputs), unfolding(crate::specs::Counts::nodes_text))]
fn put_nodes<K: Sink>(counts: &Counts, sink: &mut K) -> Result<(), Failed>
    ensures bytes { Puts (K.taken sink.old) (K.taken sink.new) result
        (nodes_text (counts_view counts.now)) }
    ensures cause { HasCause (K.faults sink.old) (K.faults sink.new) result }
{
    put_count(sink, b"versions ", counts.versions)?;
    put_count(sink, b"inner ", counts.inner)?;
    put_count(sink, b"leaves ", counts.leaves)?;
    put_count(sink, b"alternatives ", counts.alternatives)
}

#[tactic(auto, using(xa_outside::specs::TakenLaws::outputs), unfolding(crate::specs::Counts::sizes_text))]
fn put_sizes<K: Sink>(counts: &Counts, sink: &mut K) -> Result<(), Failed>
    ensures bytes { Puts (K.taken sink.old) (K.taken sink.new) result
        (sizes_text (counts_view counts.now)) }
    ensures cause { HasCause (K.faults sink.old) (K.faults sink.new) result }
{
    put_count(sink, b"stamps ", counts.stamps)?;
    put_count(sink, b"largest ", counts.largest)?;
    put_count(sink, b"bytes ", counts.bytes)
}

#[tactic(auto, using(xa_outside::specs::TakenLaws::outputs))]
fn put_count<K: Sink, N: Integer>(sink: &mut K, name: &[u8], number: N) -> Result<(), Failed>
    ensures bytes { Puts (K.taken sink.old) (K.taken sink.new) result
        (name.now ++ N.text number ++ codes "\n") }
    ensures cause { HasCause (K.faults sink.old) (K.faults sink.new) result }
{
    let mut buffer = Buffer::new();
    put_all(sink, name)?;
    put_all(sink, buffer.format(number).as_bytes())?;
    put_all(sink, b"\n")
}
