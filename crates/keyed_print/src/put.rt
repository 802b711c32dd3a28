//! Keyed trees as a line of the output.

ghost use Rattle.xa_outside.specs.Causes.{HasCause};
ghost use Rattle.xa_outside.specs.Taken.{Puts};
ghost use Rattle.jsonml_print.specs.Printed.{tree_text};
ghost use Rattle.keyed_tree.specs.Plain.{plain};
ghost use Rattle.key_annotate.specs.LentView.{lent_view};
ghost use Rattle.keyed_print.specs.KeyedText.{keyed_text};

use crate::print_lent::print_keyed;
use jsonml_text::Printer;
use key_annotate::LentKeyed;
use xa_outside::{Buffered, Failed, Sink, put_all};

/// Writes the element that a keyed tree spells as JSON, and a line feed, in pieces of kilobytes.
///
/// It recurses as deep as the tree nests, and takes no memory but one buffer.
pub fn put_keyed<O: Sink>(keyed: &LentKeyed<'_, '_>, out: &mut O) -> Result<(), Failed>
    ensures bytes { Puts (O.taken out.old) (O.taken out.new) result
        (keyed_text (lent_view keyed.now)) }
    ensures cause { HasCause (O.faults out.old) (O.faults out.new) result }
{
    let mut buffered = Buffered::new(out);
    put_line(keyed, &mut buffered)?;
    buffered.flush()
}

#[tactic(auto, unfolding(crate::specs::KeyedText::keyed_text))]
fn put_line<K: Sink>(keyed: &LentKeyed<'_, '_>, sink: &mut K) -> Result<(), Failed>
    ensures bytes { Puts (K.taken sink.old) (K.taken sink.new) result
        (keyed_text (lent_view keyed.now)) }
    ensures cause { HasCause (K.faults sink.old) (K.faults sink.new) result }
{
    put_element(keyed, sink)?;
    put_all(sink, b"\n")
}

fn put_element<K: Sink>(keyed: &LentKeyed<'_, '_>, sink: &mut K) -> Result<(), Failed>
    ensures bytes { Puts (K.taken sink.old) (K.taken sink.new) result
        (tree_text (plain (lent_view keyed.now))) }
    ensures cause { HasCause (K.faults sink.old) (K.faults sink.new) result }
{
    let mut printer = Printer::new();
    print_keyed(keyed, &mut printer, sink)
}
