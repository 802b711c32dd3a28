ghost use Rattle.std.specs.Prelude.{◌++◌, ◌∷◌, [], drop};
ghost use Rattle.xa_outside.specs.Taken.{Puts};
ghost use Rattle.xa_outside.specs.Causes.{HasCause};
ghost use Rattle.jsonml_tree.specs.View.{content_view};
ghost use Rattle.jsonml_print.specs.Printed.{array_text, content_text};

use crate::Printer;
use crate::print::print_content;
use jsonml_tree::Content;
use xa_outside::{Failed, Sink, put_all};

/// Writes a content as a JSON array: its attributes as an object in front where it has any, and then its items. On a failure
/// a prefix of that is written. It takes no memory, and recurses as deep as elements nest.
pub fn write_content<K: Sink>(content: &Content, sink: &mut K) -> Result<(), Failed>
    ensures bytes { Puts (K.taken sink.old) (K.taken sink.new) result
        (array_text (content_view content.now)) }
    ensures cause { HasCause (K.faults sink.old) (K.faults sink.new) result }
{
    put_all(sink, b"[")?;
    write_inside(content, sink)
}

/// Writes what stands behind the bracket of the array.
fn write_inside<K: Sink>(content: &Content, sink: &mut K) -> Result<(), Failed>
    ensures bytes { Puts (K.taken sink.old) (K.taken sink.new) result
        (drop 1 (content_text (content_view content.now)) ++ 93 ∷ []) }
    ensures cause { HasCause (K.faults sink.old) (K.faults sink.new) result }
{
    let mut printer = Printer::opened();
    print_content(content, &mut printer, sink)?;
    printer.end_elem(sink)
}
