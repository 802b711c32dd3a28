#![tactic(auto, using(xa_outside::specs::TakenLaws::outputs))]

ghost use Rattle.std.specs.Prelude.{◌++◌, ◌∷◌, []};
ghost use Rattle.json.specs.Print.{quoted};
ghost use Rattle.xa_outside.specs.Taken.{Puts};
ghost use Rattle.xa_outside.specs.Causes.{HasCause};
ghost use Rattle.keyed_tree.specs.View.{key_view};
ghost use Rattle.jsonml_lines.specs.Lines.{cell_text};

use jsonml_print::{write_behind_quote, write_content, write_scalar};
use keyed_tree::KeyVal;
use xa_outside::{Failed, Sink, put_all};

/// Begins a line with its word.
pub fn write_word<K: Sink>(word: &str, sink: &mut K) -> Result<(), Failed>
    ensures bytes { Puts (K.taken sink.old) (K.taken sink.new) result (91 ∷ quoted word.now) }
    ensures cause { HasCause (K.faults sink.old) (K.faults sink.new) result }
{
    put_all(sink, b"[\"")?;
    write_behind_quote(word, sink)
}

/// Writes a cell, which is a text, behind a comma.
pub fn write_text_cell<K: Sink>(text: &str, sink: &mut K) -> Result<(), Failed>
    ensures bytes { Puts (K.taken sink.old) (K.taken sink.new) result (44 ∷ quoted text.now) }
    ensures cause { HasCause (K.faults sink.old) (K.faults sink.new) result }
{
    put_all(sink, b",\"")?;
    write_behind_quote(text, sink)
}

/// Writes a cell behind a comma. It takes no memory, and recurses as deep as elements nest.
pub fn write_cell<K: Sink>(cell: &KeyVal, sink: &mut K) -> Result<(), Failed>
    ensures bytes { Puts (K.taken sink.old) (K.taken sink.new) result
        (44 ∷ cell_text (key_view cell.now)) }
    ensures cause { HasCause (K.faults sink.old) (K.faults sink.new) result }
{
    put_all(sink, b",")?;
    write_key(cell, sink)
}

fn write_key<K: Sink>(cell: &KeyVal, sink: &mut K) -> Result<(), Failed>
    ensures bytes { Puts (K.taken sink.old) (K.taken sink.new) result
        (cell_text (key_view cell.now)) }
    ensures cause { HasCause (K.faults sink.old) (K.faults sink.new) result }
{
    match cell {
        KeyVal::Scalar(scalar) => write_scalar(scalar, sink),
        KeyVal::Content(content) => write_content(content, sink),
    }
}

/// Ends a line.
pub fn end_line<K: Sink>(sink: &mut K) -> Result<(), Failed>
    ensures bytes { Puts (K.taken sink.old) (K.taken sink.new) result (93 ∷ 10 ∷ []) }
    ensures cause { HasCause (K.faults sink.old) (K.faults sink.new) result }
{
    put_all(sink, b"]\n")
}
