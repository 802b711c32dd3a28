ghost use Rattle.std.specs.Prelude.{◌++◌, ◌∷◌, [], IsTrue};
ghost use Rattle.json.specs.Print.{escape, quoted};
ghost use Rattle.xa_outside.specs.Taken.{Puts};
ghost use Rattle.xa_outside.specs.Causes.{HasCause};
ghost use Rattle.jsonml_tree.specs.LentAttrs.{lent_scalar_view};
ghost use Rattle.jsonml_tree.specs.View.{scalar_view};
ghost use Rattle.jsonml_print.specs.Printed.{scalar_text, attr_text};
ghost use Rattle.jsonml_print.specs.Pen.{takes_attribute};
ghost use Rattle.jsonml_print.specs.Calls.{item_lead, attribute_lead, brace};

use crate::last::Last;
use crate::quote::{write_behind_quote, write_escaped, write_quoted};
use itoa::Buffer;
use jsonml_tree::{LentScalar, Scalar};
use xa_outside::{Failed, Sink, put_all};

/// Writes a scalar as JSON.
pub fn write_scalar<K: Sink>(value: &Scalar, sink: &mut K) -> Result<(), Failed>
    ensures bytes { Puts (K.taken sink.old) (K.taken sink.new) result
        (scalar_text (scalar_view value.now)) }
    ensures cause { HasCause (K.faults sink.old) (K.faults sink.new) result }
{
    write_lent_scalar(value.lend(), sink)
}

/// Writes a scalar that is lent.
fn write_lent_scalar<K: Sink>(value: LentScalar<'_>, sink: &mut K) -> Result<(), Failed>
    ensures bytes { Puts (K.taken sink.old) (K.taken sink.new) result
        (scalar_text (lent_scalar_view value.entry)) }
    ensures cause { HasCause (K.faults sink.old) (K.faults sink.new) result }
{
    match value {
        LentScalar::Null => put_all(sink, b"null"),
        LentScalar::Bool(true) => put_all(sink, b"true"),
        LentScalar::Bool(false) => put_all(sink, b"false"),
        LentScalar::Whole(n) => {
            let mut buffer = Buffer::new();
            put_all(sink, buffer.format(n).as_bytes())
        }
        LentScalar::Text(text) => write_quoted(text, sink),
    }
}

/// Writes an attribute.
pub(crate) fn write_attribute<K: Sink>(
    last: Last,
    name: &str,
    value: LentScalar<'_>,
    sink: &mut K,
) -> Result<(), Failed>
    requires { IsTrue (takes_attribute last) }
    ensures bytes { Puts (K.taken sink.old) (K.taken sink.new) result
        (attribute_lead last
        ++ attr_text (record { name = name.now; value = lent_scalar_view value.entry })) }
    ensures cause { HasCause (K.faults sink.old) (K.faults sink.new) result }
{
    write_attribute_lead(last, sink)?;
    write_pair(name, value, sink)
}

/// Writes what comes before an attribute, and the first quote of its name, in one piece.
fn write_attribute_lead<K: Sink>(last: Last, sink: &mut K) -> Result<(), Failed>
    requires { IsTrue (takes_attribute last) }
    ensures bytes { Puts (K.taken sink.old) (K.taken sink.new) result
        (attribute_lead last ++ 34 ∷ []) }
    ensures cause { HasCause (K.faults sink.old) (K.faults sink.new) result }
{
    match last {
        Last::Opened => put_all(sink, b"{\""),
        Last::Begun => put_all(sink, b",{\""),
        _ => put_all(sink, b",\""),
    }
}

/// Writes what stands behind the first quote of a name and its value.
fn write_pair<K: Sink>(name: &str, value: LentScalar<'_>, sink: &mut K) -> Result<(), Failed>
    ensures bytes { Puts (K.taken sink.old) (K.taken sink.new) result
        (escape name.now ++ (34 ∷ 58 ∷ scalar_text (lent_scalar_view value.entry))) }
    ensures cause { HasCause (K.faults sink.old) (K.faults sink.new) result }
{
    write_escaped(name.as_bytes(), sink)?;
    write_value(value, sink)
}

/// Writes the last quote of a name, the colon, and the value.
fn write_value<K: Sink>(value: LentScalar<'_>, sink: &mut K) -> Result<(), Failed>
    ensures bytes { Puts (K.taken sink.old) (K.taken sink.new) result
        (34 ∷ 58 ∷ scalar_text (lent_scalar_view value.entry)) }
    ensures cause { HasCause (K.faults sink.old) (K.faults sink.new) result }
{
    if let LentScalar::Text(text) = value {
        return write_text_value(text, sink);
    }
    put_all(sink, b"\":")?;
    write_lent_scalar(value, sink)
}

/// The same of a text, whose first quote goes out with the colon.
fn write_text_value<K: Sink>(text: &str, sink: &mut K) -> Result<(), Failed>
    ensures bytes { Puts (K.taken sink.old) (K.taken sink.new) result
        (34 ∷ 58 ∷ quoted text.now) }
    ensures cause { HasCause (K.faults sink.old) (K.faults sink.new) result }
{
    put_all(sink, b"\":\"")?;
    write_behind_quote(text, sink)
}

/// Writes a text.
pub(crate) fn write_text<K: Sink>(last: Last, text: &str, sink: &mut K) -> Result<(), Failed>
    ensures bytes { Puts (K.taken sink.old) (K.taken sink.new) result
        (item_lead last ++ quoted text.now) }
    ensures cause { HasCause (K.faults sink.old) (K.faults sink.new) result }
{
    write_text_lead(last, sink)?;
    write_behind_quote(text, sink)
}

/// Writes what comes before a text, and its first quote, in one piece.
fn write_text_lead<K: Sink>(last: Last, sink: &mut K) -> Result<(), Failed>
    ensures bytes { Puts (K.taken sink.old) (K.taken sink.new) result (item_lead last ++ 34 ∷ []) }
    ensures cause { HasCause (K.faults sink.old) (K.faults sink.new) result }
{
    match last {
        Last::Nothing | Last::Opened => put_all(sink, b"\""),
        Last::Begun | Last::Item => put_all(sink, b",\""),
        Last::Attribute => put_all(sink, b"},\""),
    }
}

/// Writes the beginning of an element.
pub(crate) fn write_begin<K: Sink>(last: Last, tag: &str, sink: &mut K) -> Result<(), Failed>
    ensures bytes { Puts (K.taken sink.old) (K.taken sink.new) result
        (item_lead last ++ (91 ∷ quoted tag.now)) }
    ensures cause { HasCause (K.faults sink.old) (K.faults sink.new) result }
{
    write_begin_lead(last, sink)?;
    write_behind_quote(tag, sink)
}

/// Writes what comes before an element, its bracket, and the first quote of its tag, in one piece.
fn write_begin_lead<K: Sink>(last: Last, sink: &mut K) -> Result<(), Failed>
    ensures bytes { Puts (K.taken sink.old) (K.taken sink.new) result
        (item_lead last ++ 91 ∷ 34 ∷ []) }
    ensures cause { HasCause (K.faults sink.old) (K.faults sink.new) result }
{
    match last {
        Last::Nothing | Last::Opened => put_all(sink, b"[\""),
        Last::Begun | Last::Item => put_all(sink, b",[\""),
        Last::Attribute => put_all(sink, b"},[\""),
    }
}

/// Writes the end of an element.
pub(crate) fn write_end<K: Sink>(last: Last, sink: &mut K) -> Result<(), Failed>
    ensures bytes { Puts (K.taken sink.old) (K.taken sink.new) result (brace last ++ 93 ∷ []) }
    ensures cause { HasCause (K.faults sink.old) (K.faults sink.new) result }
{
    match last {
        Last::Attribute => put_all(sink, b"}]"),
        _ => put_all(sink, b"]"),
    }
}
