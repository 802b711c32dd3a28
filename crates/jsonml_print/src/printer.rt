ghost use Rattle.std.specs.Prelude.{◌≡◌, ◌∷◌, []};
ghost use Rattle.xa_outside.specs.Causes.{HasCause};
ghost use Rattle.jsonml_tree.specs.LentAttrs.{lent_attr_view};
ghost use Rattle.jsonml_tree.specs.View.{scalar_view};
ghost use Rattle.jsonml_print.specs.Pen.{fresh, opened};
ghost use Rattle.jsonml_print.specs.Calls.{begin, attribute, text as text_call, end, MayCome, Prints};

use crate::last::Last;
use crate::pieces::{write_attribute, write_begin, write_end, write_text};
use jsonml_tree::{LentAttr, Scalar};
use std::marker::Model;
use xa_outside::{Failed, Sink};

/// Prints an element call by call, as JSON without blanks.
///
/// Contracts see how many elements are begun and not ended, and which call was the last. The count stands still at
/// 2^64 - 1. After a call that failed the printer is not to be used again.
#[derive(Drop)]
pub struct Printer {
    depth: u64,
    last: Last,
}

impl Model for Printer {
    ghost use Rattle.jsonml_print.specs.Pen.{Pen};

    ghost Value = { Pen };

    ghost view = { λ p. record { depth = p.depth; last = p.last } };
}

impl Printer {
    /// A printer that has printed nothing.
    pub fn new() -> Printer
        ensures { result ≡ fresh }
    {
        Printer {
            depth: 0,
            last: Last::Nothing,
        }
    }

    /// A printer of what an element holds, as an array whose bracket stands.
    pub(crate) fn opened() -> Printer
        ensures { result ≡ opened }
    {
        Printer {
            depth: 1,
            last: Last::Opened,
        }
    }

    /// Begins an element: the outermost one, or an item of the one that is begun.
    pub fn begin_elem<K: Sink>(&mut self, sink: &mut K, tag: &str) -> Result<(), Failed>
        requires { MayCome self.old (begin tag.now) }
        ensures prints { Prints (K.taken sink.old) (K.taken sink.new) self.old self.new
            (begin tag.now ∷ []) result }
        ensures cause { HasCause (K.faults sink.old) (K.faults sink.new) result }
    {
        write_begin(self.last, tag, sink)?;
        self.depth = self.depth.saturating_add(1);
        self.last = Last::Begun;
        Ok(())
    }

    /// Prints an attribute of the element that has just been begun. The names are to ascend by their bytes.
    pub fn attr<K: Sink>(&mut self, sink: &mut K, name: &str, value: &Scalar) -> Result<(), Failed>
        requires { MayCome self.old
            (attribute (record { name = name.now; value = scalar_view value.now })) }
        ensures prints { Prints (K.taken sink.old) (K.taken sink.new) self.old self.new
            (attribute (record { name = name.now; value = scalar_view value.now }) ∷ []) result }
        ensures cause { HasCause (K.faults sink.old) (K.faults sink.new) result }
    {
        write_attribute(self.last, name, value.lend(), sink)?;
        self.last = Last::Attribute;
        Ok(())
    }

    /// Prints an attribute that is lent, the same way.
    pub fn lent_attr<K: Sink>(&mut self, sink: &mut K, attr: &LentAttr<'_>) -> Result<(), Failed>
        requires { MayCome self.old (attribute (lent_attr_view attr.now)) }
        ensures prints { Prints (K.taken sink.old) (K.taken sink.new) self.old self.new
            (attribute (lent_attr_view attr.now) ∷ []) result }
        ensures cause { HasCause (K.faults sink.old) (K.faults sink.new) result }
    {
        write_attribute(self.last, attr.name(), attr.value(), sink)?;
        self.last = Last::Attribute;
        Ok(())
    }

    /// Prints a text as an item of the element that is begun.
    pub fn text<K: Sink>(&mut self, sink: &mut K, text: &str) -> Result<(), Failed>
        requires { MayCome self.old (text_call text.now) }
        ensures prints { Prints (K.taken sink.old) (K.taken sink.new) self.old self.new
            (text_call text.now ∷ []) result }
        ensures cause { HasCause (K.faults sink.old) (K.faults sink.new) result }
    {
        write_text(self.last, text, sink)?;
        self.last = Last::Item;
        Ok(())
    }

    /// Ends the element that is begun.
    pub fn end_elem<K: Sink>(&mut self, sink: &mut K) -> Result<(), Failed>
        requires { MayCome self.old end }
        ensures prints { Prints (K.taken sink.old) (K.taken sink.new) self.old self.new
            (end ∷ []) result }
        ensures cause { HasCause (K.faults sink.old) (K.faults sink.new) result }
    {
        write_end(self.last, sink)?;
        if self.depth < u64::MAX {
            self.depth -= 1;
        }
        self.last = Last::Item;
        Ok(())
    }
}
