//! The printing of keyed trees that are lent from a document.

ghost use Rattle.std.specs.Prelude.{◌≡◌, ◌++◌, ◌∷◌, []};
ghost use Rattle.std.specs.List.{flat_map};
ghost use Rattle.xa_outside.specs.Causes.{HasCause};
ghost use Rattle.jsonml_print.specs.Calls.{AllMayCome, Prints, attribute, calls_of, content_calls, end};
ghost use Rattle.jsonml_tree.specs.LentAttrs.{lent_attr_view};
ghost use Rattle.keyed_tree.specs.Data.{label_of};
ghost use Rattle.keyed_tree.specs.Plain.{name_bytes, plain};
ghost use Rattle.key_annotate.specs.LentView.{lent_view};
ghost use Rattle.key_annotate.specs.Inside.{inside_of};

use jsonml_text::{Printer, print_lent_content};
use jsonml_tree::{LentAttr, LentContent};
use key_annotate::LentKeyed;
use xa_outside::{Failed, Sink};

/// Prints the element that a keyed tree spells, call by call. It recurses as deep as the tree nests.
#[cycle(print)]
pub(crate) fn print_keyed<K: Sink>(
    keyed: &LentKeyed<'_, '_>,
    printer: &mut Printer,
    sink: &mut K,
) -> Result<(), Failed>
    requires { AllMayCome printer.old (calls_of (plain (lent_view keyed.now))) }
    ensures prints { Prints (K.taken sink.old) (K.taken sink.new) printer.old printer.new
        (calls_of (plain (lent_view keyed.now))) result }
    ensures cause { HasCause (K.faults sink.old) (K.faults sink.new) result }
{
    printer.begin_elem(sink, name_of(keyed))?;
    print_behind_tag(keyed, printer, sink)
}

#[cycle(print)]
fn print_behind_tag<K: Sink>(
    keyed: &LentKeyed<'_, '_>,
    printer: &mut Printer,
    sink: &mut K,
) -> Result<(), Failed>
    requires { AllMayCome printer.old
        (content_calls (inside_of (lent_view keyed.now)) ++ end ∷ []) }
    ensures prints { Prints (K.taken sink.old) (K.taken sink.new) printer.old printer.new
        (content_calls (inside_of (lent_view keyed.now)) ++ end ∷ []) result }
    ensures cause { HasCause (K.faults sink.old) (K.faults sink.new) result }
{
    print_inside(keyed, printer, sink)?;
    printer.end_elem(sink)
}

#[cycle(print)]
fn print_inside<K: Sink>(
    keyed: &LentKeyed<'_, '_>,
    printer: &mut Printer,
    sink: &mut K,
) -> Result<(), Failed>
    requires { AllMayCome printer.old (content_calls (inside_of (lent_view keyed.now))) }
    ensures prints { Prints (K.taken sink.old) (K.taken sink.new) printer.old printer.new
        (content_calls (inside_of (lent_view keyed.now))) result }
    ensures cause { HasCause (K.faults sink.old) (K.faults sink.new) result }
{
    match keyed {
        LentKeyed::Text { text, .. } => {
            print_lent_content(LentContent::Text(text), printer, sink)
        }
        LentKeyed::Row { row, .. } => print_lent_content(LentContent::Row(row), printer, sink),
        LentKeyed::Leaf { content, .. } => print_lent_content(*content, printer, sink),
        LentKeyed::Inner { head, kids } => {
            print_attributes(head.attrs, printer, sink)?;
            print_elements(kids, printer, sink)
        }
    }
}

fn print_attributes<K: Sink>(
    attrs: &[LentAttr<'_>],
    printer: &mut Printer,
    sink: &mut K,
) -> Result<(), Failed>
    requires { AllMayCome printer.old
        (flat_map (λ x. attribute (lent_attr_view x) ∷ []) attrs.now) }
    ensures prints { Prints (K.taken sink.old) (K.taken sink.new) printer.old printer.new
        (flat_map (λ x. attribute (lent_attr_view x) ∷ []) attrs.now) result }
    ensures cause { HasCause (K.faults sink.old) (K.faults sink.new) result }
{
    for attr in attrs {
        printer.lent_attr(sink, attr)?;
    }
    Ok(())
}

#[cycle(print)]
fn print_elements<K: Sink>(
    kids: &[LentKeyed<'_, '_>],
    printer: &mut Printer,
    sink: &mut K,
) -> Result<(), Failed>
    requires { AllMayCome printer.old (flat_map (λ k. calls_of (plain (lent_view k))) kids.now) }
    ensures prints { Prints (K.taken sink.old) (K.taken sink.new) printer.old printer.new
        (flat_map (λ k. calls_of (plain (lent_view k))) kids.now) result }
    ensures cause { HasCause (K.faults sink.old) (K.faults sink.new) result }
{
    for kid in kids {
        print_keyed(kid, printer, sink)?;
    }
    Ok(())
}

fn name_of<'a>(keyed: &'a LentKeyed<'_, '_>) -> &'a str
    ensures { result.now ≡ name_bytes (label_of (lent_view keyed.now)).name }
{
    keyed.tag()
}
