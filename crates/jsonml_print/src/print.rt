ghost use Rattle.std.specs.Prelude.{◌++◌, ◌∷◌, []};
ghost use Rattle.std.specs.List.{flat_map};
ghost use Rattle.xa_outside.specs.Taken.{Puts};
ghost use Rattle.xa_outside.specs.Causes.{HasCause};
ghost use Rattle.jsonml_tree.specs.LentAttrs.{lent_attr_view};
ghost use Rattle.jsonml_tree.specs.LentView.{lent_tree_view, lent_row_view, lent_content_view};
ghost use Rattle.jsonml_tree.specs.View.{tree_view, content_view, attr_view};
ghost use Rattle.jsonml_tree.specs.Fits.{IsElement};
ghost use Rattle.jsonml_print.specs.Printed.{tree_text};
ghost use Rattle.jsonml_print.specs.Calls.{begin, attribute, text as text_call, end, AllMayCome, Prints, calls_of, content_calls};

use crate::Printer;
use jsonml_tree::{Attr, Content, LentAttr, LentContent, LentRow, LentTree, Tree};
use xa_outside::{Failed, Sink};

/// Prints an element as JSON without blanks, with no line feed behind it. It recurses as deep as elements nest.
pub fn write_tree<K: Sink>(tree: &Tree, sink: &mut K) -> Result<(), Failed>
    requires { IsElement (tree_view tree.now) }
    ensures bytes { Puts (K.taken sink.old) (K.taken sink.new) result
        (tree_text (tree_view tree.now)) }
    ensures cause { HasCause (K.faults sink.old) (K.faults sink.new) result }
{
    let mut printer = Printer::new();
    print_tree(tree, &mut printer, sink)
}

#[cycle(print)]
fn print_tree<K: Sink>(tree: &Tree, printer: &mut Printer, sink: &mut K) -> Result<(), Failed>
    requires { AllMayCome printer.old (calls_of (tree_view tree.now)) }
    ensures prints { Prints (K.taken sink.old) (K.taken sink.new) printer.old printer.new
        (calls_of (tree_view tree.now)) result }
    ensures cause { HasCause (K.faults sink.old) (K.faults sink.new) result }
{
    match tree {
        Tree::Text(text) => printer.text(sink, text.as_str()),
        Tree::Elem { tag, content } => print_element(tag.as_str(), content, printer, sink),
    }
}

#[cycle(print)]
fn print_element<K: Sink>(
    tag: &str,
    content: &Content,
    printer: &mut Printer,
    sink: &mut K,
) -> Result<(), Failed>
    requires { AllMayCome printer.old
        (begin tag.now ∷ (content_calls (content_view content.now) ++ end ∷ [])) }
    ensures prints { Prints (K.taken sink.old) (K.taken sink.new) printer.old printer.new
        (begin tag.now ∷ (content_calls (content_view content.now) ++ end ∷ [])) result }
    ensures cause { HasCause (K.faults sink.old) (K.faults sink.new) result }
{
    printer.begin_elem(sink, tag)?;
    print_content(content, printer, sink)?;
    printer.end_elem(sink)
}

/// Prints what an element holds behind its tag, call by call, into the element that has just been begun.
#[cycle(print)]
pub fn print_content<K: Sink>(
    content: &Content,
    printer: &mut Printer,
    sink: &mut K,
) -> Result<(), Failed>
    requires { AllMayCome printer.old (content_calls (content_view content.now)) }
    ensures prints { Prints (K.taken sink.old) (K.taken sink.new) printer.old printer.new
        (content_calls (content_view content.now)) result }
    ensures cause { HasCause (K.faults sink.old) (K.faults sink.new) result }
{
    print_attrs(&content.attrs, printer, sink)?;
    print_items(&content.items, printer, sink)
}

fn print_attrs<K: Sink>(attrs: &[Attr], printer: &mut Printer, sink: &mut K) -> Result<(), Failed>
    requires { AllMayCome printer.old (flat_map (λ x. attribute (attr_view x) ∷ []) attrs.now) }
    ensures prints { Prints (K.taken sink.old) (K.taken sink.new) printer.old printer.new
        (flat_map (λ x. attribute (attr_view x) ∷ []) attrs.now) result }
    ensures cause { HasCause (K.faults sink.old) (K.faults sink.new) result }
{
    for attr in attrs {
        printer.attr(sink, attr.name.as_str(), &attr.value)?;
    }
    Ok(())
}

#[cycle(print)]
fn print_items<K: Sink>(items: &[Tree], printer: &mut Printer, sink: &mut K) -> Result<(), Failed>
    requires { AllMayCome printer.old (flat_map (λ t. calls_of (tree_view t)) items.now) }
    ensures prints { Prints (K.taken sink.old) (K.taken sink.new) printer.old printer.new
        (flat_map (λ t. calls_of (tree_view t)) items.now) result }
    ensures cause { HasCause (K.faults sink.old) (K.faults sink.new) result }
{
    for item in items {
        print_tree(item, printer, sink)?;
    }
    Ok(())
}

/// Prints what an element of a lent tree holds behind its tag, call by call, into the element that has just been begun.
pub fn print_lent_content<K: Sink>(
    content: LentContent<'_, '_>,
    printer: &mut Printer,
    sink: &mut K,
) -> Result<(), Failed>
    requires { AllMayCome printer.old (content_calls (lent_content_view content)) }
    ensures prints { Prints (K.taken sink.old) (K.taken sink.new) printer.old printer.new
        (content_calls (lent_content_view content.entry)) result }
    ensures cause { HasCause (K.faults sink.old) (K.faults sink.new) result }
{
    match content {
        LentContent::Text(text) => printer.text(sink, text),
        LentContent::Row(row) => print_lent_row(row, printer, sink),
    }
}

#[cycle(print_lent)]
fn print_lent_tree<K: Sink>(
    tree: &LentTree<'_>,
    printer: &mut Printer,
    sink: &mut K,
) -> Result<(), Failed>
    requires { AllMayCome printer.old (calls_of (lent_tree_view tree.now)) }
    ensures prints { Prints (K.taken sink.old) (K.taken sink.new) printer.old printer.new
        (calls_of (lent_tree_view tree.now)) result }
    ensures cause { HasCause (K.faults sink.old) (K.faults sink.new) result }
{
    match tree {
        LentTree::Text(text) => printer.text(sink, text.as_str()),
        LentTree::Leaf { tag, text } => print_leaf(tag.as_str(), text.as_str(), printer, sink),
        LentTree::Elem { tag, row } => print_lent_element(tag.as_str(), row, printer, sink),
    }
}

fn print_leaf<K: Sink>(
    tag: &str,
    text: &str,
    printer: &mut Printer,
    sink: &mut K,
) -> Result<(), Failed>
    requires { AllMayCome printer.old (begin tag.now ∷ text_call text.now ∷ end ∷ []) }
    ensures prints { Prints (K.taken sink.old) (K.taken sink.new) printer.old printer.new
        (begin tag.now ∷ text_call text.now ∷ end ∷ []) result }
    ensures cause { HasCause (K.faults sink.old) (K.faults sink.new) result }
{
    printer.begin_elem(sink, tag)?;
    printer.text(sink, text)?;
    printer.end_elem(sink)
}

#[cycle(print_lent)]
fn print_lent_element<K: Sink>(
    tag: &str,
    row: &LentRow<'_>,
    printer: &mut Printer,
    sink: &mut K,
) -> Result<(), Failed>
    requires { AllMayCome printer.old
        (begin tag.now ∷ (content_calls (lent_row_view row.now) ++ end ∷ [])) }
    ensures prints { Prints (K.taken sink.old) (K.taken sink.new) printer.old printer.new
        (begin tag.now ∷ (content_calls (lent_row_view row.now) ++ end ∷ [])) result }
    ensures cause { HasCause (K.faults sink.old) (K.faults sink.new) result }
{
    printer.begin_elem(sink, tag)?;
    print_lent_row(row, printer, sink)?;
    printer.end_elem(sink)
}

#[cycle(print_lent)]
fn print_lent_row<K: Sink>(
    row: &LentRow<'_>,
    printer: &mut Printer,
    sink: &mut K,
) -> Result<(), Failed>
    requires { AllMayCome printer.old (content_calls (lent_row_view row.now)) }
    ensures prints { Prints (K.taken sink.old) (K.taken sink.new) printer.old printer.new
        (content_calls (lent_row_view row.now)) result }
    ensures cause { HasCause (K.faults sink.old) (K.faults sink.new) result }
{
    print_lent_attrs(&row.attrs, printer, sink)?;
    print_lent_items(&row.items, printer, sink)
}

fn print_lent_attrs<K: Sink>(
    attrs: &[LentAttr<'_>],
    printer: &mut Printer,
    sink: &mut K,
) -> Result<(), Failed>
    requires { AllMayCome printer.old
        (flat_map (λ x. attribute (lent_attr_view x) ∷ []) attrs.now) }
    ensures prints { Prints (K.taken sink.old) (K.taken sink.new) printer.old printer.new
        (flat_map (λ x. attribute (lent_attr_view x) ∷ []) attrs.now) result }
    ensures cause { HasCause (K.faults sink.old) (K.faults sink.new) result }
{
    for attr in attrs {
        printer.lent_attr(sink, attr)?;
    }
    Ok(())
}

#[cycle(print_lent)]
fn print_lent_items<K: Sink>(
    items: &[LentTree<'_>],
    printer: &mut Printer,
    sink: &mut K,
) -> Result<(), Failed>
    requires { AllMayCome printer.old (flat_map (λ t. calls_of (lent_tree_view t)) items.now) }
    ensures prints { Prints (K.taken sink.old) (K.taken sink.new) printer.old printer.new
        (flat_map (λ t. calls_of (lent_tree_view t)) items.now) result }
    ensures cause { HasCause (K.faults sink.old) (K.faults sink.new) result }
{
    for item in items {
        print_lent_tree(item, printer, sink)?;
    }
    Ok(())
}
