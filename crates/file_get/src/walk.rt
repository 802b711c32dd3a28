// Walking the rows of a version, and printing what it has.
ghost use Rattle.std.specs.Prelude.{◌≡◌, ◌+◌, ◌-◌, ◌*◌, ◌^◌, ◌<◌, ◌≤◌, true, false};
ghost use Rattle.file_rows.specs.View.{row_view, child_view};
ghost use Rattle.file_get.specs.Told.{fault_of};
ghost use Rattle.file_get.specs.State.{state};
ghost use Rattle.file_get.specs.Walks.{IsBegun, StandsIn};
ghost use Rattle.file_get.specs.Visits.{Visited, arrived};
ghost use Rattle.file_get.specs.Printed.{RowPrinted, ChildPrinted, NodePrinted};
ghost use Rattle.file_get.specs.Inside.{InsidePrinted, OpenedPrinted};
ghost use Rattle.keyed_tree.specs.Data.{tag};
ghost use Rattle.record_parts.specs.Shown.{shown_name};
ghost use Rattle.record_parts.specs.declared.limits.TheConstants.{DEEPEST};

use crate::fault::GetFault;
use crate::look::{Sight, look};
use crate::print::{print_attribute, print_leaf};
use crate::read::{Opening, read_opening};
use crate::span::{Ask, Place, Span, whole_of};
use file_rows::{Child, Row, count_children, read_child, row_of};
use jsonml_text::Printer;
use record_cursor::Buffer;
use record_parts::{DEEPEST, NameView};
use std::sync::ledger::Ledger;
use timestamp_tree::Steps;
use xa_outside::{Folder, Sink};

/// Prints those children of a row that the version has, and answers whether an element was among
/// them.
#[cycle(walk)]
pub(crate) fn print_row<F: Folder, K: Sink, L: Ledger>(
    ask: &Ask<'_>,
    row: Row,
    depth: u32,
    folder: &mut F,
    printer: &mut Printer,
    sink: &mut K,
    steps: &mut Steps<L>,
) -> Result<bool, GetFault>
    requires depth { depth ≤ DEEPEST }
    requires stands { StandsIn depth false printer.old }
    ensures { RowPrinted ask.now.version ask.now.name.now (row_view row) depth
        (state F.files F.draft F.numbers F.faults K.taken K.faults
        folder.old sink.old printer.old steps.old)
        (state F.files F.draft F.numbers F.faults K.taken K.faults
        folder.new sink.new printer.new steps.new) result }
{
    let count = count_children(folder, ask.name, row)?;
    if count == 0 {
        return Ok(false);
    }
    let span = whole_of(row, count);
    let mut place = Place {
        depth,
        after: row.first,
        has_item: false,
    };
    visit(ask, &row, span, &mut place, folder, printer, sink, steps)?;
    Ok(place.has_item)
}

// Searches a part of a row, and prints those of its children that the version has.
#[cycle(walk)]
fn visit<F: Folder, K: Sink, L: Ledger>(
    ask: &Ask<'_>,
    row: &Row,
    span: Span,
    place: &mut Place,
    folder: &mut F,
    printer: &mut Printer,
    sink: &mut K,
    steps: &mut Steps<L>,
) -> Result<(), GetFault>
    requires ordered { span.at ≤ span.limit }
    requires short { span.limit < 2 ^ 64 }
    requires some { 1 ≤ span.count }
    requires few { span.position + span.count < 2 ^ 32 }
    requires fits { 4 + 24 * (span.position + span.count) ≤ row.now.dir }
    requires after { place.old.after ≤ row.now.end }
    requires depth { place.old.depth ≤ DEEPEST }
    requires stands { StandsIn place.old.depth place.old.has_item printer.old }
    ensures { Visited ask.now.version ask.now.name.now (row_view row.now) span place.old
        (state F.files F.draft F.numbers F.faults K.taken K.faults
        folder.old sink.old printer.old steps.old)
        (state F.files F.draft F.numbers F.faults K.taken K.faults
        folder.new sink.new printer.new steps.new) (arrived place.new result) }
{
    match look(ask, folder, steps, span)? {
        Sight::Lacks => Ok(()),
        Sight::Child => print_child(ask, row, span, place, folder, printer, sink, steps),
        Sight::Parts { left, right } => {
            visit(ask, row, left, place, folder, printer, sink, steps)?;
            visit(ask, row, right, place, folder, printer, sink, steps)
        }
    }
}

// Prints the only child of a part of a row, which has the version.
#[cycle(walk)]
fn print_child<F: Folder, K: Sink, L: Ledger>(
    ask: &Ask<'_>,
    row: &Row,
    span: Span,
    place: &mut Place,
    folder: &mut F,
    printer: &mut Printer,
    sink: &mut K,
    steps: &mut Steps<L>,
) -> Result<(), GetFault>
    requires fits { 4 + 24 * (span.position + 1) ≤ row.now.dir }
    requires after { place.old.after ≤ row.now.end }
    requires depth { place.old.depth ≤ DEEPEST }
    requires stands { StandsIn place.old.depth place.old.has_item printer.old }
    ensures { ChildPrinted ask.now.version ask.now.name.now (row_view row.now) span place.old
        (state F.files F.draft F.numbers F.faults K.taken K.faults
        folder.old sink.old printer.old steps.old)
        (state F.files F.draft F.numbers F.faults K.taken K.faults
        folder.new sink.new printer.new steps.new) (arrived place.new result) }
{
    let child = read_child(folder, ask.name, *row, span.position, place.after, row.end)?;
    let has_item = print_node(ask, child, *place, folder, printer, sink, steps)?;
    place.after = child.end;
    place.has_item = has_item;
    Ok(())
}

// Prints a node, and answers whether an element stands there now.
#[cycle(walk)]
fn print_node<F: Folder, K: Sink, L: Ledger>(
    ask: &Ask<'_>,
    child: Child,
    place: Place,
    folder: &mut F,
    printer: &mut Printer,
    sink: &mut K,
    steps: &mut Steps<L>,
) -> Result<bool, GetFault>
    requires depth { place.depth ≤ DEEPEST }
    requires stands { StandsIn place.depth place.has_item printer.old }
    ensures { NodePrinted ask.now.version ask.now.name.now (child_view child)
        place.depth place.has_item
        (state F.files F.draft F.numbers F.faults K.taken K.faults
        folder.old sink.old printer.old steps.old)
        (state F.files F.draft F.numbers F.faults K.taken K.faults
        folder.new sink.new printer.new steps.new) result }
{
    let mut room = Buffer::new(ask.alloc);
    let opening = read_opening(ask, folder, child, &mut room)?;
    match &opening.name {
        NameView::Attr(name) => {
            print_attribute(ask, child, place, &opening, name, folder, printer, sink)
        }
        NameView::Tag(tag) => {
            print_element(
                ask, child, place, &opening, tag, folder, printer, sink, steps,
            )
        }
    }
}

// Prints a node that is named by this tag.
#[cycle(walk)]
fn print_element<F: Folder, K: Sink, L: Ledger>(
    ask: &Ask<'_>,
    child: Child,
    place: Place,
    opening: &Opening<'_>,
    text: &str,
    folder: &mut F,
    printer: &mut Printer,
    sink: &mut K,
    steps: &mut Steps<L>,
) -> Result<bool, GetFault>
    requires behind { opening.now.behind ≤ child.end }
    requires depth { place.depth ≤ DEEPEST }
    requires stands { StandsIn place.depth place.has_item printer.old }
    requires name { shown_name opening.now.name ≡ tag text.now }
    ensures { OpenedPrinted ask.now.version ask.now.name.now (child_view child) opening.now
        place.depth place.has_item
        (state F.files F.draft F.numbers F.faults K.taken K.faults
        folder.old sink.old printer.old steps.old)
        (state F.files F.draft F.numbers F.faults K.taken K.faults
        folder.new sink.new printer.new steps.new) result }
{
    if place.depth == 0 && place.has_item {
        return Err(GetFault::Damage);
    }
    printer.begin_elem(sink, text)?;
    print_inside(
        ask,
        child,
        place.depth,
        opening,
        folder,
        printer,
        sink,
        steps,
    )?;
    printer.end_elem(sink)?;
    Ok(true)
}

// Prints what stands behind the opening record of a node that was begun.
#[cycle(walk)]
fn print_inside<F: Folder, K: Sink, L: Ledger>(
    ask: &Ask<'_>,
    child: Child,
    depth: u32,
    opening: &Opening<'_>,
    folder: &mut F,
    printer: &mut Printer,
    sink: &mut K,
    steps: &mut Steps<L>,
) -> Result<(), GetFault>
    requires behind { opening.now.behind ≤ child.end }
    requires depth { depth ≤ DEEPEST }
    requires begun { IsBegun depth printer.old }
    ensures { InsidePrinted ask.now.version ask.now.name.now (child_view child)
        opening.now depth
        (state F.files F.draft F.numbers F.faults K.taken K.faults
        folder.old sink.old printer.old steps.old)
        (state F.files F.draft F.numbers F.faults K.taken K.faults
        folder.new sink.new printer.new steps.new) (fault_of result) }
{
    if !opening.is_inner {
        return print_leaf(ask, child, depth, opening, folder, printer, sink);
    }
    if depth >= DEEPEST {
        return Err(GetFault::Damage);
    }
    match row_of(child, opening.behind) {
        Some(row) => {
            print_row(ask, row, depth + 1, folder, printer, sink, steps)?;
            Ok(())
        }
        None => Err(GetFault::Damage),
    }
}
