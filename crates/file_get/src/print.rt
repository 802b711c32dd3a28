// Printing what nodes have.
ghost use Rattle.std.specs.Prelude.{◌≡◌, ◌≤◌, ℕ, false, IsTrue, OnOk};
ghost use Rattle.jsonml_print.specs.Pen.{takes_attribute, IsOpen};
ghost use Rattle.keyed_tree.specs.Data.{attr};
ghost use Rattle.record_parts.specs.Shown.{shown_name};
ghost use Rattle.record_parts.specs.declared.limits.TheConstants.{DEEPEST};
ghost use Rattle.file_rows.specs.View.{child_view};
ghost use Rattle.content_print.specs.LentPrinted.{output, whole_calls};
ghost use Rattle.file_get.specs.Contents.{ContentPrinted};
ghost use Rattle.file_get.specs.Told.{fault_of};
ghost use Rattle.file_get.specs.State.{state};
ghost use Rattle.file_get.specs.Walks.{IsBegun, StandsIn};
ghost use Rattle.file_get.specs.Inside.{InsidePrinted, OpenedPrinted};

use crate::body::read_body;
use crate::fault::GetFault;
use crate::read::Opening;
use crate::span::{Ask, Place};
use crate::value::Body;
use content_print::{print_lent_attr, print_lent_content};
use file_rows::Child;
use jsonml_text::Printer;
use record_cursor::Buffer;
use xa_outside::{Folder, Sink};

/// Prints the body of a leaf as the content of the element that was begun for it.
pub(crate) fn print_leaf<F: Folder, K: Sink>(
    ask: &Ask<'_>,
    child: Child,
    depth: u32,
    opening: &Opening<'_>,
    folder: &mut F,
    printer: &mut Printer,
    sink: &mut K,
) -> Result<(), GetFault>
    requires behind { opening.now.behind ≤ child.end }
    requires depth { depth ≤ DEEPEST }
    requires begun { IsBegun depth printer.old }
    ensures { (steps : ℕ) → opening.now.is_inner ≡ false
        → InsidePrinted ask.now.version ask.now.name.now (child_view child) opening.now depth
        (state F.files F.draft F.numbers F.faults K.taken K.faults
        folder.old sink.old printer.old steps)
        (state F.files F.draft F.numbers F.faults K.taken K.faults
        folder.new sink.new printer.new steps) (fault_of result) }
{
    let mut room = Buffer::new(ask.alloc);
    match read_body(ask, folder, opening.behind, child.end, &mut room) {
        Ok(Body::Content(bytes)) => print_content(bytes, printer, sink),
        Ok(Body::Scalar(_)) => Err(GetFault::Damage),
        Err(fault) => Err(GetFault::from(fault)),
    }
}

// Prints the content that all of the bytes are into the element that has just been begun.
fn print_content<K: Sink>(bytes: &[u8], printer: &mut Printer, sink: &mut K) -> Result<(), GetFault>
    requires open { IsOpen printer.old }
    requires attributes { IsTrue (takes_attribute printer.old.last) }
    ensures prints { ContentPrinted (output K.taken K.faults sink.old printer.old)
        (output K.taken K.faults sink.new printer.new) (whole_calls bytes.now) result }
    ensures inside { OnOk result (printer.old.depth ≤ printer.new.depth) }
{
    match print_lent_content(bytes, printer, sink) {
        Ok(()) => Ok(()),
        Err(fault) => Err(GetFault::from(fault)),
    }
}

/// Prints a leaf that is named by an attribute. Behind an element it is damage, and outside of one.
pub(crate) fn print_attribute<F: Folder, K: Sink>(
    ask: &Ask<'_>,
    child: Child,
    place: Place,
    opening: &Opening<'_>,
    name: &str,
    folder: &mut F,
    printer: &mut Printer,
    sink: &mut K,
) -> Result<bool, GetFault>
    requires behind { opening.now.behind ≤ child.end }
    requires stands { StandsIn place.depth place.has_item printer.old }
    requires name { shown_name opening.now.name ≡ attr name.now }
    ensures { (steps : ℕ) → OpenedPrinted ask.now.version ask.now.name.now
        (child_view child) opening.now place.depth place.has_item
        (state F.files F.draft F.numbers F.faults K.taken K.faults
        folder.old sink.old printer.old steps)
        (state F.files F.draft F.numbers F.faults K.taken K.faults
        folder.new sink.new printer.new steps) result }
{
    if opening.is_inner || place.depth == 0 || place.has_item {
        return Err(GetFault::Damage);
    }
    let mut room = Buffer::new(ask.alloc);
    match read_body(ask, folder, opening.behind, child.end, &mut room) {
        Ok(Body::Scalar(value)) => {
            print_lent_attr(name, value, printer, sink)?;
            Ok(false)
        }
        Ok(Body::Content(_)) => Err(GetFault::Damage),
        Err(fault) => Err(GetFault::from(fault)),
    }
}
