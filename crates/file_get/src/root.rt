// Printing a version from the virtual root on.
ghost use Rattle.std.specs.Prelude.{◌≡◌, ◌≤◌};
ghost use Rattle.jsonml_print.specs.Pen.{fresh};
ghost use Rattle.file_get.specs.Roots.{RootPrinted, TextPut};
ghost use Rattle.file_get.specs.State.{state};
ghost use Rattle.file_get.specs.Told.{fault_of};

use crate::fault::GetFault;
use crate::span::Ask;
use crate::walk::print_row;
use file_rows::root_row;
use jsonml_text::Printer;
use std::sync::ledger::Ledger;
use timestamp_tree::Steps;
use xa_outside::{Buffered, Folder, Sink, put_all};

/// Writes the text of a version of the archive in the first `size` bytes of a file, whose header
/// has so many, and a line feed.
pub(crate) fn put_version<F: Folder, O: Sink, L: Ledger>(
    ask: &Ask<'_>,
    first: u64,
    size: u64,
    folder: &mut F,
    out: &mut O,
    steps: &mut Steps<L>,
) -> Result<(), GetFault>
    requires { first ≤ size }
    ensures { TextPut ask.now.version ask.now.name.now size first
        (state F.files F.draft F.numbers F.faults O.taken O.faults
        folder.old out.old fresh steps.old)
        (state F.files F.draft F.numbers F.faults O.taken O.faults
        folder.new out.new fresh steps.new) (fault_of result) }
{
    let mut buffered = Buffered::new(out);
    put_text(ask, first, size, folder, &mut buffered, steps)?;
    buffered.flush()?;
    Ok(())
}

fn put_text<F: Folder, K: Sink, L: Ledger>(
    ask: &Ask<'_>,
    first: u64,
    size: u64,
    folder: &mut F,
    sink: &mut K,
    steps: &mut Steps<L>,
) -> Result<(), GetFault>
    requires { first ≤ size }
    ensures { TextPut ask.now.version ask.now.name.now size first
        (state F.files F.draft F.numbers F.faults K.taken K.faults
        folder.old sink.old fresh steps.old)
        (state F.files F.draft F.numbers F.faults K.taken K.faults
        folder.new sink.new fresh steps.new) (fault_of result) }
{
    let mut printer = Printer::new();
    print_root(ask, first, size, folder, &mut printer, sink, steps)?;
    put_all(sink, b"\n")?;
    Ok(())
}

// Prints what the version has at the virtual root, which is one element.
#[tactic(auto, using(crate::proofs::Roots::fresh_stands))]
fn print_root<F: Folder, K: Sink, L: Ledger>(
    ask: &Ask<'_>,
    first: u64,
    size: u64,
    folder: &mut F,
    printer: &mut Printer,
    sink: &mut K,
    steps: &mut Steps<L>,
) -> Result<(), GetFault>
    requires size { first ≤ size }
    requires fresh { printer.old ≡ fresh }
    ensures { RootPrinted ask.now.version ask.now.name.now size first
        (state F.files F.draft F.numbers F.faults K.taken K.faults
        folder.old sink.old printer.old steps.old)
        (state F.files F.draft F.numbers F.faults K.taken K.faults
        folder.new sink.new printer.new steps.new) (fault_of result) }
{
    let row = root_row(folder, ask.name, first, size)?;
    let has_element = print_row(ask, row, 0, folder, printer, sink, steps)?;
    if has_element {
        return Ok(());
    }
    Err(GetFault::Damage)
}
