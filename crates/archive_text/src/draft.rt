// The parts of a line, appended to a text in memory, where a call fails for want of memory alone.
ghost use Rattle.std.specs.Prelude.{◌≡◌, ◌++◌, ◌∷◌, [], OnOk};
ghost use Rattle.json.specs.Print.{quoted};
ghost use Rattle.keyed_tree.specs.View.{key_view};
ghost use Rattle.xa_outside.specs.InMemory.{sink_state};
ghost use Rattle.jsonml_lines.specs.Lines.{cell_text};
ghost use Rattle.archive_text.specs.Export.{number_cell};

use jsonml_lines::{end_line, write_cell, write_text_cell, write_word};
use jsonml_tree::Scalar;
use keyed_tree::KeyVal;
use std::alloc::AllocError;
use xa_outside::MemSink;

pub(crate) fn put_word(out: &mut MemSink, word: &str) -> Result<(), AllocError>
    ensures { OnOk result ((sink_state out.new).taken
        ≡ (sink_state out.old).taken ++ (91 ∷ quoted word.now)) }
{
    match write_word(word, out) {
        Ok(()) => Ok(()),
        Err(_) => Err(AllocError),
    }
}

pub(crate) fn put_text(out: &mut MemSink, text: &str) -> Result<(), AllocError>
    ensures { OnOk result ((sink_state out.new).taken
        ≡ (sink_state out.old).taken ++ (44 ∷ quoted text.now)) }
{
    match write_text_cell(text, out) {
        Ok(()) => Ok(()),
        Err(_) => Err(AllocError),
    }
}

fn put_cell(out: &mut MemSink, cell: &KeyVal) -> Result<(), AllocError>
    ensures { OnOk result ((sink_state out.new).taken
        ≡ (sink_state out.old).taken ++ (44 ∷ cell_text (key_view cell.now))) }
{
    match write_cell(cell, out) {
        Ok(()) => Ok(()),
        Err(_) => Err(AllocError),
    }
}

pub(crate) fn put_number(out: &mut MemSink, n: u64) -> Result<(), AllocError>
    ensures { OnOk result ((sink_state out.new).taken
        ≡ (sink_state out.old).taken ++ (44 ∷ cell_text (number_cell n))) }
{
    put_cell(out, &KeyVal::Scalar(Scalar::Whole(n as i128)))
}

pub(crate) fn put_end(out: &mut MemSink) -> Result<(), AllocError>
    ensures { OnOk result ((sink_state out.new).taken
        ≡ (sink_state out.old).taken ++ (93 ∷ 10 ∷ [])) }
{
    match end_line(out) {
        Ok(()) => Ok(()),
        Err(_) => Err(AllocError),
    }
}
