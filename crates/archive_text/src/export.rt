// The text of an archive.
ghost use Rattle.std.specs.Prelude.{◌≡◌, ◌++◌, ◌<◌, ◌^◌, ◌≤◌, [], ◌∷◌, map, OnOk, IfErr, string_bytes};
ghost use Rattle.xa_outside.specs.Causes.{Rose};
ghost use Rattle.xa_outside.specs.InMemory.{sink_state};
ghost use Rattle.xa_outside.specs.Taken.{Puts};
ghost use Rattle.key_spec.specs.Canonical.{canonical};
ghost use Rattle.key_spec.specs.View.{spec_view};
ghost use Rattle.archive_tree.specs.ArchiveView.{archive_view};
ghost use Rattle.jsonml_lines.specs.Lines.{line_text};
ghost use Rattle.archive_text.specs.Export.{count_line, key_line, note_line, note_lines, lines_text, export_text};
ghost use Rattle.archive_text.specs.Faults.{HasSinkCause, IfSink};
ghost use Rattle.archive_text.specs.Texts.{text_lines};

use crate::draft::{put_end, put_number, put_text, put_word};
use crate::fault::TextFault;
use crate::nodes::put_kids;
use archive_tree::Archive;
use key_spec::Spec;
use std::alloc::{AllocError, Global};
use xa_outside::{Buffered, MemSink, Sink, put_all};

/// Writes the text of an archive with a note for each version.
///
/// What stands in front of the nodes is made in memory. It goes once over the nodes, recurses as deep as they nest, and writes
/// in pieces of kilobytes.
pub fn write_text<K: Sink>(
    alloc: Global,
    spec: &Spec,
    archive: &Archive,
    notes: &[String],
    sink: &mut K,
) -> Result<(), TextFault>
    ensures bytes { Puts (K.taken sink.old) (K.taken sink.new) result
        (export_text (spec_view spec.now) (archive_view archive.now) (map string_bytes notes.now)) }
    ensures later { K.faults sink.old ≤ K.faults sink.new }
    ensures cause { IfErr result
        (λ e. IfSink e (Rose (K.faults sink.old) (K.faults sink.new))) }
{
    let mut buffered = Buffered::new(sink);
    put_export(alloc, &mut buffered, spec, archive, notes)?;
    match buffered.flush() {
        Ok(()) => Ok(()),
        Err(_) => Err(TextFault::Sink),
    }
}

/// The same, in small pieces.
pub(crate) fn put_export<K: Sink>(
    alloc: Global,
    out: &mut K,
    spec: &Spec,
    archive: &Archive,
    notes: &[String],
) -> Result<(), TextFault>
    ensures bytes { Puts (K.taken out.old) (K.taken out.new) result
        (export_text (spec_view spec.now) (archive_view archive.now) (map string_bytes notes.now)) }
    ensures cause { HasSinkCause (K.faults out.old) (K.faults out.new) result }
{
    let mut head = MemSink::new(alloc, Vec::new(alloc));
    put_head(alloc, &mut head, spec, archive.n(), notes)?;
    put_all(out, head.taken())?;
    put_kids(alloc, out, archive.kids())
}

/// The lines in front of the nodes of an archive of so many versions.
fn put_head(
    alloc: Global,
    out: &mut MemSink,
    spec: &Spec,
    n: u32,
    notes: &[String],
) -> Result<(), AllocError>
    ensures { OnOk result ((sink_state out.new).taken ≡ (sink_state out.old).taken
        ++ (line_text (count_line n)
        ++ (lines_text (map key_line (text_lines (canonical (spec_view spec.now))))
        ++ lines_text (note_lines 1 (map string_bytes notes.now))))) }
{
    put_count(out, n)?;
    put_keys(alloc, out, spec)?;
    put_notes(out, notes)
}

fn put_count(out: &mut MemSink, n: u32) -> Result<(), AllocError>
    ensures { OnOk result ((sink_state out.new).taken
        ≡ (sink_state out.old).taken ++ line_text (count_line n)) }
{
    put_word(out, "xarch")?;
    put_number(out, n as u64)?;
    put_end(out)
}

fn put_keys(alloc: Global, out: &mut MemSink, spec: &Spec) -> Result<(), AllocError>
    ensures { OnOk result ((sink_state out.new).taken ≡ (sink_state out.old).taken
        ++ lines_text (map key_line (text_lines (canonical (spec_view spec.now))))) }
{
    let text = spec.text(alloc)?;
    put_lines(out, text.as_str())
}

fn put_lines(out: &mut MemSink, text: &str) -> Result<(), AllocError>
    ensures { OnOk result ((sink_state out.new).taken ≡ (sink_state out.old).taken
        ++ lines_text (map key_line (text_lines text.now))) }
{
    let mut left = text;
    while let Some((line, rest)) = left.split_once('\n') {
        put_key(out, line)?;
        left = rest;
    }
    if left.is_empty() {
        return Ok(());
    }
    put_key(out, left)
}

fn put_key(out: &mut MemSink, line: &str) -> Result<(), AllocError>
    ensures { OnOk result ((sink_state out.new).taken
        ≡ (sink_state out.old).taken ++ line_text (key_line line.now)) }
{
    put_word(out, "key")?;
    put_text(out, line)?;
    put_end(out)
}

fn put_notes(out: &mut MemSink, notes: &[String]) -> Result<(), AllocError>
    ensures { OnOk result ((sink_state out.new).taken ≡ (sink_state out.old).taken
        ++ lines_text (note_lines 1 (map string_bytes notes.now))) }
{
    for (index, note) in notes.iter().enumerate() {
        put_if_some(out, index as u64 + 1, note.as_str())?;
    }
    Ok(())
}

/// The line of a note, and nothing where it is empty.
fn put_if_some(out: &mut MemSink, i: u64, note: &str) -> Result<(), AllocError>
    ensures { OnOk result ((sink_state out.new).taken
        ≡ (sink_state out.old).taken ++ lines_text (note_lines i (note.now ∷ []))) }
{
    if note.is_empty() {
        return Ok(());
    }
    put_note(out, i, note)
}

fn put_note(out: &mut MemSink, i: u64, note: &str) -> Result<(), AllocError>
    ensures { OnOk result ((sink_state out.new).taken
        ≡ (sink_state out.old).taken ++ line_text (note_line i note.now)) }
{
    put_word(out, "note")?;
    put_number(out, i)?;
    put_text(out, note)?;
    put_end(out)
}
