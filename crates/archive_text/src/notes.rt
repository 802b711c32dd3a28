// The notes that the lines of a text spell.
ghost use Rattle.std.specs.Prelude.{◌≡◌, ◌≢◌, ◌≤◌, ◌-◌, ◌++◌, ◌∷◌, [], ℕ, List, codes, length, drop, map, OnOk, IfOk, string_bytes};
ghost use Rattle.keyed_tree.specs.View.{key_view};
ghost use Rattle.jsonml_lines.specs.Lines.{PlainLine};
ghost use Rattle.archive_text.specs.Export.{note_lines, number_cell, text_cell};
ghost use Rattle.archive_text.specs.Reading.{AreLines, Finds, padded};

use crate::cells::{number_at, text_at};
use crate::fault::ReadFault;
use crate::lines::{has_word, read_line};
use keyed_tree::KeyVal;
use std::alloc::{AllocError, Global};

/// So many notes, of which the lines from the offset on spell those that are not empty, and the offset behind them.
pub(crate) fn read_notes(
    alloc: Global,
    bytes: &[u8],
    start: usize,
    n: u32,
) -> Result<(Vec<String>, usize), ReadFault>
    requires { start ≤ length bytes.now }
    ensures found { (notes : List (List ℕ)) (l : PlainLine) (rest : List PlainLine)
        → length notes ≡ n → l.word ≢ codes "note"
        → AreLines (note_lines 1 notes ++ l ∷ rest) (drop start bytes.now)
        → Finds result (λ r. (map string_bytes r.0.items ≡ notes)
        × AreLines (l ∷ rest) (drop r.1 bytes.now)) }
    ensures within { IfOk result (λ r. r.1 ≤ length bytes.now) }
{
    let mut notes = Vec::new(alloc);
    let mut at = start;
    loop {
        let (line, next) = read_line(alloc, bytes, at)?;
        if !has_word(&line, "note") {
            pad(alloc, &mut notes, n as usize)?;
            return Ok((notes, at));
        }
        read_note(alloc, &mut notes, &line.cells, n)?;
        at = next;
    }
}

/// Adds the note of a line of that, with empty ones for the versions in front of it.
fn read_note(
    alloc: Global,
    notes: &mut Vec<String>,
    cells: &[KeyVal],
    n: u32,
) -> Result<(), ReadFault>
    ensures { (i : ℕ) (note : List ℕ) → i ≤ n
        → map key_view cells.now ≡ number_cell i ∷ text_cell note ∷ []
        → Finds result (λ _. map string_bytes notes.new.items
        ≡ padded (map string_bytes notes.old.items) (i - 1) ++ note ∷ []) }
{
    let i = number_at(cells, 0, n);
    pad(alloc, notes, i.saturating_sub(1) as usize)?;
    let note = String::from_str(alloc, text_at(cells, 1))?;
    notes.push(note)?;
    Ok(())
}

/// Adds empty notes until there are so many.
fn pad(alloc: Global, notes: &mut Vec<String>, size: usize) -> Result<(), AllocError>
    ensures { OnOk result (map string_bytes notes.new.items
        ≡ padded (map string_bytes notes.old.items) size) }
{
    let mut left = size.saturating_sub(notes.len());
    while left > 0 {
        notes.push(String::new(alloc))?;
        left -= 1;
    }
    Ok(())
}
