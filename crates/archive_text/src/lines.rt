// The lines of a text, one after another.
ghost use Rattle.std.specs.Prelude.{◌≡◌, ◌≢◌, ◌<◌, ◌≤◌, ◌∷◌, true, false, List, length, drop, map, IfOk, IsTrue, string_bytes};
ghost use Rattle.keyed_tree.specs.View.{key_view};
ghost use Rattle.keyed_tree.specs.WellFormed.{are_keys_well_formed};
ghost use Rattle.jsonml_lines.specs.Lines.{PlainLine};
ghost use Rattle.jsonml_lines.specs.View.{line_view};
ghost use Rattle.archive_text.specs.Reading.{AreLines, Finds};

use crate::fault::ReadFault;
use jsonml_lines::{Line, take_line};
use std::alloc::Global;

/// Whether that is the word of the line.
pub(crate) fn has_word(line: &Line, word: &str) -> bool
    ensures yes { result ≡ true → string_bytes line.now.word ≡ word.now }
    ensures no { result ≡ false → string_bytes line.now.word ≢ word.now }
{
    line.word.as_str() == word
}

/// The line at the offset, and the offset behind it.
pub(crate) fn read_line(alloc: Global, bytes: &[u8], at: usize) -> Result<(Line, usize), ReadFault>
    requires { at ≤ length bytes.now }
    ensures found { (l : PlainLine) (ls : List PlainLine) → AreLines (l ∷ ls) (drop at bytes.now)
        → Finds result (λ r. (line_view r.0 ≡ l) × AreLines ls (drop r.1 bytes.now)) }
    ensures further { IfOk result (λ r. at < r.1) }
    ensures within { IfOk result (λ r. r.1 ≤ length bytes.now) }
    ensures well_formed { IfOk result
        (λ r. IsTrue (are_keys_well_formed (map key_view r.0.cells.items))) }
{
    match take_line(alloc, bytes, at)? {
        Some(read) => Ok(read),
        None => Err(ReadFault::Bad),
    }
}
