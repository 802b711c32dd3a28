// The specification that the lines of a text spell.
ghost use Rattle.std.specs.Prelude.{◌≡◌, ◌≢◌, ◌≤◌, ◌++◌, ◌∷◌, ℕ, List, codes, length, drop, map, Ok, IfOk, string_bytes};
ghost use Rattle.key_spec.specs.Closed.{closed};
ghost use Rattle.key_spec.specs.Data.{PlainRule};
ghost use Rattle.key_spec.specs.View.{spec_view};
ghost use Rattle.jsonml_lines.specs.Lines.{PlainLine};
ghost use Rattle.archive_text.specs.Export.{key_line};
ghost use Rattle.archive_text.specs.Reading.{AreLines, Finds, rejoined};

use crate::cells::text_at;
use crate::fault::ReadFault;
use crate::lines::{has_word, read_line};
use key_spec::{Spec, SpecFault};
use std::alloc::Global;

/// The most bytes of a specification.
const LONGEST: usize = 1_048_576;

/// The specification that the lines from the offset on spell, and the offset behind them.
pub(crate) fn read_spec(
    alloc: Global,
    bytes: &[u8],
    start: usize,
) -> Result<(Spec, usize), ReadFault>
    requires { start ≤ length bytes.now }
    ensures found { (rules : List PlainRule) (lines : List (List ℕ)) (l : PlainLine)
        (rest : List PlainLine)
        → closed (rejoined lines) ≡ Ok rules → length (rejoined lines) ≤ 1048576
        → l.word ≢ codes "key" → AreLines (map key_line lines ++ l ∷ rest) (drop start bytes.now)
        → Finds result (λ r. (spec_view r.0 ≡ rules) × AreLines (l ∷ rest) (drop r.1 bytes.now)) }
    ensures within { IfOk result (λ r. r.1 ≤ length bytes.now) }
{
    let (text, next) = read_keys(alloc, bytes, start)?;
    let spec = spec_of(alloc, text.as_bytes())?;
    Ok((spec, next))
}

fn spec_of(alloc: Global, text: &[u8]) -> Result<Spec, ReadFault>
    ensures { (rules : List PlainRule) → closed text.now ≡ Ok rules → length text.now ≤ 1048576
        → Finds result (λ spec. spec_view spec ≡ rules) }
{
    if text.len() > LONGEST {
        return Err(ReadFault::Bad);
    }
    match Spec::parse(alloc, text) {
        Ok(spec) => Ok(spec),
        Err(SpecFault::Bad { .. }) => Err(ReadFault::Bad),
        Err(SpecFault::Memory) => Err(ReadFault::Memory),
    }
}

/// The text of the keys from the offset to the first other line, and the offset of that.
fn read_keys(alloc: Global, bytes: &[u8], start: usize) -> Result<(String, usize), ReadFault>
    requires { start ≤ length bytes.now }
    ensures found { (lines : List (List ℕ)) (l : PlainLine) (rest : List PlainLine)
        → l.word ≢ codes "key" → AreLines (map key_line lines ++ l ∷ rest) (drop start bytes.now)
        → Finds result (λ r. (string_bytes r.0 ≡ rejoined lines)
        × AreLines (l ∷ rest) (drop r.1 bytes.now)) }
    ensures within { IfOk result (λ r. r.1 ≤ length bytes.now) }
{
    let mut text = String::new(alloc);
    let mut at = start;
    loop {
        let (line, next) = read_line(alloc, bytes, at)?;
        if !has_word(&line, "key") {
            return Ok((text, at));
        }
        text.push_str(text_at(&line.cells, 0))?;
        text.push('\n')?;
        at = next;
    }
}
