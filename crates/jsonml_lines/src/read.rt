ghost use Rattle.std.specs.Prelude.{◌≡◌, ◌<◌, ◌≤◌, ◌++◌, ℕ, List, length, drop, map, IfOk, IfSome, IsTrue, option_map};
ghost use Rattle.std.specs.Option.{IsSomeAnd};
ghost use Rattle.keyed_tree.specs.View.{key_view};
ghost use Rattle.keyed_tree.specs.WellFormed.{are_keys_well_formed};
ghost use Rattle.jsonml_lines.specs.Lines.{PlainLine, line_text};
ghost use Rattle.jsonml_lines.specs.Read.{line_at, line_of};
ghost use Rattle.jsonml_lines.specs.RoundTrip.{AreLineTexts, IsLine};
ghost use Rattle.jsonml_lines.specs.View.{line_view};

use crate::line::Line;
use crate::plain::plain_line;
use crate::split::split_line;
use crate::value::line_in;
use serde_json::Value;
use std::alloc::{AllocError, Global};

/// The line that begins at an offset, and the offset behind its line feed. None exactly where no line feed follows, or what
/// stands in front of the first is no array of a string, scalars and contents. It recurses as deep as JSON nests, which is at
/// most 127 levels.
pub fn take_line(
    alloc: Global,
    bytes: &[u8],
    at: usize,
) -> Result<Option<(Line, usize)>, AllocError>
    requires { at ≤ length bytes.now }
    ensures line { IfOk result (λ o. option_map (λ r. (line_view r.0, drop r.1 bytes.now)) o
        ≡ line_at (drop at bytes.now)) }
    ensures found { (l : PlainLine) (rest : List ℕ) → IsLine l → AreLineTexts l
        → drop at bytes.now ≡ line_text l ++ rest
        → IfOk result (λ o. IsSomeAnd o (λ r. (line_view r.0 ≡ l) × (drop r.1 bytes.now ≡ rest))) }
    ensures further { IfOk result (λ o. IfSome o (λ r. at < r.1)) }
    ensures within { IfOk result (λ o. IfSome o (λ r. r.1 ≤ length bytes.now)) }
    ensures well_formed { IfOk result (λ o. IfSome o
        (λ r. IsTrue (are_keys_well_formed (map key_view r.0.cells.items)))) }
{
    match split_line(bytes, at) {
        Some((front, next)) => match line_of(alloc, front)? {
            Some(line) => Ok(Some((line, next))),
            None => Ok(None),
        },
        None => Ok(None),
    }
}

/// The line that stands in front of a line feed.
fn line_of(alloc: Global, front: &[u8]) -> Result<Option<Line>, AllocError>
    ensures line { IfOk result (λ o. option_map line_view o ≡ line_of front.now) }
    ensures well_formed { IfOk result (λ o. IfSome o
        (λ l. IsTrue (are_keys_well_formed (map key_view l.cells.items)))) }
{
    match plain_line(alloc, front)? {
        Some(line) => Ok(Some(line)),
        None => line_by_value(alloc, front),
    }
}

/// The same, by way of its JSON value.
fn line_by_value(alloc: Global, front: &[u8]) -> Result<Option<Line>, AllocError>
    ensures line { IfOk result (λ o. option_map line_view o ≡ line_of front.now) }
    ensures well_formed { IfOk result (λ o. IfSome o
        (λ l. IsTrue (are_keys_well_formed (map key_view l.cells.items)))) }
{
    match Value::from_slice(alloc, front) {
        Ok(value) => line_in(alloc, &value),
        Err(error) => if error.is_memory() {
            Err(AllocError)
        } else {
            Ok(None)
        },
    }
}
