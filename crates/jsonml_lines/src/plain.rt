// Lines of plain texts, read with no JSON value in between.
//
// A text is plain where nothing in it has an escape. What prints as the bytes is all that can be read from them.
ghost use Rattle.std.specs.Prelude.{◌≡◌, ◌++◌, ◌∷◌, [], map, IfOk, IfSome};
ghost use Rattle.std.specs.List.{AllByRecursion};
ghost use Rattle.json.specs.Print.{escape, quoted};
ghost use Rattle.keyed_tree.specs.View.{key_view};
ghost use Rattle.jsonml_lines.specs.Lines.{cell_text, cells_text, front_text};
ghost use Rattle.jsonml_lines.specs.RoundTrip.{IsCell, IsLine};
ghost use Rattle.jsonml_lines.specs.View.{line_view};

use crate::line::Line;
use jsonml_print::plain_run;
use jsonml_tree::{Content, Scalar};
use keyed_tree::KeyVal;
use std::alloc::{AllocError, Global};

/// The line that the bytes are, where each of its cells is a plain text or an array of one.
pub(crate) fn plain_line(alloc: Global, front: &[u8]) -> Result<Option<Line>, AllocError>
    ensures text { IfOk result (λ o. IfSome o (λ l. front.now ≡ front_text (line_view l))) }
    ensures line { IfOk result (λ o. IfSome o (λ l. IsLine (line_view l))) }
{
    let [b'[', b'"', behind @ ..] = front else {
        return Ok(None);
    };
    match plain_text(behind) {
        Some((word, rest)) => line_with(alloc, word, rest),
        None => Ok(None),
    }
}

/// The line of a word and of the cells that stand behind it.
fn line_with(alloc: Global, word: &str, bytes: &[u8]) -> Result<Option<Line>, AllocError>
    ensures text { IfOk result (λ o. IfSome o
        (λ l. 91 ∷ (quoted word.now ++ bytes.now) ≡ front_text (line_view l))) }
    ensures line { IfOk result (λ o. IfSome o (λ l. IsLine (line_view l))) }
{
    match plain_cells(alloc, bytes)? {
        Some(cells) => {
            let word = String::from_str(alloc, word)?;
            Ok(Some(Line { word, cells }))
        }
        None => Ok(None),
    }
}

/// The cells that the bytes up to the bracket at their end are.
fn plain_cells(alloc: Global, bytes: &[u8]) -> Result<Option<Vec<KeyVal>>, AllocError>
    ensures text { IfOk result (λ o. IfSome o
        (λ v. bytes.now ≡ cells_text (map key_view v.items) ++ 93 ∷ [])) }
    ensures cells { IfOk result (λ o. IfSome o
        (λ v. AllByRecursion IsCell (map key_view v.items))) }
{
    let mut cells = Vec::new(alloc);
    let mut left = bytes;
    loop {
        if let [b']'] = left {
            return Ok(Some(cells));
        }
        match plain_cell(alloc, left)? {
            Some((cell, rest)) => {
                cells.push(cell)?;
                left = rest;
            }
            None => return Ok(None),
        }
    }
}

/// The cell in front with its comma, and what stands behind it.
fn plain_cell(alloc: Global, bytes: &[u8]) -> Result<Option<(KeyVal, &[u8])>, AllocError>
    ensures text { IfOk result (λ o. IfSome o
        (λ r. bytes.now ≡ 44 ∷ (cell_text (key_view r.0) ++ r.1.now))) }
    ensures cell { IfOk result (λ o. IfSome o (λ r. IsCell (key_view r.0))) }
{
    match bytes {
        [b',', b'"', behind @ ..] => text_cell(alloc, behind),
        [b',', b'[', b'"', behind @ ..] => array_cell(alloc, behind),
        _ => Ok(None),
    }
}

/// The text that goes on behind a quote, as a cell, and what stands behind it.
fn text_cell(alloc: Global, bytes: &[u8]) -> Result<Option<(KeyVal, &[u8])>, AllocError>
    ensures text { IfOk result (λ o. IfSome o
        (λ r. 34 ∷ bytes.now ≡ cell_text (key_view r.0) ++ r.1.now)) }
    ensures cell { IfOk result (λ o. IfSome o (λ r. IsCell (key_view r.0))) }
{
    match plain_text(bytes) {
        Some((text, rest)) => {
            let text = String::from_str(alloc, text)?;
            Ok(Some((KeyVal::Scalar(Scalar::Text(text)), rest)))
        }
        None => Ok(None),
    }
}

/// The array of the text that goes on behind a quote, as a cell, and what stands behind it.
fn array_cell(alloc: Global, bytes: &[u8]) -> Result<Option<(KeyVal, &[u8])>, AllocError>
    ensures text { IfOk result (λ o. IfSome o
        (λ r. 91 ∷ 34 ∷ bytes.now ≡ cell_text (key_view r.0) ++ r.1.now)) }
    ensures cell { IfOk result (λ o. IfSome o (λ r. IsCell (key_view r.0))) }
{
    match plain_text(bytes) {
        Some((text, [b']', rest @ ..])) => {
            let content = Content::of_text(alloc, text)?;
            Ok(Some((KeyVal::Content(content), rest)))
        }
        Some(_) => Ok(None),
        None => Ok(None),
    }
}

/// The plain text that goes on behind a quote, and what stands behind the next one.
fn plain_text(bytes: &[u8]) -> Option<(&str, &[u8])>
    ensures { IfSome result (λ r. bytes.now ≡ escape r.0.now ++ 34 ∷ r.1.now) }
{
    let run = plain_run(bytes);
    if run >= bytes.len() || bytes[run] != b'"' {
        return None;
    }
    match str::from_utf8(&bytes[..run]) {
        Ok(text) => Some((text, &bytes[run + 1..])),
        Err(_) => None,
    }
}
