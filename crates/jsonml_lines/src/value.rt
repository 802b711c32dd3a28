ghost use Rattle.std.specs.Prelude.{◌≡◌, map, IfOk, IfSome, IsTrue, option_map};
ghost use Rattle.serde_json.specs.View.{view as data_of, items_view};
ghost use Rattle.jsonml_text.specs.Spelled.{content_in, scalar_in};
ghost use Rattle.keyed_tree.specs.Data.{scalar, inside};
ghost use Rattle.keyed_tree.specs.View.{key_view};
ghost use Rattle.keyed_tree.specs.WellFormed.{is_key_well_formed, are_keys_well_formed};
ghost use Rattle.jsonml_lines.specs.Read.{cell_in, cells_in, line_in, words_in};
ghost use Rattle.jsonml_lines.specs.View.{line_view};

use crate::line::Line;
use jsonml_text::{content_of, scalar_of};
use keyed_tree::KeyVal;
use serde_json::Value;
use std::alloc::{AllocError, Global};

/// The line that a value spells.
pub(crate) fn line_in(alloc: Global, value: &Value) -> Result<Option<Line>, AllocError>
    ensures line { IfOk result (λ o. option_map line_view o ≡ line_in (data_of value.now)) }
    ensures well_formed { IfOk result (λ o. IfSome o
        (λ l. IsTrue (are_keys_well_formed (map key_view l.cells.items)))) }
{
    match value {
        Value::Array(values) => line_from(alloc, values),
        Value::Null | Value::Bool(_) | Value::Number(_) => Ok(None),
        Value::String(_) | Value::Object(_) => Ok(None),
    }
}

/// The line that the values of an array spell.
fn line_from(alloc: Global, values: &[Value]) -> Result<Option<Line>, AllocError>
    ensures line { IfOk result (λ o. option_map line_view o ≡ words_in (items_view values.now)) }
    ensures well_formed { IfOk result (λ o. IfSome o
        (λ l. IsTrue (are_keys_well_formed (map key_view l.cells.items)))) }
{
    match values.split_first() {
        Some((Value::String(word), others)) => line_with(alloc, word.as_str(), others),
        Some(_) => Ok(None),
        None => Ok(None),
    }
}

/// The line of a word and the cells that values spell.
fn line_with(alloc: Global, word: &str, values: &[Value]) -> Result<Option<Line>, AllocError>
    ensures line { IfOk result (λ o. option_map line_view o
        ≡ option_map (λ ks. record { word = word.now; cells = ks })
        (cells_in (items_view values.now))) }
    ensures well_formed { IfOk result (λ o. IfSome o
        (λ l. IsTrue (are_keys_well_formed (map key_view l.cells.items)))) }
{
    match cells_of(alloc, values)? {
        Some(cells) => {
            let word = String::from_str(alloc, word)?;
            Ok(Some(Line { word, cells }))
        }
        None => Ok(None),
    }
}

/// The cells that values spell, where each spells one.
fn cells_of(alloc: Global, values: &[Value]) -> Result<Option<Vec<KeyVal>>, AllocError>
    ensures cells { IfOk result (λ o. option_map (λ v. map key_view v.items) o
        ≡ cells_in (items_view values.now)) }
    ensures well_formed { IfOk result (λ o. IfSome o
        (λ v. IsTrue (are_keys_well_formed (map key_view v.items)))) }
{
    let mut cells = Vec::new(alloc);
    for value in values {
        match cell_of(alloc, value)? {
            Some(cell) => cells.push(cell)?,
            None => return Ok(None),
        }
    }
    Ok(Some(cells))
}

/// The cell that a value spells: an array is a content, and all else a scalar.
fn cell_of(alloc: Global, value: &Value) -> Result<Option<KeyVal>, AllocError>
    ensures cell { IfOk result (λ o. option_map key_view o ≡ cell_in (data_of value.now)) }
    ensures well_formed { IfOk result (λ o. IfSome o
        (λ k. IsTrue (is_key_well_formed (key_view k)))) }
{
    match value {
        Value::Array(values) => content_cell(alloc, values),
        Value::Null | Value::Bool(_) | Value::Number(_) => scalar_cell(alloc, value),
        Value::String(_) | Value::Object(_) => scalar_cell(alloc, value),
    }
}

fn content_cell(alloc: Global, values: &[Value]) -> Result<Option<KeyVal>, AllocError>
    ensures cell { IfOk result (λ o. option_map key_view o
        ≡ option_map inside (content_in (items_view values.now))) }
    ensures well_formed { IfOk result (λ o. IfSome o
        (λ k. IsTrue (is_key_well_formed (key_view k)))) }
{
    match content_of(alloc, values)? {
        Some(content) => Ok(Some(KeyVal::Content(content))),
        None => Ok(None),
    }
}

fn scalar_cell(alloc: Global, value: &Value) -> Result<Option<KeyVal>, AllocError>
    ensures cell { IfOk result (λ o. option_map key_view o
        ≡ option_map scalar (scalar_in (data_of value.now))) }
    ensures well_formed { IfOk result (λ o. IfSome o
        (λ k. IsTrue (is_key_well_formed (key_view k)))) }
{
    match scalar_of(alloc, value)? {
        Some(scalar) => Ok(Some(KeyVal::Scalar(scalar))),
        None => Ok(None),
    }
}
