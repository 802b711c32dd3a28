#![tactic(auto, using(crate::proofs::WordLemmas::words))]

ghost use Rattle.std.specs.Prelude.{◌≡◌, IfOk, option_map, string_bytes};
ghost use Rattle.serde_json.specs.Find.{as_str};
ghost use Rattle.serde_json.specs.View.{items_view, view as data_of};
ghost use Rattle.xarch_words.specs.View.{words_view};
ghost use Rattle.xarch_run.specs.Words.{json_of, texts_of, words_of};

use serde_json::Value;
use std::alloc::{AllocError, Global};

/// The words of a line, where it is a JSON array of strings.
pub(crate) fn read_line_words(alloc: Global, line: &[u8]) -> Result<Option<Vec<String>>, AllocError>
    ensures { IfOk result (λ o. option_map (λ v. words_view v.items) o ≡ words_of line.now) }
{
    match json_value(alloc, line)? {
        Some(Value::Array(values)) => texts(alloc, values),
        _ => Ok(None),
    }
}

/// The JSON value of some bytes.
fn json_value(alloc: Global, bytes: &[u8]) -> Result<Option<Value>, AllocError>
    ensures { IfOk result (λ o. option_map data_of o ≡ json_of bytes.now) }
{
    match Value::from_slice(alloc, bytes) {
        Ok(value) => Ok(Some(value)),
        Err(error) => if error.is_memory() {
            Err(AllocError)
        } else {
            Ok(None)
        },
    }
}

/// The texts of values that are all strings. They are moved out of the values, and not copied.
fn texts(alloc: Global, values: Vec<Value>) -> Result<Option<Vec<String>>, AllocError>
    ensures { IfOk result (λ o. option_map (λ v. words_view v.items) o
        ≡ texts_of (items_view values.items)) }
{
    let mut texts = Vec::with_capacity(alloc, values.len())?;
    for value in values {
        match text_in(value) {
            Some(text) => texts.push(text)?,
            None => return Ok(None),
        }
    }
    Ok(Some(texts))
}

/// The text of a string.
fn text_in(value: Value) -> Option<String>
    ensures { option_map string_bytes result ≡ as_str (data_of value) }
{
    match value {
        Value::String(text) => Some(text),
        _ => None,
    }
}
