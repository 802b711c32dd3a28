ghost use Rattle.std.specs.Prelude.{◌≡◌, ℕ, List, IfOk, IfSome, IsTrue, option_map, map, string_bytes};
ghost use Rattle.serde_json.specs.View.{view as data_of, number_view, members_view};
ghost use Rattle.jsonml_tree.specs.Data.{whole};
ghost use Rattle.jsonml_tree.specs.View.{scalar_view, attr_view};
ghost use Rattle.jsonml_tree.specs.WellFormed.{is_in_range};
ghost use Rattle.jsonml_text.specs.Spelled.{whole_of, scalar_at, scalar_in, attrs_at};
ghost use Rattle.jsonml_text.specs.Stops.{Reads};
ghost use Rattle.jsonml_text.specs.Kept.{AreAttrsKept};

use crate::stop::Stop;
use jsonml_tree::{Attr, Scalar};
use serde_json::{Map, Number, Value};
use std::alloc::{AllocError, Global};

/// The whole number, if it is one of 64 bits.
fn whole_number(number: Number) -> Option<i128>
    ensures value { result ≡ whole_of (number_view number) }
    ensures in_range { IfSome result (λ n. IsTrue (is_in_range (whole n))) }
{
    if let Some(n) = number.as_i64() {
        return Some(n as i128);
    }
    match number.as_u64() {
        Some(n) => Some(n as i128),
        None => None,
    }
}

/// The scalar that a value spells: none for an array, an object, and a number that is not whole or too large.
pub fn scalar_of(alloc: Global, value: &Value) -> Result<Option<Scalar>, AllocError>
    ensures scalar { IfOk result (λ o. option_map scalar_view o ≡ scalar_in (data_of value.now)) }
    ensures well_formed { IfOk result (λ o. IfSome o (λ s. IsTrue (is_in_range (scalar_view s)))) }
{
    match read_scalar(alloc, value) {
        Ok(scalar) => Ok(Some(scalar)),
        Err(Stop::Shape(_)) => Ok(None),
        Err(Stop::Memory) => Err(AllocError),
    }
}

/// The value of an attribute.
fn read_scalar(alloc: Global, value: &Value) -> Result<Scalar, Stop>
    ensures scalar { (place : List ℕ) →
        Reads scalar_view (scalar_at place (data_of value.now)) place place result }
    ensures in_range { IfOk result (λ s. IsTrue (is_in_range (scalar_view s))) }
{
    match value {
        Value::Null => Ok(Scalar::Null),
        Value::Bool(b) => Ok(Scalar::Bool(*b)),
        Value::Number(number) => match whole_number(*number) {
            Some(n) => Ok(Scalar::Whole(n)),
            None => Err(Stop::Shape(5)),
        },
        Value::String(text) => Ok(Scalar::Text(String::from_str(alloc, text.as_str())?)),
        Value::Array(_) | Value::Object(_) => Err(Stop::Shape(4)),
    }
}

/// The attribute that a name and a value spell.
fn read_attr(alloc: Global, name: &str, value: &Value) -> Result<Attr, Stop>
    ensures scalar { (place : List ℕ) →
        Reads (λ a. scalar_view a.value) (scalar_at place (data_of value.now)) place place result }
    ensures name { IfOk result (λ a. string_bytes a.name ≡ name.now) }
    ensures in_range { IfOk result (λ a. IsTrue (is_in_range (scalar_view a.value))) }
{
    let value = read_scalar(alloc, value)?;
    let name = String::from_str(alloc, name)?;
    Ok(Attr { name, value })
}

/// The attributes that an object spells, in its order.
pub(crate) fn read_attrs(alloc: Global, members: &Map<String, Value>) -> Result<Vec<Attr>, Stop>
    ensures attrs { (place : List ℕ) → Reads (λ v. map attr_view v.items)
        (attrs_at place (members_view members.now.entries)) place place result }
    ensures kept { IfOk result (λ v. AreAttrsKept (map attr_view v.items)) }
{
    let mut attrs = Vec::with_capacity(alloc, members.len())?;
    for (name, value) in members.iter() {
        let attr = read_attr(alloc, name.as_str(), value)?;
        attrs.push_reserved(attr);
    }
    Ok(attrs)
}
