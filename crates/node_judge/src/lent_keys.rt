// The key values of a label that is lent.
ghost use Rattle.std.specs.Prelude.{◌≡◌, ◌≤◌, ◌++◌, List, ℕ, drop, length, map, Some, IfOk, OnOk};
ghost use Rattle.keyed_tree.specs.Data.{PlainKey, PlainLabel};
ghost use Rattle.record_parts.specs.Behind.{behind};
ghost use Rattle.record_parts.specs.Reading.{label_at, value_at};
ghost use Rattle.record_parts.specs.ShownViews.{shown_body, shown_label};
ghost use Rattle.xa_fields.specs.Reading.{many_at};

use record_parts::{
    BodyView, LabelView, lend_body, lend_scalar, parts_are_read_as_spelled, take_value,
};
use std::alloc::{AllocError, Global};
use xa_fields::{take_text, take_u8, take_u32};

/// The key values of the label, lent out of its encoding. A label without any takes no memory.
///
/// A content among them is built to find its end, and let go.
pub fn keys_of<'a>(alloc: Global, label: &LabelView<'a>) -> Result<Vec<BodyView<'a>>, AllocError>
    ensures { IfOk result (λ v. map shown_body v.items ≡ (shown_label label.now).keys) }
{
    // A law, for the proof: the label is read of its encoding.
    parts_are_read_as_spelled();
    keys_in(alloc, label.bytes())
}

// The key values of the label at the front of the bytes.
fn keys_in<'a>(alloc: Global, bytes: &'a [u8]) -> Result<Vec<BodyView<'a>>, AllocError>
    ensures { (l : PlainLabel) (rest : List ℕ) → label_at bytes.now ≡ Some (l, rest)
        → IfOk result (λ v. map shown_body v.items ≡ l.keys) }
{
    let Some((_, at)) = take_u8(bytes, 0) else {
        return Err(AllocError);
    };
    let Some((_, at)) = take_text(bytes, at) else {
        return Err(AllocError);
    };
    let Some((count, at)) = take_u32(bytes, at) else {
        return Err(AllocError);
    };
    let mut keys = Vec::new(alloc);
    keys_onto(alloc, &mut keys, count, bytes, at)?;
    Ok(keys)
}

// So many key values from the offset on, behind what is there.
fn keys_onto<'a>(
    alloc: Global,
    keys: &mut Vec<BodyView<'a>>,
    count: u32,
    bytes: &'a [u8],
    at: usize,
) -> Result<(), AllocError>
    requires { at ≤ length bytes.now }
    ensures { (ks : List PlainKey) (rest : List ℕ)
        → many_at value_at count (drop at bytes.now) ≡ Some (ks, rest)
        → OnOk result (map shown_body keys.new.items ≡ map shown_body keys.old.items ++ ks) }
{
    let mut at = at;
    for _ in 0..count {
        let end = key_end(alloc, bytes, at)?;
        keys.reserve(1)?;
        keys.push_reserved(key_between(bytes, at, end));
        at = end;
    }
    Ok(())
}

// The key value that stands between the offsets.
fn key_between<'a>(bytes: &'a [u8], at: usize, end: usize) -> BodyView<'a>
    requires order { at ≤ end }
    requires within { end ≤ length bytes.now }
    requires ends { behind (value_at (drop at bytes.now)) ≡ Some (drop end bytes.now) }
    ensures { value_at (drop at bytes.now) ≡ Some (shown_body result, drop end bytes.now) }
{
    lend_body(&bytes[at..end])
}

// The offset behind the key value at the offset.
fn key_end(alloc: Global, bytes: &[u8], at: usize) -> Result<usize, AllocError>
    ensures found { IfOk result
        (λ n. behind (value_at (drop at bytes.now)) ≡ Some (drop n bytes.now)) }
    ensures next { IfOk result (λ n. (at ≤ n) × (n ≤ length bytes.now)) }
{
    if let Some((0, next)) = take_u8(bytes, at) {
        let Some((_, end)) = lend_scalar(bytes, next) else {
            return Err(AllocError);
        };
        return Ok(end);
    }
    let Ok((_, end)) = take_value(alloc, bytes, at) else {
        return Err(AllocError);
    };
    Ok(end)
}
