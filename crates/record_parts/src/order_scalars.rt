// The order of texts, scalars and names as they stand in bytes. A text is compared by its bytes, and whether they are UTF-8
// is not looked at, so a comparison takes no longer than the shorter of both texts.
ghost use Rattle.std.specs.Prelude.{◌≡◌, ℕ, List, drop, option_map, Some};
ghost use Rattle.jsonml_tree.specs.LentAttrs.{lent_scalar_view};
ghost use Rattle.jsonml_tree.specs.Order.{text_cmp, scalar_cmp};
ghost use Rattle.keyed_tree.specs.Order.{name_cmp};
ghost use Rattle.xa_fields.specs.Reading.{text_at};
ghost use Rattle.record_parts.specs.Reading.{scalar_of, scalar_at, name_at};
ghost use Rattle.record_parts.specs.Compares.{Compares};
ghost use Rattle.record_parts.specs.Shown.{shown_name};

use crate::lent::scalar_of_kind;
use jsonml_tree::LentScalar;
use keyed_tree::NameView;
use std::cmp::Ordering;
use xa_fields::{take_u8, take_u32};

/// The bytes of the text at the offset, where there is one, and the offset behind it.
pub fn text_slice(bytes: &[u8], at: usize) -> Option<(&[u8], usize)>
    ensures { (x : List ℕ × List ℕ) → text_at (drop at bytes.now) ≡ Some x
        → option_map (λ r. (r.0.now, drop r.1 bytes.now)) result ≡ Some x }
{
    let Some((len, start)) = take_u32(bytes, at) else {
        return None;
    };
    let len = len as usize;
    let rest = &bytes[start..];
    if rest.len() < len {
        return None;
    }
    Some((&rest[..len], start + len))
}

/// The order of the text at the offset, and the offset behind it.
pub fn order_text(bytes: &[u8], at: usize, other: &str) -> Option<(Ordering, usize)>
    ensures { Compares (λ s. text_cmp s other.now)
        (text_at (drop at bytes.now)) bytes.now result }
{
    match text_slice(bytes, at) {
        Some((text, next)) => Some((text.cmp(other.as_bytes()), next)),
        None => None,
    }
}

/// The order of the scalar at the offset, and, if it is equal, the offset behind it.
pub fn order_scalar(bytes: &[u8], at: usize, other: LentScalar<'_>) -> Option<(Ordering, usize)>
    ensures { Compares (λ s. scalar_cmp s (lent_scalar_view other.entry))
        (scalar_at (drop at bytes.now)) bytes.now result }
{
    let Some((kind, at)) = take_u8(bytes, at) else {
        return None;
    };
    if kind == 5 {
        return order_text_scalar(bytes, at, other);
    }
    let Some((scalar, at)) = scalar_of_kind(kind, bytes, at) else {
        return None;
    };
    Some((scalar.order(other), at))
}

// A text is above all scalars that are none.
fn order_text_scalar(bytes: &[u8], at: usize, other: LentScalar<'_>) -> Option<(Ordering, usize)>
    ensures { Compares (λ s. scalar_cmp s (lent_scalar_view other.entry))
        (scalar_of 5 (drop at bytes.now)) bytes.now result }
{
    match other {
        LentScalar::Text(other) => order_text(bytes, at, other),
        _ => Some((Ordering::Greater, at)),
    }
}

/// The order of the name at the offset, and, if it is equal, the offset behind it.
pub fn order_name(bytes: &[u8], at: usize, other: NameView<'_>) -> Option<(Ordering, usize)>
    ensures { Compares (λ n. name_cmp n (shown_name other.entry))
        (name_at (drop at bytes.now)) bytes.now result }
{
    let Some((kind, at)) = take_u8(bytes, at) else {
        return None;
    };
    match (kind, other) {
        (0, NameView::Attr(other)) => order_text(bytes, at, other),
        (0, NameView::Tag(_)) => Some((Ordering::Less, at)),
        (1, NameView::Attr(_)) => Some((Ordering::Greater, at)),
        (1, NameView::Tag(other)) => order_text(bytes, at, other),
        _ => None,
    }
}
