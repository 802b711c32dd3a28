// Scalars, attributes and names that are lent out of bytes.
ghost use Rattle.std.specs.Prelude.{◌≡◌, ◌≤◌, length, drop, option_map, IfSome, IfOk};
ghost use Rattle.jsonml_tree.specs.LentAttrs.{lent_scalar_view};
ghost use Rattle.jsonml_tree.specs.View.{attr_view};
ghost use Rattle.keyed_tree.specs.View.{name_view};
ghost use Rattle.record_parts.specs.Reading.{scalar_of, scalar_at, attr_at, name_of, name_at, is_above};
ghost use Rattle.record_parts.specs.Shown.{shown_name};

use jsonml_tree::{Attr, LentScalar};
use keyed_tree::{Name, NameView};
use std::alloc::{AllocError, Global};
use xa_fields::{take_text, take_u8, take_u64};

/// The scalar at the offset, without memory, and the offset behind it.
#[tactic(auto, unfolding(crate::specs::Reading::scalar_at))]
pub fn lend_scalar(bytes: &[u8], at: usize) -> Option<(LentScalar<'_>, usize)>
    ensures found { option_map (λ r. (lent_scalar_view r.0, drop r.1 bytes.now)) result
        ≡ scalar_at (drop at bytes.now) }
    ensures next { IfSome result (λ r. r.1 ≤ length bytes.now) }
{
    let (kind, at) = take_u8(bytes, at)?;
    scalar_of_kind(kind, bytes, at)
}

#[tactic(auto, unfolding(crate::specs::Reading::scalar_of))]
pub(crate) fn scalar_of_kind(kind: u8, bytes: &[u8], at: usize) -> Option<(LentScalar<'_>, usize)>
    requires { at ≤ length bytes.now }
    ensures found { option_map (λ r. (lent_scalar_view r.0, drop r.1 bytes.now)) result
        ≡ scalar_of kind (drop at bytes.now) }
    ensures next { IfSome result (λ r. r.1 ≤ length bytes.now) }
{
    match kind {
        0 => Some((LentScalar::Null, at)),
        1 => Some((LentScalar::Bool(false), at)),
        2 => Some((LentScalar::Bool(true), at)),
        3 => {
            let (n, at) = take_u64(bytes, at)?;
            Some((LentScalar::Whole(n as i128), at))
        }
        4 => {
            let (n, at) = take_u64(bytes, at)?;
            if n >= 9223372036854775808 {
                return None;
            }
            Some((LentScalar::Whole(-1 - (n as i128)), at))
        }
        5 => {
            let (text, at) = take_text(bytes, at)?;
            Some((LentScalar::Text(text), at))
        }
        _ => None,
    }
}

/// The name and the value of the attribute at the offset, and the offset behind it.
#[tactic(auto, unfolding(crate::specs::Reading::attr_at))]
pub fn lend_attr(bytes: &[u8], at: usize) -> Option<(&str, LentScalar<'_>, usize)>
    ensures found { option_map (λ r.
        (record { name = r.0.now; value = lent_scalar_view r.1 }, drop r.2 bytes.now)) result
        ≡ attr_at (drop at bytes.now) }
    ensures next { IfSome result (λ r. r.2 ≤ length bytes.now) }
{
    let (name, at) = take_text(bytes, at)?;
    let (value, at) = lend_scalar(bytes, at)?;
    Some((name, value, at))
}

pub fn copy_attr(alloc: Global, name: &str, value: LentScalar<'_>) -> Result<Attr, AllocError>
    ensures { IfOk result
        (λ a. attr_view a ≡ record { name = name.now; value = lent_scalar_view value.entry }) }
{
    Ok(Attr {
        name: String::from_str(alloc, name)?,
        value: value.own(alloc)?,
    })
}

/// Whether the name is above the last one, if there is one.
pub fn is_above(last: Option<&str>, name: &str) -> bool
    ensures { result ≡ is_above (option_map (λ s. s.now) last.entry) name.now }
{
    match last {
        None => true,
        Some(last) => last.cmp(name).is_lt(),
    }
}

/// The same name, whose text is lent.
pub(crate) fn lent_name(name: &Name) -> NameView<'_>
    ensures { shown_name result ≡ name_view name.now }
{
    match name {
        Name::Attr(text) => NameView::Attr(text.as_str()),
        Name::Tag(text) => NameView::Tag(text.as_str()),
    }
}

/// The name at the offset, and the offset behind it.
#[tactic(auto, unfolding(crate::specs::Reading::name_at))]
pub fn lend_name(bytes: &[u8], at: usize) -> Option<(NameView<'_>, usize)>
    ensures found { option_map (λ r. (shown_name r.0, drop r.1 bytes.now)) result
        ≡ name_at (drop at bytes.now) }
    ensures next { IfSome result (λ r. r.1 ≤ length bytes.now) }
{
    let (kind, at) = take_u8(bytes, at)?;
    name_of_kind(kind, bytes, at)
}

#[tactic(auto, unfolding(crate::specs::Reading::name_of))]
fn name_of_kind(kind: u8, bytes: &[u8], at: usize) -> Option<(NameView<'_>, usize)>
    requires { at ≤ length bytes.now }
    ensures found { option_map (λ r. (shown_name r.0, drop r.1 bytes.now)) result
        ≡ name_of kind (drop at bytes.now) }
    ensures next { IfSome result (λ r. r.1 ≤ length bytes.now) }
{
    match kind {
        0 => {
            let (text, at) = take_text(bytes, at)?;
            Some((NameView::Attr(text), at))
        }
        1 => {
            let (text, at) = take_text(bytes, at)?;
            Some((NameView::Tag(text), at))
        }
        _ => None,
    }
}
