// Lending labels, timestamps and bodies out of bytes.
ghost use Rattle.std.specs.Prelude.{◌≡◌, Some, option_map};
ghost use Rattle.xa_fields.specs.Reading.{both_at, whole};
ghost use Rattle.record_parts.specs.Reading.{label_at, stamp_at, value_at};
ghost use Rattle.record_parts.specs.ShownViews.{shown_label, shown_stamp, shown_body};
ghost use Rattle.record_parts.specs.Whole.{IsLabelBytes, IsValueBytes};

use crate::skip_parts::{skip_label, skip_stamp};
use crate::skip_values::skip_value;
use crate::views::{BodyView, LabelView, StampView};

/// The label that all of the bytes are.
pub fn lend_label(bytes: &[u8]) -> LabelView<'_>
    requires { IsLabelBytes bytes.now }
    ensures { Some (shown_label result) ≡ whole label_at bytes.now }
{
    LabelView { bytes }
}

/// The body that all of the bytes are.
pub fn lend_body(bytes: &[u8]) -> BodyView<'_>
    requires { IsValueBytes bytes.now }
    ensures { Some (shown_body result) ≡ whole value_at bytes.now }
{
    BodyView { bytes }
}

/// The label and the timestamp that all of the bytes are.
pub fn lend_opening(body: &[u8]) -> Option<(LabelView<'_>, StampView<'_>)>
    ensures { option_map (λ v. (shown_label v.0, shown_stamp v.1)) result
        ≡ whole (both_at label_at stamp_at) body.now }
{
    let middle = skip_label(body, 0)?;
    let end = skip_stamp(body, middle)?;
    if end < body.len() {
        return None;
    }
    let (label, stamp) = body.split_at(middle);
    Some((LabelView { bytes: label }, StampView { bytes: stamp }))
}

/// The timestamp and the body that all of the bytes are.
pub fn lend_alternative(body: &[u8]) -> Option<(StampView<'_>, BodyView<'_>)>
    ensures { option_map (λ v. (shown_stamp v.0, shown_body v.1)) result
        ≡ whole (both_at stamp_at value_at) body.now }
{
    let middle = skip_stamp(body, 0)?;
    let end = skip_value(body, middle)?;
    if end < body.len() {
        return None;
    }
    let (stamp, value) = body.split_at(middle);
    Some((StampView { bytes: stamp }, BodyView { bytes: value }))
}
