// Lending the parts of a record.
ghost use Rattle.std.specs.Prelude.{◌≡◌, ◌≢◌, option_map, IfSome, IsNone, IsTrue};
ghost use Rattle.record_format.specs.Data.{PlainRec};
ghost use Rattle.record_format.specs.Spelling.{rec_bytes};
ghost use Rattle.record_format.specs.Bounds.{IsRec};
ghost use Rattle.record_format.specs.Reading.{record_of, whole_record};
ghost use Rattle.record_format.specs.Whole.{has_parts, with_parts};
ghost use Rattle.record_format.specs.ShownViews.{shown};

use crate::rec::{ALT, INNER, LEAF};
use crate::take_records::take_frame;
use crate::views::View;
use record_parts::{lend_alternative, lend_opening};

/// The parts of the record of this kind that all of the bytes are the body of. None for other kinds
/// than those of View.
#[tactic(auto, unfolding(crate::specs::Reading::record_of))]
pub fn view_body(kind: u8, body: &[u8]) -> Option<View<'_>>
    ensures { option_map shown result ≡ with_parts (record_of kind body.now) }
{
    match kind {
        INNER => {
            let (label, stamp) = lend_opening(body)?;
            Some(View::Inner { label, stamp })
        }
        LEAF => {
            let (label, stamp) = lend_opening(body)?;
            Some(View::Leaf { label, stamp })
        }
        ALT => {
            let (stamp, body) = lend_alternative(body)?;
            Some(View::Alt { stamp, body })
        }
        _ => None,
    }
}

#[tactic(auto, unfolding(xa_fields::specs::Reading::whole, crate::specs::Reading::record_at))]
fn view_record(bytes: &[u8]) -> Option<View<'_>>
    ensures { option_map shown result ≡ with_parts (whole_record bytes.now) }
{
    let (kind, body, end) = take_frame(bytes, 0)?;
    if end < bytes.len() {
        return None;
    }
    view_body(kind, body)
}

/// The parts of the record that all of the bytes are the encoding of. It takes no memory and copies
/// nothing.
pub fn view(bytes: &[u8]) -> Option<View<'_>>
    // What is shown is encoded so.
    ensures found { IfSome result (λ v. IsRec (shown v) × (bytes.now ≡ rec_bytes (shown v))) }

    // None is for bytes that are the encoding of no record with such parts.
    ensures none { IsNone result → (r : PlainRec) → IsTrue (has_parts r) → IsRec r
        → bytes.now ≢ rec_bytes r }
    ensures exact { option_map shown result ≡ with_parts (whole_record bytes.now) }
{
    view_record(bytes)
}
