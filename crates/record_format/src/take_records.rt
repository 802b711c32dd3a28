// Reading records.
ghost use Rattle.std.specs.Prelude.{◌≡◌, ◌≢◌, ◌≤◌, length, drop, IfOk, IfSome, Some, Err, option_map};
ghost use Rattle.keyed_tree.specs.View.{key_view, label_view};
ghost use Rattle.archive_tree.specs.View.{stamp_view};
ghost use Rattle.xa_fields.specs.Reading.{both_at, whole};
ghost use Rattle.record_format.specs.Data.{PlainRec};
ghost use Rattle.record_format.specs.View.{rec_view};
ghost use Rattle.record_format.specs.Spelling.{rec_bytes};
ghost use Rattle.record_format.specs.Bounds.{IsRec};
ghost use Rattle.record_parts.specs.Reading.{Gives, label_at, stamp_at, value_at};
ghost use Rattle.record_format.specs.Reading.{record_of, frame_at, record_at, whole_record};

use crate::rec::{ALT, END, INNER, LEAF, LEAF_END, Rec};
use crate::take_directory::take_directory;
use keyed_tree::{Body, Label};
use record_parts::{RecFault, take_label, take_stamp, take_value};
use std::alloc::Global;
use version_set::VersionSet;
use xa_fields::{take_u8, take_u64};

/// The kind and the body of the record at the offset, and the offset behind it. The body is not
/// looked at.
#[tactic(auto, unfolding(crate::specs::Reading::frame_at))]
pub fn take_frame(bytes: &[u8], at: usize) -> Option<(u8, &[u8], usize)>
    ensures found { option_map (λ r. ((r.0, r.1.now), drop r.2 bytes.now)) result
        ≡ frame_at (drop at bytes.now) }
    ensures next { IfSome result (λ r. r.2 ≤ length bytes.now) }
{
    let (kind, at) = take_u8(bytes, at)?;
    let (length, at) = take_u64(bytes, at)?;
    let rest = &bytes[at..];
    if (rest.len() as u64) < length {
        return None;
    }
    let length = length as usize;
    Some((kind, &rest[..length], at + length))
}

/// The label and the timestamp that all of the bytes are.
#[tactic(auto, unfolding(xa_fields::specs::Reading::whole, xa_fields::specs::Reading::both_at))]
fn take_opening(alloc: Global, body: &[u8]) -> Result<(Label, Option<VersionSet>), RecFault>
    ensures { Gives (λ r. (label_view r.0, stamp_view r.1)) result
        (whole (both_at label_at stamp_at) body.now) }
{
    let (label, at) = take_label(alloc, body, 0)?;
    let (stamp, at) = take_stamp(alloc, body, at)?;
    if at < body.len() {
        return Err(RecFault::Damage);
    }
    Ok((label, stamp))
}

/// The timestamp and the value that all of the bytes are.
#[tactic(auto, unfolding(xa_fields::specs::Reading::whole, xa_fields::specs::Reading::both_at))]
fn take_alternative(alloc: Global, body: &[u8]) -> Result<(Option<VersionSet>, Body), RecFault>
    ensures { Gives (λ r. (stamp_view r.0, key_view r.1)) result
        (whole (both_at stamp_at value_at) body.now) }
{
    let (stamp, at) = take_stamp(alloc, body, 0)?;
    let (value, at) = take_value(alloc, body, at)?;
    if at < body.len() {
        return Err(RecFault::Damage);
    }
    Ok((stamp, value))
}

#[tactic(auto, unfolding(crate::specs::Reading::record_of))]
fn take_body(alloc: Global, kind: u8, body: &[u8]) -> Result<Rec, RecFault>
    ensures { Gives rec_view result (record_of kind body.now) }
{
    match kind {
        INNER => {
            let (label, stamp) = take_opening(alloc, body)?;
            Ok(Rec::Inner { label, stamp })
        }
        LEAF => {
            let (label, stamp) = take_opening(alloc, body)?;
            Ok(Rec::Leaf { label, stamp })
        }
        ALT => {
            let (stamp, body) = take_alternative(alloc, body)?;
            Ok(Rec::Alt { stamp, body })
        }
        END => {
            let dir = take_directory(alloc, body)?;
            Ok(Rec::End { dir })
        }
        LEAF_END if body.is_empty() => Ok(Rec::LeafEnd),
        _ => Err(RecFault::Damage),
    }
}

/// The record at the offset, and the offset behind it.
#[tactic(auto, unfolding(crate::specs::Reading::record_at))]
pub fn take_record(alloc: Global, bytes: &[u8], at: usize) -> Result<(Rec, usize), RecFault>
    ensures found { Gives (λ r. (rec_view r.0, drop r.1 bytes.now)) result
        (record_at (drop at bytes.now)) }
    ensures next { IfOk result (λ r. r.1 ≤ length bytes.now) }
{
    let Some((kind, body, at)) = take_frame(bytes, at) else {
        return Err(RecFault::Damage);
    };
    let rec = take_body(alloc, kind, body)?;
    Ok((rec, at))
}

fn whole(alloc: Global, bytes: &[u8]) -> Result<Rec, RecFault>
    ensures { Gives rec_view result (whole_record bytes.now) }
{
    let Some((kind, body, at)) = take_frame(bytes, 0) else {
        return Err(RecFault::Damage);
    };
    if at < bytes.len() {
        return Err(RecFault::Damage);
    }
    take_body(alloc, kind, body)
}

/// The record that all of the bytes are the encoding of.
pub fn decode(alloc: Global, bytes: &[u8]) -> Result<Rec, RecFault>
    // What is read is encoded so.
    ensures found { IfOk result (λ r. IsRec (rec_view r) × (bytes.now ≡ rec_bytes (rec_view r))) }

    // What is encoded so is read, unless memory runs out.
    ensures only { (r : PlainRec) → IsRec r → bytes.now ≡ rec_bytes r
        → Gives rec_view result (Some r) }

    // Damage is for bytes that are the encoding of no record.
    ensures damage { result ≡ Err RecFault.Damage → (r : PlainRec) → IsRec r
        → bytes.now ≢ rec_bytes r }
    ensures exact { Gives rec_view result (whole_record bytes.now) }
{
    whole(alloc, bytes)
}
