// Writing one entry of a log.
ghost use Rattle.std.specs.Prelude.{◌≡◌, ◌++◌, ◌∷◌, [], ℕ, List, string_bytes, IfOk, option_map};
ghost use Rattle.version_set.specs.Members.{intervals, members};
ghost use Rattle.version_set.specs.Text.{set_text};
ghost use Rattle.version_set.specs.View.{pairs_of};
ghost use Rattle.keyed_tree.specs.Data.{PlainKey};
ghost use Rattle.record_format.specs.Nodes.{set_in};
ghost use Rattle.record_parts.specs.Bounds.{IsValue};
ghost use Rattle.record_parts.specs.ShownViews.{shown_body, shown_stamp};
ghost use Rattle.record_parts.specs.Spelling.{value_bytes};
ghost use Rattle.content_log.specs.Entries.{ContentIs, EntryPut, IsScalarKey};
ghost use Rattle.content_log.specs.Text.{body_text};
ghost use Rattle.content_log.specs.Told.{fault_of};
ghost use Rattle.content_log.specs.Written.{alt_text};

use crate::fault::LogFault;
use content_print::write_lent_element;
use jsonml_print::write_scalar;
use keyed_tree::KeyVal;
use record_parts::{BodyView, StampView};
use std::alloc::{AllocError, Global};
use version_set::VersionSet;
use xa_fields::take_u8;
use xa_outside::{Sink, put_all};

/// Writes an alternative's versions and its body, and a line feed: the set that is stored, else that
/// of its leaf; a content as the element of the tag, straight out of its bytes, and a scalar as
/// itself.
pub(crate) fn put_entry<K: Sink>(
    alloc: Global,
    set: &VersionSet,
    tag: &str,
    stamp: StampView<'_>,
    body: BodyView<'_>,
    sink: &mut K,
) -> Result<(), LogFault>
    ensures { EntryPut (K.taken sink.old) (K.taken sink.new) (K.faults sink.old) (K.faults sink.new)
        (alt_text tag.now (pairs_of set.now)
        (record { stamp = shown_stamp stamp.entry; body = shown_body body.entry }))
        (fault_of result) }
{
    let numbers = numbers_of(set, alloc, stamp)?;
    put_line(alloc, numbers.as_bytes(), tag, body, sink)
}

// Writes a line: what stands before the body, the body, and a line feed.
fn put_line<K: Sink>(
    alloc: Global,
    front: &[u8],
    tag: &str,
    body: BodyView<'_>,
    sink: &mut K,
) -> Result<(), LogFault>
    ensures { EntryPut (K.taken sink.old) (K.taken sink.new) (K.faults sink.old) (K.faults sink.new)
        (front.now ++ (body_text tag.now (shown_body body.entry) ++ 10 ∷ [])) (fault_of result) }
{
    put_all(sink, front)?;
    put_body(alloc, tag, body, sink)?;
    put_all(sink, b"\n")?;
    Ok(())
}

// The printed set of an alternative in a leaf that has this set, and a blank.
fn numbers_of(set: &VersionSet, alloc: Global, stamp: StampView<'_>) -> Result<String, AllocError>
    ensures { IfOk result (λ text. string_bytes text ≡ set_text (intervals (members
        (set_in (shown_stamp stamp.entry) (pairs_of set.now)))) ++ 32 ∷ []) }
{
    let mut text = match stamp.copy(alloc)? {
        Some(stored) => stored.text()?,
        None => set.text()?,
    };
    text.push(' ')?;
    Ok(text)
}

// Writes a body: a content as the element of the tag, a scalar as itself.
fn put_body<K: Sink>(
    alloc: Global,
    tag: &str,
    body: BodyView<'_>,
    sink: &mut K,
) -> Result<(), LogFault>
    ensures { EntryPut (K.taken sink.old) (K.taken sink.new) (K.faults sink.old) (K.faults sink.new)
        (body_text tag.now (shown_body body.entry)) (fault_of result) }
{
    match content_in(body.bytes()) {
        Some(content) => match write_lent_element(tag, content, sink) {
            Ok(()) => Ok(()),
            Err(_) => Err(LogFault::Out),
        },
        None => put_scalar(alloc, body, sink),
    }
}

// The bytes of the content that a value with these bytes is, if it is one.
fn content_in(value: &[u8]) -> Option<&[u8]>
    ensures { (b : PlainKey) → IsValue b → value.now ≡ value_bytes b
        → ContentIs b (option_map (λ s. s.now) result) }
{
    match take_u8(value, 0) {
        Some((1, at)) => Some(&value[at..]),
        _ => None,
    }
}

// Writes a scalar.
fn put_scalar<K: Sink>(alloc: Global, body: BodyView<'_>, sink: &mut K) -> Result<(), LogFault>
    requires { IsScalarKey (shown_body body) }
    ensures { (tag : List ℕ) → EntryPut (K.taken sink.old) (K.taken sink.new)
        (K.faults sink.old) (K.faults sink.new)
        (body_text tag (shown_body body.entry)) (fault_of result) }
{
    match body.copy(alloc)? {
        KeyVal::Scalar(value) => match write_scalar(&value, sink) {
            Ok(()) => Ok(()),
            Err(_) => Err(LogFault::Out),
        },
        KeyVal::Content(_) => unreachable!(),
    }
}
