// Whether a body is right in its leaf.
ghost use Rattle.std.specs.Prelude.{◌≡◌, ◌+◌, ◌≤◌, ◌&&◌, ℕ, true, List, drop, map, nat_lt, string_bytes, Some, None, IfOk};
ghost use Rattle.std.specs.List.{list_all};
ghost use Rattle.std.specs.Option.{option_map};
ghost use Rattle.std.specs.Ordering.{is_eq};
ghost use Rattle.archive_file.specs.NodeFits.{ends_in};
ghost use Rattle.jsonml_tree.specs.Data.{PlainAttr, content, content_depth, no_trees};
ghost use Rattle.jsonml_tree.specs.View.{content_view};
ghost use Rattle.keyed_tree.specs.Data.{PlainKey, inside};
ghost use Rattle.keyed_tree.specs.LentView.{lent_val_view};
ghost use Rattle.keyed_tree.specs.Order.{key_cmp};
ghost use Rattle.keyed_tree.specs.Plain.{content_of};
ghost use Rattle.keyed_tree.specs.Proper.{is_content, is_scalar};
ghost use Rattle.record_parts.specs.Bounds.{deepest};
ghost use Rattle.record_parts.specs.Reading.{attr_at, next_attr};
ghost use Rattle.record_parts.specs.ShownViews.{shown_body};
ghost use Rattle.record_parts.specs.Spelling.{value_bytes};
ghost use Rattle.xa_fields.specs.Reading.{chain_at};
ghost use Rattle.node_judge.specs.Awaited.{body_meets};
ghost use Rattle.node_judge.specs.View.{wait_view};

use crate::wait::Wait;
use jsonml_tree::{Content, Tree};
use keyed_tree::{KeyVal, LentVal};
use record_parts::{BodyView, lend_attr, parts_are_read_as_spelled};
use std::alloc::{AllocError, Global};
use xa_fields::take_u32;

/// A level of a content takes so many bytes at least: those of a kind, of a tag's length, and of
/// two counts.
const LEVEL: usize = 13;

// Whether the body has all that is waited for. It takes no memory.
pub(crate) fn meets_all(waits: &[Wait<'_>], body: &BodyView<'_>) -> bool
    ensures { result ≡ list_all (body_meets (shown_body body.now)) (map wait_view waits.now) }
{
    for wait in waits {
        if !meets(wait, body) {
            return false;
        }
    }
    true
}

fn meets(wait: &Wait<'_>, body: &BodyView<'_>) -> bool
    ensures { result ≡ body_meets (shown_body body.now) (wait_view wait.now) }
{
    match wait {
        Wait::Leads { tags, attr, value } => tags.is_empty() && ends_in(attr, value, body),
        Wait::Equals { value } => is_same(body, value),
    }
}

fn ends_in(attr: &Option<String>, value: &BodyView<'_>, body: &BodyView<'_>) -> bool
    ensures { result ≡ ends_in (option_map string_bytes attr.now)
        (shown_body value.now) (shown_body body.now) }
{
    match attr {
        Some(name) => is_content(body) && has_attribute(body, name.as_str(), value),
        None => is_content(body) && is_same(body, value),
    }
}

fn is_same(body: &BodyView<'_>, value: &BodyView<'_>) -> bool
    ensures { result ≡ is_eq (key_cmp (shown_body body.now) (shown_body value.now)) }
{
    body.same_as(value)
}

// Whether the content has an attribute of this name with the value.
fn has_attribute(body: &BodyView<'_>, name: &str, value: &BodyView<'_>) -> bool
    requires { is_content (shown_body body.now) ≡ true }
    ensures { result ≡ ends_in (Some name.now) (shown_body value.now) (shown_body body.now) }
{
    // A law, for the proof: the content is read of its encoding.
    parts_are_read_as_spelled();
    let bytes = body.bytes();
    match take_u32(bytes, 1) {
        Some((count, at)) => is_attribute(count, bytes, at, name, value),
        None => false,
    }
}

// The same of so many attributes from the offset on.
fn is_attribute(count: u32, bytes: &[u8], at: usize, name: &str, value: &BodyView<'_>) -> bool
    ensures { (xs : List PlainAttr) (rest : List ℕ)
        → chain_at attr_at next_attr None count (drop at bytes.now) ≡ Some (xs, rest)
        → result ≡ ends_in (Some name.now) (shown_body value.now)
        (inside (content xs no_trees)) }
{
    let mut at = at;
    for _ in 0..count {
        let Some((own, scalar, next)) = lend_attr(bytes, at) else {
            return false;
        };
        if own == name {
            return is_scalar_value(value, LentVal::Scalar(scalar));
        }
        at = next;
    }
    false
}

fn is_scalar_value(value: &BodyView<'_>, own: LentVal<'_, '_>) -> bool
    ensures { result ≡ is_eq (key_cmp (lent_val_view own.entry) (shown_body value.now)) }
{
    value.same_lent(own)
}

// Whether the body is a content whose elements nest less deep than this. A long one is built to
// tell that, and let go.
pub(crate) fn is_content_within(
    alloc: Global,
    body: &BodyView<'_>,
    left: u32,
) -> Result<bool, AllocError>
    ensures { IfOk result (λ b. b ≡ (is_content (shown_body body.now)
        && nat_lt (content_depth (content_of (shown_body body.now))) left)) }
{
    if !is_content(body) {
        return Ok(false);
    }
    if body.bytes().len() < LEVEL * left as usize {
        return Ok(true);
    }
    match body.copy(alloc)? {
        KeyVal::Content(content) => Ok(levels(alloc, content) <= left),
        KeyVal::Scalar(_) => Ok(false),
    }
}

// How deep elements nest, with one more around them.
#[tactic(auto, using(jsonml_tree::proofs::Trees::trees))]
fn levels(alloc: Global, content: Content) -> u32
    requires { content_depth (content_view content) ≤ deepest }
    ensures { result ≡ content_depth (content_view content) + 1 }
{
    let tag = String::new(alloc);
    Tree::Elem { tag, content }.depth()
}

pub(crate) fn is_scalar(body: &BodyView<'_>) -> bool
    ensures { result ≡ is_scalar (shown_body body.now) }
{
    is_kind(body.bytes(), 0)
}

pub(crate) fn is_content(body: &BodyView<'_>) -> bool
    ensures { result ≡ is_content (shown_body body.now) }
{
    is_kind(body.bytes(), 1)
}

// Whether the bytes, those of a value, begin with this kind: 0 is a scalar, 1 a content.
fn is_kind(bytes: &[u8], kind: u8) -> bool
    ensures scalars { (k : PlainKey) → bytes.now ≡ value_bytes k → kind ≡ 0 → result ≡ is_scalar k }
    ensures contents { (k : PlainKey) → bytes.now ≡ value_bytes k → kind ≡ 1
        → result ≡ is_content k }
{
    match bytes.first() {
        Some(first) => *first == kind,
        None => false,
    }
}
