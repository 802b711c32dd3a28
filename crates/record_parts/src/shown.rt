// What lent parts answer.
ghost use Rattle.std.specs.Prelude.{◌≡◌, ◌↔◌, IsTrue, IfOk};
ghost use Rattle.std.specs.Option.{is_some};
ghost use Rattle.keyed_tree.specs.LentView.{lent_val_view};
ghost use Rattle.keyed_tree.specs.Order.{key_cmp, label_cmp};
ghost use Rattle.keyed_tree.specs.View.{key_view, label_view};
ghost use Rattle.archive_tree.specs.Data.{Stamp};
ghost use Rattle.archive_tree.specs.View.{stamp_view};
ghost use Rattle.record_parts.specs.Bounds.{IsLabel, IsStamp, IsValue};
ghost use Rattle.record_parts.specs.Spelling.{label_bytes, stamp_bytes, value_bytes};
ghost use Rattle.xa_fields.specs.Reading.{whole};
ghost use Rattle.record_parts.specs.Reading.{label_at, stamp_at, value_at};
ghost use Rattle.record_parts.specs.Whole.{IsLabelBytes, IsStampBytes, IsValueBytes};
ghost use Rattle.record_parts.specs.Shapes.{FitsLabel, FitsValue, IsShapedLabel, IsShapedValue};
ghost use Rattle.record_parts.specs.Shown.{named, shown_name};
ghost use Rattle.record_parts.specs.ShownViews.{label_in, stamp_in, value_in, shown_label, shown_stamp, shown_body};

use crate::lent::lend_name;
use crate::order_both::both_label;
use crate::order_lent::{order_lent_label, order_lent_value};
use crate::order_parts::order_label;
use crate::order_values::order_value;
use crate::take_parts::{take_label, take_stamp};
use crate::take_values::take_value;
use crate::views::{BodyView, LabelView, StampView};
use keyed_tree::{Body, Label, LentVal, NameView};
use std::alloc::{AllocError, Global};
use std::cmp::Ordering;
use version_set::VersionSet;

fn label_spelled(bytes: &[u8]) -> &[u8]
    requires { IsLabelBytes bytes.now }
    ensures spelled { result.now ≡ label_bytes (label_in (whole label_at bytes.now)) }
    ensures is { IsLabel (label_in (whole label_at bytes.now)) }
    ensures shape { IsShapedLabel (label_in (whole label_at bytes.now)) }
    ensures fits { FitsLabel (label_in (whole label_at bytes.now)) }
{
    bytes
}

fn stamp_spelled(bytes: &[u8]) -> &[u8]
    requires { IsStampBytes bytes.now }
    ensures spelled { result.now ≡ stamp_bytes (stamp_in (whole stamp_at bytes.now)) }
    ensures is { IsStamp (stamp_in (whole stamp_at bytes.now)) }
{
    bytes
}

// Whether the bytes, those of a timestamp, have a set.
fn has_set(bytes: &[u8]) -> bool
    ensures { (s : Stamp) → bytes.now ≡ stamp_bytes s → result ≡ is_some s }
{
    match bytes.get(0) {
        Some(1) => true,
        _ => false,
    }
}

fn body_spelled(bytes: &[u8]) -> &[u8]
    requires { IsValueBytes bytes.now }
    ensures spelled { result.now ≡ value_bytes (value_in (whole value_at bytes.now)) }
    ensures is { IsValue (value_in (whole value_at bytes.now)) }
    ensures shape { IsShapedValue (value_in (whole value_at bytes.now)) }
    ensures fits { FitsValue (value_in (whole value_at bytes.now)) }
{
    bytes
}

impl<'a> LabelView<'a> {
    /// The encoding of the label that is shown.
    pub fn bytes(&self) -> &'a [u8]
        ensures spelled { result.now ≡ label_bytes (shown_label self.now) }
        ensures is { IsLabel (shown_label self.now) }
        ensures shape { IsShapedLabel (shown_label self.now) }
        ensures fits { FitsLabel (shown_label self.now) }
    {
        label_spelled(self.bytes)
    }

    /// The name of the label that is shown.
    pub fn name(&self) -> NameView<'a>
        ensures { shown_name result ≡ (shown_label self.now).name }
    {
        match lend_name(self.bytes, 0) {
            Some((name, _)) => name,
            None => NameView::Tag(""),
        }
    }

    /// The order of the label that is shown. It takes no memory and builds no label.
    pub fn order(&self, other: &Label) -> Ordering
        ensures { result ≡ label_cmp (shown_label self.now) (label_view other.now) }
    {
        match order_label(self.bytes, 0, other) {
            Some((order, _)) => order,
            None => Ordering::Equal,
        }
    }

    /// The order of the label that is shown, against one of this name and these key values. It takes no memory.
    pub fn order_lent(&self, name: NameView<'_>, keys: &[LentVal<'_, '_>]) -> Ordering
        ensures { result ≡ label_cmp (shown_label self.now) (named name.entry keys.now) }
    {
        match order_lent_label(self.bytes, 0, name, keys) {
            Some((order, _)) => order,
            None => Ordering::Equal,
        }
    }

    /// The order of two labels that are shown. It takes no memory, and no longer than the shorter of them is.
    pub fn compare(&self, other: &LabelView<'_>) -> Ordering
        ensures { result ≡ label_cmp (shown_label self.now) (shown_label other.now) }
    {
        match both_label(self.bytes, 0, other.bytes, 0) {
            Some((order, _, _)) => order,
            None => Ordering::Equal,
        }
    }

    /// A label of its own with the same value.
    pub fn copy(&self, alloc: Global) -> Result<Label, AllocError>
        ensures { IfOk result (λ l. label_view l ≡ shown_label self.now) }
    {
        match take_label(alloc, self.bytes, 0) {
            Ok((label, _)) => Ok(label),
            Err(_) => Err(AllocError),
        }
    }
}

impl<'a> StampView<'a> {
    /// The encoding of the timestamp that is shown.
    pub fn bytes(&self) -> &'a [u8]
        ensures spelled { result.now ≡ stamp_bytes (shown_stamp self.now) }
        ensures is { IsStamp (shown_stamp self.now) }
    {
        stamp_spelled(self.bytes)
    }

    /// Whether the timestamp is stored. It takes no memory.
    pub fn is_stored(&self) -> bool
        ensures { result ≡ is_some (shown_stamp self.now) }
    {
        has_set(self.bytes())
    }

    /// The set that is shown, or None where the timestamp is inherited.
    pub fn copy(&self, alloc: Global) -> Result<Option<VersionSet>, AllocError>
        ensures { IfOk result (λ stamp. stamp_view stamp ≡ shown_stamp self.now) }
    {
        match take_stamp(alloc, self.bytes, 0) {
            Ok((stamp, _)) => Ok(stamp),
            Err(_) => Err(AllocError),
        }
    }
}

impl<'a> BodyView<'a> {
    /// The encoding of the body that is shown.
    pub fn bytes(&self) -> &'a [u8]
        ensures spelled { result.now ≡ value_bytes (shown_body self.now) }
        ensures is { IsValue (shown_body self.now) }
        ensures shape { IsShapedValue (shown_body self.now) }
        ensures fits { FitsValue (shown_body self.now) }
    {
        body_spelled(self.bytes)
    }

    /// Whether the body is the one that is shown. It takes no memory and builds no body.
    #[tactic(auto, using(keyed_tree::specs::Laws::equal))]
    pub fn same(&self, other: &Body) -> bool
        ensures { IsTrue result ↔ (shown_body self.now ≡ key_view other.now) }
    {
        self.order(other).is_eq()
    }

    /// Whether the body is the one that is shown. It takes no memory and builds no body.
    #[tactic(auto, using(keyed_tree::specs::Laws::equal))]
    pub fn same_lent(&self, other: LentVal<'_, '_>) -> bool
        ensures { IsTrue result ↔ (shown_body self.now ≡ lent_val_view other.entry) }
    {
        self.order_lent(other).is_eq()
    }

    /// Whether both show the same body.
    pub fn same_as(&self, other: &BodyView<'_>) -> bool
        ensures { IsTrue result ↔ (shown_body self.now ≡ shown_body other.now) }
    {
        self.bytes() == other.bytes()
    }

    /// A body of its own with the same value.
    pub fn copy(&self, alloc: Global) -> Result<Body, AllocError>
        ensures { IfOk result (λ body. key_view body ≡ shown_body self.now) }
    {
        match take_value(alloc, self.bytes, 0) {
            Ok((body, _)) => Ok(body),
            Err(_) => Err(AllocError),
        }
    }

    fn order(&self, other: &Body) -> Ordering
        ensures { result ≡ key_cmp (shown_body self.now) (key_view other.now) }
    {
        match order_value(self.bytes, 0, other) {
            Some((order, _)) => order,
            None => Ordering::Equal,
        }
    }

    fn order_lent(&self, other: LentVal<'_, '_>) -> Ordering
        ensures { result ≡ key_cmp (shown_body self.now) (lent_val_view other.entry) }
    {
        match order_lent_value(self.bytes, 0, other) {
            Some((order, _)) => order,
            None => Ordering::Equal,
        }
    }
}
