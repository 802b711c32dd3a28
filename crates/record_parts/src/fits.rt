// Whether values have an encoding.
ghost use Rattle.std.specs.Prelude.{◌≡◌, ◌↔◌, map, Some, IsTrue};
ghost use Rattle.jsonml_tree.specs.LentAttrs.{lent_scalar_view};
ghost use Rattle.jsonml_tree.specs.WellFormed.{is_ascending};
ghost use Rattle.jsonml_tree.specs.View.{attr_view, tree_view, content_view, items_view};
ghost use Rattle.keyed_tree.specs.View.{name_view, key_view, label_view};
ghost use Rattle.keyed_tree.specs.Data.{name_bytes};
ghost use Rattle.version_set.specs.View.{pairs_of};
ghost use Rattle.archive_tree.specs.View.{stamp_view};
ghost use Rattle.record_parts.specs.Bounds.{IsLabel, IsSet, IsStamp, IsValue};
ghost use Rattle.record_parts.specs.Checks.{text_fits, scalar_fits, each_attr_fits, attrs_fit, item_fits, items_fit, content_fits, value_fits, values_fit, label_fits, set_fits, stamp_fits};

use crate::lent::is_above;
use crate::limits::{DEEPEST, MOST_VERSIONS};
use jsonml_tree::{Attr, Content, LentScalar, Tree};
use keyed_tree::{KeyVal, Label, Name};
use version_set::VersionSet;
use xa_fields::FIELD;

fn text_fits(text: &str) -> bool
    ensures { result ≡ text_fits text.now }
{
    text.len() < FIELD
}

pub(crate) fn scalar_fits(scalar: LentScalar<'_>) -> bool
    ensures { result ≡ scalar_fits (lent_scalar_view scalar.entry) }
{
    match scalar {
        LentScalar::Null => true,
        LentScalar::Bool(_) => true,
        LentScalar::Whole(n) => {
            if n >= 0 {
                n < 18_446_744_073_709_551_616
            } else {
                -1 - n < 9_223_372_036_854_775_808
            }
        }
        LentScalar::Text(text) => text_fits(text),
    }
}

fn each_attr_fits(attrs: &[Attr]) -> bool
    ensures { result ≡ each_attr_fits (map attr_view attrs.now) }
{
    for attr in attrs {
        if !text_fits(attr.name.as_str()) || !scalar_fits(attr.value.lend()) {
            return false;
        }
    }
    true
}

fn do_names_ascend(attrs: &[Attr]) -> bool
    ensures { result ≡ is_ascending (map attr_view attrs.now) }
{
    let mut last: Option<&str> = None;
    for attr in attrs {
        if !is_above(last, attr.name.as_str()) {
            return false;
        }
        last = Some(attr.name.as_str());
    }
    true
}

fn attrs_fit(attrs: &[Attr]) -> bool
    ensures { result ≡ attrs_fit (map attr_view attrs.now) }
{
    attrs.len() < FIELD && each_attr_fits(attrs) && do_names_ascend(attrs)
}

#[cycle(fits)]
#[tactic(auto, using(jsonml_tree::proofs::Trees::trees))]
fn content_fits(depth: u32, content: &Content) -> bool
    ensures { result ≡ content_fits depth (content_view content.now) }
{
    attrs_fit(&content.attrs) && content.items.len() < FIELD && items_fit(depth, &content.items)
}

#[cycle(fits)]
#[tactic(auto, using(jsonml_tree::proofs::Trees::trees))]
fn items_fit(depth: u32, items: &[Tree]) -> bool
    ensures { result ≡ items_fit depth (items_view items.now) }
{
    for item in items {
        if !item_fits(depth, item) {
            return false;
        }
    }
    true
}

#[cycle(fits)]
#[tactic(auto, using(jsonml_tree::proofs::Trees::trees))]
fn item_fits(depth: u32, item: &Tree) -> bool
    ensures { result ≡ item_fits depth (tree_view item.now) }
{
    match item {
        Tree::Text(text) => text_fits(text.as_str()),
        Tree::Elem { tag, content } => {
            depth > 0 && text_fits(tag.as_str()) && content_fits(depth - 1, content)
        }
    }
}

fn value_fits(value: &KeyVal) -> bool
    ensures { result ≡ value_fits (key_view value.now) }
{
    match value {
        KeyVal::Scalar(scalar) => scalar_fits(scalar.lend()),
        KeyVal::Content(content) => content_fits(DEEPEST, content),
    }
}

fn values_fit(values: &[KeyVal]) -> bool
    ensures { result ≡ values_fit (map key_view values.now) }
{
    for value in values {
        if !value_fits(value) {
            return false;
        }
    }
    true
}

fn name_fits(name: &Name) -> bool
    ensures { result ≡ text_fits (name_bytes (name_view name.now)) }
{
    match name {
        Name::Attr(text) => text_fits(text.as_str()),
        Name::Tag(text) => text_fits(text.as_str()),
    }
}

#[tactic(auto, using(jsonml_tree::proofs::Trees::trees))]
fn parts_fit(label: &Label) -> bool
    ensures { result ≡ label_fits (label_view label.now) }
{
    name_fits(&label.name) && label.keys.len() < FIELD && values_fit(&label.keys)
}

/// Whether a label has an encoding. It takes no memory.
pub fn is_label(label: &Label) -> bool
    ensures is { IsTrue result ↔ IsLabel (label_view label.now) }
    ensures exact { result ≡ label_fits (label_view label.now) }
{
    parts_fit(label)
}

/// Whether a key value or a body has an encoding. It takes no memory.
pub fn is_value(value: &KeyVal) -> bool
    ensures is { IsTrue result ↔ IsValue (key_view value.now) }
    ensures exact { result ≡ value_fits (key_view value.now) }
{
    value_fits(value)
}

#[tactic(auto, using(archive_tree::proofs::Tells::canonical))]
fn set_fits(set: &VersionSet) -> bool
    ensures { result ≡ set_fits (pairs_of set.now) }
{
    set.last() <= MOST_VERSIONS
}

/// Whether a set may stand in a directory. It takes no memory.
pub fn is_set(set: &VersionSet) -> bool
    ensures is { IsTrue result ↔ IsSet (pairs_of set.now) }
    ensures exact { result ≡ set_fits (pairs_of set.now) }
{
    set_fits(set)
}

fn stamp_fits(stamp: &Option<VersionSet>) -> bool
    ensures { result ≡ stamp_fits (stamp_view stamp.now) }
{
    match stamp {
        None => true,
        Some(set) => some_set_fits(set),
    }
}

fn some_set_fits(set: &VersionSet) -> bool
    ensures { result ≡ stamp_fits (Some (pairs_of set.now)) }
{
    !set.pairs().is_empty() && set_fits(set)
}

/// Whether a timestamp has an encoding. It takes no memory.
pub fn is_stamp(stamp: &Option<VersionSet>) -> bool
    ensures is { IsTrue result ↔ IsStamp (stamp_view stamp.now) }
    ensures exact { result ≡ stamp_fits (stamp_view stamp.now) }
{
    stamp_fits(stamp)
}
