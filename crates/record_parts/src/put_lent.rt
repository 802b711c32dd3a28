// Appending values and labels that a document lends.
ghost use Rattle.std.specs.Prelude.{◌∷◌, ◌&&◌, map};
ghost use Rattle.std.specs.List.{flat_map};
ghost use Rattle.jsonml_tree.specs.Data.{only_text};
ghost use Rattle.jsonml_tree.specs.LentAttrs.{lent_attr_view, lent_scalar_view};
ghost use Rattle.jsonml_tree.specs.LentView.{lent_content_view, lent_items_view, lent_row_view, lent_tree_view};
ghost use Rattle.keyed_tree.specs.Data.{name_bytes};
ghost use Rattle.keyed_tree.specs.LentView.{lent_val_view, shown_name};
ghost use Rattle.xa_fields.specs.Spelling.{list_bytes, text_bytes};
ghost use Rattle.record_parts.specs.Checks.{attrs_fit, content_fits, each_attr_fits, item_fits, items_fit, label_fits, scalar_fits, tag_fits, text_fits, value_fits, values_fit};
ghost use Rattle.record_parts.specs.Shown.{named};
ghost use Rattle.record_parts.specs.Spelling.{attr_bytes, content_bytes, item_bytes, items_bytes, label_bytes, name_spelling, scalar_bytes, value_bytes};
ghost use Rattle.record_parts.specs.Spells.{Spells};

use crate::fault::SpellFault;
use crate::fits::scalar_fits;
use crate::limits::DEEPEST;
use crate::put_values::put_scalar;
use jsonml_tree::{LentAttr, LentContent, LentRow, LentScalar, LentTree, do_names_ascend};
use keyed_tree::{LentVal, NameView};
use xa_fields::{FIELD, append_text, append_u8, append_u32};

/// Appends a label: the name, the number of key values, and the key values.
///
/// TooLong where it has no encoding; some of it may have been appended then, as for want of memory.
pub fn put_lent_label(
    out: &mut Vec<u8>,
    name: NameView<'_>,
    keys: &[LentVal<'_, '_>],
) -> Result<(), SpellFault>
    ensures { Spells (label_fits (named name.entry keys.now)) out.old.items out.new.items
        (label_bytes (named name.entry keys.now)) result }
{
    if keys.len() >= FIELD {
        return Err(SpellFault::TooLong);
    }
    put_lent_name(out, name)?;
    append_u32(out, keys.len() as u32)?;
    put_lent_values(out, keys)
}

fn put_lent_name(out: &mut Vec<u8>, name: NameView<'_>) -> Result<(), SpellFault>
    ensures { Spells (text_fits (name_bytes (shown_name name.entry))) out.old.items out.new.items
        (name_spelling (shown_name name.entry)) result }
{
    match name {
        NameView::Attr(text) => {
            append_u8(out, 0)?;
            put_short(out, text)
        }
        NameView::Tag(text) => {
            append_u8(out, 1)?;
            put_short(out, text)
        }
    }
}

fn put_lent_values(out: &mut Vec<u8>, values: &[LentVal<'_, '_>]) -> Result<(), SpellFault>
    ensures { Spells (values_fit (map lent_val_view values.now)) out.old.items out.new.items
        (flat_map value_bytes (map lent_val_view values.now)) result }
{
    for value in values {
        put_lent_value(out, *value)?;
    }
    Ok(())
}

/// Appends a key value or a body: a byte of its kind, and the scalar or the content.
///
/// TooLong where it has no encoding; some of it may have been appended then, as for want of memory.
pub fn put_lent_value(out: &mut Vec<u8>, value: LentVal<'_, '_>) -> Result<(), SpellFault>
    ensures { Spells (value_fits (lent_val_view value.entry)) out.old.items out.new.items
        (value_bytes (lent_val_view value.entry)) result }
{
    match value {
        LentVal::Scalar(scalar) => {
            append_u8(out, 0)?;
            put_lent_scalar(out, scalar)
        }
        LentVal::Content(content) => {
            append_u8(out, 1)?;
            put_content(out, content)
        }
    }
}

fn put_content(out: &mut Vec<u8>, content: LentContent<'_, '_>) -> Result<(), SpellFault>
    ensures { Spells (content_fits DEEPEST (lent_content_view content.entry)) out.old.items
        out.new.items (content_bytes (lent_content_view content.entry)) result }
{
    match content {
        LentContent::Text(text) => put_only_text(out, text),
        LentContent::Row(row) => {
            out.reserve(room_of(row))?;
            put_row(out, DEEPEST, row)
        }
    }
}

// How many bytes the row takes, about. So a great one is spelled into one piece of its size.
#[cycle(room)]
fn room_of(row: &LentRow<'_>) -> usize {
    let mut room = attrs_room(&row.attrs);
    for item in &row.items {
        room = room.saturating_add(item_room(item));
    }
    room
}

#[cycle(room)]
fn item_room(item: &LentTree<'_>) -> usize {
    match item {
        LentTree::Text(text) => text.as_str().len().saturating_add(5),
        LentTree::Leaf { tag, text } => {
            let room = tag.as_str().len().saturating_add(18);
            room.saturating_add(text.as_str().len())
        }
        LentTree::Elem { tag, row } => {
            let room = tag.as_str().len().saturating_add(5);
            room.saturating_add(room_of(row))
        }
    }
}

fn attrs_room(attrs: &[LentAttr<'_>]) -> usize {
    let mut room: usize = 8;
    for attr in attrs {
        let value = scalar_room(attr.value()).saturating_add(13);
        room = room.saturating_add(attr.name().len()).saturating_add(value);
    }
    room
}

fn scalar_room(scalar: LentScalar<'_>) -> usize {
    match scalar {
        LentScalar::Text(text) => text.len(),
        _ => 0,
    }
}

// Elements nest at most so deep in the row.
#[cycle(put)]
#[tactic(auto, using(jsonml_tree::proofs::LentTrees::lent_trees, jsonml_tree::proofs::Trees::trees))]
fn put_row(out: &mut Vec<u8>, depth: u32, row: &LentRow<'_>) -> Result<(), SpellFault>
    ensures { Spells (content_fits depth (lent_row_view row.now)) out.old.items out.new.items
        (content_bytes (lent_row_view row.now)) result }
{
    if row.items.len() >= FIELD {
        return Err(SpellFault::TooLong);
    }
    put_attrs(out, &row.attrs)?;
    append_u32(out, row.items.len() as u32)?;
    put_items(out, depth, &row.items)
}

#[cycle(put)]
#[tactic(auto, using(jsonml_tree::proofs::LentTrees::lent_trees, jsonml_tree::proofs::Trees::trees))]
fn put_items(out: &mut Vec<u8>, depth: u32, items: &[LentTree<'_>]) -> Result<(), SpellFault>
    ensures { Spells (items_fit depth (lent_items_view items.now)) out.old.items out.new.items
        (items_bytes (lent_items_view items.now)) result }
{
    for item in items {
        put_item(out, depth, item)?;
    }
    Ok(())
}

#[cycle(put)]
#[tactic(auto, using(jsonml_tree::proofs::LentTrees::lent_trees, jsonml_tree::proofs::Trees::trees))]
fn put_item(out: &mut Vec<u8>, depth: u32, item: &LentTree<'_>) -> Result<(), SpellFault>
    ensures { Spells (item_fits depth (lent_tree_view item.now)) out.old.items out.new.items
        (item_bytes (lent_tree_view item.now)) result }
{
    match item {
        LentTree::Text(text) => {
            append_u8(out, 0)?;
            put_short(out, text.as_str())
        }
        LentTree::Leaf { tag, text } => {
            put_tag(out, depth, tag.as_str())?;
            put_only_text(out, text.as_str())
        }
        LentTree::Elem { tag, row } => {
            put_tag(out, depth, tag.as_str())?;
            put_row(out, depth - 1, row)
        }
    }
}

// That an element follows, and its tag, where one may stand in this depth.
fn put_tag(out: &mut Vec<u8>, depth: u32, tag: &str) -> Result<(), SpellFault>
    ensures { Spells (tag_fits depth tag.now) out.old.items out.new.items
        (1 ∷ text_bytes tag.now) result }
{
    if depth == 0 {
        return Err(SpellFault::TooLong);
    }
    append_u8(out, 1)?;
    put_short(out, tag)
}

// A content of no attributes and one text.
fn put_only_text(out: &mut Vec<u8>, text: &str) -> Result<(), SpellFault>
    ensures { Spells (text_fits text.now) out.old.items out.new.items
        (content_bytes (only_text text.now)) result }
{
    out.extend_from_slice(&[0, 0, 0, 0, 0, 0, 0, 1, 0])?;
    put_short(out, text)
}

fn put_attrs(out: &mut Vec<u8>, attrs: &[LentAttr<'_>]) -> Result<(), SpellFault>
    ensures { Spells (attrs_fit (map lent_attr_view attrs.now)) out.old.items out.new.items
        (list_bytes attr_bytes (map lent_attr_view attrs.now)) result }
{
    if attrs.len() >= FIELD {
        return Err(SpellFault::TooLong);
    }
    if !do_names_ascend(attrs) {
        return Err(SpellFault::TooLong);
    }
    append_u32(out, attrs.len() as u32)?;
    put_each_attr(out, attrs)
}

fn put_each_attr(out: &mut Vec<u8>, attrs: &[LentAttr<'_>]) -> Result<(), SpellFault>
    ensures { Spells (each_attr_fits (map lent_attr_view attrs.now)) out.old.items out.new.items
        (flat_map attr_bytes (map lent_attr_view attrs.now)) result }
{
    for attr in attrs {
        put_attr(out, attr.name(), attr.value())?;
    }
    Ok(())
}

fn put_attr(out: &mut Vec<u8>, name: &str, value: LentScalar<'_>) -> Result<(), SpellFault>
    ensures { Spells (text_fits name.now && scalar_fits (lent_scalar_view value.entry))
        out.old.items out.new.items
        (attr_bytes (record { name = name.now; value = lent_scalar_view value.entry })) result }
{
    put_short(out, name)?;
    put_lent_scalar(out, value)
}

fn put_lent_scalar(out: &mut Vec<u8>, scalar: LentScalar<'_>) -> Result<(), SpellFault>
    ensures { Spells (scalar_fits (lent_scalar_view scalar.entry)) out.old.items out.new.items
        (scalar_bytes (lent_scalar_view scalar.entry)) result }
{
    if !scalar_fits(scalar) {
        return Err(SpellFault::TooLong);
    }
    put_scalar(out, scalar)?;
    Ok(())
}

fn put_short(out: &mut Vec<u8>, text: &str) -> Result<(), SpellFault>
    ensures { Spells (text_fits text.now) out.old.items out.new.items (text_bytes text.now)
        result }
{
    if text.len() >= FIELD {
        return Err(SpellFault::TooLong);
    }
    append_text(out, text)?;
    Ok(())
}
