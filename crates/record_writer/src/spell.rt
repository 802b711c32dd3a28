// Spelling the records that a writer appends.
ghost use Rattle.std.specs.Prelude.{◌≡◌, ◌+◌, ◌-◌, ◌≤◌, ◌++◌, [], length, OnOk, true};
ghost use Rattle.archive_tree.specs.View.{stamp_view};
ghost use Rattle.keyed_tree.specs.View.{key_view, label_view};
ghost use Rattle.record_parts.specs.Checks.{label_fits, value_fits};
ghost use Rattle.record_parts.specs.Shapes.{FitsLabel, FitsValue, IsShapedLabel, IsShapedValue};
ghost use Rattle.record_parts.specs.Spells.{Spells};
ghost use Rattle.record_parts.specs.Spelling.{label_bytes, stamp_bytes, value_bytes};
ghost use Rattle.record_format.specs.Data.{alt_rec, leaf_end};
ghost use Rattle.record_format.specs.Spelling.{framed, rec_bytes};
ghost use Rattle.record_writer.specs.Given.{given_label, given_body, IsShapedLabelFrom, IsShapedBodyFrom};
ghost use Rattle.record_format.specs.Files.{longest};
ghost use Rattle.record_writer.specs.Faults.{Prepares};

use crate::fault::WriteFault;
use crate::given::{BodyFrom, LabelFrom};
use keyed_tree::{Body, Label};
use record_format::{ALT, FRAME, LONGEST, close, is_label, is_value, open, put_leaf_end};
use record_parts::{
    SpellFault, parts_are_of_shape_and_fit, put_label, put_lent_label, put_lent_value, put_stamp,
    put_value,
};
use std::alloc::AllocError;
use version_set::VersionSet;

// Appends what a record lends.
fn put_old(out: &mut Vec<u8>, bytes: &[u8]) -> Result<(), SpellFault>
    ensures { Spells true out.old.items out.new.items bytes.now result }
{
    out.extend_from_slice(bytes)?;
    Ok(())
}

fn put_new_label(out: &mut Vec<u8>, label: &Label) -> Result<(), SpellFault>
    ensures { Spells (label_fits (label_view label.now)) out.old.items out.new.items
        (label_bytes (label_view label.now)) result }
{
    if !is_label(label) {
        return Err(SpellFault::TooLong);
    }
    parts_are_of_shape_and_fit();
    put_label(out, label)?;
    Ok(())
}

fn put_new_body(out: &mut Vec<u8>, body: &Body) -> Result<(), SpellFault>
    ensures { Spells (value_fits (key_view body.now)) out.old.items out.new.items
        (value_bytes (key_view body.now)) result }
{
    if !is_value(body) {
        return Err(SpellFault::TooLong);
    }
    parts_are_of_shape_and_fit();
    put_value(out, body)?;
    Ok(())
}

fn put_label_from(out: &mut Vec<u8>, label: &LabelFrom<'_, '_>) -> Result<(), SpellFault>
    ensures { Spells (label_fits (given_label label.now)) out.old.items out.new.items
        (label_bytes (given_label label.now)) result }
{
    parts_are_of_shape_and_fit();
    match label {
        LabelFrom::Old(view) => put_old(out, view.bytes()),
        LabelFrom::New(label) => put_new_label(out, label),
        LabelFrom::Lent { name, keys } => put_lent_label(out, *name, keys),
    }
}

fn put_body_from(out: &mut Vec<u8>, body: &BodyFrom<'_, '_>) -> Result<(), SpellFault>
    ensures { Spells (value_fits (given_body body.now)) out.old.items out.new.items
        (value_bytes (given_body body.now)) result }
{
    parts_are_of_shape_and_fit();
    match body {
        BodyFrom::Old(view) => put_old(out, view.bytes()),
        BodyFrom::New(body) => put_new_body(out, body),
        BodyFrom::Lent(value) => put_lent_value(out, *value),
    }
}

// What is given has its shape, since what a record lends always has.
fn is_label_shaped(label: &LabelFrom<'_, '_>)
    requires { IsShapedLabelFrom label.now }
    ensures { IsShapedLabel (given_label label.now) }
{
    match label {
        LabelFrom::Old(view) => {
            let _spelled = view.bytes();
        }
        LabelFrom::New(_) => {}
        LabelFrom::Lent { .. } => {}
    }
}

fn is_body_shaped(body: &BodyFrom<'_, '_>)
    requires { IsShapedBodyFrom body.now }
    ensures { IsShapedValue (given_body body.now) }
{
    match body {
        BodyFrom::Old(view) => {
            let _spelled = view.bytes();
        }
        BodyFrom::New(_) => {}
        BodyFrom::Lent(_) => {}
    }
}

fn put_opening(
    record: &mut Vec<u8>,
    kind: u8,
    label: &LabelFrom<'_, '_>,
    stamp: &Option<VersionSet>,
) -> Result<(), SpellFault>
    ensures { Spells (label_fits (given_label label.now)) [] record.new.items
        (framed kind (label_bytes (given_label label.now) ++ stamp_bytes (stamp_view stamp.now)))
        result }
{
    record.clear();
    let at = open(record, kind)?;
    put_label_from(record, label)?;
    put_stamp(record, stamp)?;
    close(record, at);
    Ok(())
}

fn put_alternative(
    record: &mut Vec<u8>,
    stamp: &Option<VersionSet>,
    body: &BodyFrom<'_, '_>,
) -> Result<(), SpellFault>
    ensures { Spells (value_fits (given_body body.now)) [] record.new.items
        (rec_bytes (alt_rec (stamp_view stamp.now) (given_body body.now))) result }
{
    record.clear();
    let at = open(record, ALT)?;
    put_stamp(record, stamp)?;
    put_body_from(record, body)?;
    close(record, at);
    Ok(())
}

/// Spells the record of this kind that opens a node.
pub fn spell_opening(
    record: &mut Vec<u8>,
    kind: u8,
    label: &LabelFrom<'_, '_>,
    stamp: &Option<VersionSet>,
) -> Result<(), WriteFault>
    requires { IsShapedLabelFrom label.now }
    ensures { Prepares (FitsLabel (given_label label.now)) (λ _. record.new.items
        ≡ framed kind (label_bytes (given_label label.now) ++ stamp_bytes (stamp_view stamp.now)))
        result }
{
    parts_are_of_shape_and_fit();
    is_label_shaped(label);
    match put_opening(record, kind, label, stamp) {
        Ok(()) => Ok(()),
        Err(SpellFault::TooLong) => Err(WriteFault::TooLong),
        Err(SpellFault::Memory) => Err(WriteFault::Memory),
    }
}

/// Spells the record of an alternative.
pub fn spell_alternative(
    record: &mut Vec<u8>,
    stamp: &Option<VersionSet>,
    body: &BodyFrom<'_, '_>,
) -> Result<(), WriteFault>
    requires { IsShapedBodyFrom body.now }
    ensures { Prepares (FitsValue (given_body body.now)) (λ _. record.new.items
        ≡ rec_bytes (alt_rec (stamp_view stamp.now) (given_body body.now))) result }
{
    parts_are_of_shape_and_fit();
    is_body_shaped(body);
    match put_alternative(record, stamp, body) {
        Ok(()) => Ok(()),
        Err(SpellFault::TooLong) => Err(WriteFault::TooLong),
        Err(SpellFault::Memory) => Err(WriteFault::Memory),
    }
}

/// Spells the record that closes a leaf.
pub fn spell_leaf_end(record: &mut Vec<u8>) -> Result<(), AllocError>
    ensures { OnOk result (record.new.items ≡ rec_bytes leaf_end) }
{
    record.clear();
    put_leaf_end(record)
}

/// The length of the body of the record.
pub fn body_length(record: &[u8]) -> u64
    ensures { result ≡ length record.now - 9 }
{
    record.len().saturating_sub(FRAME) as u64
}

/// How many bytes there are behind the record, where they are not too many.
pub fn end_of(written: u64, record: &[u8]) -> Result<u64, WriteFault>
    ensures { Prepares (written + length record.now ≤ longest)
        (λ end. end ≡ written + length record.now) result }
{
    end_after(written, record.len() as u64)
}

/// How many bytes there are behind so many more, where they are not too many.
pub fn end_after(written: u64, more: u64) -> Result<u64, WriteFault>
    ensures { Prepares (written + more ≤ longest) (λ end. end ≡ written + more) result }
{
    if more > LONGEST || written > LONGEST - more {
        return Err(WriteFault::TooLong);
    }
    Ok(written + more)
}
