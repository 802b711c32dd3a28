// Appending labels and timestamps.
ghost use Rattle.std.specs.Prelude.{◌≡◌, ◌++◌, ◌<◌, length, OnOk, map};
ghost use Rattle.std.specs.List.{flat_map, AllByRecursion};
ghost use Rattle.keyed_tree.specs.View.{key_view, name_view, label_view};
ghost use Rattle.keyed_tree.specs.Data.{name_bytes};
ghost use Rattle.archive_tree.specs.View.{stamp_view};
ghost use Rattle.xa_fields.specs.Spelling.{list_bytes};
ghost use Rattle.xa_fields.specs.Laws.{Grows};
ghost use Rattle.xa_fields.specs.declared.limits.TheConstants.{FIELD};
ghost use Rattle.record_parts.specs.Spelling.{value_bytes, name_spelling, label_bytes, stamp_bytes};
ghost use Rattle.record_parts.specs.Shapes.{FitsText, FitsValue, FitsLabel};

use crate::put_values::put_value;
use keyed_tree::{KeyVal, Label, Name};
use std::alloc::AllocError;
use timestamp_tree::put_set;
use version_set::VersionSet;
use xa_fields::{append_text, append_u8, append_u32};

#[tactic(auto, using(xa_fields::proofs::Combinators::growth))]
fn put_name(out: &mut Vec<u8>, name: &Name) -> Result<(), AllocError>
    requires { FitsText (name_bytes (name_view name.now)) }
    ensures ok { OnOk result (out.new.items ≡ out.old.items ++ name_spelling (name_view name.now)) }
    ensures grows { Grows out.old.items out.new.items }
{
    match name {
        Name::Attr(text) => {
            append_u8(out, 0)?;
            append_text(out, text.as_str())
        }
        Name::Tag(text) => {
            append_u8(out, 1)?;
            append_text(out, text.as_str())
        }
    }
}

#[tactic(auto, using(xa_fields::proofs::Combinators::growth, jsonml_tree::proofs::Trees::trees))]
fn put_values(out: &mut Vec<u8>, values: &[KeyVal]) -> Result<(), AllocError>
    requires few { length values.now < FIELD }
    requires values { AllByRecursion FitsValue (map key_view values.now) }
    ensures ok { OnOk result (out.new.items
        ≡ out.old.items ++ list_bytes value_bytes (map key_view values.now)) }
    ensures grows { Grows out.old.items out.new.items }
{
    append_u32(out, values.len() as u32)?;
    put_each_value(out, values)
}

#[tactic(auto, using(xa_fields::proofs::Combinators::growth))]
fn put_each_value(out: &mut Vec<u8>, values: &[KeyVal]) -> Result<(), AllocError>
    requires { AllByRecursion FitsValue (map key_view values.now) }
    ensures ok { OnOk result (out.new.items
        ≡ out.old.items ++ flat_map value_bytes (map key_view values.now)) }
    ensures grows { Grows out.old.items out.new.items }
{
    for value in values {
        put_value(out, value)?;
    }
    Ok(())
}

/// Appends the name, the number of key values and the key values of a label. They are the bytes of a
/// label where it is one. On a refusal what was there stays, and some may stand behind it.
#[tactic(auto, using(xa_fields::proofs::Combinators::growth, jsonml_tree::proofs::Trees::trees))]
pub fn put_label(out: &mut Vec<u8>, label: &Label) -> Result<(), AllocError>
    requires { FitsLabel (label_view label.now) }
    ensures ok { OnOk result (out.new.items ≡ out.old.items ++ label_bytes (label_view label.now)) }
    ensures grows { Grows out.old.items out.new.items }
{
    put_name(out, &label.name)?;
    put_values(out, &label.keys)
}

/// Appends a timestamp: a byte 0 where it is inherited, else a byte 1 and the set. They are the bytes
/// of a timestamp where it is one. On a refusal what was there stays, and some may stand behind it.
#[tactic(auto, using(xa_fields::proofs::Combinators::growth))]
pub fn put_stamp(out: &mut Vec<u8>, stamp: &Option<VersionSet>) -> Result<(), AllocError>
    ensures ok { OnOk result (out.new.items ≡ out.old.items ++ stamp_bytes (stamp_view stamp.now)) }
    ensures grows { Grows out.old.items out.new.items }
{
    match stamp {
        None => append_u8(out, 0),
        Some(set) => {
            append_u8(out, 1)?;
            put_set(out, set)
        }
    }
}
