// Appending scalars, contents and key values.
ghost use Rattle.std.specs.Prelude.{◌≡◌, ◌<◌, ◌++◌, length, OnOk, OnErr, map};
ghost use Rattle.std.specs.List.{flat_map, AllByRecursion};
ghost use Rattle.jsonml_tree.specs.Data.{whole};
ghost use Rattle.jsonml_tree.specs.LentAttrs.{lent_scalar_view};
ghost use Rattle.jsonml_tree.specs.View.{attr_view, tree_view, content_view, items_view};
ghost use Rattle.keyed_tree.specs.View.{key_view};
ghost use Rattle.xa_fields.specs.Spelling.{list_bytes, u64_bytes};
ghost use Rattle.xa_fields.specs.Laws.{Grows};
ghost use Rattle.xa_fields.specs.declared.limits.TheConstants.{FIELD};
ghost use Rattle.record_parts.specs.Spelling.{scalar_bytes, attr_bytes, content_bytes, item_bytes, items_bytes, value_bytes};
ghost use Rattle.record_parts.specs.Shapes.{FitsScalar, FitsAttr, FitsItem, FitItems, FitsInside, FitsValue};

use jsonml_tree::{Attr, Content, LentScalar, Tree};
use keyed_tree::KeyVal;
use std::alloc::AllocError;
use xa_fields::{append_text, append_u8, append_u32, append_u64};

#[tactic(auto, using(xa_fields::proofs::Combinators::growth))]
pub(crate) fn put_scalar(out: &mut Vec<u8>, scalar: LentScalar<'_>) -> Result<(), AllocError>
    requires { FitsScalar (lent_scalar_view scalar) }
    ensures ok { OnOk result (out.new.items
        ≡ out.old.items ++ scalar_bytes (lent_scalar_view scalar.entry)) }
    ensures grows { Grows out.old.items out.new.items }
{
    match scalar {
        LentScalar::Null => append_u8(out, 0),
        LentScalar::Bool(false) => append_u8(out, 1),
        LentScalar::Bool(true) => append_u8(out, 2),
        LentScalar::Whole(n) => put_whole(out, n),
        LentScalar::Text(text) => {
            append_u8(out, 5)?;
            append_text(out, text)
        }
    }
}

#[tactic(auto, using(xa_fields::proofs::Combinators::growth))]
fn put_whole(out: &mut Vec<u8>, n: i128) -> Result<(), AllocError>
    ensures ok { OnOk result (out.new.items ≡ out.old.items ++ scalar_bytes (whole n)) }
    ensures grows { Grows out.old.items out.new.items }
{
    if n >= 0 {
        append_u8(out, 3)?;
        put_low(out, n as u128)
    } else {
        append_u8(out, 4)?;
        put_low(out, (-1 - n) as u128)
    }
}

// The lowest eight bytes of a number, which are all of it where it fits.
fn put_low(out: &mut Vec<u8>, n: u128) -> Result<(), AllocError>
    ensures ok { OnOk result (out.new.items ≡ out.old.items ++ u64_bytes n) }
    ensures err { OnErr result (out.new.items ≡ out.old.items) }
{
    append_u64(out, (n % 18_446_744_073_709_551_616) as u64)
}

#[tactic(auto, using(xa_fields::proofs::Combinators::growth))]
fn put_attr(out: &mut Vec<u8>, attr: &Attr) -> Result<(), AllocError>
    requires { FitsAttr (attr_view attr.now) }
    ensures ok { OnOk result (out.new.items ≡ out.old.items ++ attr_bytes (attr_view attr.now)) }
    ensures grows { Grows out.old.items out.new.items }
{
    append_text(out, attr.name.as_str())?;
    put_scalar(out, attr.value.lend())
}

#[tactic(auto, using(xa_fields::proofs::Combinators::growth, jsonml_tree::proofs::Trees::trees))]
fn put_attrs(out: &mut Vec<u8>, attrs: &[Attr]) -> Result<(), AllocError>
    requires few { length attrs.now < FIELD }
    requires each { AllByRecursion FitsAttr (map attr_view attrs.now) }
    ensures ok { OnOk result (out.new.items
        ≡ out.old.items ++ list_bytes attr_bytes (map attr_view attrs.now)) }
    ensures grows { Grows out.old.items out.new.items }
{
    append_u32(out, attrs.len() as u32)?;
    put_each_attr(out, attrs)
}

#[tactic(auto, using(xa_fields::proofs::Combinators::growth))]
fn put_each_attr(out: &mut Vec<u8>, attrs: &[Attr]) -> Result<(), AllocError>
    requires { AllByRecursion FitsAttr (map attr_view attrs.now) }
    ensures ok { OnOk result (out.new.items
        ≡ out.old.items ++ flat_map attr_bytes (map attr_view attrs.now)) }
    ensures grows { Grows out.old.items out.new.items }
{
    for attr in attrs {
        put_attr(out, attr)?;
    }
    Ok(())
}

#[cycle(put)]
#[tactic(auto, using(xa_fields::proofs::Combinators::growth, jsonml_tree::proofs::Trees::trees, crate::proofs::Contents::insides))]
fn put_content(out: &mut Vec<u8>, content: &Content) -> Result<(), AllocError>
    requires { FitsInside (content_view content.now) }
    ensures ok { OnOk result (out.new.items
        ≡ out.old.items ++ content_bytes (content_view content.now)) }
    ensures grows { Grows out.old.items out.new.items }
{
    put_attrs(out, &content.attrs)?;
    append_u32(out, content.items.len() as u32)?;
    put_items(out, &content.items)?;
    Ok(())
}

#[cycle(put)]
#[tactic(auto, using(xa_fields::proofs::Combinators::growth, jsonml_tree::proofs::Trees::trees))]
fn put_items(out: &mut Vec<u8>, items: &[Tree]) -> Result<(), AllocError>
    requires { FitItems (items_view items.now) }
    ensures ok { OnOk result (out.new.items ≡ out.old.items ++ items_bytes (items_view items.now)) }
    ensures grows { Grows out.old.items out.new.items }
{
    for item in items {
        put_item(out, item)?;
    }
    Ok(())
}

#[cycle(put)]
#[tactic(auto, using(xa_fields::proofs::Combinators::growth, jsonml_tree::proofs::Trees::trees))]
fn put_item(out: &mut Vec<u8>, item: &Tree) -> Result<(), AllocError>
    requires { FitsItem (tree_view item.now) }
    ensures ok { OnOk result (out.new.items ≡ out.old.items ++ item_bytes (tree_view item.now)) }
    ensures grows { Grows out.old.items out.new.items }
{
    match item {
        Tree::Text(text) => {
            append_u8(out, 0)?;
            append_text(out, text.as_str())
        }
        Tree::Elem { tag, content } => {
            append_u8(out, 1)?;
            append_text(out, tag.as_str())?;
            put_content(out, content)
        }
    }
}

/// Appends a key value or a body: a byte of its kind, and the scalar or the content. They are the
/// bytes of a value where it is one. On a refusal what was there stays, and some may stand behind it.
#[tactic(auto, using(xa_fields::proofs::Combinators::growth))]
pub fn put_value(out: &mut Vec<u8>, value: &KeyVal) -> Result<(), AllocError>
    requires { FitsValue (key_view value.now) }
    ensures ok { OnOk result (out.new.items ≡ out.old.items ++ value_bytes (key_view value.now)) }
    ensures grows { Grows out.old.items out.new.items }
{
    match value {
        KeyVal::Scalar(scalar) => {
            append_u8(out, 0)?;
            put_scalar(out, scalar.lend())
        }
        KeyVal::Content(content) => {
            append_u8(out, 1)?;
            put_content(out, content)
        }
    }
}
