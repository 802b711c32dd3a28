ghost use Rattle.std.specs.Prelude.{◌≡◌, ◌+◌, [], IfSome, map, string_bytes};
ghost use Rattle.std.specs.Cow.{cow_str_bytes};
ghost use Rattle.json.specs.Lex.{token};
ghost use Rattle.json.specs.Token.{begin_object};
ghost use Rattle.jsonml_tree.specs.Data.{string};
ghost use Rattle.jsonml_tree.specs.LentAttrs.{lent_attr_view, lent_scalar_view};
ghost use Rattle.jsonml_tree.specs.View.{scalar_view};
ghost use Rattle.jsonml_text.specs.Objects.{PutsMember, ReadsMember, ReadsObject};
ghost use Rattle.jsonml_text.specs.Straight.{HasLexeme, placed};

use crate::scan::{is_sign, skip_blanks};
use crate::string::{read_key, read_text};
use crate::word::read_word;
use json::Scratch;
use jsonml_tree::{Attr, LentAttr, LentScalar, Scalar, do_names_ascend};
use std::alloc::Global;
use std::borrow::CowStr;

/// The attributes that the object at an offset spells, and where the text goes on behind it. Nothing where two have one
/// name, and where a number is written in another form than it is printed in.
pub(crate) fn read_attributes<'a>(
    alloc: Global,
    text: &'a str,
    at: usize,
    scratch: &mut Scratch,
) -> Option<(Vec<LentAttr<'a>>, usize)>
    requires { HasLexeme text.now at (token begin_object) (at + 1) }
    ensures { IfSome result (λ r. ReadsObject text.now at (map lent_attr_view r.0.items) r.1) }
{
    let mut attrs = Vec::new(alloc);
    let end = read_members(alloc, text, at, &mut attrs, scratch)?;
    let mut attrs = in_order(attrs)?;
    attrs.shrink_to_fit();
    Some((attrs, end))
}

/// The attributes in the order of their names. Nothing where two have one name.
///
/// Names that ascend already, as printed ones do, are compared once each; others are sorted.
fn in_order<'a>(mut attrs: Vec<LentAttr<'a>>) -> Option<Vec<LentAttr<'a>>>
    ensures { IfSome result (λ v. map lent_attr_view v.items
        ≡ placed (map lent_attr_view attrs.entry.items)) }
{
    if do_names_ascend(&attrs) {
        return Some(attrs);
    }
    attrs.sort_unstable_by(|a, b| a.name().cmp(b.name()));
    if !do_names_ascend(&attrs) {
        return None;
    }
    Some(attrs)
}

/// Reads the members into `attrs`, which is empty, in the order of the text.
fn read_members<'a>(
    alloc: Global,
    text: &'a str,
    at: usize,
    attrs: &mut Vec<LentAttr<'a>>,
    scratch: &mut Scratch,
) -> Option<usize>
    requires begun { HasLexeme text.now at (token begin_object) (at + 1) }
    requires empty { attrs.old.items ≡ [] }
    ensures { IfSome result
        (λ end. ReadsObject text.now at (placed (map lent_attr_view attrs.new.items)) end) }
{
    let begun = skip_blanks(text, at + 1);
    if is_sign(text, begun, b'}') {
        return Some(begun + 1);
    }
    let mut end = put_member(alloc, text, begun, attrs, scratch)?;
    'members: while is_sign(text, end, b',') {
        end = put_member(alloc, text, skip_blanks(text, end + 1), attrs, scratch)?;
    }
    if is_sign(text, end, b'}') {
        Some(end + 1)
    } else {
        None
    }
}

/// Puts the member at an offset behind the attributes, and tells where the text goes on behind it and its blanks.
fn put_member<'a>(
    alloc: Global,
    text: &'a str,
    at: usize,
    attrs: &mut Vec<LentAttr<'a>>,
    scratch: &mut Scratch,
) -> Option<usize>
    ensures { IfSome result (λ next. PutsMember text.now at
        (placed (map lent_attr_view attrs.old.items))
        (placed (map lent_attr_view attrs.new.items)) next) }
{
    let (attr, next) = read_attribute(alloc, text, at, scratch)?;
    attrs.push(attr).ok()?;
    Some(next)
}

/// The member at an offset, as an attribute, and where the text goes on behind it and its blanks.
fn read_attribute<'a>(
    alloc: Global,
    text: &'a str,
    at: usize,
    scratch: &mut Scratch,
) -> Option<(LentAttr<'a>, usize)>
    ensures { IfSome result (λ r. ReadsMember text.now at (lent_attr_view r.0) r.1) }
{
    let (name, begun) = read_key(alloc, text, at, scratch)?;
    if let Some((value, next)) = read_text(alloc, text, begun, b'}', scratch) {
        return Some((attr_of_text(alloc, name, value)?, next));
    }
    let (value, next) = read_word(text, begun)?;
    Some((attr_of(alloc, name, value)?, next))
}

/// The attribute of this name and text. It is lent unless one of them is written with escapes.
fn attr_of_text<'a>(
    alloc: Global,
    name: CowStr<'a, Global>,
    value: CowStr<'a, Global>,
) -> Option<LentAttr<'a>>
    ensures { IfSome result (λ a. lent_attr_view a
        ≡ record { name = cow_str_bytes name.entry; value = string (cow_str_bytes value.entry) }) }
{
    match value {
        CowStr::Borrowed(text) => attr_of(alloc, name, LentScalar::Text(text)),
        CowStr::Owned(text) => own_attr(alloc, name.into_owned(alloc).ok()?, Scalar::Text(text)),
    }
}

/// The attribute of this name and value. It is lent unless the name is written with escapes.
fn attr_of<'a>(
    alloc: Global,
    name: CowStr<'a, Global>,
    value: LentScalar<'a>,
) -> Option<LentAttr<'a>>
    ensures { IfSome result (λ a. lent_attr_view a
        ≡ record { name = cow_str_bytes name.entry; value = lent_scalar_view value.entry }) }
{
    match name {
        CowStr::Borrowed(name) => Some(LentAttr::Lent { name, value }),
        CowStr::Owned(name) => own_attr(alloc, name, value.own(alloc).ok()?),
    }
}

fn own_attr<'a>(alloc: Global, name: String, value: Scalar) -> Option<LentAttr<'a>>
    ensures { IfSome result (λ a. lent_attr_view a
        ≡ record { name = string_bytes name; value = scalar_view value }) }
{
    let attr = Box::new(alloc, Attr { name, value }).ok()?;
    Some(LentAttr::Own(attr))
}
