// Labels that a document lends, against their bytes.
use given_parts::told;
use jsonml_tree::{LentContent, LentScalar};
use keyed_tree::{LentVal, NameView};
use record_parts::{lend_opening, put_lent_label};
use std::alloc::{AllocError, Global};
use std::cmp::Ordering;
use std::test::Fail;

/// A key value.
#[derive(Clone, Copy)]
enum Key {
    Null,
    False,
    Whole(i128),
    Text(&'static str),
    Content(&'static str),
}

impl Key {
    fn lent<'t>(self) -> LentVal<'static, 't> {
        match self {
            Key::Null => LentVal::Scalar(LentScalar::Null),
            Key::False => LentVal::Scalar(LentScalar::Bool(false)),
            Key::Whole(n) => LentVal::Scalar(LentScalar::Whole(n)),
            Key::Text(text) => LentVal::Scalar(LentScalar::Text(text)),
            Key::Content(text) => LentVal::Content(LentContent::Text(text)),
        }
    }
}

/// Labels in their order, with their encodings.
type Given = (
    &'static str,
    NameView<'static>,
    &'static [Key],
    &'static [u8],
);

const LABELS: &[Given] = &[
    (
        "an attribute",
        NameView::Attr("b"),
        &[],
        b"\0\0\0\0\x01b\0\0\0\0",
    ),
    ("a tag", NameView::Tag("a"), &[], b"\x01\0\0\0\x01a\0\0\0\0"),
    (
        "null",
        NameView::Tag("a"),
        &[Key::Null],
        b"\x01\0\0\0\x01a\0\0\0\x01\0\0",
    ),
    (
        "false",
        NameView::Tag("a"),
        &[Key::False],
        b"\x01\0\0\0\x01a\0\0\0\x01\0\x01",
    ),
    (
        "minus five",
        NameView::Tag("a"),
        &[Key::Whole(-5)],
        b"\x01\0\0\0\x01a\0\0\0\x01\0\x04\0\0\0\0\0\0\0\x04",
    ),
    (
        "twelve",
        NameView::Tag("a"),
        &[Key::Whole(12)],
        b"\x01\0\0\0\x01a\0\0\0\x01\0\x03\0\0\0\0\0\0\0\x0c",
    ),
    (
        "a text",
        NameView::Tag("a"),
        &[Key::Text("yz")],
        b"\x01\0\0\0\x01a\0\0\0\x01\0\x05\0\0\0\x02yz",
    ),
    (
        "a text above a longer one",
        NameView::Tag("a"),
        &[Key::Text("z")],
        b"\x01\0\0\0\x01a\0\0\0\x01\0\x05\0\0\0\x01z",
    ),
    (
        "a text and null",
        NameView::Tag("a"),
        &[Key::Text("z"), Key::Null],
        b"\x01\0\0\0\x01a\0\0\0\x02\0\x05\0\0\0\x01z\0\0",
    ),
    (
        "a content",
        NameView::Tag("a"),
        &[Key::Content("x")],
        b"\x01\0\0\0\x01a\0\0\0\x01\x01\0\0\0\0\0\0\0\x01\0\0\0\0\x01x",
    ),
    (
        "another tag",
        NameView::Tag("aa"),
        &[],
        b"\x01\0\0\0\x02aa\0\0\0\0",
    ),
];

fn lent<'t>(alloc: Global, keys: &[Key]) -> Result<Vec<LentVal<'static, 't>>, AllocError> {
    let mut row = Vec::new(alloc);
    for key in keys {
        row.push(key.lent())?;
    }
    Ok(row)
}

fn is_spelled(alloc: Global, name: NameView<'_>, keys: &[LentVal<'_, '_>], bytes: &[u8]) -> bool {
    let mut out = Vec::new(alloc);
    match put_lent_label(&mut out, name, keys) {
        Ok(()) => out.as_slice() == bytes,
        Err(_) => false,
    }
}

#[test]
fn lent_labels_are_spelled(rt: HostRuntime) -> Result<(), Fail> {
    for (said, name, keys, bytes) in LABELS {
        let row = lent(rt.alloc(), keys)?;
        told(is_spelled(rt.alloc(), *name, &row, bytes), said)?;
    }
    Ok(())
}

/// The label's bytes, and a timestamp that is inherited behind them.
fn opening(alloc: Global, label: &[u8]) -> Result<Vec<u8>, AllocError> {
    let mut bytes = Vec::from_slice(alloc, label)?;
    bytes.push(0)?;
    Ok(bytes)
}

/// How one label is to another, where bytes and what is lent say the same.
fn order_of(ours: &[u8], theirs: &[u8], name: NameView<'_>, keys: &[LentVal<'_, '_>]) -> Ordering {
    let Some((a, _)) = lend_opening(ours) else {
        return Ordering::Equal;
    };
    let Some((b, _)) = lend_opening(theirs) else {
        return Ordering::Equal;
    };
    let order = a.compare(&b);
    if a.order_lent(name, keys) == order {
        order
    } else {
        Ordering::Equal
    }
}

/// How one label of the table is to another.
fn order_at(alloc: Global, one: &Given, other: &Given) -> Result<Ordering, AllocError> {
    let (_, _, _, bytes) = one;
    let (_, name, keys, behind) = other;
    let ours = opening(alloc, bytes)?;
    let theirs = opening(alloc, behind)?;
    let row = lent(alloc, keys)?;
    Ok(order_of(&ours, &theirs, *name, &row))
}

#[test]
fn labels_in_bytes_are_compared(rt: HostRuntime) -> Result<(), Fail> {
    for (i, one) in LABELS.iter().enumerate() {
        for (j, other) in LABELS.iter().enumerate() {
            let order = order_at(rt.alloc(), one, other)?;
            told(order == i.cmp(&j), one.0)?;
        }
    }
    Ok(())
}
