// The records of the archive of one version, the element `db`, byte by byte.
use given_parts::bytes::{ALT, END, INNER, LEAF, LEAF_END};
use given_parts::{all_told, told};
use keyed_tree::{Body, Label, Name};
use record_format::{
    BodyView, Dir, Entry, LabelView, Rec, StampView, View, decode, is_label, is_value, put_alt,
    put_end, put_inner, put_leaf, put_leaf_end, take_frame, take_record, view, view_body,
};
use std::alloc::{AllocError, Global};
use std::cmp::Ordering;
use std::test::Fail;
use version_set::VersionSet;

fn tag(alloc: Global, name: &str) -> Result<Label, AllocError> {
    Ok(Label {
        name: Name::Tag(String::from_str(alloc, name)?),
        keys: Vec::new(alloc),
    })
}

/// Whether a directory has the leaf and its set.
fn is_of_one(dir: &Dir) -> bool {
    match (dir.entries.as_slice(), dir.sets.as_slice()) {
        ([entry], [set]) => {
            (entry.start, entry.length, entry.dir) == (0, 49, 0)
                && set.pairs() == [(1, 1)].as_slice()
        }
        _ => false,
    }
}

fn has_leaf(alloc: Global) -> bool {
    match decode(alloc, END) {
        Ok(Rec::End { dir }) => is_of_one(&dir),
        _ => false,
    }
}

/// The timestamp of a record that has one.
fn stamp_in(bytes: &[u8]) -> Option<StampView<'_>> {
    match view(bytes)? {
        View::Inner { stamp, .. } => Some(stamp),
        View::Leaf { stamp, .. } => Some(stamp),
        View::Alt { stamp, .. } => Some(stamp),
    }
}

/// A record, the bytes of its timestamp, and the intervals of the stored set; none where it is the parent's.
const STAMPS: &[(&str, &[u8], &[u8], &[(u32, u32)])] = &[
    ("a leaf", LEAF, b"\0", &[]),
    (
        "an inner node",
        INNER,
        b"\x01\0\0\0\x02\0\0\0\x01\0\0\0\x02\0\0\0\x04\0\0\0\x04",
        &[(1, 2), (4, 4)],
    ),
    (
        "an alternative",
        b"\x03\0\0\0\0\0\0\0\x0f\x01\0\0\0\x01\0\0\0\x01\0\0\0\x02\0\0",
        b"\x01\0\0\0\x01\0\0\0\x01\0\0\0\x02",
        &[(1, 2)],
    ),
    (
        "an alternative in all versions",
        b"\x03\0\0\0\0\0\0\0\x03\0\0\0",
        b"\0",
        &[],
    ),
];

fn is_copied(alloc: Global, stamp: &StampView, pairs: &[(u32, u32)]) -> bool {
    match stamp.copy(alloc) {
        Ok(Some(set)) => set.pairs() == pairs,
        Ok(None) => pairs.is_empty(),
        Err(_) => false,
    }
}

/// Whether a record's timestamp has these bytes and is copied as this set.
fn is_stamp(alloc: Global, record: &[u8], bytes: &[u8], pairs: &[(u32, u32)]) -> bool {
    match stamp_in(record) {
        Some(stamp) => {
            stamp.bytes() == bytes
                && stamp.is_stored() != pairs.is_empty()
                && is_copied(alloc, &stamp, pairs)
        }
        None => false,
    }
}

#[test]
fn a_lent_timestamp_says_whether_it_is_stored(rt: HostRuntime) -> Result<(), Fail> {
    for (name, record, bytes, pairs) in STAMPS {
        told(is_stamp(rt.alloc(), record, bytes, pairs), name)?;
    }
    Ok(())
}

/// Tags, and how the label `db` is to them.
const TAGS: &[(&str, Ordering)] = &[
    ("c", Ordering::Greater),
    ("db", Ordering::Equal),
    ("dba", Ordering::Less),
];

fn is_compared(alloc: Global, label: &LabelView, name: &str, wanted: Ordering) -> bool {
    match tag(alloc, name) {
        Ok(other) => label.order(&other) == wanted,
        Err(_) => false,
    }
}

fn are_compared(alloc: Global, label: &LabelView) -> Result<(), Fail> {
    for (name, wanted) in TAGS {
        told(is_compared(alloc, label, name, *wanted), name)?;
    }
    told(
        label.bytes() == b"\x01\0\0\0\x02db\0\0\0\0".as_slice(),
        "the bytes",
    )
}

#[test]
fn a_lent_label_is_compared(rt: HostRuntime) -> Result<(), Fail> {
    match view(LEAF) {
        Some(View::Leaf { label, .. }) => are_compared(rt.alloc(), &label),
        _ => Err(Fail::new("no LEAF")),
    }
}

fn is_same(found: &BodyView, other: &Body) -> bool {
    found.same(other)
        && !found.same(&Body::Scalar(jsonml_tree::Scalar::Null))
        && found.bytes() == b"\x01\0\0\0\0\0\0\0\0".as_slice()
}

fn is_body_compared(alloc: Global, found: &BodyView) -> bool {
    match decode(alloc, ALT) {
        Ok(Rec::Alt { body, .. }) => is_same(found, &body),
        _ => false,
    }
}

#[test]
fn a_lent_body_is_compared(rt: HostRuntime) -> Result<(), Fail> {
    match view(ALT) {
        Some(View::Alt { body, .. }) => told(is_body_compared(rt.alloc(), &body), "another body"),
        _ => Err(Fail::new("no ALT")),
    }
}

/// Whether an ALT stands at the front, and the end of a leaf behind it.
fn are_in_a_row(alloc: Global, bytes: &[u8]) -> bool {
    let is_first = matches!(take_record(alloc, bytes, 0), Ok((Rec::Alt { .. }, 19)));
    is_first && matches!(take_record(alloc, bytes, 19), Ok((Rec::LeafEnd, 28)))
}

fn two_records(alloc: Global) -> Result<Vec<u8>, AllocError> {
    let mut bytes = Vec::from_slice(alloc, ALT)?;
    bytes.extend_from_slice(LEAF_END)?;
    Ok(bytes)
}

fn is_alt_framed(bytes: &[u8]) -> bool {
    match take_frame(bytes, 0) {
        Some((3, body, 19)) => matches!(view_body(3, body), Some(View::Alt { .. })),
        _ => false,
    }
}

fn do_two_stand(alloc: Global) -> bool {
    match two_records(alloc) {
        Ok(bytes) => are_in_a_row(alloc, &bytes) && is_alt_framed(&bytes),
        Err(_) => false,
    }
}

/// Whether a label and a body are put, if they may be.
fn put(out: &mut Vec<u8>, label: &Label, body: &Body) -> Result<bool, AllocError> {
    if !is_label(label) || !is_value(body) {
        return Ok(false);
    }
    put_leaf(out, label, &None)?;
    put_inner(out, label, &None)?;
    put_alt(out, &None, body)?;
    put_leaf_end(out)?;
    Ok(true)
}

/// Whether they are put into records of these bytes.
fn are_put(alloc: Global, label: &Label, body: &Body) -> bool {
    let mut out = Vec::new(alloc);
    put(&mut out, label, body) == Ok(true) && out.as_slice() == PUT
}

fn is_tag_put(alloc: Global) -> bool {
    match tag(alloc, "db") {
        Ok(label) => are_put(alloc, &label, &Body::Scalar(jsonml_tree::Scalar::Null)),
        Err(_) => false,
    }
}

/// A leaf, an inner node, an alternative and the end of a leaf.
const PUT: &[u8] = b"\
    \x02\0\0\0\0\0\0\0\x0c\x01\0\0\0\x02db\0\0\0\0\0\
    \x01\0\0\0\0\0\0\0\x0c\x01\0\0\0\x02db\0\0\0\0\0\
    \x03\0\0\0\0\0\0\0\x03\0\0\0\
    \x05\0\0\0\0\0\0\0\0";

/// Whether the end of a row with one leaf is put.
fn is_end_put(alloc: Global) -> bool {
    let entry = Entry {
        start: 0,
        length: 49,
        dir: 0,
    };
    let set = VersionSet::single(alloc, 1);
    let mut out = Vec::new(alloc);
    match put_end(&mut out, &[entry], &[&set]) {
        Ok(()) => out.as_slice() == END,
        Err(_) => false,
    }
}

/// Whether an alternative without a set is decoded as such.
fn is_inherited(alloc: Global, bytes: &[u8]) -> bool {
    matches!(decode(alloc, bytes), Ok(Rec::Alt { stamp: None, .. }))
}

#[test]
fn records_are_decoded_and_put(rt: HostRuntime) -> Result<(), Fail> {
    let alloc = rt.alloc();
    all_told(&[
        ("the directory has the leaf", has_leaf(alloc)),
        (
            "an inherited timestamp",
            is_inherited(alloc, b"\x03\0\0\0\0\0\0\0\x03\0\0\0"),
        ),
        ("records one behind another", do_two_stand(alloc)),
        ("a tag by itself", is_tag_put(alloc)),
        ("an END by itself", is_end_put(alloc)),
    ])
}
