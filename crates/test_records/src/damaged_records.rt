//! Bytes that are a record, or none: damage is answered as damage.
use given_parts::bytes::{ALT, END, Edits, INNER, LEAF, LEAF_END, Pieces, TWO_ATTRIBUTES, edited};
use given_parts::told;
use record_format::{RecFault, decode, encode, view};
use std::alloc::Global;
use std::test::Fail;

/// A body that is the scalar -2^63.
const LEAST: &[u8] = b"\x03\0\0\0\0\0\0\0\x0b\0\0\x04\x7f\xff\xff\xff\xff\xff\xff\xff";

/// A leaf of the name `a`.
const NAMED: &[u8] = b"\x02\0\0\0\0\0\0\0\x0b\x01\0\0\0\x01a\0\0\0\0\0";

/// A body in the versions from 1 to 999,999.
const ALL_VERSIONS: &[u8] = b"\x03\0\0\0\0\0\0\0\x0f\x01\0\0\0\x01\0\0\0\x01\0\x0f\x42\x3f\0\0";

/// An alternative whose content nests 120 elements, and one that nests one more.
const NESTED_120: Pieces = &[
    (b"\x03\0\0\0\0\0\0\x06\x22\0\x01", 1),
    (b"\0\0\0\0\0\0\0\x01\x01\0\0\0\0", 120),
    (b"\0\0\0\0\0\0\0\0", 1),
];

const NESTED_121: Pieces = &[
    (b"\x03\0\0\0\0\0\0\x06\x2f\0\x01", 1),
    (b"\0\0\0\0\0\0\0\x01\x01\0\0\0\0", 121),
    (b"\0\0\0\0\0\0\0\0", 1),
];

/// Bytes, edits in them, and whether they are a record then.
const RECORDS: &[(&str, Pieces, Edits, bool)] = &[
    ("a leaf", &[(LEAF, 1)], &[], true),
    ("an alternative", &[(ALT, 1)], &[], true),
    ("the end of a leaf", &[(LEAF_END, 1)], &[], true),
    ("an end", &[(END, 1)], &[], true),
    ("an inner node", &[(INNER, 1)], &[], true),
    ("touching intervals", &[(INNER, 1)], &[(35, 3)], false),
    // The kind of a record.
    ("kind 0", &[(b"\0", 9)], &[], false),
    ("kind 6", &[(b"\x06\0\0\0\0\0\0\0\0", 1)], &[], false),
    ("kind 255", &[(b"\xff\0\0\0\0\0\0\0\0", 1)], &[], false),
    (
        "the end of a leaf with a body",
        &[(b"\x05\0\0\0\0\0\0\0\x01\0", 1)],
        &[],
        false,
    ),
    (
        "the end of a leaf that is longer than the bytes",
        &[(b"\x05", 1), (b"\xff", 8)],
        &[],
        false,
    ),
    (
        "an alternative that is longer than the bytes",
        &[(b"\x03", 1), (b"\xff", 8), (b"\0", 3)],
        &[],
        false,
    ),
    // A value is a scalar or a content, a scalar of six kinds, and an item of two.
    ("a null", &[(b"\x03\0\0\0\0\0\0\0\x03\0\0\0", 1)], &[], true),
    (
        "an unknown kind of value",
        &[(b"\x03\0\0\0\0\0\0\0\x03\0\x02\0", 1)],
        &[],
        false,
    ),
    (
        "an unknown kind of scalar",
        &[(b"\x03\0\0\0\0\0\0\0\x03\0\0\x06", 1)],
        &[],
        false,
    ),
    (
        "an unknown kind of item",
        &[(
            b"\x03\0\0\0\0\0\0\0\x0f\0\x01\0\0\0\0\0\0\0\x01\x02\0\0\0\0",
            1,
        )],
        &[],
        false,
    ),
    // Names and timestamps have two kinds.
    (
        "an empty tag",
        &[(b"\x02\0\0\0\0\0\0\0\x0a\x01\0\0\0\0\0\0\0\0\0", 1)],
        &[],
        true,
    ),
    (
        "an unknown kind of name",
        &[(b"\x02\0\0\0\0\0\0\0\x0a\x02\0\0\0\0\0\0\0\0\0", 1)],
        &[],
        false,
    ),
    (
        "an unknown kind of a leaf's timestamp",
        &[(b"\x02\0\0\0\0\0\0\0\x0a\x01\0\0\0\0\0\0\0\0\x02", 1)],
        &[],
        false,
    ),
    (
        "an unknown kind of an alternative's timestamp",
        &[(b"\x03\0\0\0\0\0\0\0\x03\x02\0\0", 1)],
        &[],
        false,
    ),
    // The least number is -2^63.
    ("-2^63", &[(LEAST, 1)], &[], true),
    ("-2^63 - 1", &[(LEAST, 1)], &[(12, 128)], false),
    ("above 2^63", &[(LEAST, 1)], &[(12, 128), (11, 3)], true),
    // Attributes ascend by name.
    ("a before b", &[(TWO_ATTRIBUTES, 1)], &[], true),
    ("b twice", &[(TWO_ATTRIBUTES, 1)], &[(19, b'b')], false),
    ("c before b", &[(TWO_ATTRIBUTES, 1)], &[(19, b'c')], false),
    // Texts are UTF-8.
    ("a name", &[(NAMED, 1)], &[], true),
    ("a name that is no text", &[(NAMED, 1)], &[(14, 255)], false),
    // A stored set has numbers from 1 to 999,999, and is not empty.
    ("from 1 to 999,999", &[(ALL_VERSIONS, 1)], &[], true),
    ("to 1,000,000", &[(ALL_VERSIONS, 1)], &[(21, 64)], false),
    ("from 0", &[(ALL_VERSIONS, 1)], &[(17, 0)], false),
    (
        "an empty stored set",
        &[(b"\x03\0\0\0\0\0\0\0\x07\x01\0\0\0\0\0\0", 1)],
        &[],
        false,
    ),
    (
        "an interval from 3 to 2",
        &[(
            b"\x03\0\0\0\0\0\0\0\x0f\x01\0\0\0\x01\0\0\0\x03\0\0\0\x02\0\0",
            1,
        )],
        &[],
        false,
    ),
    // A directory has a tree with a leaf for each of its entries.
    (
        "another length of the left part",
        &[(END, 1)],
        &[(56, 1)],
        false,
    ),
    (
        "no children",
        &[(b"\x04\0\0\0\0\0\0\0\x04\0\0\0\0", 1)],
        &[],
        true,
    ),
    (
        "no children, and a tree",
        &[(
            b"\x04\0\0\0\0\0\0\0\x18\0\0\0\0\0\0\0\x01\0\0\0\x01\0\0\0\x01\0\0\0\0\0\0\0\0",
            1,
        )],
        &[],
        false,
    ),
    // A count that the bytes do not have is damage, and takes no memory for what it counts.
    (
        "the length of a name",
        &[(b"\x02\0\0\0\0\0\0\0\x0a\x01\xff\xff\xff\xff\0\0\0\0\0", 1)],
        &[],
        false,
    ),
    (
        "the number of key values",
        &[(b"\x02\0\0\0\0\0\0\0\x0a\x01\0\0\0\0\xff\xff\xff\xff\0", 1)],
        &[],
        false,
    ),
    (
        "the number of intervals",
        &[(b"\x03\0\0\0\0\0\0\0\x07\x01\xff\xff\xff\xff\0\0", 1)],
        &[],
        false,
    ),
    (
        "the number of attributes",
        &[(b"\x03\0\0\0\0\0\0\0\x0a\0\x01\xff\xff\xff\xff\0\0\0\0", 1)],
        &[],
        false,
    ),
    (
        "the number of items",
        &[(b"\x03\0\0\0\0\0\0\0\x0a\0\x01\0\0\0\0\xff\xff\xff\xff", 1)],
        &[],
        false,
    ),
    (
        "the number of children",
        &[(b"\x04\0\0\0\0\0\0\0\x04\xff\xff\xff\xff", 1)],
        &[],
        false,
    ),
    (
        "the number of intervals in a tree",
        &[(END, 1)],
        &[(37, 255), (38, 255), (39, 255), (40, 255)],
        false,
    ),
    ("120 elements in one another", NESTED_120, &[], true),
    ("121 elements in one another", NESTED_121, &[], false),
];

fn is_its_encoding(alloc: Global, bytes: &[u8]) -> bool {
    let mut out = Vec::new(alloc);
    match decode(alloc, bytes) {
        Ok(rec) => encode(alloc, &rec, &mut out).is_ok() && out.as_slice() == bytes,
        Err(_) => false,
    }
}

fn is_damage(alloc: Global, bytes: &[u8]) -> bool {
    matches!(decode(alloc, bytes), Err(RecFault::Damage)) && view(bytes).is_none()
}

/// Whether the bytes are a record, or damage, as they should.
fn is_judged(alloc: Global, bytes: &[u8], is_record: bool) -> bool {
    if is_record {
        is_its_encoding(alloc, bytes)
    } else {
        is_damage(alloc, bytes)
    }
}

#[test]
fn records_are_their_bytes_and_other_bytes_are_damage(rt: HostRuntime) -> Result<(), Fail> {
    for (name, pieces, edits, is_record) in RECORDS {
        let bytes = edited(rt.alloc(), pieces, edits)?;
        told(is_judged(rt.alloc(), &bytes, *is_record), name)?;
    }
    Ok(())
}

fn is_damaged_where_cut(alloc: Global, bytes: &[u8]) -> bool {
    for length in 0..bytes.len() {
        if !is_damage(alloc, &bytes[..length]) {
            return false;
        }
    }
    true
}

#[test]
fn a_record_without_its_last_bytes_is_damage(rt: HostRuntime) -> Result<(), Fail> {
    for (name, bytes) in [
        ("a leaf", LEAF),
        ("an alternative", ALT),
        ("the end of a leaf", LEAF_END),
        ("an end", END),
        ("an inner node", INNER),
    ] {
        told(is_damaged_where_cut(rt.alloc(), bytes), name)?;
    }
    Ok(())
}
