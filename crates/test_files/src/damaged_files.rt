//! Bytes that are an archive's file, or none: damage is answered as damage.
use archive_file::{FileFault, decode_file, encode_file};
use given_parts::bytes::{
    ALT, COMPANY, END, Edits, HEADER, LEAF, LEAF_END, NO_VERSIONS, Pieces, STORED_SET, TAIL, TINY,
    edit, edited,
};
use given_parts::{all_told, told};
use std::alloc::{AllocError, Global};
use std::test::Fail;

/// An inner node `db`.
const OPENED: &[u8] = b"\x01\0\0\0\0\0\0\0\x0c\x01\0\0\0\x02db\0\0\0\0\0";

/// Pieces, edits in them, and whether they are a file then.
pub(crate) const FILES: &[(&str, Pieces, Edits, bool)] = &[
    ("one version", &[(TINY, 1)], &[], true),
    ("no versions", &[(NO_VERSIONS, 1)], &[], true),
    ("three versions of a company", &[(COMPANY, 1)], &[], true),
    (
        "a leaf with one alternative",
        &[
            (HEADER, 1),
            (LEAF, 1),
            (ALT, 1),
            (LEAF_END, 1),
            (END, 1),
            (TAIL, 1),
        ],
        &[],
        true,
    ),
    (
        "999,999 versions",
        &[(TINY, 1)],
        &[
            (25, 15),
            (26, 66),
            (27, 63),
            (123, 15),
            (124, 66),
            (125, 63),
        ],
        true,
    ),
    (
        "1,000,000 versions",
        &[(TINY, 1)],
        &[
            (25, 15),
            (26, 66),
            (27, 64),
            (123, 15),
            (124, 66),
            (125, 64),
        ],
        false,
    ),
    (
        "a key value that its child lacks",
        &[(COMPANY, 1)],
        &[(939, b'F')],
        false,
    ),
    (
        "a stored set that is the parent's",
        &[(STORED_SET, 1)],
        &[],
        false,
    ),
    (
        "another offset in the directory",
        &[(TINY, 1)],
        &[(97, 1)],
        false,
    ),
    (
        "another length in the directory",
        &[(TINY, 1)],
        &[(105, 50)],
        false,
    ),
    (
        "another directory in the directory",
        &[(TINY, 1)],
        &[(113, 1)],
        false,
    ),
    (
        "another number in the tail",
        &[(TINY, 1)],
        &[(141, 49)],
        false,
    ),
    (
        "a byte behind the tail",
        &[(TINY, 1), (b"\0", 1)],
        &[],
        false,
    ),
    // A row has nodes alone, and an end.
    (
        "an alternative in a row",
        &[(HEADER, 1), (ALT, 1), (END, 1), (TAIL, 1)],
        &[],
        false,
    ),
    (
        "the end of a leaf in a row",
        &[(HEADER, 1), (LEAF_END, 1), (END, 1), (TAIL, 1)],
        &[],
        false,
    ),
    (
        "an alternative behind a leaf",
        &[
            (HEADER, 1),
            (LEAF, 1),
            (ALT, 1),
            (LEAF_END, 1),
            (ALT, 1),
            (END, 1),
            (TAIL, 1),
        ],
        &[],
        false,
    ),
    (
        "kind 0 in a row",
        &[(HEADER, 1), (b"\0", 9), (END, 1), (TAIL, 1)],
        &[],
        false,
    ),
    (
        "kind 6 in a row",
        &[
            (HEADER, 1),
            (b"\x06\0\0\0\0\0\0\0\0", 1),
            (END, 1),
            (TAIL, 1),
        ],
        &[],
        false,
    ),
    (
        "a row without an end",
        &[(HEADER, 1), (LEAF, 1), (ALT, 1), (LEAF_END, 1), (TAIL, 1)],
        &[],
        false,
    ),
    // A leaf has alternatives alone, at least one, and its end.
    (
        "a leaf without alternatives",
        &[(HEADER, 1), (LEAF, 1), (LEAF_END, 1), (END, 1), (TAIL, 1)],
        &[],
        false,
    ),
    (
        "an inner node in a leaf",
        &[
            (HEADER, 1),
            (LEAF, 1),
            (ALT, 1),
            (OPENED, 1),
            (LEAF_END, 1),
            (END, 1),
            (TAIL, 1),
        ],
        &[],
        false,
    ),
    (
        "a leaf in a leaf",
        &[
            (HEADER, 1),
            (LEAF, 1),
            (ALT, 1),
            (LEAF, 1),
            (LEAF_END, 1),
            (END, 1),
            (TAIL, 1),
        ],
        &[],
        false,
    ),
    (
        "an end in a leaf",
        &[
            (HEADER, 1),
            (LEAF, 1),
            (ALT, 1),
            (END, 1),
            (LEAF_END, 1),
            (END, 1),
            (TAIL, 1),
        ],
        &[],
        false,
    ),
    (
        "the end of a leaf with a body",
        &[
            (HEADER, 1),
            (LEAF, 1),
            (ALT, 1),
            (b"\x05\0\0\0\0\0\0\0\x01\0", 1),
            (END, 1),
            (TAIL, 1),
        ],
        &[],
        false,
    ),
    // The directory is that of the row.
    (
        "another length of the left part",
        &[(TINY, 1)],
        &[(133, 1)],
        false,
    ),
    (
        "an end without the leaf",
        &[
            (HEADER, 1),
            (LEAF, 1),
            (ALT, 1),
            (LEAF_END, 1),
            (b"\x04\0\0\0\0\0\0\0\x04\0\0\0\0", 1),
            (b"\0\0\0\0\0\0\0\x04", 1),
        ],
        &[],
        false,
    ),
    // A header has its fields.
    ("another magic", &[(TINY, 1)], &[(4, b'2')], false),
    (
        "a text of 4,294,967,295 bytes",
        &[(TINY, 1)],
        &[(6, 255), (7, 255), (8, 255), (9, 255)],
        false,
    ),
    (
        "1,000,000 versions in the header",
        &[(TINY, 1)],
        &[(25, 15), (26, 66), (27, 64)],
        false,
    ),
    // The specification is canonical: these specify the same, but are not how that is written.
    (
        "a blank line behind the specification",
        &[
            (b"XARC1\n\0\0\0\x0f(/, (db, {}))\n\n\0\0\0\x01", 1),
            (LEAF, 1),
            (ALT, 1),
            (LEAF_END, 1),
            (END, 1),
            (TAIL, 1),
        ],
        &[],
        false,
    ),
    (
        "no line feed behind the specification",
        &[
            (b"XARC1\n\0\0\0\x0d(/, (db, {}))\0\0\0\x01", 1),
            (LEAF, 1),
            (ALT, 1),
            (LEAF_END, 1),
            (END, 1),
            (TAIL, 1),
        ],
        &[],
        false,
    ),
    (
        "no specification",
        &[
            (b"XARC1\n\0\0\0\0\0\0\0\x01", 1),
            (LEAF, 1),
            (ALT, 1),
            (LEAF_END, 1),
            (END, 1),
            (TAIL, 1),
        ],
        &[],
        false,
    ),
    // No more than 120 inner nodes are open, and each may be open where the file ends.
    (
        "121 open inner nodes",
        &[(HEADER, 1), (OPENED, 121)],
        &[],
        false,
    ),
    (
        "2,121 open inner nodes",
        &[(HEADER, 1), (OPENED, 2_121)],
        &[],
        false,
    ),
    // A count that the bytes do not have is damage, and takes no memory for what it counts.
    (
        "the number of key values",
        &[(TINY, 1)],
        &[(44, 255), (45, 255), (46, 255), (47, 255)],
        false,
    ),
    (
        "the number of attributes",
        &[(TINY, 1)],
        &[(60, 255), (61, 255), (62, 255), (63, 255)],
        false,
    ),
    (
        "the number of items",
        &[(TINY, 1)],
        &[(64, 255), (65, 255), (66, 255), (67, 255)],
        false,
    ),
    (
        "the number of children",
        &[(TINY, 1)],
        &[(86, 255), (87, 255), (88, 255), (89, 255)],
        false,
    ),
];

fn is_damage(alloc: Global, bytes: &[u8]) -> bool {
    matches!(decode_file(alloc, bytes), Err(FileFault::Damage))
}

/// The file of the archive of which the bytes are the file.
pub(crate) fn written_again(alloc: Global, bytes: &[u8]) -> Option<Vec<u8>> {
    match decode_file(alloc, bytes) {
        Ok((spec, archive)) => match encode_file(alloc, &spec, &archive) {
            Ok(file) => Some(file),
            Err(_) => None,
        },
        Err(_) => None,
    }
}

fn is_file(alloc: Global, bytes: &[u8]) -> bool {
    match written_again(alloc, bytes) {
        Some(file) => file.as_slice() == bytes,
        None => false,
    }
}

/// Whether the bytes are a file, or damage, as they should.
fn is_judged(alloc: Global, bytes: &[u8], wanted: bool) -> bool {
    if wanted {
        is_file(alloc, bytes)
    } else {
        is_damage(alloc, bytes)
    }
}

#[test]
fn files_are_read_and_written_and_other_bytes_are_damage(rt: HostRuntime) -> Result<(), Fail> {
    for (name, pieces, edits, wanted) in FILES {
        let bytes = edited(rt.alloc(), pieces, edits)?;
        told(is_judged(rt.alloc(), &bytes, *wanted), name)?;
    }
    Ok(())
}

fn is_each_prefix_damage(alloc: Global, bytes: &[u8]) -> bool {
    for length in 0..bytes.len() {
        if !is_damage(alloc, &bytes[..length]) {
            return false;
        }
    }
    true
}

#[test]
fn known_files_are_whole(rt: HostRuntime) -> Result<(), Fail> {
    let are_lengths = TINY.len() == 142 && NO_VERSIONS.len() == 49 && COMPANY.len() == 1198;
    all_told(&[
        ("lengths", are_lengths),
        ("a proper prefix", is_each_prefix_damage(rt.alloc(), TINY)),
    ])
}

/// Parts of the company's file in another order, each from an offset up to another, and edits in what they make.
const EXCHANGED: &[(&str, &[(usize, usize)], Edits)] = &[
    (
        "alternatives out of order",
        &[(0, 463), (510, 549), (463, 510), (549, 1198)],
        &[],
    ),
    // The leaves `fn` and `ln` change places, and so do their entries.
    (
        "kids out of order",
        &[(0, 326), (384, 441), (326, 384), (441, 1198)],
        &[(671, 57), (687, 57), (695, 58)],
    ),
];

fn exchanged(alloc: Global, ranges: &[(usize, usize)]) -> Result<Vec<u8>, AllocError> {
    let mut bytes = Vec::new(alloc);
    for (from, to) in ranges {
        bytes.extend_from_slice(COMPANY.get(*from..*to).unwrap_or(&[]))?;
    }
    Ok(bytes)
}

/// Whether the parts have the length of the file, and are damage with these edits.
fn is_exchange_damage(alloc: Global, bytes: &mut [u8], edits: Edits) -> bool {
    edit(bytes, edits);
    bytes.len() == 1198 && is_damage(alloc, bytes)
}

#[test]
fn parts_out_of_order_are_damage(rt: HostRuntime) -> Result<(), Fail> {
    for (name, ranges, edits) in EXCHANGED {
        let mut bytes = exchanged(rt.alloc(), ranges)?;
        told(is_exchange_damage(rt.alloc(), &mut bytes, edits), name)?;
    }
    Ok(())
}
