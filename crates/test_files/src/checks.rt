//! Files that are sound archives of so many versions, and others, which are damage.
use crate::counts::{failing_folder, folder, longer_file};
use crate::damaged_files::FILES;
use archive_check::{CheckFault, check};
use given_parts::bytes::{
    ALT, COMPANY, COMPANY_WITHOUT_VERSIONS, END, Edits, FLOORS, HEADER, LEAF, LEAF_END,
    NO_VERSIONS, Pieces, TAIL, TEXTS, TINY, TWO_ATTRIBUTES, edited,
};
use given_parts::told;
use std::alloc::Global;
use std::test::Fail;
use xa_outside::{Folder, SureFolder};

/// A file, and the number of its versions.
const SOUND: &[(&str, &[u8], u32)] = &[
    ("no versions", NO_VERSIONS, 0),
    ("no versions of a company", COMPANY_WITHOUT_VERSIONS, 0),
    ("one version", TINY, 1),
    ("two versions", FLOORS, 2),
    ("three versions", COMPANY, 3),
    ("three versions of a text", TEXTS, 3),
];

/// Pieces, edits in them, and whether they are a sound archive then.
const CHANGED: &[(&str, Pieces, Edits, bool)] = &[
    ("nothing", &[], &[], false),
    ("the length of a leaf", &[(TINY, 1)], &[(29, 255)], false),
    ("the offset of a child", &[(TINY, 1)], &[(97, 1)], false),
    ("the length of a child", &[(TINY, 1)], &[(98, 255)], false),
    ("the size of a left part", &[(TINY, 1)], &[(133, 20)], false),
    ("the tail", &[(TINY, 1)], &[(141, 255)], false),
    // Kinds of names, timestamps, values, scalars and items.
    ("a kind of name", &[(TINY, 1)], &[(37, 2)], false),
    ("a leaf's timestamp", &[(TINY, 1)], &[(48, 2)], false),
    ("a body's timestamp", &[(TINY, 1)], &[(58, 2)], false),
    ("a kind of value", &[(TINY, 1)], &[(59, 2)], false),
    ("a kind of scalar", &[(FLOORS, 1)], &[(316, 6)], false),
    ("a kind of item", &[(FLOORS, 1)], &[(405, 2)], false),
    // A negative number is -4 here, and the least is -2^63.
    ("-4", &[(FLOORS, 1)], &[(345, 4)], true),
    ("-2^63 - 1", &[(FLOORS, 1)], &[(345, 4), (346, 128)], false),
    // A stored set has numbers of versions, and is not empty.
    ("version 3 of 2", &[(FLOORS, 1)], &[(343, 3)], false),
    (
        "an empty stored set",
        &[
            (HEADER, 1),
            (LEAF, 1),
            (b"\x03\0\0\0\0\0\0\0\x0e\x01\0\0\0\0\x01\0\0\0\0\0\0\0\0", 1),
            (LEAF_END, 1),
            (END, 1),
            (TAIL, 1),
        ],
        &[(109, 53)],
        false,
    ),
    // Attributes ascend by name.
    ("a before b", WITH_ATTRIBUTES, &[(117, 61)], true),
    ("b twice", WITH_ATTRIBUTES, &[(117, 61), (68, b'b')], false),
    (
        "c before b",
        WITH_ATTRIBUTES,
        &[(117, 61), (68, b'c')],
        false,
    ),
    // A leaf has one body in each version.
    (
        "a body twice",
        &[
            (HEADER, 1),
            (LEAF, 1),
            (ALT, 2),
            (LEAF_END, 1),
            (END, 1),
            (TAIL, 1),
        ],
        &[(124, 68)],
        false,
    ),
];

/// The file of a version whose element has two attributes, but for the length of the leaf.
const WITH_ATTRIBUTES: Pieces = &[
    (HEADER, 1),
    (LEAF, 1),
    (TWO_ATTRIBUTES, 1),
    (LEAF_END, 1),
    (END, 1),
    (TAIL, 1),
];

fn checked<F: Folder>(alloc: Global, folder: &mut F, length: u64) -> Result<u32, CheckFault> {
    check(alloc, folder, "a.xar", length)
}

/// Whether the bytes are the file of so many versions.
pub(crate) fn has_versions(alloc: Global, file: &[u8], versions: u32) -> bool {
    match folder(alloc, file) {
        Ok(mut folder) => checked(alloc, &mut folder, file.len() as u64) == Ok(versions),
        Err(_) => false,
    }
}

#[test]
fn sound_archives_have_so_many_versions(rt: HostRuntime) -> Result<(), Fail> {
    for (name, file, versions) in SOUND {
        told(has_versions(rt.alloc(), file, *versions), name)?;
    }
    Ok(())
}

fn is_as_wanted(found: Result<u32, CheckFault>, wanted: bool) -> bool {
    match found {
        Ok(_) => wanted,
        Err(fault) => fault == CheckFault::Damage && !wanted,
    }
}

/// Whether the bytes are a sound archive, or damage, as they should.
fn is_judged(alloc: Global, file: &[u8], wanted: bool) -> bool {
    match folder(alloc, file) {
        Ok(mut folder) => is_as_wanted(checked(alloc, &mut folder, file.len() as u64), wanted),
        Err(_) => false,
    }
}

fn are_judged(alloc: Global, files: &[(&'static str, Pieces, Edits, bool)]) -> Result<(), Fail> {
    for (name, pieces, edits, wanted) in files {
        let bytes = edited(alloc, pieces, edits)?;
        told(is_judged(alloc, &bytes, *wanted), name)?;
    }
    Ok(())
}

#[test]
fn what_can_be_decoded_is_sound(rt: HostRuntime) -> Result<(), Fail> {
    are_judged(rt.alloc(), FILES)
}

#[test]
fn changed_files_are_damage(rt: HostRuntime) -> Result<(), Fail> {
    are_judged(rt.alloc(), CHANGED)
}

/// Whether the first 142 bytes of the file are the archive, no fewer and no more.
fn is_only_front(alloc: Global, folder: &mut SureFolder) -> bool {
    for length in 0..148u64 {
        if !is_as_wanted(checked(alloc, folder, length), length == 142) {
            return false;
        }
    }
    true
}

#[test]
fn only_the_first_bytes_of_a_file_are_judged(rt: HostRuntime) -> Result<(), Fail> {
    let file = longer_file(rt.alloc())?;
    let mut folder = folder(rt.alloc(), &file)?;
    assert!(rt; is_only_front(rt.alloc(), &mut folder));
    Ok(())
}

#[test]
fn a_file_that_is_not_there_is_damage(rt: HostRuntime) -> Result<(), Fail> {
    let mut folder = SureFolder::new(rt.alloc());
    assert!(rt; checked(rt.alloc(), &mut folder, 142) == Err(CheckFault::Damage));
    Ok(())
}

#[test]
fn a_read_that_fails_is_told(rt: HostRuntime) -> Result<(), Fail> {
    let mut folder = failing_folder(rt.alloc(), TINY)?;
    let first = checked(rt.alloc(), &mut folder, 142);
    let second = checked(rt.alloc(), &mut folder, 142);
    assert!(rt; first == Err(CheckFault::Folder) && second == Ok(1));
    Ok(())
}
