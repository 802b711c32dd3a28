// Files that gain a version. What is expected was merged in memory and written at once.
use crate::archives::{add, append};
use given_archives::{
    GREAT_SIZES, Judge, NAME, NEVER, SIZES, file, folder, hold_large, hold_listed, is_drafted,
};
use given_parts::bytes::TINY;
use given_parts::told;
use std::alloc::Global;
use std::test::Fail;

// Whether the file becomes this one, once the document is added.
fn becomes(alloc: Global, old: &[u8], document: &str, wanted: &[u8]) -> bool {
    let Some(mut folder) = folder(alloc, &[(NAME, old)], NEVER) else {
        return false;
    };
    add(alloc, &mut folder, old.len(), document) == Ok(Ok(())) && folder.file(NAME) == Some(wanted)
}

// Whether the file of the documents before the last becomes that of all.
fn is_grown(alloc: Global, keys: &str, documents: &[&str]) -> bool {
    let Some((last, before)) = documents.split_last() else {
        return false;
    };
    match (file(alloc, keys, before), file(alloc, keys, documents)) {
        (Some(old), Some(wanted)) => becomes(alloc, &old, last, &wanted),
        _ => false,
    }
}

// Whether the documents can be added, one after another, each to the file of those before.
fn are_grown(alloc: Global, keys: &str, documents: &[&str]) -> bool {
    for last in 0..documents.len() {
        if !is_grown(alloc, keys, &documents[..last + 1]) {
            return false;
        }
    }
    true
}

/// The file grows by each document in turn, or by the last.
enum Grown {
    ByEach,
    ByLast,
}

impl Judge for Grown {
    fn holds(&self, alloc: Global, keys: &str, documents: &[&str]) -> bool {
        match self {
            Grown::ByEach => are_grown(alloc, keys, documents),
            Grown::ByLast => is_grown(alloc, keys, documents),
        }
    }
}

#[test]
fn files_gain_versions(rt: HostRuntime) -> Result<(), Fail> {
    hold_listed(&Grown::ByEach, rt.alloc())
}

#[test]
fn large_files_gain_a_version(rt: HostRuntime) -> Result<(), Fail> {
    hold_large(&Grown::ByLast, rt.alloc(), SIZES)
}

#[test]
fn great_files_gain_a_version(rt: HostRuntime) -> Result<(), Fail> {
    hold_large(&Grown::ByLast, rt.alloc(), GREAT_SIZES)
}

/// Two versions of an empty element `db`, which differ in two numbers from one: the number of versions in the header, and the last number in the END's tree.
const TWO: &[u8] = b"\
    XARC1\n\0\0\0\x0e(/, (db, {}))\n\0\0\0\x02\x02\0\0\0\0\0\0\0\x0c\x01\0\0\0\x02db\0\0\0\0\0\x03\
    \0\0\0\0\0\0\0\n\0\x01\0\0\0\0\0\0\0\0\x05\0\0\0\0\0\0\0\0\x04\0\0\0\0\0\0\00\0\0\0\x01\0\0\0\
    \0\0\0\0\0\0\0\0\0\0\0\01\0\0\0\0\0\0\0\0\0\0\0\x01\0\0\0\x01\0\0\0\x02\0\0\0\0\0\0\0\0\0\0\0\
    \0\0\0\00";

fn is_appended(alloc: Global) -> bool {
    let Some(mut folder) = folder(alloc, &[(NAME, TINY)], NEVER) else {
        return false;
    };
    append(alloc, &mut folder, TINY.len(), r#"["db"]"#) == Ok(Ok(()))
        && folder.file(NAME) == Some(TINY)
        && is_drafted(&mut folder, TWO)
}

#[test]
fn an_equal_version_changes_two_numbers(rt: HostRuntime) -> Result<(), Fail> {
    told(becomes(rt.alloc(), TINY, r#"["db"]"#, TWO), "added")?;
    told(is_appended(rt.alloc()), "appended, and committed later")
}
