// Archives of which a version does not satisfy other keys.
use crate::archives::{plainly_under, under};
use archive_rekey::RekeyFault;
use given_archives::lists::{NUMBERED, TINY};
use given_archives::{file, specification};
use given_parts::told;
use key_rules::KeyFault;
use key_spec::{KeyPath, Spec};
use std::alloc::Global;
use std::test::Fail;

const EMPTY: &str = r#"["db"]"#;

const TWICE: &str = r#"["db",["e",{"id":2}],["e",{"id":2}]]"#;

const WITHOUT: &str = r#"["db",["e",{"id":1}],["e"]]"#;

const WITH_TEXT: &str = r#"["db","x"]"#;

/// The first version with a fault, and its fault: the place, why, and the key path.
struct Wanted(u32, &'static [u32], u8, Option<&'static str>);

/// Documents, and what is told of them under the keys of items.
const REFUSED: &[(&str, &[&str], Wanted)] = &[
    (
        "a label that comes twice",
        &[EMPTY, TWICE],
        Wanted(2, &[2], 5, None),
    ),
    (
        "a missing key value",
        &[WITHOUT],
        Wanted(1, &[2], 3, Some("@id")),
    ),
    (
        "the first of two",
        &[EMPTY, WITH_TEXT, TWICE],
        Wanted(2, &[1], 2, None),
    ),
    (
        "a run in the middle",
        &[EMPTY, TWICE, TWICE, TWICE, EMPTY],
        Wanted(2, &[2], 5, None),
    ),
    (
        "the last run",
        &[EMPTY, EMPTY, TWICE, TWICE],
        Wanted(3, &[2], 5, None),
    ),
    (
        "the first run",
        &[TWICE, TWICE, EMPTY],
        Wanted(1, &[2], 5, None),
    ),
    (
        "the first of two runs",
        &[EMPTY, EMPTY, WITH_TEXT, WITH_TEXT, TWICE, TWICE],
        Wanted(3, &[1], 2, None),
    ),
];

fn is_text(alloc: Global, path: &KeyPath, wanted: &str) -> bool {
    match path.text(alloc) {
        Ok(text) => text.as_str() == wanted,
        Err(_) => false,
    }
}

fn is_path(alloc: Global, path: &Option<KeyPath>, wanted: &Option<&str>) -> bool {
    match (path, wanted) {
        (None, None) => true,
        (Some(path), Some(wanted)) => is_text(alloc, path, wanted),
        _ => false,
    }
}

fn is_fault(alloc: Global, fault: &KeyFault, wanted: &Wanted) -> bool {
    fault.place.steps.as_slice() == wanted.1
        && fault.why == wanted.2
        && is_path(alloc, &fault.key_path, &wanted.3)
}

/// Whether this is what is told.
fn is_told(alloc: Global, found: &Option<Result<Vec<u8>, RekeyFault>>, wanted: &Wanted) -> bool {
    match found {
        Some(Err(RekeyFault::Key { version, fault })) => {
            *version == wanted.0 && is_fault(alloc, fault, wanted)
        }
        _ => false,
    }
}

/// Whether the documents are refused so, in runs and one version after another.
fn is_refused(alloc: Global, spec: &Spec, documents: &[&str], wanted: &Wanted) -> bool {
    match file(alloc, TINY, documents) {
        Some(old) => {
            is_told(alloc, &under(alloc, &old, spec), wanted)
                && is_told(alloc, &plainly_under(alloc, &old, spec), wanted)
        }
        None => false,
    }
}

fn is_refused_under(alloc: Global, keys: &str, documents: &[&str], wanted: &Wanted) -> bool {
    match specification(alloc, keys) {
        Some(spec) => is_refused(alloc, &spec, documents, wanted),
        None => false,
    }
}

#[test]
fn the_first_version_with_a_fault_is_told(rt: HostRuntime) -> Result<(), Fail> {
    for (name, documents, wanted) in REFUSED {
        told(
            is_refused_under(rt.alloc(), NUMBERED, documents, wanted),
            name,
        )?;
    }
    Ok(())
}
