// Archives whose versions satisfy other keys. What is expected was keyed by these from the first on.
use crate::archives::{file_under, plain_file_under};
use archive_file::decode_file;
use archive_stats::{Counts, stats};
use archive_tree::Archive;
use given_archives::lists::{NUMBERED, TINY};
use given_archives::{
    GREAT_SIZES, SIZES, Size, archive, documents_of, encoded, file, keys_of, lent, specification,
    version,
};
use given_parts::told;
use key_rules::read_path;
use key_spec::Spec;
use std::alloc::Global;
use std::test::Fail;
use xa_outside::SureFolder;

const NAMES: &str = "(/, (db, {}))
(/db, (e, {name}))
(/db/e, (tel, {.}))
";

/// The keys of items, and one more that no element here has.
pub(crate) const NUMBERED_TOO: &str = "(/, (db, {}))
(/db, (e, {@id}))
(/db/e, (tel, {.}))
";

const ONE_AND_TWO: &str = r#"["db",["e",{"id":1}],["e",{"id":2}]]"#;

const TWO: &str = r#"["db",["e",{"id":2}]]"#;

const TWO_AND_ONE: &str = r#"["db",["e",{"id":2}],["e",{"id":1}]]"#;

const ONE: &str = r#"["db",["e",{"id":1}]]"#;

const THREE: &str = r#"["db",["e",{"id":3}]]"#;

const EMPTY: &str = r#"["db"]"#;

const ADA: &str = r#"["db",["e",{"id":2},["name","Ada"],["tel","1"]]]"#;

const BOB_AND_ADA: &str =
    r#"["db",["e",{"id":1},["name","Bob"]],["e",{"id":2},["name","Ada"],["tel","2"],["tel","1"]]]"#;

/// So many items that their content is kept as its encoding, where they have no rule.
const SIXTEEN: &str =
    r#"["db",["e",{"id":1}],["e",{"id":2}],["e",{"id":3}],["e",{"id":4}],["e",{"id":5}],
["e",{"id":6}],["e",{"id":7}],["e",{"id":8}],["e",{"id":9}],["e",{"id":10}],
["e",{"id":11}],["e",{"id":12}],["e",{"id":13}],["e",{"id":14}],["e",{"id":15}],
["e",{"id":16}]]"#;

/// One more, with a value of each kind.
const SEVENTEEN: &str =
    r#"["db",["e",{"id":1}],["e",{"id":2}],["e",{"id":3}],["e",{"id":4}],["e",{"id":5}],
["e",{"id":6}],["e",{"id":7}],["e",{"id":8}],["e",{"id":9}],["e",{"id":10}],
["e",{"id":11}],["e",{"id":12}],["e",{"id":13}],["e",{"id":14}],["e",{"id":15}],
["e",{"id":16}],
["e",{"a":null,"b":true,"c":false,"d":-7,"f":"x","id":17},"head",["t","text"],
["u",{"k":"v"},["w"],["x","y","z"]]]]"#;

/// Keys, documents, and other keys that these satisfy too.
const REKEYED: &[(&str, &str, &[&str], &str)] = &[
    ("no versions", TINY, &[], NUMBERED),
    ("one version", NUMBERED, &[ONE_AND_TWO], TINY),
    (
        "versions that are all equal",
        NUMBERED,
        &[ONE_AND_TWO, ONE_AND_TWO, ONE_AND_TWO, ONE_AND_TWO],
        TINY,
    ),
    (
        "versions that all differ",
        TINY,
        &[ONE, TWO, THREE, ONE_AND_TWO, EMPTY],
        NUMBERED,
    ),
    (
        "element 1 in versions 1-3 and 5 of seven",
        NUMBERED,
        &[
            ONE_AND_TWO,
            ONE_AND_TWO,
            ONE_AND_TWO,
            TWO,
            ONE_AND_TWO,
            TWO,
            TWO,
        ],
        TINY,
    ),
    (
        "sets that begin where others end",
        NUMBERED,
        &[ONE, ONE, TWO, TWO, TWO, THREE],
        TINY,
    ),
    (
        "sets that end with the last version",
        NUMBERED,
        &[EMPTY, EMPTY, ONE, ONE_AND_TWO, ONE_AND_TWO],
        TINY,
    ),
    (
        "runs of contents that come back",
        TINY,
        &[TWO, TWO, ONE_AND_TWO, ONE_AND_TWO, TWO, TWO, ONE_AND_TWO],
        NUMBERED,
    ),
    (
        "a frontier that goes down",
        TINY,
        &[ONE_AND_TWO, TWO],
        NUMBERED,
    ),
    (
        "siblings that get an order",
        TINY,
        &[TWO_AND_ONE, TWO],
        NUMBERED,
    ),
    (
        "a content that comes back",
        TINY,
        &[TWO, ONE_AND_TWO, TWO],
        NUMBERED,
    ),
    (
        "keys that are dropped",
        NUMBERED,
        &[ADA, BOB_AND_ADA, ADA],
        TINY,
    ),
    (
        "other key values",
        NUMBERED,
        &[ADA, BOB_AND_ADA, ADA],
        NAMES,
    ),
    (
        "contents of many items",
        NUMBERED,
        &[SIXTEEN, SEVENTEEN, TWO, SIXTEEN, SEVENTEEN, TWO],
        TINY,
    ),
    (
        "contents of many items, first of few",
        TINY,
        &[TWO, SEVENTEEN, SIXTEEN, SEVENTEEN, TWO],
        TINY,
    ),
    (
        "contents of many items that are dropped",
        TINY,
        &[SIXTEEN, SEVENTEEN, SIXTEEN, TWO],
        NUMBERED,
    ),
    (
        "eight versions",
        NUMBERED,
        &[
            ADA,
            BOB_AND_ADA,
            ADA,
            ADA,
            BOB_AND_ADA,
            BOB_AND_ADA,
            ADA,
            BOB_AND_ADA,
        ],
        NAMES,
    ),
];

/// The file of the documents under the one and then under the other keys.
fn rekeyed(alloc: Global, keys: &str, documents: &[&str], others: &str) -> Option<Vec<u8>> {
    match file(alloc, keys, documents) {
        Some(old) => file_under(alloc, &old, others),
        None => None,
    }
}

pub(crate) fn is_same_file(alloc: Global, keys: &str, documents: &[&str], others: &str) -> bool {
    match (
        rekeyed(alloc, keys, documents, others),
        file(alloc, others, documents),
    ) {
        (Some(found), Some(wanted)) => found.as_slice() == wanted.as_slice(),
        _ => false,
    }
}

#[test]
fn the_file_is_that_of_the_documents_under_the_other_keys(rt: HostRuntime) -> Result<(), Fail> {
    for (name, keys, documents, others) in REKEYED {
        told(is_same_file(rt.alloc(), keys, documents, others), name)?;
    }
    Ok(())
}

/// Whether the file that is made one version after another is the same.
pub(crate) fn is_same_plainly(alloc: Global, keys: &str, documents: &[&str], others: &str) -> bool {
    let Some(old) = file(alloc, keys, documents) else {
        return false;
    };
    match (
        file_under(alloc, &old, others),
        plain_file_under(alloc, &old, others),
    ) {
        (Some(found), Some(wanted)) => found.as_slice() == wanted.as_slice(),
        _ => false,
    }
}

#[test]
fn both_forms_give_the_same_file(rt: HostRuntime) -> Result<(), Fail> {
    for (name, keys, documents, others) in REKEYED {
        told(is_same_plainly(rt.alloc(), keys, documents, others), name)?;
    }
    Ok(())
}

/// Whether documents of this size have the file of one element that has no key value.
fn is_large_rekeyed(alloc: Global, size: Size) -> bool {
    let Ok(documents) = documents_of(alloc, size) else {
        return false;
    };
    match lent(alloc, &documents) {
        Some(documents) => is_same_file(alloc, keys_of(size), &documents, TINY),
        None => false,
    }
}

fn are_large_rekeyed(alloc: Global, sizes: &[(&'static str, Size)]) -> Result<(), Fail> {
    for (name, size) in sizes {
        told(is_large_rekeyed(alloc, *size), name)?;
    }
    Ok(())
}

#[test]
fn large_archives_are_rekeyed(rt: HostRuntime) -> Result<(), Fail> {
    are_large_rekeyed(rt.alloc(), SIZES)
}

#[test]
fn great_archives_are_rekeyed(rt: HostRuntime) -> Result<(), Fail> {
    are_large_rekeyed(rt.alloc(), GREAT_SIZES)
}

/// The archive of the documents, the last of which stands for all versions up to the number, if it stands for them where no set
/// is stored.
fn stretched(alloc: Global, spec: &Spec, documents: &[&str], last: u32) -> Option<Archive> {
    match archive(alloc, spec, documents) {
        Some(archive) => {
            let (_, kids) = archive.into_parts();
            match Archive::of_parts(alloc, last, kids) {
                Ok(stretched) => stretched,
                Err(_) => None,
            }
        }
        None => None,
    }
}

fn stretched_file(alloc: Global, keys: &str, documents: &[&str], last: u32) -> Option<Vec<u8>> {
    match specification(alloc, keys) {
        Some(spec) => match stretched(alloc, &spec, documents, last) {
            Some(archive) => encoded(alloc, &spec, &archive),
            None => None,
        },
        None => None,
    }
}

/// Whether the file with so many versions is that of them under the other keys.
fn is_stretched(alloc: Global, keys: &str, documents: &[&str], others: &str, last: u32) -> bool {
    let Some(old) = stretched_file(alloc, keys, documents, last) else {
        return false;
    };
    match (
        file_under(alloc, &old, others),
        stretched_file(alloc, others, documents, last),
    ) {
        (Some(found), Some(wanted)) => found.as_slice() == wanted.as_slice(),
        _ => false,
    }
}

#[test]
fn as_many_versions_as_a_file_can_have_are_rekeyed(rt: HostRuntime) -> Result<(), Fail> {
    let alloc = rt.alloc();
    told(
        is_stretched(alloc, NUMBERED, &[ONE_AND_TWO], TINY, 999_999),
        "one run",
    )?;
    told(
        is_stretched(alloc, NUMBERED, &[ONE_AND_TWO, TWO], NUMBERED_TOO, 999_999),
        "one interval",
    )
}

fn are_counts(counts: &Counts) -> bool {
    counts.versions == 2
        && counts.inner == 1
        && counts.leaves == 2
        && counts.alternatives == 2
        && counts.stamps == 1
        && counts.largest == 46
        && counts.bytes == 411
}

fn is_counted(alloc: Global, file: &[u8]) -> bool {
    let mut folder = SureFolder::new(alloc);
    let Ok(copy) = Vec::from_slice(alloc, file) else {
        return false;
    };
    if folder.put("a.xar", copy).is_err() {
        return false;
    }
    match stats(alloc, &mut folder, "a.xar", file.len() as u64) {
        Ok(counts) => are_counts(&counts),
        Err(_) => false,
    }
}

/// Whether these are the versions that hold the element at the path.
fn is_history(
    alloc: Global,
    spec: &Spec,
    archive: &Archive,
    path: &str,
    pairs: &[(u32, u32)],
) -> bool {
    let Ok(labels) = read_path(alloc, spec, path) else {
        return false;
    };
    match archive.history(alloc, &labels) {
        Ok(set) => set.pairs() == pairs,
        Err(_) => false,
    }
}

fn are_histories(alloc: Global, file: &[u8]) -> bool {
    match decode_file(alloc, file) {
        Ok((spec, archive)) => {
            is_history(alloc, &spec, &archive, r#"["db",["e",1]]"#, &[(1, 1)])
                && is_history(alloc, &spec, &archive, r#"["db",["e",2]]"#, &[(1, 2)])
        }
        Err(_) => false,
    }
}

/// Whether the first version is that of the document whose elements are in order.
fn is_first_in_order(alloc: Global, file: &[u8]) -> bool {
    let Ok((spec, archive)) = decode_file(alloc, file) else {
        return false;
    };
    match (
        archive.version(alloc, 1),
        version(alloc, &spec, ONE_AND_TWO),
    ) {
        (Ok(Some(first)), Some(ordered)) => first.same(&ordered),
        _ => false,
    }
}

/// Whether the file under new keys, in which elements have an order, has these counts and histories.
fn is_right(alloc: Global) -> bool {
    match rekeyed(alloc, TINY, &[ONE_AND_TWO, TWO], NUMBERED) {
        Some(file) => is_counted(alloc, &file) && are_histories(alloc, &file),
        None => false,
    }
}

fn is_ordered(alloc: Global) -> bool {
    match rekeyed(alloc, TINY, &[TWO_AND_ONE], NUMBERED) {
        Some(file) => is_first_in_order(alloc, &file),
        None => false,
    }
}

fn is_given_back(alloc: Global) -> bool {
    match rekeyed(alloc, TINY, &[ONE_AND_TWO, TWO], NUMBERED) {
        Some(file) => match file_under(alloc, &file, TINY) {
            Some(back) => is_first_in_order(alloc, &back),
            None => false,
        },
        None => false,
    }
}

#[test]
fn elements_stand_under_their_new_keys(rt: HostRuntime) -> Result<(), Fail> {
    let alloc = rt.alloc();
    told(is_right(alloc), "counts and histories")?;
    told(is_ordered(alloc), "an order")?;
    told(is_given_back(alloc), "keys that are taken back")
}
