ghost use Rattle.archive_tree.specs.WellFormed.{AreNodesWellFormed};
ghost use Rattle.archive_tree.specs.View.{nodes_view};

use crate::known::{Known, SALARY, has_known, shapes};
use archive_tree::{ANode, Archive, effective};
use given_parts::documents::{is_read, read};
use given_parts::shapes::{
    DATABASE, EMPLOYEE, FINANCE, Named, Shape, archive, archive_of, label, labels, nodes, tree,
};
use given_parts::{all_told, told};
use jsonml_tree::{Content, Scalar, Tree};
use keyed_tree::{KeyVal, Keyed, Label};
use std::alloc::{AllocError, Global};
use std::test::Fail;
use version_set::VersionSet;

/// Nodes, a number of versions, and whether they are the parts of an archive.
const PARTS: &[(&str, u32, Known, bool)] = &[
    ("a salary that returns", 3, Known::Company, true),
    ("an employee who returns", 3, Known::Returning, true),
    ("exchanged alternatives", 3, Known::Exchanged, false),
    ("a version without a salary", 4, Known::Company, false),
    // Alternatives share no version and leave none out.
    ("two bodies", 5, Known::TwoBodies, true),
    ("a shared version", 5, Known::SharedVersion, false),
    ("a version left out", 5, Known::VersionLeftOut, false),
    ("the last version left out", 5, Known::LastLeftOut, false),
    ("one version too many", 5, Known::OneTooMany, false),
];

/// Whether the nodes are the parts of an archive of so many versions, or not, as they should.
fn are_nodes_judged(alloc: Global, n: u32, kids: Vec<ANode>, wanted: bool) -> bool
    requires { AreNodesWellFormed (nodes_view kids.items) }
{
    match Archive::of_parts(alloc, n, kids) {
        Ok(found) => found.is_some() == wanted,
        Err(_) => false,
    }
}

fn are_judged(alloc: Global, n: u32, known: Known, wanted: bool) -> bool {
    match nodes(alloc, shapes(known)) {
        Ok(kids) => are_nodes_judged(alloc, n, kids, wanted),
        Err(_) => false,
    }
}

#[test]
fn some_nodes_are_the_parts_of_an_archive(rt: HostRuntime) -> Result<(), Fail> {
    for (name, n, known, wanted) in PARTS {
        told(are_judged(rt.alloc(), *n, *known, *wanted), name)?;
    }
    Ok(())
}

/// An archive of three versions, a number, and the version of that number, if there is one.
const VERSIONS: &[(&str, Known, u32, Option<Known>)] = &[
    (
        "the first salary",
        Known::Company,
        1,
        Some(Known::CompanyOf90),
    ),
    (
        "the second salary",
        Known::Company,
        2,
        Some(Known::CompanyOf95),
    ),
    (
        "a salary that returns",
        Known::Company,
        3,
        Some(Known::CompanyOf90),
    ),
    ("version 0", Known::Company, 0, None),
    ("one version too many", Known::Company, 4, None),
    ("a return", Known::Returning, 3, Some(Known::CompanyOf90)),
    (
        "no employee",
        Known::Returning,
        2,
        Some(Known::CompanyOfNone),
    ),
];

fn has_no_version(alloc: Global, archive: &Archive, i: u32) -> bool {
    match archive.version(alloc, i) {
        Ok(found) => found.is_none(),
        Err(_) => false,
    }
}

/// Whether the archive has this version, or none.
fn has_or_not(alloc: Global, archive: &Archive, i: u32, wanted: Option<Known>) -> bool {
    match wanted {
        Some(known) => has_known(alloc, archive, i, known),
        None => has_no_version(alloc, archive, i),
    }
}

/// The same for the archive of these shapes.
fn is_version(alloc: Global, known: Known, i: u32, wanted: Option<Known>) -> bool {
    match archive(alloc, 3, shapes(known)) {
        Some(archive) => has_or_not(alloc, &archive, i, wanted),
        None => false,
    }
}

#[test]
fn archives_have_their_versions(rt: HostRuntime) -> Result<(), Fail> {
    for (name, known, i, wanted) in VERSIONS {
        told(is_version(rt.alloc(), *known, *i, *wanted), name)?;
    }
    Ok(())
}

/// An archive of three versions, a path, and the intervals of the versions that hold it.
const HISTORIES: &[(&str, Known, &[Named], &[(u32, u32)])] = &[
    (
        "a salary",
        Known::Company,
        &[DATABASE, FINANCE, EMPLOYEE, SALARY],
        &[(1, 3)],
    ),
    ("the root", Known::Company, &[], &[(1, 3)]),
    (
        "a department without a name",
        Known::Company,
        &[DATABASE, Named("dept", &[])],
        &[],
    ),
    (
        "the salary of an employee who returns",
        Known::Returning,
        &[DATABASE, FINANCE, EMPLOYEE, SALARY],
        &[(1, 1), (3, 3)],
    ),
];

fn are_versions(alloc: Global, archive: &Archive, path: &[Label], pairs: &[(u32, u32)]) -> bool {
    match archive.history(alloc, path) {
        Ok(set) => set.pairs() == pairs,
        Err(_) => false,
    }
}

fn is_history(alloc: Global, archive: &Archive, path: &[Named], pairs: &[(u32, u32)]) -> bool {
    match labels(alloc, path) {
        Ok(path) => are_versions(alloc, archive, &path, pairs),
        Err(_) => false,
    }
}

/// The same for the archive of these shapes.
fn holds(alloc: Global, known: Known, path: &[Named], pairs: &[(u32, u32)]) -> bool {
    match archive(alloc, 3, shapes(known)) {
        Some(archive) => is_history(alloc, &archive, path, pairs),
        None => false,
    }
}

#[test]
fn paths_have_their_histories(rt: HostRuntime) -> Result<(), Fail> {
    for (name, known, path, pairs) in HISTORIES {
        told(holds(rt.alloc(), *known, path, pairs), name)?;
    }
    Ok(())
}

/// The company with the salary 90K, and its employee.
const DOCUMENT: &[u8] =
    br#"["db",["dept",["emp",["fn","John"],["ln","Doe"],["sal","90K"],["tel","123-4567"]],["name","finance"]]]"#;

const PERSON: &[u8] = br#"["emp",["fn","John"],["ln","Doe"],["sal","90K"],["tel","123-4567"]]"#;

fn is_plain_again(alloc: Global, version: &Keyed) -> bool {
    if !version.is_element() || !version.is_proper() {
        return false;
    }
    match version.plain(alloc) {
        Ok(plain) => is_read(alloc, &plain, DOCUMENT),
        Err(_) => false,
    }
}

fn is_keyed(found: Result<Keyed, AllocError>, tree: &Keyed) -> bool {
    match found {
        Ok(found) => found.same(tree),
        Err(_) => false,
    }
}

fn are_plain_and_copy_right(alloc: Global, version: &Keyed) -> bool {
    is_plain_again(alloc, version) && is_keyed(version.copy(alloc), version)
}

fn are_version_and_copy_right(alloc: Global, shape: &Shape) -> bool {
    match tree(alloc, shape) {
        Ok(version) => are_plain_and_copy_right(alloc, &version),
        Err(_) => false,
    }
}

#[test]
fn a_version_is_plain_again(rt: HostRuntime) -> Result<(), Fail> {
    match shapes(Known::CompanyOf90) {
        [shape] => told(are_version_and_copy_right(rt.alloc(), shape), "the company"),
        _ => Err(Fail::new("no company")),
    }
}

fn is_copied(alloc: Global, tree: &Tree) -> bool {
    match tree.copy(alloc) {
        Ok(copy) => copy.same(tree),
        Err(_) => false,
    }
}

fn is_tree_copied(alloc: Global) -> bool {
    match read(alloc, PERSON) {
        Some(person) => is_copied(alloc, &person),
        None => false,
    }
}

fn is_same_content(alloc: Global, content: &Content) -> bool {
    match content.copy(alloc) {
        Ok(copy) => copy.same(content),
        Err(_) => false,
    }
}

fn is_content_copied(alloc: Global) -> bool {
    match Content::of_text(alloc, "90K") {
        Ok(salary) => is_same_content(alloc, &salary),
        Err(_) => false,
    }
}

fn is_scalar_copied(alloc: Global) -> bool {
    let whole = Scalar::Whole(90);
    match whole.copy(alloc) {
        Ok(copy) => copy.same(&whole),
        Err(_) => false,
    }
}

fn is_label_copied(alloc: Global, label: &Label) -> bool {
    match label.copy(alloc) {
        Ok(copy) => copy.same(label),
        Err(_) => false,
    }
}

fn is_key_copied(alloc: Global, key: &KeyVal) -> bool {
    match key.copy(alloc) {
        Ok(copy) => copy.same(key),
        Err(_) => false,
    }
}

fn are_keys_copied(alloc: Global, keys: &[KeyVal]) -> bool {
    for key in keys {
        if !is_key_copied(alloc, key) {
            return false;
        }
    }
    true
}

fn is_employee_copied(alloc: Global) -> bool {
    match label(alloc, &EMPLOYEE) {
        Ok(label) => is_label_copied(alloc, &label) && are_keys_copied(alloc, &label.keys),
        Err(_) => false,
    }
}

/// Whether the parts of an archive are one again, which has the second salary.
fn is_rebuilt(alloc: Global, archive: Archive) -> bool {
    let (n, kids) = archive.into_parts();
    match archive_of(alloc, n, kids) {
        Some(archive) => has_known(alloc, &archive, 2, Known::CompanyOf95),
        None => false,
    }
}

fn renewed(archive: Archive) -> Archive {
    let (n, kids) = archive.into_parts();
    Archive::new(n, kids)
}

fn is_company_rebuilt(alloc: Global) -> bool {
    match archive(alloc, 3, shapes(Known::Company)) {
        Some(archive) => is_rebuilt(alloc, renewed(archive)),
        None => false,
    }
}

fn has_nothing(alloc: Global) -> bool {
    let archive = Archive::empty(alloc);
    archive.n() == 0 && archive.kids().is_empty() && has_no_version(alloc, &archive, 1)
}

fn are_effective(nodes: &[ANode], parent: &VersionSet, pairs: &[(u32, u32)]) -> bool {
    for node in nodes {
        if !node.kids().is_empty() || effective(node.stamp(), parent).pairs() != pairs {
            return false;
        }
    }
    !nodes.is_empty()
}

/// Whether a node of this shape has these versions, where the parent has three.
fn is_effective(alloc: Global, known: Known, pairs: &[(u32, u32)]) -> bool {
    let parent = VersionSet::upto(alloc, 3);
    match nodes(alloc, shapes(known)) {
        Ok(nodes) => are_effective(&nodes, &parent, pairs),
        Err(_) => false,
    }
}

#[test]
fn parts_are_copied_taken_apart_and_inherited(rt: HostRuntime) -> Result<(), Fail> {
    let alloc = rt.alloc();
    all_told(&[
        ("a copy of a tree", is_tree_copied(alloc)),
        ("a copy of a content", is_content_copied(alloc)),
        ("a copy of a scalar", is_scalar_copied(alloc)),
        (
            "copies of a label and of its keys",
            is_employee_copied(alloc),
        ),
        ("parts that were taken apart", is_company_rebuilt(alloc)),
        ("the empty archive", has_nothing(alloc)),
        (
            "a set that is the parent's",
            is_effective(alloc, Known::Salaries, &[(1, 3)]),
        ),
        (
            "a set that is stored",
            is_effective(alloc, Known::Stored, &[(1, 1), (3, 3)]),
        ),
    ])
}
