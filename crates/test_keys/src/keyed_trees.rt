use crate::reading::{Named, keyed_of, label, labels};
use given_parts::documents::is_read;
use given_parts::{all_told, told};
use jsonml_tree::{Content, Scalar};
use keyed_tree::{KeyVal, Keyed, Label};
use std::alloc::{AllocError, Global};
use std::cmp::Ordering;
use std::test::Fail;

/// Labels in ascending order, by name and then by keys: an attribute comes before a tag.
const ASCENDING: &[Named] = &[
    ("@tel", &[]),
    ("@z", &[]),
    ("a", &[]),
    ("tel", &["112"]),
    ("tel", &["123"]),
];

fn ascend(first: &Label, second: &Label) -> bool {
    first.order(second) == Ordering::Less
        && second.order(first) == Ordering::Greater
        && first.same(first)
        && !first.same(second)
}

fn does_each_ascend(labels: &[Label]) -> bool {
    labels.windows(2).all(|pair| ascend(&pair[0], &pair[1]))
}

/// Whether each label comes before the next.
fn do_ascend(alloc: Global, path: &[Named]) -> bool {
    match labels(alloc, path) {
        Ok(labels) => does_each_ascend(&labels),
        Err(_) => false,
    }
}

fn is_row(alloc: Global, found: &[Label], wanted: &[Named]) -> bool {
    match labels(alloc, wanted) {
        Ok(wanted) => found == wanted.as_slice(),
        Err(_) => false,
    }
}

fn sorted(alloc: Global, path: &[Named]) -> Result<Vec<Label>, AllocError> {
    let mut sorted = labels(alloc, path)?;
    sorted.sort()?;
    Ok(sorted)
}

/// Whether these labels are those, once they are sorted.
fn is_sorted_as(alloc: Global, path: &[Named], wanted: &[Named]) -> bool {
    match sorted(alloc, path) {
        Ok(found) => is_row(alloc, &found, wanted),
        Err(_) => false,
    }
}

fn scalar_key(alloc: Global, text: &str) -> Result<KeyVal, AllocError> {
    let text = String::from_str(alloc, text)?;
    Ok(KeyVal::Scalar(Scalar::Text(text)))
}

fn content_key(alloc: Global, text: &str) -> Result<KeyVal, AllocError> {
    Ok(KeyVal::Content(Content::of_text(alloc, text)?))
}

fn is_key_copied(alloc: Global, key: &KeyVal) -> bool {
    match key.copy(alloc) {
        Ok(copy) => copy.same(key),
        Err(_) => false,
    }
}

/// Whether a key comes before a content.
fn is_before_content(alloc: Global, key: &KeyVal) -> bool {
    match content_key(alloc, "a") {
        Ok(content) => key.order(&content) == Ordering::Less && !key.same(&content),
        Err(_) => false,
    }
}

/// Whether a scalar as a key comes before a content, and is copied.
fn is_scalar_first(alloc: Global) -> bool {
    match scalar_key(alloc, "z") {
        Ok(scalar) => is_key_copied(alloc, &scalar) && is_before_content(alloc, &scalar),
        Err(_) => false,
    }
}

const SPEC: &[u8] = b"(/, (dept, {}))\n(/dept, (name, {}))\n(/dept, (tel, {.}))\n";

/// A department on floor 3 with its name, and two telephones by number.
const DEPARTMENT: &[u8] = br#"["dept",{"floor":3},["name","finance"],["tel","112"],["tel","123"]]"#;

fn department(alloc: Global) -> Option<Keyed> {
    keyed_of(alloc, SPEC, DEPARTMENT)
}

/// Labels, and whether they are those of a kid.
const KIDS: &[(&str, Named, bool)] = &[
    ("an attribute", ("@floor", &[]), true),
    ("an element", ("name", &[]), true),
    ("a number", ("tel", &["112"]), true),
    ("another number", ("tel", &["123"]), true),
    ("no number", ("tel", &[]), false),
    ("its own label", ("dept", &[]), false),
    ("no attribute", ("@name", &[]), false),
];

/// Whether `find` gives the kid of this label where it is to be there, and none where it is not.
#[tactic(auto, using(keyed_tree::proofs::KidsKeep::keeps))]
fn finds(tree: &Keyed, label: &Label, is_kid: bool) -> bool {
    if !tree.is_ordered() {
        return false;
    }
    match tree.find(label) {
        Some(kid) => is_kid && kid.label().same(label),
        None => !is_kid,
    }
}

fn is_found(alloc: Global, tree: &Keyed, named: &Named, is_kid: bool) -> bool {
    match label(alloc, named) {
        Ok(label) => finds(tree, &label, is_kid),
        Err(_) => false,
    }
}

fn are_found(
    alloc: Global,
    tree: &Keyed,
    rows: &[(&'static str, Named, bool)],
) -> Result<(), Fail> {
    for (name, named, is_kid) in rows {
        told(is_found(alloc, tree, named, *is_kid), name)?;
    }
    Ok(())
}

/// Paths from the department's own label down, and whether it holds them.
const HELD: &[(&str, &[Named], bool)] = &[
    ("no path", &[], true),
    ("its own label", &[("dept", &[])], true),
    ("a kid", &[("dept", &[]), ("name", &[])], true),
    ("a kid alone", &[("name", &[])], false),
    ("no kid", &[("dept", &[]), ("tel", &[])], false),
];

fn holds(tree: &Keyed, path: &[Label], wanted: bool) -> bool {
    tree.is_ordered() && tree.holds(path) == wanted
}

fn is_held(alloc: Global, tree: &Keyed, path: &[Named], wanted: bool) -> bool {
    match labels(alloc, path) {
        Ok(path) => holds(tree, &path, wanted),
        Err(_) => false,
    }
}

fn are_held(
    alloc: Global,
    tree: &Keyed,
    rows: &[(&'static str, &[Named], bool)],
) -> Result<(), Fail> {
    for (name, path, wanted) in rows {
        told(is_held(alloc, tree, path, *wanted), name)?;
    }
    Ok(())
}

fn are_found_and_held(alloc: Global, tree: &Keyed) -> Result<(), Fail> {
    are_found(alloc, tree, KIDS)?;
    are_held(alloc, tree, HELD)
}

#[test]
fn find_gives_each_kid_and_a_tree_holds_the_paths_from_its_own_label_down(
    rt: HostRuntime,
) -> Result<(), Fail> {
    match department(rt.alloc()) {
        Some(tree) => are_found_and_held(rt.alloc(), &tree),
        None => Err(Fail::new("no department")),
    }
}

fn is_label(found: Result<Label, AllocError>, label: &Label) -> bool {
    match found {
        Ok(found) => found.same(label),
        Err(_) => false,
    }
}

fn is_tree(found: Result<Keyed, AllocError>, tree: &Keyed) -> bool {
    match found {
        Ok(found) => found.same(tree),
        Err(_) => false,
    }
}

fn empty_department(alloc: Global) -> Result<Keyed, AllocError> {
    let label = label(alloc, &("dept", &[]))?;
    let kids = Vec::new(alloc);
    Ok(Keyed::Inner { label, kids })
}

/// Whether a tree is another than the one that a department without kids has.
fn is_not_empty(alloc: Global, tree: &Keyed) -> bool {
    match empty_department(alloc) {
        Ok(empty) => !tree.same(&empty),
        Err(_) => false,
    }
}

/// Whether the tree and its label are copied, and it is not one without kids.
fn is_copied(alloc: Global, tree: &Keyed) -> bool {
    is_tree(tree.copy(alloc), tree)
        && is_label(tree.label().copy(alloc), tree.label())
        && is_not_empty(alloc, tree)
}

/// Whether the tree spells this document.
pub(crate) fn is_spelled(alloc: Global, tree: &Keyed, text: &[u8]) -> bool {
    if !tree.is_element() || !tree.is_proper() {
        return false;
    }
    match tree.plain(alloc) {
        Ok(spelled) => is_read(alloc, &spelled, text),
        Err(_) => false,
    }
}

fn is_department_right(alloc: Global) -> bool {
    match department(alloc) {
        Some(dept) => is_copied(alloc, &dept) && is_spelled(alloc, &dept, DEPARTMENT),
        None => false,
    }
}

const MIXED: &[Named] = &[("tel", &["123"]), ("tel", &["112"]), ("@tel", &[])];

const SORTED: &[Named] = &[("@tel", &[]), ("tel", &["112"]), ("tel", &["123"])];

#[test]
fn labels_are_sorted_and_trees_copied(rt: HostRuntime) -> Result<(), Fail> {
    let alloc = rt.alloc();
    all_told(&[
        ("labels in ascending order", do_ascend(alloc, ASCENDING)),
        ("labels that are sorted", is_sorted_as(alloc, MIXED, SORTED)),
        (
            "a scalar key comes before a content",
            is_scalar_first(alloc),
        ),
        (
            "a copy, and attributes before items",
            is_department_right(alloc),
        ),
    ])
}
