ghost use Rattle.jsonml_tree.specs.Fits.{IsElement, ItemsFit};
ghost use Rattle.jsonml_tree.specs.LentView.{lent_tree_view};
ghost use Rattle.jsonml_tree.specs.View.{tree_view};

use crate::reading::{COMPANY, NESTED, Named, label, labels};
use given_outside::texts;
use given_parts::documents::{lend, parse, read};
use given_parts::told;
use jsonml_tree::{LentContent, LentTree, Tree};
use key_annotate::{AnnotateFault, keyed};
use key_rules::{
    KeyFault, LabelFault, PathFault, first_fault, first_lent_fault, label_of, lent_label, read_path,
};
use key_spec::{KeyPath, Spec};
use keyed_tree::{Keyed, Label};
use std::alloc::{AllocError, Global};
use std::cmp::Ordering;
use std::test::Fail;

/// The place of a fault, why it is one, and the tag that is the key path, if one is to stand there.
struct Wanted(&'static [u32], u8, Option<&'static str>);

/// How a document is asked for its first fault.
#[derive(Clone, Copy)]
enum Way {
    Read,
    /// Its texts are lent.
    Lent,
    /// It is to have a keyed tree.
    Keyed,
}

/// A way, a specification, a document, and its first fault.
const FAULTS: &[(&str, Way, &[u8], &[u8], Option<Wanted>)] = &[
    (
        "a document that satisfies its keys has no fault",
        Way::Read,
        COMPANY,
        br#"["db","\n ",["dept",["emp",["fn","John"],["ln","Doe"]],["emp",["fn","Jane"],["ln","Doe"]],["name","finance"]]]"#,
        None,
    ),
    (
        "a repeated employee",
        Way::Read,
        COMPANY,
        br#"["db",["dept",["name","finance"],["emp",["fn","John"],["ln","Doe"]],["emp",["fn","Jane"],["ln","Roe"]],["emp",["fn","John"],["ln","Doe"],["sal","1K"]]]]"#,
        Some(Wanted(&[1, 4], 5, None)),
    ),
    (
        "a last name that is missing",
        Way::Read,
        COMPANY,
        br#"["db",["dept",["name","finance"],["emp",["fn","John"]]]]"#,
        Some(Wanted(&[1, 2], 3, Some("ln"))),
    ),
    (
        "a last name that stands twice",
        Way::Read,
        COMPANY,
        br#"["db",["dept",["name","finance"],["emp",["fn","John"],["ln","Doe"],["ln","Poe"]]]]"#,
        Some(Wanted(&[1, 2], 4, Some("ln"))),
    ),
    (
        "a string above the frontier",
        Way::Read,
        COMPANY,
        br#"["db",["dept",["name","finance"],"x"]]"#,
        Some(Wanted(&[1, 2], 2, None)),
    ),
    (
        "an element without a rule",
        Way::Read,
        COMPANY,
        br#"["db",["dept",["name","finance"],["boss"]]]"#,
        Some(Wanted(&[1, 2], 1, None)),
    ),
    (
        "a root without a rule",
        Way::Read,
        COMPANY,
        br#"["shop"]"#,
        Some(Wanted(&[], 1, None)),
    ),
    (
        "the third key path stands beside its fault",
        Way::Read,
        b"(/, (db, {}))\n(/db, (p, {x, y, z}))\n",
        br#"["db",["p",["x","1"],["y","2"]]]"#,
        Some(Wanted(&[1], 3, Some("z"))),
    ),
    (
        "a text and a row that begins with it are two keys",
        Way::Read,
        b"(/, (db, {}))\n(/db, (p, {k}))\n",
        br#"["db",["p",["k","a"]],["p",["k","a",["b"]]]]"#,
        None,
    ),
    (
        "a text alone above the frontier",
        Way::Lent,
        NESTED,
        br#"["a","x"]"#,
        Some(Wanted(&[1], 2, None)),
    ),
    (
        "a blank text alone above the frontier is no fault",
        Way::Lent,
        NESTED,
        br#"["a"," "]"#,
        None,
    ),
    (
        "a root without a rule comes before its text",
        Way::Lent,
        NESTED,
        br#"["b",""]"#,
        Some(Wanted(&[], 1, None)),
    ),
    (
        "a repeated department has no keyed tree",
        Way::Keyed,
        COMPANY,
        br#"["db",["dept",["name","finance"]],["dept",["name","finance"]]]"#,
        Some(Wanted(&[2], 5, None)),
    ),
];

fn is_tag(path: &Option<KeyPath>, wanted: &Option<&str>) -> bool {
    match (path, wanted) {
        (None, None) => true,
        (Some(KeyPath { tags, attr }), Some(tag)) => match tags.as_slice() {
            [only] => attr.is_none() && only.as_str() == *tag,
            _ => false,
        },
        _ => false,
    }
}

fn is_this(fault: &KeyFault, wanted: &Wanted) -> bool {
    let Wanted(steps, why, tag) = wanted;
    fault.place.steps.as_slice() == *steps && fault.why == *why && is_tag(&fault.key_path, tag)
}

fn is_wanted(found: &Result<Option<KeyFault>, AllocError>, wanted: &Option<Wanted>) -> bool {
    match (found, wanted) {
        (Ok(Some(fault)), Some(wanted)) => is_this(fault, wanted),
        (Ok(None), None) => true,
        _ => false,
    }
}

fn is_first(alloc: Global, spec: &Spec, doc: &Tree, wanted: &Option<Wanted>) -> bool
    requires element { IsElement (tree_view doc.now) }
    requires items_fit { ItemsFit (tree_view doc.now) }
{
    let found = first_fault(alloc, spec, doc);
    is_wanted(&found, wanted)
}

fn is_fault_by(alloc: Global, spec: &Spec, doc: &[u8], wanted: &Option<Wanted>) -> bool {
    match read(alloc, doc) {
        Some(doc) => is_first(alloc, spec, &doc, wanted),
        None => false,
    }
}

fn is_first_in_lent(alloc: Global, spec: &Spec, doc: &LentTree<'_>, wanted: &Option<Wanted>) -> bool
    requires element { IsElement (lent_tree_view doc.now) }
    requires items_fit { ItemsFit (lent_tree_view doc.now) }
{
    let found = first_lent_fault(alloc, spec, doc);
    is_wanted(&found, wanted)
}

fn is_fault_in_lent_by(alloc: Global, spec: &Spec, doc: &[u8], wanted: &Option<Wanted>) -> bool {
    match lend(alloc, doc) {
        Some(doc) => is_first_in_lent(alloc, spec, &doc, wanted),
        None => false,
    }
}

/// Whether there is this fault in place of a keyed tree.
fn is_refusal(found: &Result<Keyed, AnnotateFault>, wanted: &Option<Wanted>) -> bool {
    match (found, wanted) {
        (Err(AnnotateFault::Key(fault)), Some(wanted)) => is_this(fault, wanted),
        _ => false,
    }
}

fn is_refused_by(alloc: Global, spec: &Spec, doc: &[u8], wanted: &Option<Wanted>) -> bool {
    match read(alloc, doc) {
        Some(doc) => is_refusal(&keyed(alloc, spec, &doc), wanted),
        None => false,
    }
}

/// What is asked of a specification.
#[derive(Clone, Copy)]
enum Asked<'a> {
    Fault(Way, &'a [u8], &'a Option<Wanted>),
    /// The label of an element below these tags.
    Label(&'a [&'a str], &'a [u8], &'a Result<Named, Missing>),
    Path(&'a str, &'a Result<&'a [Named], u32>),
    /// The order of two lent labels.
    Order,
}

fn answers(alloc: Global, spec: &Spec, asked: Asked<'_>) -> bool {
    match asked {
        Asked::Fault(Way::Read, doc, wanted) => is_fault_by(alloc, spec, doc, wanted),
        Asked::Fault(Way::Lent, doc, wanted) => is_fault_in_lent_by(alloc, spec, doc, wanted),
        Asked::Fault(Way::Keyed, doc, wanted) => is_refused_by(alloc, spec, doc, wanted),
        Asked::Label(context, doc, wanted) => is_labelled_by(alloc, spec, context, doc, wanted),
        Asked::Path(path, wanted) => is_path(alloc, &read_path(alloc, spec, path), wanted),
        Asked::Order => are_in_order(alloc, spec),
    }
}

fn is_so(alloc: Global, spec: &[u8], asked: Asked<'_>) -> bool {
    match parse(alloc, spec) {
        Some(spec) => answers(alloc, &spec, asked),
        None => false,
    }
}

#[test]
fn the_first_fault_is_told(rt: HostRuntime) -> Result<(), Fail> {
    for (name, way, spec, doc, wanted) in FAULTS {
        told(
            is_so(rt.alloc(), spec, Asked::Fault(*way, doc, wanted)),
            name,
        )?;
    }
    Ok(())
}

/// Why an element has no label: 0 where no rule is for it, and else the number of the key path that it misses.
type Missing = u32;

/// The path of an element's parent, the element, and its label.
const LABELS: &[(&str, &[&str], &[u8], Result<Named, Missing>)] = &[
    (
        "an employee without a last name misses the second key path",
        &["db", "dept"],
        br#"["emp",["fn","John"]]"#,
        Err(2),
    ),
    (
        "an employee is labelled by first and last name",
        &["db", "dept"],
        br#"["emp",["ln","Doe"],["sal","90K"],["fn","John"]]"#,
        Ok(("emp", &["John", "Doe"])),
    ),
    (
        "an employee at the root has no rule",
        &[],
        br#"["emp",["ln","Doe"],["sal","90K"],["fn","John"]]"#,
        Err(0),
    ),
];

fn is_named(alloc: Global, found: &Label, named: &Named) -> bool {
    match label(alloc, named) {
        Ok(wanted) => found.same(&wanted),
        Err(_) => false,
    }
}

/// Whether this is the label of an element, or why it has none.
fn is_label(
    alloc: Global,
    found: &Result<Label, LabelFault>,
    wanted: &Result<Named, Missing>,
) -> bool {
    match (found, wanted) {
        (Ok(found), Ok(named)) => is_named(alloc, found, named),
        (Err(fault), Err(0)) => *fault == LabelFault::Unkeyed,
        (Err(fault), Err(path)) => *fault == LabelFault::Missing { path: *path },
        _ => false,
    }
}

fn has_label(
    alloc: Global,
    spec: &Spec,
    context: &[String],
    doc: &Tree,
    wanted: &Result<Named, Missing>,
) -> bool
    requires { IsElement (tree_view doc.now) }
{
    let found = label_of(alloc, spec, context, doc);
    is_label(alloc, &found, wanted)
}

fn is_labelled_in(
    alloc: Global,
    spec: &Spec,
    context: &[String],
    doc: &[u8],
    wanted: &Result<Named, Missing>,
) -> bool {
    match read(alloc, doc) {
        Some(doc) => has_label(alloc, spec, context, &doc, wanted),
        None => false,
    }
}

fn is_labelled_by(
    alloc: Global,
    spec: &Spec,
    context: &[&str],
    doc: &[u8],
    wanted: &Result<Named, Missing>,
) -> bool {
    match texts(alloc, context) {
        Ok(context) => is_labelled_in(alloc, spec, &context, doc, wanted),
        Err(_) => false,
    }
}

#[test]
fn elements_have_their_labels(rt: HostRuntime) -> Result<(), Fail> {
    for (name, context, doc, wanted) in LABELS {
        told(
            is_so(rt.alloc(), COMPANY, Asked::Label(context, doc, wanted)),
            name,
        )?;
    }
    Ok(())
}

const NUMBERED: &[u8] = b"(/, (db, {}))\n(/db, (e, {@id}))\n";

/// A path, and its labels or its first bad step.
const PATHS: &[(&[u8], &str, Result<&[Named], u32>)] = &[
    (
        COMPANY,
        r#"["db",["dept","finance"]]"#,
        Ok(&[("db", &[]), ("dept", &["finance"])]),
    ),
    // A step without key values may be an array, and so may a content.
    (
        COMPANY,
        r#"[["db"],["dept",["finance"]]]"#,
        Ok(&[("db", &[]), ("dept", &["finance"])]),
    ),
    (COMPANY, "[]", Ok(&[])),
    (COMPANY, " [ ] ", Ok(&[])),
    // An attribute is the last step.
    (COMPANY, r#"["db","@x"]"#, Ok(&[("db", &[]), ("@x", &[])])),
    (COMPANY, r#"["db","@x","@y"]"#, Err(3)),
    (COMPANY, r#"["@x"]"#, Err(1)),
    (COMPANY, "x", Err(0)),
    (COMPANY, r#""db""#, Err(0)),
    (COMPANY, r#"["db","dept"]"#, Err(2)),
    (COMPANY, r#"["db",["dept","finance"],["name","x"]]"#, Err(3)),
    (COMPANY, r#"["db",["dept","finance"],"name","y"]"#, Err(4)),
    // A path may have six steps and more.
    (
        NESTED,
        r#"["a","b","c","d","e","f"]"#,
        Ok(&[
            ("a", &[]),
            ("b", &[]),
            ("c", &[]),
            ("d", &[]),
            ("e", &[]),
            ("f", &[]),
        ]),
    ),
    (
        NESTED,
        r#"["a","b","c","d","e","f","g"]"#,
        Ok(&[
            ("a", &[]),
            ("b", &[]),
            ("c", &[]),
            ("d", &[]),
            ("e", &[]),
            ("f", &[]),
            ("g", &[]),
        ]),
    ),
    (NESTED, r#"["a","b","c","d","e","f","g","h"]"#, Err(8)),
    // A key value is a content or, of an attribute, a scalar.
    (COMPANY, r#"["db",["dept",[5]]]"#, Err(2)),
    (COMPANY, r#"["db",["dept",[[]]]]"#, Err(2)),
    (COMPANY, r#"["db",["dept",["x",{}]]]"#, Err(2)),
    (COMPANY, r#"["db",["dept",1.5]]"#, Err(2)),
    (NUMBERED, r#"["db",["e",[1]]]"#, Err(2)),
    (NUMBERED, r#"["db",["e",1.5]]"#, Err(2)),
];

fn are_labels(alloc: Global, found: &[Label], named: &[Named]) -> bool {
    match labels(alloc, named) {
        Ok(wanted) => found == wanted.as_slice(),
        Err(_) => false,
    }
}

/// Whether these are the labels of a path, or why it is none.
fn is_path(
    alloc: Global,
    found: &Result<Vec<Label>, PathFault>,
    wanted: &Result<&[Named], u32>,
) -> bool {
    match (found, wanted) {
        (Ok(found), Ok(named)) => are_labels(alloc, found, named),
        (Err(fault), Err(step)) => *fault == PathFault::Bad { step: *step },
        _ => false,
    }
}

#[test]
fn paths_have_their_labels_or_a_bad_step(rt: HostRuntime) -> Result<(), Fail> {
    for (spec, path, wanted) in PATHS {
        told(is_so(rt.alloc(), spec, Asked::Path(path, wanted)), path)?;
    }
    Ok(())
}

/// How the labels of two elements that hold these texts are ordered, if they have labels.
fn order_by(alloc: Global, spec: &Spec, one: &str, other: &str) -> Option<Ordering> {
    let first = lent_label(alloc, spec.root(), "p", LentContent::Text(one));
    let second = lent_label(alloc, spec.root(), "p", LentContent::Text(other));
    match (&first, &second) {
        (Ok(Some((first, _))), Ok(Some((second, _)))) => Some(first.order(second)),
        _ => None,
    }
}

fn are_in_order(alloc: Global, spec: &Spec) -> bool {
    order_by(alloc, spec, "a", "b") == Some(Ordering::Less)
        && order_by(alloc, spec, "b", "a") == Some(Ordering::Greater)
}

#[test]
fn lent_labels_come_in_the_order_of_their_texts(rt: HostRuntime) -> Result<(), Fail> {
    told(is_so(rt.alloc(), b"(/, (p, {.}))\n", Asked::Order), "order")
}
