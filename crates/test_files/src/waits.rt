// Key values that are awaited, handed down to labels.
use given_parts::told;
use key_spec::KeyPath;
use node_judge::{Wait, hand_all, waits_of};
use record_parts::{BodyView, LabelView, lend_alternative, lend_opening};
use std::alloc::Global;
use std::test::Fail;

/// Opening records' bodies, each of a label and no stored set.
const A: &[u8] = b"\x01\0\0\0\x01a\0\0\0\0\0";

const B: &[u8] = b"\x01\0\0\0\x01b\0\0\0\0\0";

const ID: &[u8] = b"\0\0\0\0\x02id\0\0\0\0\0";

/// The tag `a` with the key value 7, and an attribute of that name.
const KEYED: &[u8] = b"\x01\0\0\0\x01a\0\0\0\x01\0\x03\0\0\0\0\0\0\0\x07\0";

const NAMED: &[u8] = b"\0\0\0\0\x01a\0\0\0\0\0";

/// Alternatives' bodies, each without a stored set.
const SEVEN: &[u8] = b"\0\0\x03\0\0\0\0\0\0\0\x07";

const EIGHT: &[u8] = b"\0\0\x03\0\0\0\0\0\0\0\x08";

fn label(bytes: &[u8]) -> Option<LabelView<'_>> {
    let (label, _) = lend_opening(bytes)?;
    Some(label)
}

fn body(bytes: &[u8]) -> Option<BodyView<'_>> {
    let (_, body) = lend_alternative(bytes)?;
    Some(body)
}

/// A key path of these tags, and of an attribute behind them if there is one.
fn path(alloc: Global, tags: &[&str], attr: Option<&str>) -> Option<KeyPath> {
    let mut names = Vec::new(alloc);
    for tag in tags {
        names.push(String::from_str(alloc, tag).ok()?).ok()?;
    }
    let attr = match attr {
        Some(name) => Some(String::from_str(alloc, name).ok()?),
        None => None,
    };
    Some(KeyPath { tags: names, attr })
}

/// What is expected of a wait: so many tags are left, and its attribute, or it is for bodies.
#[derive(Clone, Copy)]
enum Left {
    Tags(usize, Option<&'static str>),
    Bodies,
}

fn is_attr(attr: &Option<String>, name: Option<&str>) -> bool {
    match (attr, name) {
        (Some(attr), Some(name)) => attr.as_str() == name,
        (None, None) => true,
        _ => false,
    }
}

fn is_left(wait: &Wait<'_>, left: Left, awaited: BodyView<'_>) -> bool {
    match (wait, left) {
        (Wait::Leads { tags, attr, value }, Left::Tags(count, name)) => {
            tags.len() == count && is_attr(attr, name) && value.same_as(&awaited)
        }
        (Wait::Equals { value }, Left::Bodies) => value.same_as(&awaited),
        _ => false,
    }
}

/// Whether a wait for 7 at the path, handed to these labels one after another, is this at last, or
/// nothing at the last of them.
fn is_handed(
    alloc: Global,
    tags: &[&str],
    attr: Option<&str>,
    labels: &[&[u8]],
    last: Option<Left>,
) -> Option<bool> {
    let path = path(alloc, tags, attr)?;
    let seven = body(SEVEN)?;
    let mut wait = Some(Wait::Leads {
        tags: &path.tags,
        attr: &path.attr,
        value: seven,
    });
    for bytes in labels {
        wait = wait?.hand(&label(bytes)?);
    }
    match (&wait, last) {
        (Some(wait), Some(left)) => Some(is_left(wait, left, seven)),
        (None, None) => Some(true),
        _ => Some(false),
    }
}

/// A name, the tags and the attribute of a path, the labels, and what is left.
type Row = (
    &'static str,
    &'static [&'static str],
    Option<&'static str>,
    &'static [&'static [u8]],
    Option<Left>,
);

const ROWS: &[Row] = &[
    ("a tag", &["a"], None, &[A], Some(Left::Tags(0, None))),
    ("another tag", &["a"], None, &[B], None),
    ("a tag with key values", &["a"], None, &[KEYED], None),
    ("an attribute of a tag's name", &["a"], None, &[NAMED], None),
    (
        "the first of two tags",
        &["a", "b"],
        Some("id"),
        &[A],
        Some(Left::Tags(1, Some("id"))),
    ),
    (
        "both tags",
        &["a", "b"],
        Some("id"),
        &[A, B],
        Some(Left::Tags(0, Some("id"))),
    ),
    (
        "the attribute behind them",
        &["a", "b"],
        Some("id"),
        &[A, B, ID],
        Some(Left::Bodies),
    ),
    ("the second tag first", &["a", "b"], Some("id"), &[B], None),
    ("another attribute", &[], Some("id"), &[NAMED], None),
    ("a tag in place of an attribute", &[], Some("a"), &[A], None),
    ("the target itself", &[], None, &[A], None),
    ("a leaf's bodies", &[], Some("id"), &[ID, ID], None),
];

#[test]
fn a_kid_is_handed_what_is_awaited_below_it(rt: HostRuntime) -> Result<(), Fail> {
    for (name, tags, attr, labels, last) in ROWS {
        let handed = is_handed(rt.alloc(), tags, *attr, labels, *last);
        told(handed == Some(true), name)?;
    }
    Ok(())
}

/// So many key paths that are the same.
fn paths_of(alloc: Global, count: usize) -> Option<Vec<KeyPath>> {
    let mut paths = Vec::new(alloc);
    for _ in 0..count {
        paths.push(path(alloc, &["a"], None)?).ok()?;
    }
    Some(paths)
}

/// So many key values that are the same.
fn values_of(alloc: Global, count: usize) -> Option<Vec<BodyView<'static>>> {
    let mut values = Vec::new(alloc);
    for _ in 0..count {
        values.push(body(SEVEN)?).ok()?;
    }
    Some(values)
}

fn is_count(
    alloc: Global,
    paths: &[KeyPath],
    values: &[BodyView<'_>],
    waits: Option<usize>,
) -> bool {
    match waits_of(alloc, paths, values) {
        Ok(Some(found)) => waits == Some(found.len()),
        Ok(None) => waits.is_none(),
        Err(_) => false,
    }
}

/// Whether there are so many waits for so many key paths and so many key values, or none.
fn are_counted(alloc: Global, paths: usize, keys: usize, waits: Option<usize>) -> bool {
    match (paths_of(alloc, paths), values_of(alloc, keys)) {
        (Some(paths), Some(values)) => is_count(alloc, &paths, &values, waits),
        _ => false,
    }
}

/// Key paths, key values, and how many waits.
const COUNTS: &[(usize, usize, Option<usize>)] = &[
    (0, 0, Some(0)),
    (1, 1, Some(1)),
    (3, 3, Some(3)),
    (1, 0, None),
    (0, 1, None),
    (3, 2, None),
    (2, 3, None),
];

#[test]
fn a_node_waits_for_as_many_values_as_its_rule_has_paths(rt: HostRuntime) -> Result<(), Fail> {
    for (paths, keys, waits) in COUNTS {
        told(are_counted(rt.alloc(), *paths, *keys, *waits), "how many")?;
    }
    Ok(())
}

/// The tags and the attribute of key paths.
const THREE: &[(&[&str], Option<&str>)] = &[
    (&["a", "b"], None),
    (&["b"], None),
    (&["a"], Some("id")),
];

fn three_paths(alloc: Global) -> Option<Vec<KeyPath>> {
    let mut paths = Vec::new(alloc);
    for (tags, attr) in THREE {
        paths.push(path(alloc, tags, *attr)?).ok()?;
    }
    Some(paths)
}

fn are_first_and_third(handed: &[Wait<'_>], seven: BodyView<'_>, eight: BodyView<'_>) -> bool {
    match handed {
        [first, third] => {
            is_left(first, Left::Tags(1, None), seven)
                && is_left(third, Left::Tags(0, Some("id")), eight)
        }
        _ => false,
    }
}

fn are_handed_on(
    alloc: Global,
    waits: &[Wait<'_>],
    seven: BodyView<'_>,
    eight: BodyView<'_>,
) -> bool {
    let Some(label) = label(A) else {
        return false;
    };
    match hand_all(alloc, waits, &label) {
        Ok(handed) => are_first_and_third(&handed, seven, eight),
        Err(_) => false,
    }
}

fn are_awaited(alloc: Global, paths: &[KeyPath], seven: BodyView<'_>, eight: BodyView<'_>) -> bool {
    match waits_of(alloc, paths, &[seven, seven, eight]) {
        Ok(Some(waits)) => are_handed_on(alloc, &waits, seven, eight),
        _ => false,
    }
}

/// Whether a kid `a` is handed the first and the third of three waits, in their order.
fn are_handed(alloc: Global) -> bool {
    match (three_paths(alloc), body(SEVEN), body(EIGHT)) {
        (Some(paths), Some(seven), Some(eight)) => are_awaited(alloc, &paths, seven, eight),
        _ => false,
    }
}

#[test]
fn all_that_a_kid_is_handed_comes_in_order(rt: HostRuntime) -> Result<(), Fail> {
    told(are_handed(rt.alloc()), "three waits")
}
