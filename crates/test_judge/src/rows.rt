// Rows whose kids are opened one after another.
ghost use Rattle.std.specs.Prelude.{◌≡◌, map, IfSome};
ghost use Rattle.keyed_tree.specs.View.{key_view};
ghost use Rattle.record_parts.specs.ShownViews.{shown_label, shown_body};

use given_parts::documents::parse;
use given_parts::told;
use key_spec::Spec;
use keyed_tree::KeyVal;
use node_judge::Frame;
use record_parts::{BodyView, LabelView, lend_alternative, lend_opening};
use std::alloc::Global;
use std::test::Fail;
use version_set::VersionSet;

const RULES: &[u8] = b"(/, (db, {}))\n(/db, (e, {@id}))\n(/db/e, (v, {}))\n";

/// Bodies of alternatives without a stored set.
const SEVEN: &[u8] = b"\0\0\x03\0\0\0\0\0\0\0\x07";

const EIGHT: &[u8] = b"\0\0\x03\0\0\0\0\0\0\0\x08";

/// Bodies of opening records. None but these has a stored set: of versions 1 and 2, of all four,
/// and of version 5.
const DB: &[u8] = b"\x01\0\0\0\x02db\0\0\0\0\0";

const DB_OF_TWO: &[u8] = b"\x01\0\0\0\x02db\0\0\0\0\x01\0\0\0\x01\0\0\0\x01\0\0\0\x02";

const DB_OF_ALL: &[u8] = b"\x01\0\0\0\x02db\0\0\0\0\x01\0\0\0\x01\0\0\0\x01\0\0\0\x04";

const DB_OF_FIVE: &[u8] = b"\x01\0\0\0\x02db\0\0\0\0\x01\0\0\0\x01\0\0\0\x05\0\0\0\x05";

const E: &[u8] = b"\x01\0\0\0\x01e\0\0\0\0\0";

const E_SEVEN: &[u8] = b"\x01\0\0\0\x01e\0\0\0\x01\0\x03\0\0\0\0\0\0\0\x07\0";

const E_EIGHT: &[u8] = b"\x01\0\0\0\x01e\0\0\0\x01\0\x03\0\0\0\0\0\0\0\x08\0";

const ID: &[u8] = b"\0\0\0\0\x02id\0\0\0\0\0";

const ID_OF_TWO: &[u8] = b"\0\0\0\0\x02id\0\0\0\0\x01\0\0\0\x01\0\0\0\x01\0\0\0\x02";

const V: &[u8] = b"\x01\0\0\0\x01v\0\0\0\0\0";

const X: &[u8] = b"\x01\0\0\0\x01x\0\0\0\0\0";

/// The opening record of an inner node, with its key values, or of a leaf without any.
#[derive(Clone, Copy)]
enum Kid {
    Inner(&'static [u8], &'static [&'static [u8]]),
    Leaf(&'static [u8]),
}

/// The opening record of an inner node, and its key values.
type Step = (&'static [u8], &'static [&'static [u8]]);

/// These bodies, if they are the label's key values.
pub fn keys_of(
    alloc: Global,
    label: &LabelView<'_>,
    bodies: &[&'static [u8]],
) -> Option<Vec<BodyView<'static>>>
    ensures { IfSome result (λ v. map shown_body v.items ≡ (shown_label label.now).keys) }
{
    let copy = label.copy(alloc).ok()?;
    bodies_of(alloc, &copy.keys, bodies)
}

/// These bodies, if they are the values.
fn bodies_of(
    alloc: Global,
    values: &[KeyVal],
    bodies: &[&'static [u8]],
) -> Option<Vec<BodyView<'static>>>
    ensures { IfSome result (λ v. map shown_body v.items ≡ map key_view values.now) }
{
    let mut keys = Vec::new(alloc);
    let mut bodies = bodies.iter();
    for value in values {
        let (_, key) = lend_alternative(bodies.next()?)?;
        if !key.same(value) {
            return None;
        }
        keys.push(key).ok()?;
    }
    Some(keys)
}

/// Whether the kid may come next; then the row is behind it.
fn comes(alloc: Global, row: &mut Frame<'_>, kid: Kid) -> Option<bool> {
    match kid {
        Kid::Inner(bytes, bodies) => {
            let (label, stamp) = lend_opening(bytes)?;
            let keys = keys_of(alloc, &label, bodies)?;
            let stamp = stamp.copy(alloc).ok()?;
            let opened = row.open_inner(alloc, &label, &keys, &stamp).ok()?;
            goes_behind(row, &label, opened.is_some())
        }
        Kid::Leaf(bytes) => {
            let (label, stamp) = lend_opening(bytes)?;
            let keys = keys_of(alloc, &label, &[])?;
            let stamp = stamp.copy(alloc).ok()?;
            let opened = row.open_leaf(alloc, &label, &keys, &stamp).ok()?;
            goes_behind(row, &label, opened.is_some())
        }
    }
}

fn goes_behind(row: &mut Frame<'_>, label: &LabelView<'_>, may: bool) -> Option<bool> {
    if may {
        row.pass(label).ok()?;
    }
    Some(may)
}

/// How many of the kids come until one may not, and whether the row may end then.
fn come(alloc: Global, row: &mut Frame<'_>, kids: &[Kid]) -> Option<(usize, bool)> {
    for (i, kid) in kids.iter().enumerate() {
        if !comes(alloc, row, *kid)? {
            return Some((i, row.is_met()));
        }
    }
    Some((kids.len(), row.is_met()))
}

/// The same in the row that these inner nodes lead to.
fn come_below(
    alloc: Global,
    row: &mut Frame<'_>,
    way: &[Step],
    kids: &[Kid],
) -> Option<(usize, bool)> {
    let Some(((bytes, bodies), rest)) = way.split_first() else {
        return come(alloc, row, kids);
    };
    let (label, stamp) = lend_opening(bytes)?;
    let keys = keys_of(alloc, &label, bodies)?;
    let stamp = stamp.copy(alloc).ok()?;
    let mut below = row.open_inner(alloc, &label, &keys, &stamp).ok()??;
    come_below(alloc, &mut below, rest, kids)
}

/// A name, the way, the kids, how many of them come, and whether the row may end.
type Row = (&'static str, &'static [Step], &'static [Kid], usize, bool);

const IN_DB: &[Step] = &[(DB, &[])];

const IN_E: &[Step] = &[(DB, &[]), (E_SEVEN, &[SEVEN])];

const ROWS: &[Row] = &[
    ("no kids", &[], &[], 0, true),
    ("an element", &[], &[Kid::Inner(DB, &[])], 1, true),
    ("an attribute at the root", &[], &[Kid::Leaf(ID)], 0, true),
    ("a leaf above the frontier", &[], &[Kid::Leaf(DB)], 0, true),
    ("a tag without a rule", &[], &[Kid::Inner(X, &[])], 0, true),
    (
        "some of the versions",
        &[],
        &[Kid::Inner(DB_OF_TWO, &[])],
        1,
        true,
    ),
    (
        "all of them stored",
        &[],
        &[Kid::Inner(DB_OF_ALL, &[])],
        0,
        true,
    ),
    (
        "another version",
        &[],
        &[Kid::Inner(DB_OF_FIVE, &[])],
        0,
        true,
    ),
    (
        "a label twice",
        &[],
        &[Kid::Inner(DB, &[]), Kid::Inner(DB, &[])],
        1,
        true,
    ),
    ("no key value", IN_DB, &[Kid::Inner(E, &[])], 0, true),
    (
        "one key value",
        IN_DB,
        &[Kid::Inner(E_SEVEN, &[SEVEN])],
        1,
        true,
    ),
    (
        "two labels in order",
        IN_DB,
        &[Kid::Inner(E_SEVEN, &[SEVEN]), Kid::Inner(E_EIGHT, &[EIGHT])],
        2,
        true,
    ),
    (
        "two labels out of order",
        IN_DB,
        &[Kid::Inner(E_EIGHT, &[EIGHT]), Kid::Inner(E_SEVEN, &[SEVEN])],
        1,
        true,
    ),
    ("a key value that never comes", IN_E, &[], 0, false),
    ("another kid in its place", IN_E, &[Kid::Leaf(V)], 1, false),
    ("a key value", IN_E, &[Kid::Leaf(ID)], 1, true),
    (
        "a key value and a kid",
        IN_E,
        &[Kid::Leaf(ID), Kid::Leaf(V)],
        2,
        true,
    ),
    (
        "a key value twice",
        IN_E,
        &[Kid::Leaf(ID), Kid::Leaf(ID)],
        1,
        true,
    ),
    (
        "a key value out of order",
        IN_E,
        &[Kid::Leaf(V), Kid::Leaf(ID)],
        1,
        false,
    ),
    (
        "a key value in some versions",
        IN_E,
        &[Kid::Leaf(ID_OF_TWO)],
        0,
        false,
    ),
    (
        "an attribute with kids",
        IN_E,
        &[Kid::Inner(ID, &[])],
        0,
        false,
    ),
    (
        "an inner node at the frontier",
        IN_E,
        &[Kid::Inner(V, &[])],
        0,
        false,
    ),
];

fn is_row(alloc: Global, spec: &Spec, row: &Row) -> Option<bool> {
    let (_, way, kids, count, is_met) = row;
    let set = VersionSet::upto(alloc, 4);
    let mut root = Frame::root(alloc, spec, &set);
    Some(come_below(alloc, &mut root, way, kids)? == (*count, *is_met))
}

#[test]
fn kids_are_opened_one_after_another(rt: HostRuntime) -> Result<(), Fail> {
    let Some(spec) = parse(rt.alloc(), RULES) else {
        return told(false, "the rules");
    };
    for row in ROWS {
        told(is_row(rt.alloc(), &spec, row) == Some(true), row.0)?;
    }
    Ok(())
}
