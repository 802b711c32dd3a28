// Leaves whose alternatives are held one after another.
use crate::rows::keys_of;
use given_parts::documents::parse;
use given_parts::told;
use key_spec::Spec;
use node_judge::{Frame, Held};
use record_parts::{lend_alternative, lend_opening};
use std::alloc::Global;
use std::test::Fail;
use version_set::VersionSet;

const RULES: &[u8] = b"(/, (v, {}))\n";

const V: &[u8] = b"\x01\0\0\0\x01v\0\0\0\0\0";

/// Bodies of alternatives, of a number each: without a stored set, and with one interval.
const SEVEN: &[u8] = b"\0\0\x03\0\0\0\0\0\0\0\x07";

const SEVEN_1_1: &[u8] = b"\x01\0\0\0\x01\0\0\0\x01\0\0\0\x01\0\x03\0\0\0\0\0\0\0\x07";

const SEVEN_1_2: &[u8] = b"\x01\0\0\0\x01\0\0\0\x01\0\0\0\x02\0\x03\0\0\0\0\0\0\0\x07";

const SEVEN_1_4: &[u8] = b"\x01\0\0\0\x01\0\0\0\x01\0\0\0\x04\0\x03\0\0\0\0\0\0\0\x07";

const SEVEN_3_4: &[u8] = b"\x01\0\0\0\x01\0\0\0\x03\0\0\0\x04\0\x03\0\0\0\0\0\0\0\x07";

const SEVEN_5_5: &[u8] = b"\x01\0\0\0\x01\0\0\0\x05\0\0\0\x05\0\x03\0\0\0\0\0\0\0\x07";

const EIGHT_1_1: &[u8] = b"\x01\0\0\0\x01\0\0\0\x01\0\0\0\x01\0\x03\0\0\0\0\0\0\0\x08";

const EIGHT_2_2: &[u8] = b"\x01\0\0\0\x01\0\0\0\x02\0\0\0\x02\0\x03\0\0\0\0\0\0\0\x08";

const EIGHT_2_4: &[u8] = b"\x01\0\0\0\x01\0\0\0\x02\0\0\0\x04\0\x03\0\0\0\0\0\0\0\x08";

const EIGHT_3_4: &[u8] = b"\x01\0\0\0\x01\0\0\0\x03\0\0\0\x04\0\x03\0\0\0\0\0\0\0\x08";

/// A name, the alternatives of a leaf that four versions have, how many of them come, and whether
/// those are all.
type Row = (&'static str, &'static [&'static [u8]], usize, bool);

const ROWS: &[Row] = &[
    ("none", &[], 0, false),
    ("one that inherits", &[SEVEN], 1, true),
    ("one behind it", &[SEVEN, EIGHT_3_4], 1, true),
    (
        "one that inherits behind another",
        &[EIGHT_1_1, SEVEN],
        1,
        false,
    ),
    ("two", &[SEVEN_1_2, EIGHT_3_4], 2, true),
    ("two that overlap", &[SEVEN_1_2, EIGHT_2_4], 2, false),
    ("two that leave one out", &[SEVEN_1_1, EIGHT_3_4], 2, false),
    ("two out of order", &[EIGHT_3_4, SEVEN_1_2], 1, false),
    (
        "two with one first number",
        &[SEVEN_1_2, EIGHT_1_1],
        1,
        false,
    ),
    ("one body twice", &[SEVEN_1_2, SEVEN_3_4], 2, false),
    (
        "one body apart",
        &[SEVEN_1_1, EIGHT_2_2, SEVEN_3_4],
        3,
        false,
    ),
    ("some of the versions", &[SEVEN_1_2], 1, false),
    ("all of them stored", &[SEVEN_1_4], 0, false),
    ("another version", &[SEVEN_5_5], 0, false),
];

/// How many of the alternatives come until one may not.
fn come(alloc: Global, held: &mut Held<'_>, alternatives: &[&[u8]]) -> Option<usize> {
    for (i, bytes) in alternatives.iter().enumerate() {
        let (stamp, body) = lend_alternative(bytes)?;
        let stamp = stamp.copy(alloc).ok()?;
        if !held.add(alloc, &stamp, &body).ok()? {
            return Some(i);
        }
    }
    Some(alternatives.len())
}

/// The same of a leaf below this row, and whether they are all.
fn come_below(alloc: Global, root: &Frame<'_>, alternatives: &[&[u8]]) -> Option<(usize, bool)> {
    let (label, stamp) = lend_opening(V)?;
    let keys = keys_of(alloc, &label, &[])?;
    let stamp = stamp.copy(alloc).ok()?;
    let leaf = root.open_leaf(alloc, &label, &keys, &stamp).ok()??;
    let mut held = Held::of(alloc, leaf);
    let came = come(alloc, &mut held, alternatives)?;
    Some((came, held.close()))
}

fn is_row(alloc: Global, spec: &Spec, row: &Row) -> Option<bool> {
    let (_, alternatives, count, are_all) = row;
    let set = VersionSet::upto(alloc, 4);
    let root = Frame::root(alloc, spec, &set);
    Some(come_below(alloc, &root, alternatives)? == (*count, *are_all))
}

#[test]
fn alternatives_are_held_one_after_another(rt: HostRuntime) -> Result<(), Fail> {
    let Some(spec) = parse(rt.alloc(), RULES) else {
        return told(false, "the rules");
    };
    for row in ROWS {
        told(is_row(rt.alloc(), &spec, row) == Some(true), row.0)?;
    }
    Ok(())
}
