// Small sets, whose text is known.
ghost use Rattle.std.specs.Prelude.{◌≡◌, true};
ghost use Rattle.version_set.specs.Members.{with_last};
ghost use Rattle.version_set.specs.View.{pairs_of};

use given_parts::{all_told, told};
use std::alloc::{AllocError, Global};
use std::test::Fail;
use version_set::VersionSet;

type Pairs = &'static [(u32, u32)];

/// Intervals, and the text of their set, or none where they are those of no set.
const TEXTS: &[(&str, Pairs, Option<&str>)] = &[
    ("neighbours", &[(1, 2), (3, 4)], None),
    ("two intervals", &[(1, 2), (4, 4)], Some("1-2,4")),
    ("two numbers", &[(1, 1), (3, 3)], Some("1,3")),
    ("the empty set", &[], Some("none")),
];

/// Two sets, their union, and what both have.
const UNITED: &[(&str, Pairs, Pairs, &str, &str)] = &[
    ("neighbours are joined", &[(1, 2)], &[(3, 3)], "1-3", "none"),
    (
        "a number of the other set",
        &[(1, 5)],
        &[(3, 3), (7, 7)],
        "1-5,7",
        "3",
    ),
    (
        "intervals in turn",
        &[(1, 1), (5, 6), (11, 11)],
        &[(3, 3), (7, 8), (13, 13)],
        "1,3,5-8,11,13",
        "none",
    ),
    (
        "the same the other way round",
        &[(3, 3), (7, 8), (13, 13)],
        &[(1, 1), (5, 6), (11, 11)],
        "1,3,5-8,11,13",
        "none",
    ),
];

fn set_of(alloc: Global, pairs: &[(u32, u32)]) -> Option<VersionSet> {
    match VersionSet::from_pairs(alloc, pairs) {
        Ok(found) => found,
        Err(_) => None,
    }
}

/// Whether the set has this text.
fn is_text(set: &VersionSet, text: &str) -> bool {
    match set.text() {
        Ok(found) => found.as_str() == text,
        Err(_) => false,
    }
}

fn is_set(alloc: Global, pairs: &[(u32, u32)], text: &str) -> bool {
    match set_of(alloc, pairs) {
        Some(set) => is_text(&set, text),
        None => false,
    }
}

fn is_no_set(alloc: Global, pairs: &[(u32, u32)]) -> bool {
    match VersionSet::from_pairs(alloc, pairs) {
        Ok(found) => found.is_none(),
        Err(_) => false,
    }
}

fn is_made(alloc: Global, pairs: &[(u32, u32)], text: &Option<&str>) -> bool {
    match text {
        Some(text) => is_set(alloc, pairs, text),
        None => is_no_set(alloc, pairs),
    }
}

#[test]
fn intervals_have_their_text(rt: HostRuntime) -> Result<(), Fail> {
    for (name, pairs, text) in TEXTS {
        told(is_made(rt.alloc(), pairs, text), name)?;
    }
    Ok(())
}

fn is_made_of(found: Result<VersionSet, AllocError>, text: &str) -> bool {
    match found {
        Ok(set) => is_text(&set, text),
        Err(_) => false,
    }
}

/// Whether these are the union and the meet of a set and that of these intervals.
fn is_united_with(ours: &VersionSet, alloc: Global, theirs: Pairs, texts: (&str, &str)) -> bool {
    match set_of(alloc, theirs) {
        Some(theirs) => {
            is_made_of(ours.union(&theirs), texts.0) && is_made_of(ours.meet(&theirs), texts.1)
        }
        None => false,
    }
}

fn is_united(alloc: Global, ours: Pairs, theirs: Pairs, texts: (&str, &str)) -> bool {
    match set_of(alloc, ours) {
        Some(ours) => is_united_with(&ours, alloc, theirs, texts),
        None => false,
    }
}

#[test]
fn a_union_joins_neighbours_and_a_meet_keeps_common_numbers(rt: HostRuntime) -> Result<(), Fail> {
    for (name, ours, theirs, union, meet) in UNITED {
        told(is_united(rt.alloc(), ours, theirs, (union, meet)), name)?;
    }
    Ok(())
}

/// Whether single numbers and first numbers are such sets.
fn are_plain(alloc: Global) -> bool {
    is_made_of(Ok(VersionSet::single(alloc, 3)), "3")
        && is_made_of(Ok(VersionSet::upto(alloc, 5)), "1-5")
        && is_made_of(Ok(VersionSet::upto(alloc, 0)), "none")
        && VersionSet::empty(alloc).last() == 0
}

/// Whether a greater number is added.
fn is_added(set: &mut VersionSet, number: u32) -> bool
    ensures { result ≡ true → pairs_of set.new ≡ with_last (pairs_of set.old) number }
{
    if set.last() >= number || set.reserve_one().is_err() {
        return false;
    }
    set.add_last(number);
    true
}

/// Whether a number joins the last interval, or begins another.
fn are_last(alloc: Global) -> bool {
    let mut set = VersionSet::upto(alloc, 2);
    is_added(&mut set, 3) && is_added(&mut set, 5) && set.last() == 5 && is_text(&set, "1-3,5")
}

/// Whether each number of 2,4-5 is moved to the one before it.
fn are_moved(alloc: Global) -> bool {
    let mut set = VersionSet::single(alloc, 2);
    is_added(&mut set, 4)
        && is_added(&mut set, 5)
        && is_text(&set, "2,4-5")
        && is_made_of(set.shift(-1), "1,3-4")
}

fn is_copied(set: &VersionSet, pairs: &[(u32, u32)]) -> bool {
    match set.copy() {
        Ok(copy) => {
            copy.same(set) && copy.pairs() == pairs && copy.contains(3) && !copy.contains(2)
        }
        Err(_) => false,
    }
}

fn is_odd_set_copied(alloc: Global) -> bool {
    match set_of(alloc, &[(1, 1), (3, 3)]) {
        Some(set) => is_copied(&set, &[(1, 1), (3, 3)]),
        None => false,
    }
}

/// Intervals that are pushed in turn onto the empty set, and whether each may stand there.
const PUSHED: &[((u32, u32), bool)] = &[
    ((0, 2), false),
    ((1, 2), true),
    ((3, 4), false),
    ((5, 4), false),
    ((4, 4_294_967_295), true),
    ((4_294_967_295, 4_294_967_295), false),
];

/// Whether an interval is added, or is not, as it should.
fn is_pushed(set: &mut VersionSet, pair: (u32, u32), stands: bool) -> bool {
    match set.push_pair(pair) {
        Ok(is_added) => is_added == stands,
        Err(_) => false,
    }
}

fn is_each_pushed(set: &mut VersionSet) -> bool {
    for (pair, stands) in PUSHED {
        if !is_pushed(set, *pair, *stands) {
            return false;
        }
    }
    true
}

fn are_pushed(alloc: Global) -> bool {
    let mut set = VersionSet::empty(alloc);
    is_each_pushed(&mut set) && is_text(&set, "1-2,4-4294967295")
}

#[test]
fn sets_are_made_moved_and_copied(rt: HostRuntime) -> Result<(), Fail> {
    let alloc = rt.alloc();
    all_told(&[
        ("sets of a number", are_plain(alloc)),
        ("a last number is added", are_last(alloc)),
        ("a shift moves each", are_moved(alloc)),
        ("a copy is the same set", is_odd_set_copied(alloc)),
        ("an interval is added where it may stand", are_pushed(alloc)),
    ])
}
