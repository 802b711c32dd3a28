// A tree over eight small sets.
ghost use Rattle.std.specs.Prelude.{◌≡◌, ◌<◌, [], ◌∷◌};
ghost use Rattle.timestamp_tree.specs.Tree.{tree_of};
ghost use Rattle.timestamp_tree.specs.Search.{visits};

use given_parts::all_told;
use std::alloc::{AllocError, Global};
use std::marker::Brand;
use std::sync::ledger::{Blank, Ledger};
use std::test::Fail;
use timestamp_tree::{Steps, TsTree, put_tree};
use version_set::VersionSet;

const EIGHT: &[&[(u32, u32)]] = &[
    &[(1, 1)],
    &[(1, 1)],
    &[(2, 2), (5, 5)],
    &[(1, 1)],
    &[(3, 3)],
    &[(3, 3)],
    &[(4, 4)],
    &[(4, 4)],
];

fn set_of(alloc: Global, pairs: &[(u32, u32)]) -> Option<VersionSet> {
    match VersionSet::from_pairs(alloc, pairs) {
        Ok(found) => found,
        Err(_) => None,
    }
}

fn eight_sets(alloc: Global) -> Option<Vec<VersionSet>> {
    let mut sets = Vec::with_capacity(alloc, 8).ok()?;
    for pairs in EIGHT {
        sets.push(set_of(alloc, pairs)?).ok()?;
    }
    Some(sets)
}

fn lent(alloc: Global, sets: &[VersionSet]) -> Result<Vec<&VersionSet>, AllocError> {
    let mut lent = Vec::new(alloc);
    for set in sets {
        lent.push(set)?;
    }
    Ok(lent)
}

/// The tree over these sets, at least one and at most five thousand.
fn tree_over(alloc: Global, sets: &[&VersionSet]) -> Option<TsTree> {
    if sets.is_empty() || sets.len() > 5000 {
        return None;
    }
    match TsTree::over(alloc, sets) {
        Ok(tree) => Some(tree),
        Err(_) => None,
    }
}

/// The tree over these sets, at least one and at most five thousand.
fn tree_of(alloc: Global, sets: &[VersionSet]) -> Option<TsTree> {
    if sets.is_empty() || sets.len() > 5000 {
        return None;
    }
    match TsTree::of(alloc, sets) {
        Ok(tree) => Some(tree),
        Err(_) => None,
    }
}

fn tree_of_lent(alloc: Global, sets: &[VersionSet]) -> Option<TsTree> {
    match lent(alloc, sets) {
        Ok(lent) => tree_over(alloc, &lent),
        Err(_) => None,
    }
}

/// The bytes of the tree over these sets, which is not held, if there are any.
fn put_lent(alloc: Global, sets: &[&VersionSet]) -> Option<Vec<u8>> {
    if sets.is_empty() {
        return None;
    }
    let mut out = Vec::new(alloc);
    match put_tree(&mut out, sets) {
        Ok(()) => Some(out),
        Err(_) => None,
    }
}

fn put(alloc: Global, sets: &[VersionSet]) -> Option<Vec<u8>> {
    match lent(alloc, sets) {
        Ok(lent) => put_lent(alloc, &lent),
        Err(_) => None,
    }
}

/// The bytes of the tree over the eight sets.
pub(crate) fn eight_put(alloc: Global) -> Option<Vec<u8>> {
    match eight_sets(alloc) {
        Some(sets) => put(alloc, &sets),
        None => None,
    }
}

// A search for 5 visits seven of the fifteen nodes of that tree, and one for 6 the root alone.
fn visited_nodes()
    ensures five { visits (tree_of (((1, 1) ∷ []) ∷ ((1, 1) ∷ []) ∷ ((2, 2) ∷ (5, 5) ∷ []) ∷ ((1, 1) ∷ []) ∷ ((3, 3) ∷ []) ∷ ((3, 3) ∷ []) ∷ ((4, 4) ∷ []) ∷ ((4, 4) ∷ []) ∷ [])) 5 ≡ 7 }
    ensures six { visits (tree_of (((1, 1) ∷ []) ∷ ((1, 1) ∷ []) ∷ ((2, 2) ∷ (5, 5) ∷ []) ∷ ((1, 1) ∷ []) ∷ ((3, 3) ∷ []) ∷ ((3, 3) ∷ []) ∷ ((4, 4) ∷ []) ∷ ((4, 4) ∷ []) ∷ [])) 6 ≡ 1 }
{}

fn answers_of<L: Ledger>(
    blank: Blank,
    alloc: Global,
    tree: &TsTree,
    i: u32,
) -> Result<Vec<u32>, AllocError>
    requires name { blank.name ≡ L.name }
    requires parts { blank.parts ≡ L.parts }
    requires some { 0 < blank.parts }
{
    let mut steps: Steps<L> = Steps::new(blank);
    let mut out = Vec::new(alloc);
    tree.select(alloc, i, &mut out, &mut steps)?;
    Ok(out)
}

fn found_in(alloc: Global, tree: &TsTree, i: u32) -> Result<Vec<u32>, AllocError> {
    answers_of::<Brand>(Blank::new(1), alloc, tree, i)
}

/// Whether a search for the number finds these positions.
fn are_found(alloc: Global, tree: &TsTree, i: u32, wanted: &[u32]) -> bool {
    match found_in(alloc, tree, i) {
        Ok(found) => found.as_slice() == wanted,
        Err(_) => false,
    }
}

/// Whether these are so many positions, from one to another.
fn is_range(found: &[u32], count: usize, first: u32, last: u32) -> bool {
    found.len() == count && found.first() == Some(&first) && found.last() == Some(&last)
}

/// Whether a search for 97 finds each 97th position.
fn is_range_found(alloc: Global, tree: &TsTree) -> bool {
    match found_in(alloc, tree, 97) {
        Ok(found) => is_range(&found, 51, 96, 4946),
        Err(_) => false,
    }
}

fn written(alloc: Global, tree: &TsTree) -> Result<Vec<u8>, AllocError> {
    let mut out = Vec::new(alloc);
    tree.encode(alloc, &mut out)?;
    Ok(out)
}

/// Whether so many bytes are written, the root with these.
fn is_written(alloc: Global, tree: &TsTree, length: usize, root: &[u8]) -> bool {
    match written(alloc, tree) {
        Ok(out) => out.len() == length && out.starts_with(root),
        Err(_) => false,
    }
}

/// Whether so many bytes are put for the tree over these sets, its root with these.
fn is_put(alloc: Global, sets: &[VersionSet], length: usize, root: &[u8]) -> bool {
    match put(alloc, sets) {
        Some(out) => out.len() == length && out.starts_with(root),
        None => false,
    }
}

/// The root: one interval from 1 to 5, and a left part of 164 bytes.
const ROOT_OF_EIGHT: &[u8] = b"\0\0\0\x01\0\0\0\x01\0\0\0\x05\0\0\0\0\0\0\0\xa4";

/// Whether it is the tree over the eight sets.
fn is_over_eight(alloc: Global, tree: Option<TsTree>) -> bool {
    match tree {
        Some(tree) => {
            are_found(alloc, &tree, 5, &[2])
                && are_found(alloc, &tree, 6, &[])
                && tree.height() == 3
                && is_written(alloc, &tree, 324, ROOT_OF_EIGHT)
        }
        None => false,
    }
}

/// Whether the tree over the eight sets is right, over those that are lent as well, and is put as it is written.
fn are_put_and_found(alloc: Global, sets: &[VersionSet]) -> bool {
    is_put(alloc, sets, 324, ROOT_OF_EIGHT)
        && is_over_eight(alloc, tree_of(alloc, sets))
        && is_over_eight(alloc, tree_of_lent(alloc, sets))
}

fn are_eight_right(alloc: Global) -> bool {
    match eight_sets(alloc) {
        Some(sets) => are_put_and_found(alloc, &sets),
        None => false,
    }
}

/// So many sets of two intervals that are all the same.
fn same_sets(alloc: Global, count: u32) -> Option<Vec<VersionSet>> {
    let mut sets = Vec::new(alloc);
    for _ in 0..count {
        sets.push(set_of(alloc, &[(1, 3), (7, 9)])?).ok()?;
    }
    Some(sets)
}

/// Each root's set: two intervals, from 1 to 3 and from 7 to 9.
const ROOT_OF_SAME: &[u8] = b"\0\0\0\x02\0\0\0\x01\0\0\0\x03\0\0\0\x07\0\0\0\x09";

/// Whether the tree over these sets is put as it is written where it is held.
fn is_put_as_written(alloc: Global, sets: &[VersionSet], tree: &TsTree) -> bool {
    match written(alloc, tree) {
        Ok(out) => is_put(alloc, sets, out.len(), &out),
        Err(_) => false,
    }
}

fn is_tree_put(alloc: Global, sets: &[VersionSet]) -> bool {
    match tree_of(alloc, sets) {
        Some(tree) => is_put_as_written(alloc, sets, &tree),
        None => false,
    }
}

/// Whether the tree over so many sets that are the same has so many bytes, put or written.
fn are_same_put(alloc: Global, count: u32, length: usize) -> bool {
    match same_sets(alloc, count) {
        Some(sets) => is_tree_put(alloc, &sets) && is_put(alloc, &sets, length, ROOT_OF_SAME),
        None => false,
    }
}

// Five thousand sets of one number each, from 1 to 97 and again from 1 on.
fn many_sets(alloc: Global) -> Result<Vec<VersionSet>, AllocError> {
    let mut sets = Vec::new(alloc);
    for i in 0..5000_u32 {
        sets.push(VersionSet::single(alloc, i % 97 + 1))?;
    }
    Ok(sets)
}

/// The root: one interval from 1 to 97, and a left part of 101,092 bytes.
const ROOT_OF_MANY: &[u8] = b"\0\0\0\x01\0\0\0\x01\0\0\0\x61\0\0\0\0\0\x01\x8a\xe4";

fn is_over_many(alloc: Global, tree: Option<TsTree>) -> bool {
    match tree {
        Some(tree) => {
            is_range_found(alloc, &tree)
                && are_found(alloc, &tree, 98, &[])
                && tree.height() == 13
                && is_written(alloc, &tree, 202_188, ROOT_OF_MANY)
        }
        None => false,
    }
}

/// Whether the tree over so many sets is right, and is put as it is written.
fn are_many_right(alloc: Global) -> bool {
    match many_sets(alloc) {
        Ok(sets) => {
            is_put(alloc, &sets, 202_188, ROOT_OF_MANY)
                && is_over_many(alloc, tree_of(alloc, &sets))
        }
        Err(_) => false,
    }
}

#[test]
fn trees_over_sets_are_put_written_and_searched(rt: HostRuntime) -> Result<(), Fail> {
    let alloc = rt.alloc();
    visited_nodes();
    all_told(&[
        ("eight sets make three levels", are_eight_right(alloc)),
        ("a set", are_same_put(alloc, 1, 28)),
        ("two sets that are the same", are_same_put(alloc, 2, 84)),
        ("three sets that are the same", are_same_put(alloc, 3, 140)),
        ("seven sets that are the same", are_same_put(alloc, 7, 364)),
        ("a number among five thousand sets", are_many_right(alloc)),
    ])
}
