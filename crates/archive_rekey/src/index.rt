// What finds the nodes and the bodies of an archive that a version has.
ghost use Rattle.std.specs.Prelude.{◌≡◌, ◌≤◌, ◌<◌, List, IfOk, IfSome, IsTrue, map, length, slice_get};
ghost use Rattle.std.specs.Option.{option_map, unwrap_or};
ghost use Rattle.version_set.specs.View.{pairs_of};
ghost use Rattle.timestamp_tree.specs.Data.{leaves};
ghost use Rattle.timestamp_tree.specs.Search.{answers};
ghost use Rattle.timestamp_tree.specs.View.{ts_view};
ghost use Rattle.archive_tree.specs.Data.{PlainNode, Stamp, node_stamp};
ghost use Rattle.archive_tree.specs.View.{alt_view, node_view, stamp_view};
ghost use Rattle.archive_rekey.specs.Index.{IsBelow, IsFull, IsIndex, IsLeafIndex, IsNodeIndex, IsOver, IsRowIndex, below_view, index_view, is_in, places};

use archive_tree::{ANode, Alt, effective};
use std::alloc::{AllocError, Global};
use std::marker::Brand;
use std::sync::ledger::{Blank, Ledger};
use timestamp_tree::{Steps, TsTree};
use version_set::{GREATEST_NUMBER, VersionSet};
use xa_fields::FIELD;

/// So many stored sets are looked through, and more are searched.
const FEW: usize = 32;

/// What is beside a row or the bodies of a leaf, of which many store a set, and beside a row that
/// has such ones below it.
///
/// So nothing is beside what has no more than a few sets in it, and of what is searched a half
/// stores one at least.
#[derive(Drop)]
pub(crate) struct Index {
    /// A tree over the sets of the kids or of the bodies, with the set of all numbers where none is
    /// stored.
    sets: Option<TsTree>,
    /// What is beside kids, by their places, which ascend.
    below: Vec<(usize, Index)>,
}

/// What is beside a row, if something is.
///
/// It takes n log n steps for n intervals that are stored, and memory for these. Recursion is as
/// deep as nodes nest.
#[cycle(index)]
pub(crate) fn index_of(alloc: Global, nodes: &[ANode]) -> Result<Option<Index>, AllocError>
    ensures { IfOk result (λ o. IsRowIndex (option_map index_view o) (map node_view nodes.now)) }
{
    let sets = row_tree(alloc, nodes)?;
    let below = index_kids(alloc, nodes)?;
    if sets.is_none() && below.is_empty() {
        return Ok(None);
    }
    Ok(Some(Index { sets, below }))
}

/// What is beside the kids of a row.
#[cycle(index)]
fn index_kids(alloc: Global, nodes: &[ANode]) -> Result<Vec<(usize, Index)>, AllocError>
    ensures { IfOk result (λ v. IsBelow (below_view v.items) (map node_view nodes.now)) }
{
    let mut below = Vec::new(alloc);
    let mut place: usize = 0;
    for node in nodes {
        if let Some(index) = index_node(alloc, node)? {
            below.push((place, index))?;
        }
        place += 1;
    }
    Ok(below)
}

#[cycle(index)]
fn index_node(alloc: Global, node: &ANode) -> Result<Option<Index>, AllocError>
    ensures { IfOk result (λ o. IsNodeIndex (option_map index_view o) (node_view node.now)) }
{
    match node {
        ANode::Inner { kids, .. } => index_of(alloc, kids),
        ANode::Leaf { alts, .. } => index_leaf(alloc, alts),
    }
}

fn index_leaf(alloc: Global, alts: &[Alt]) -> Result<Option<Index>, AllocError>
    ensures { IfOk result (λ o. IsLeafIndex (option_map index_view o) (map alt_view alts.now)) }
{
    match leaf_tree(alloc, alts)? {
        Some(sets) => Ok(Some(Index {
            sets: Some(sets),
            below: Vec::new(alloc),
        })),
        None => Ok(None),
    }
}

/// The tree over the sets of a row, if many are stored.
fn row_tree(alloc: Global, nodes: &[ANode]) -> Result<Option<TsTree>, AllocError>
    ensures { IfOk result (λ o. IfSome o (λ t.
        IsOver (ts_view t) (map node_stamp (map node_view nodes.now)))) }
{
    if nodes.len() <= FEW {
        return Ok(None);
    }
    let all = all_numbers(alloc);
    let sets = row_sets(alloc, nodes, &all)?;
    tree_over(alloc, &sets, &all)
}

/// The tree over the sets of the bodies of a leaf, if many are stored.
fn leaf_tree(alloc: Global, alts: &[Alt]) -> Result<Option<TsTree>, AllocError>
    ensures { IfOk result (λ o. IfSome o (λ t.
        IsOver (ts_view t) (map (λ x. x.stamp) (map alt_view alts.now)))) }
{
    if alts.len() <= FEW {
        return Ok(None);
    }
    let all = all_numbers(alloc);
    let sets = leaf_sets(alloc, alts, &all)?;
    tree_over(alloc, &sets, &all)
}

/// The set of all numbers.
fn all_numbers(alloc: Global) -> VersionSet
    ensures { IsFull (pairs_of result) }
{
    VersionSet::upto(alloc, GREATEST_NUMBER)
}

/// The sets of a row, and that of all numbers where none is stored.
fn row_sets<'a>(
    alloc: Global,
    nodes: &'a [ANode],
    all: &'a VersionSet,
) -> Result<Vec<&'a VersionSet>, AllocError>
    ensures { IfOk result (λ v. map (λ s. pairs_of s.now) v.items
        ≡ map (λ s. unwrap_or s (pairs_of all.now)) (map node_stamp (map node_view nodes.now))) }
{
    let mut sets = Vec::with_capacity(alloc, nodes.len())?;
    for node in nodes {
        sets.push(effective(node.stamp(), all))?;
    }
    Ok(sets)
}

/// The sets of the bodies of a leaf, and that of all numbers where none is stored.
fn leaf_sets<'a>(
    alloc: Global,
    alts: &'a [Alt],
    all: &'a VersionSet,
) -> Result<Vec<&'a VersionSet>, AllocError>
    ensures { IfOk result (λ v. map (λ s. pairs_of s.now) v.items
        ≡ map (λ s. unwrap_or s (pairs_of all.now)) (map (λ x. x.stamp) (map alt_view alts.now))) }
{
    let mut sets = Vec::with_capacity(alloc, alts.len())?;
    for alt in alts {
        sets.push(effective(&alt.stamp, all))?;
    }
    Ok(sets)
}

/// The tree over these sets, if many of them are stored ones.
fn tree_over(
    alloc: Global,
    sets: &[&VersionSet],
    all: &VersionSet,
) -> Result<Option<TsTree>, AllocError>
    ensures { IfOk result (λ o. IfSome o (λ t.
        leaves (ts_view t) ≡ map (λ s. pairs_of s.now) sets.now)) }
{
    if sets.len() >= FIELD || !are_many(sets, all) {
        return Ok(None);
    }
    let tree = TsTree::over(alloc, sets)?;
    Ok(Some(tree))
}

/// Whether more than a few sets are stored, and no fewer than are not.
fn are_many(sets: &[&VersionSet], all: &VersionSet) -> bool
    ensures { IsTrue result → 1 ≤ length sets.now }
{
    let mut stored = 0;
    for set in sets {
        if !set.same(all) {
            stored += 1;
        }
    }
    stored > FEW && stored >= sets.len() - stored
}

/// What is beside the kid at that place, if something is.
pub(crate) fn beside<'a>(index: Option<&'a Index>, place: usize) -> Option<&'a Index>
    ensures { (ks : List PlainNode)
        → IsRowIndex (option_map (λ x. index_view x.now) index.entry) ks
        → IfSome (slice_get ks place) (IsNodeIndex (option_map (λ x. index_view x.now) result)) }
{
    match index {
        Some(index) => found_below(&index.below, place),
        None => None,
    }
}

fn found_below<'a>(below: &'a [(usize, Index)], place: usize) -> Option<&'a Index>
    ensures { (ks : List PlainNode) → IsBelow (below_view below.now) ks
        → IfSome (slice_get ks place) (IsNodeIndex (option_map (λ x. index_view x.now) result)) }
{
    let at = below.partition_point(|it| it.0 < place);
    if at < below.len() && below[at].0 == place {
        Some(&below[at].1)
    } else {
        None
    }
}

/// The tree over the sets of what it is beside, if there is one.
pub(crate) fn tree_in<'a>(index: Option<&'a Index>) -> Option<&'a TsTree>
    ensures { (ss : List Stamp) (ks : List PlainNode)
        → IfSome (option_map (λ x. index_view x.now) index.entry) (λ x. IsIndex x ss ks)
        → IfSome result (λ t. IsOver (ts_view t.now) ss) }
{
    match index {
        Some(index) => index.sets.as_ref(),
        None => None,
    }
}

/// The places of what is in the version, where its parent is.
pub(crate) fn places_in(alloc: Global, number: u32, sets: &TsTree) -> Result<Vec<u32>, AllocError>
    requires first { 1 ≤ number }
    ensures { IfOk result (λ v. (ss : List Stamp) → IsOver (ts_view sets.now) ss
        → v.items ≡ places number ss) }
{
    answers_of::<Brand>(Blank::new(1), alloc, sets, number)
}

fn answers_of<L: Ledger>(
    blank: Blank,
    alloc: Global,
    sets: &TsTree,
    number: u32,
) -> Result<Vec<u32>, AllocError>
    requires name { blank.name ≡ L.name }
    requires parts { blank.parts ≡ L.parts }
    requires some { 0 < blank.parts }
    ensures { IfOk result (λ v. v.items ≡ answers (leaves (ts_view sets.now)) number) }
{
    let mut steps: Steps<L> = Steps::new(blank);
    let mut places = Vec::new(alloc);
    sets.select(alloc, number, &mut places, &mut steps)?;
    Ok(places)
}

/// The places of the nodes of a row that are in the version, where their parent is.
///
/// Where many store a set, it looks at few more than there are, times a logarithm.
pub(crate) fn row_places(
    alloc: Global,
    number: u32,
    nodes: &[ANode],
    index: Option<&Index>,
) -> Result<Vec<u32>, AllocError>
    requires first { 1 ≤ number }
    requires index { IsRowIndex (option_map (λ x. index_view x.now) index)
        (map node_view nodes.now) }
    ensures { IfOk result (λ v.
        v.items ≡ places number (map node_stamp (map node_view nodes.now))) }
{
    match tree_in(index) {
        Some(sets) => places_in(alloc, number, sets),
        None => places_among(alloc, number, nodes),
    }
}

/// The same, where each is looked at. For a row as long as no file has it there is no memory.
fn places_among(alloc: Global, number: u32, nodes: &[ANode]) -> Result<Vec<u32>, AllocError>
    ensures { IfOk result (λ v.
        v.items ≡ places number (map node_stamp (map node_view nodes.now))) }
{
    if nodes.len() >= FIELD {
        return Err(AllocError);
    }
    let mut places = Vec::new(alloc);
    let mut place = 0;
    for node in nodes {
        if has_version(node.stamp(), number) {
            places.push(place)?;
        }
        place += 1;
    }
    Ok(places)
}

/// Whether what has the stamp is in the version, where its parent is.
pub(crate) fn has_version(stamp: &Option<VersionSet>, number: u32) -> bool
    ensures { result ≡ is_in number (stamp_view stamp.now) }
{
    match stamp {
        Some(set) => set.contains(number),
        None => true,
    }
}
