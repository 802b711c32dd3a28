// Whether parts are those of an archive.
ghost use Rattle.std.specs.Prelude.{◌≡◌, ℕ, List, [], ◌∷◌, IsTrue, IfOk, Some, map};
ghost use Rattle.std.specs.List.{list_all, flat_map};
ghost use Rattle.jsonml_tree.specs.View.{scalar_view, content_view};
ghost use Rattle.keyed_tree.specs.View.{key_view};
ghost use Rattle.version_set.specs.Members.{members, has};
ghost use Rattle.version_set.specs.View.{pairs_of};
ghost use Rattle.archive_tree.specs.Stands.{head_or, bodies, labels};
ghost use Rattle.archive_tree.specs.Parts.{alt_sets, node_sets};
ghost use Rattle.archive_tree.specs.PartsTest.{is_none, is_same, is_stamp_well, are_parts, are_stamps_well, do_firsts_rise, do_differ, are_alts_well, is_node_well, are_nodes_well, are_elements, is_archive, do_tile};
ghost use Rattle.archive_tree.specs.Seek.{rise};
ghost use Rattle.archive_tree.specs.Summary.{text_end, content_summary, scalar_summary, summary_of};
ghost use Rattle.archive_tree.specs.View.{stamp_view, alt_view, node_view, nodes_view};

use crate::node::{ANode, Alt, effective};
use jsonml_tree::{Content, Scalar, Tree};
use keyed_tree::KeyVal;
use std::alloc::{AllocError, Global};
use std::collections::BTreeSet;
use version_set::VersionSet;

/// Whether the parts are those of an archive of n versions.
pub fn are_archive_parts(alloc: Global, n: u32, kids: &[ANode]) -> Result<bool, AllocError>
    ensures { IfOk result (λ b. b ≡ is_archive (record { n = n; kids = nodes_view kids.now })) }
{
    let all = VersionSet::upto(alloc, n);
    Ok(
        do_labels_rise(kids)
            && are_elements(kids)
            && are_nodes_well(alloc, &all, kids)?
            && are_kids_parts(alloc, &all, kids)?,
    )
}

// The node, with all below it, under a parent that has the set.
#[cycle(check)]
fn is_node_well(alloc: Global, parent: &VersionSet, node: &ANode) -> Result<bool, AllocError>
    ensures { IfOk result (λ b. b
        ≡ is_node_well (node_view node.now) (members (pairs_of parent.now))) }
{
    let set = effective(node.stamp(), parent);
    match node {
        ANode::Inner { stamp, kids, .. } => Ok(
            is_stamp_well(stamp, parent)
                && do_labels_rise(kids)
                && are_nodes_well(alloc, set, kids)?,
        ),
        ANode::Leaf { stamp, alts, .. } => {
            Ok(is_stamp_well(stamp, parent) && are_alts_well(alloc, set, alts)?)
        }
    }
}

#[cycle(check)]
fn are_nodes_well(alloc: Global, set: &VersionSet, nodes: &[ANode]) -> Result<bool, AllocError>
    ensures { IfOk result (λ b. b
        ≡ are_nodes_well (nodes_view nodes.now) (members (pairs_of set.now))) }
{
    for node in nodes {
        if !is_node_well(alloc, set, node)? {
            return Ok(false);
        }
    }
    Ok(true)
}

fn do_labels_rise(nodes: &[ANode]) -> bool
    ensures { result ≡ rise (labels (nodes_view nodes.now)) }
{
    let Some((first, rest)) = nodes.split_first() else {
        return true;
    };
    let mut last = first.label();
    for node in rest {
        if !last.order(node.label()).is_lt() {
            return false;
        }
        last = node.label();
    }
    true
}

fn are_elements(nodes: &[ANode]) -> bool
    ensures { result ≡ are_elements (nodes_view nodes.now) }
{
    for node in nodes {
        if !node.label().name.is_tag() {
            return false;
        }
    }
    true
}

fn are_kids_parts(alloc: Global, set: &VersionSet, nodes: &[ANode]) -> Result<bool, AllocError>
    ensures { IfOk result (λ b. b
        ≡ are_parts
        (members (pairs_of set.now))
        (node_sets (members (pairs_of set.now)) (nodes_view nodes.now))) }
{
    let mut parts = Vec::with_capacity(alloc, nodes.len())?;
    for node in nodes {
        parts.push(effective(node.stamp(), set))?;
    }
    are_parts(alloc, set, &parts)
}

// Whether the sets are pairwise disjoint and together the set: their intervals are sorted and gone
// along once.
fn are_parts(alloc: Global, set: &VersionSet, parts: &[&VersionSet]) -> Result<bool, AllocError>
    ensures { IfOk result (λ b. b
        ≡ are_parts (members (pairs_of set.now)) (map (λ s. members (pairs_of s.now)) parts.now)) }
{
    let mut pairs = pairs_of_all(alloc, parts)?;
    pairs.sort_unstable_by_key(|pair| pair.0);
    Ok(do_tile(set.pairs(), &pairs))
}

fn pairs_of_all(alloc: Global, sets: &[&VersionSet]) -> Result<Vec<(u32, u32)>, AllocError>
    ensures { IfOk result (λ v. v.items ≡ flat_map (λ s. pairs_of s.now) sets.now) }
{
    let mut pairs = Vec::with_capacity(alloc, sets.len())?;
    for set in sets {
        pairs.extend_from_slice(set.pairs())?;
    }
    Ok(pairs)
}

// Whether the later intervals follow one upon another through the first ones, and end with them.
fn do_tile(whole: &[(u32, u32)], pairs: &[(u32, u32)]) -> bool
    ensures { result ≡ do_tile 0 whole.now pairs.now }
{
    let mut at = 0;
    let mut low = 0;
    for (from, to) in pairs {
        if at == whole.len() {
            return false;
        }
        let (first, last) = whole[at];
        if *from != first.max(low) || *to > last {
            return false;
        }
        if *to < last {
            low = *to + 1;
            continue;
        }
        at += 1;
        low = 0;
    }
    at == whole.len()
}

// The alternatives of a leaf that has the set.
fn are_alts_well(alloc: Global, set: &VersionSet, alts: &[Alt]) -> Result<bool, AllocError>
    ensures { IfOk result (λ b. b
        ≡ are_alts_well (members (pairs_of set.now)) (map alt_view alts.now)) }
{
    if !are_stamps_well(set, alts) || !do_firsts_rise(set, alts) {
        return Ok(false);
    }
    Ok(are_alts_parts(alloc, set, alts)? && do_bodies_differ(alloc, alts)?)
}

fn are_stamps_well(set: &VersionSet, alts: &[Alt]) -> bool
    ensures { result ≡ are_stamps_well (members (pairs_of set.now)) (map alt_view alts.now) }
{
    for alt in alts {
        if !is_stamp_well(&alt.stamp, set) {
            return false;
        }
    }
    true
}

fn do_firsts_rise(set: &VersionSet, alts: &[Alt]) -> bool
    ensures { result ≡ do_firsts_rise 0 (members (pairs_of set.now)) (map alt_view alts.now) }
{
    let mut low = 0;
    for alt in alts {
        let first = u64::from(first_number(effective(&alt.stamp, set)));
        if first < low {
            return false;
        }
        low = first + 1;
    }
    true
}

// The first number, 0 where there is none.
fn first_number(set: &VersionSet) -> u32
    ensures { result ≡ head_or 0 (members (pairs_of set.now)) }
{
    match set.pairs().first() {
        Some(pair) => pair.0,
        None => 0,
    }
}

fn are_alts_parts(alloc: Global, set: &VersionSet, alts: &[Alt]) -> Result<bool, AllocError>
    ensures { IfOk result (λ b. b
        ≡ are_parts
        (members (pairs_of set.now))
        (alt_sets (members (pairs_of set.now)) (map alt_view alts.now))) }
{
    if is_whole(alts) {
        return Ok(true);
    }
    let mut parts = Vec::with_capacity(alloc, alts.len())?;
    for alt in alts {
        parts.push(effective(&alt.stamp, set))?;
    }
    are_parts(alloc, set, &parts)
}

// Whether there is one alternative, and it has the leaf's set.
fn is_whole(alts: &[Alt]) -> bool
    ensures { IsTrue result → (ns : List ℕ) → alt_sets ns (map alt_view alts.now) ≡ ns ∷ [] }
{
    match alts {
        [alt] => alt.stamp.is_none(),
        _ => false,
    }
}

// A body is sought by its summary, and looked at itself only where summaries are equal.
fn do_bodies_differ(alloc: Global, alts: &[Alt]) -> Result<bool, AllocError>
    ensures { IfOk result (λ b. b ≡ do_differ (bodies (map alt_view alts.now))) }
{
    if alts.len() < 2 {
        return Ok(true);
    }
    let mut seen = BTreeSet::new(alloc);
    for alt in alts {
        if !seen.insert((summary_of(&alt.body), &alt.body))? {
            return Ok(false);
        }
    }
    Ok(true)
}

// A number that usually tells a body apart, in a few steps.
fn summary_of(body: &KeyVal) -> u64
    ensures { result ≡ summary_of (key_view body.now) }
{
    match body {
        KeyVal::Scalar(scalar) => scalar_summary(scalar),
        KeyVal::Content(content) => content_summary(content),
    }
}

fn scalar_summary(scalar: &Scalar) -> u64
    ensures { result ≡ scalar_summary (scalar_view scalar.now) }
{
    match scalar {
        Scalar::Null | Scalar::Bool(_) => 0,
        Scalar::Whole(n) => (n.cast_unsigned() % 0x1_0000_0000_0000_0000) as u64,
        Scalar::Text(text) => text_end(text.as_str()),
    }
}

fn content_summary(content: &Content) -> u64
    ensures { result ≡ content_summary (content_view content.now) }
{
    match content.items.as_slice() {
        [Tree::Text(text), ..] => text_end(text.as_str()),
        [Tree::Elem { content, .. }, ..] => content_summary(content),
        [] => 0,
    }
}

// The last eight bytes as one number.
fn text_end(text: &str) -> u64
    ensures { result ≡ text_end text.now }
{
    let bytes = text.as_bytes();
    let (_, end) = bytes.split_at(bytes.len().saturating_sub(8));
    let mut value = 0u64;
    for byte in end {
        value = value.wrapping_mul(256).wrapping_add(u64::from(*byte));
    }
    value
}

// A stored set is not empty, lies in the parent's and differs from it; without one the parent's is
// not empty.
fn is_stamp_well(stamp: &Option<VersionSet>, parent: &VersionSet) -> bool
    ensures { result ≡ is_stamp_well (stamp_view stamp.now) (members (pairs_of parent.now)) }
{
    match stamp {
        None => !is_empty(parent),
        Some(set) => is_stored_well(set, parent),
    }
}

#[tactic(auto, using(crate::proofs::Tells::canonical))]
fn is_stored_well(set: &VersionSet, parent: &VersionSet) -> bool
    ensures { result ≡ is_stamp_well (Some (pairs_of set.now)) (members (pairs_of parent.now)) }
{
    !is_empty(set) && !is_same(set, parent) && is_within(set, parent)
}

fn is_within(set: &VersionSet, other: &VersionSet) -> bool
    ensures { result ≡ list_all (has (members (pairs_of other.now))) (members (pairs_of set.now)) }
{
    set.is_within(other)
}

fn is_same(one: &VersionSet, other: &VersionSet) -> bool
    ensures { result ≡ is_same (members (pairs_of one.now)) (members (pairs_of other.now)) }
{
    one.same(other)
}

fn is_empty(set: &VersionSet) -> bool
    ensures { result ≡ is_none (members (pairs_of set.now)) }
{
    set.pairs().is_empty()
}
