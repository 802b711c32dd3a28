// Versions of small documents, and what is stored of them.
ghost use Rattle.keyed_tree.specs.View.{keyed_view};
ghost use Rattle.keyed_tree.specs.WellFormed.{IsKeyedWellFormed};

use crate::known::{Known, has_known, shapes};
use archive_tree::{ANode, Alt, Archive};
use given_parts::shapes::{Shape, Value, body, tree};
use given_parts::told;
use keyed_tree::{Body, Keyed};
use nested_merge::{is_alike, merge};
use std::alloc::Global;
use std::test::Fail;

/// Ten versions of a catalogue: some goods come and go, and prices change.
const CATALOGUES: &[Known] = &[
    Known::Anvil10Bell,
    Known::BellCord12,
    Known::Anvil10BellCord10,
    Known::Anvil12Bell,
    Known::BellCord10,
    Known::Anvil12BellCord12,
    Known::Anvil10Bell,
    Known::BellCord12,
    Known::Anvil10BellCord10,
    Known::Anvil12Bell,
];

/// A salary that changes and returns.
const SALARIES: &[Known] = &[Known::CompanyOf90, Known::CompanyOf95, Known::CompanyOf90];

/// Versions, and how many timestamps the nodes of their archive and the alternatives store.
const MERGED: &[(&str, &[Known], Option<usize>)] = &[
    ("one version", &[Known::Tiny], Some(0)),
    (
        "a version that comes again stores no timestamp",
        &[Known::Tiny, Known::Tiny],
        Some(0),
    ),
    (
        "only the two alternatives have sets of their own",
        SALARIES,
        Some(2),
    ),
    ("ten versions of a catalogue come back", CATALOGUES, None),
];

// The archive with one more version, if it meets the conditions.
fn grown(alloc: Global, old: Archive, new: &Keyed) -> Option<Archive>
    requires { IsKeyedWellFormed (keyed_view new.now) }
{
    let may_grow = old.n() != u32::MAX && new.is_element() && new.is_ordered();
    if !may_grow || !is_alike(&old, new) {
        return None;
    }
    match merge(alloc, old, new) {
        Ok(archive) => Some(archive),
        Err(_) => None,
    }
}

// The archive with the version of this shape.
fn with_version(alloc: Global, old: Archive, shape: &Shape) -> Option<Archive> {
    match tree(alloc, shape) {
        Ok(version) => grown(alloc, old, &version),
        Err(_) => None,
    }
}

fn merged(alloc: Global, versions: &[Known]) -> Option<Archive> {
    let mut archive = Archive::empty(alloc);
    for version in versions {
        archive = with_version(alloc, archive, shapes(*version).first()?)?;
    }
    Some(archive)
}

// How many timestamps the nodes and their alternatives store.
#[cycle(stamps)]
fn stamps(nodes: &[ANode]) -> usize {
    let mut count = 0usize;
    for node in nodes {
        count = count.saturating_add(node_stamps(node));
    }
    count
}

#[cycle(stamps)]
fn node_stamps(node: &ANode) -> usize {
    let own = usize::from(node.stamp().is_some());
    match node {
        ANode::Inner { kids, .. } => own.saturating_add(stamps(kids)),
        ANode::Leaf { alts, .. } => {
            let stored = alts.iter().filter(|alt| alt.stamp.is_some()).count();
            own.saturating_add(stored)
        }
    }
}

// Whether the archive has these versions and no more.
fn has_versions(alloc: Global, archive: &Archive, versions: &[Known]) -> bool {
    let mut i = 0u32;
    for version in versions {
        i = i.saturating_add(1);
        if !has_known(alloc, archive, i, *version) {
            return false;
        }
    }
    archive.n() == i
}

fn is_count(count: usize, wanted: &Option<usize>) -> bool {
    match wanted {
        Some(wanted) => count == *wanted,
        None => true,
    }
}

// Whether the versions come back from their archive, which stores so many timestamps.
fn is_merged(alloc: Global, versions: &[Known], stored: &Option<usize>) -> bool {
    match merged(alloc, versions) {
        Some(archive) => {
            is_count(stamps(archive.kids()), stored) && has_versions(alloc, &archive, versions)
        }
        None => false,
    }
}

#[test]
fn merged_versions_come_back(rt: HostRuntime) -> Result<(), Fail> {
    for (name, versions, stored) in MERGED {
        told(is_merged(rt.alloc(), versions, stored), name)?;
    }
    Ok(())
}

// The alternatives of the node at these places, each counted from 0 among its siblings.
fn alternatives<'a>(kids: &'a [ANode], places: &[usize]) -> &'a [Alt] {
    let mut nodes = kids;
    for place in places {
        match nodes.get(*place) {
            Some(ANode::Inner { kids, .. }) => nodes = kids,
            Some(ANode::Leaf { alts, .. }) => return alts,
            None => return &[],
        }
    }
    &[]
}

fn is_body(alloc: Global, found: &Body, value: &Value) -> bool {
    match body(alloc, value) {
        Ok(wanted) => found.same(&wanted),
        Err(_) => false,
    }
}

/// Whether an alternative has a set of these intervals, and this body.
fn is_alternative(alloc: Global, alt: &Alt, pairs: &[(u32, u32)], value: &Value) -> bool {
    match &alt.stamp {
        Some(set) => set.pairs() == pairs && is_body(alloc, &alt.body, value),
        None => false,
    }
}

/// Whether these are the two salaries, in the order of their first versions.
fn are_salaries(alloc: Global, alts: &[Alt]) -> bool {
    match alts {
        [first, second] => {
            is_alternative(alloc, first, &[(1, 1), (3, 3)], &Value::Text("90K"))
                && is_alternative(alloc, second, &[(2, 2)], &Value::Text("95K"))
        }
        _ => false,
    }
}

fn has_two_salaries(alloc: Global, versions: &[Known]) -> bool {
    match merged(alloc, versions) {
        Some(archive) => are_salaries(alloc, alternatives(archive.kids(), &[0, 0, 0, 2])),
        None => false,
    }
}

#[test]
fn a_salary_that_returns_has_two_alternatives(rt: HostRuntime) {
    assert!(rt; has_two_salaries(rt.alloc(), SALARIES));
}
