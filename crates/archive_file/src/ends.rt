// The END of a row of nodes.
ghost use Rattle.std.specs.Prelude.{◌≡◌, ◌≤◌, ◌-◌, ◌^◌, ◌&&◌, length, map, nat_le, nat_lt, bytes_eq, IfOk};
ghost use Rattle.version_set.specs.View.{pairs_of};
ghost use Rattle.archive_tree.specs.View.{nodes_view};
ghost use Rattle.record_format.specs.Spelling.{dir_bytes};
ghost use Rattle.record_format.specs.View.{entry_view};
ghost use Rattle.archive_file.specs.Laid.{sets_in, dir_with};
ghost use Rattle.archive_file.specs.Sizes.{pairs_size};

use archive_tree::{ANode, effective};
use record_format::{Entry, FRAME, put_end};
use std::alloc::{AllocError, Global};
use version_set::VersionSet;
use xa_fields::FIELD;

/// An interval of a set takes so many bytes.
const PAIR: usize = 8;

/// The entry of what stands from the start to the end, in a row that begins at the base.
pub(crate) fn entry_of(base: usize, start: usize, end: usize, dir: u64) -> Entry
    requires after { base ≤ start }
    requires within { start ≤ end }
    ensures { entry_view result ≡ record { start = start - base; length = end - start; dir = dir } }
{
    Entry {
        start: (start - base) as u64,
        length: (end - start) as u64,
        dir,
    }
}

/// The effective sets of nodes under a parent that has the set. They are lent.
#[tactic(auto, using(archive_tree::proofs::NodeViews::nodes))]
pub(crate) fn sets_of<'a>(
    alloc: Global,
    parent: &'a VersionSet,
    nodes: &'a [ANode],
) -> Result<Vec<&'a VersionSet>, AllocError>
    ensures sets { IfOk result (λ sets. map (λ s. pairs_of s.now) sets.items
        ≡ sets_in (pairs_of parent.now) (nodes_view nodes.now)) }
    ensures each { IfOk result (λ sets. length sets.items ≡ length nodes.now) }
{
    let mut sets = Vec::with_capacity(alloc, nodes.len())?;
    for node in nodes {
        sets.push(effective(node.stamp(), parent))?;
    }
    Ok(sets)
}

/// Whether the bytes are the directory of the nodes under a parent that has the set, where these are their entries.
///
/// It spells the END of the nodes, and compares. Where the intervals of their sets alone would take more bytes than there are,
/// it spells nothing: nodes that inherit a large set can make an END much longer than their file.
pub(crate) fn is_directory(
    alloc: Global,
    body: &[u8],
    parent: &VersionSet,
    nodes: &[ANode],
    entries: &[Entry],
) -> Result<bool, AllocError>
    requires { length entries.now ≡ length nodes.now }
    ensures { IfOk result (λ b. b ≡ (nat_lt (length nodes.now) (2 ^ 32)
        && bytes_eq
        (dir_bytes (dir_with (map entry_view entries.now) (pairs_of parent.now)
        (nodes_view nodes.now)))
        body.now)) }
{
    if nodes.len() >= FIELD {
        return Ok(false);
    }
    let sets = sets_of(alloc, parent, nodes)?;
    if !do_pairs_fit(&sets, body.len()) {
        return Ok(false);
    }
    let mut own = Vec::with_capacity(alloc, FRAME + body.len())?;
    put_end(&mut own, entries, &sets)?;
    Ok(are_same(&own[FRAME..], body))
}

// Whether the intervals of the sets take at most so many bytes.
fn do_pairs_fit(sets: &[&VersionSet], room: usize) -> bool
    ensures { result ≡ nat_le (pairs_size (map (λ s. pairs_of s.now) sets.now)) room }
{
    let mut left = room;
    for set in sets {
        let taken = set.count() as usize * PAIR;
        if taken > left {
            return false;
        }
        left -= taken;
    }
    true
}

fn are_same(one: &[u8], other: &[u8]) -> bool
    ensures { result ≡ bytes_eq one.now other.now }
{
    one == other
}
