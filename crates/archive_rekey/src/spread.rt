// An archive in memory of one version of each run, spread to the numbers of the runs.
ghost use Rattle.std.specs.Prelude.{◌≡◌, IfOk, length, map};
ghost use Rattle.std.specs.List.{AllByRecursion};
ghost use Rattle.archive_tree.specs.View.{stamp_view};
ghost use Rattle.spelled_archive.specs.ArchiveView.{spelled_archive_view};
ghost use Rattle.spelled_archive.specs.View.{alt_view, node_view};
ghost use Rattle.version_runs.specs.Runs.{AreStarts};
ghost use Rattle.version_runs.specs.Spread.{IsNodeWithin, IsStampWithin, spread, spread_alt, spread_node, spread_stamp};

use archive_tree::archives_stand_for_one_list;
use spelled_archive::{Alt, SNode, SpelledArchive};
use std::alloc::{AllocError, Global};
use version_runs::{runs_have_one_version, spread_set};
use version_set::VersionSet;

/// The archive in which each set of runs is the set of their numbers, up to the last one.
///
/// It goes over the nodes once. They are moved; each row, and each set that is stored, takes memory
/// until the old one is given up.
pub(crate) fn spread_archive(
    alloc: Global,
    starts: &[u32],
    last: u32,
    archive: SpelledArchive,
) -> Result<SpelledArchive, AllocError>
    requires starts { AreStarts starts.now last }
    requires count { length starts.now ≡ (spelled_archive_view archive).n }
    ensures { IfOk result (λ a. spelled_archive_view a
        ≡ spread starts.now last (spelled_archive_view archive)) }
{
    // Laws, for the proof: there are versions, and they are those of a spread archive.
    archives_stand_for_one_list();
    runs_have_one_version();
    let (_, nodes) = archive.into_parts();
    let nodes = spread_nodes(alloc, starts, last, nodes)?;
    Ok(SpelledArchive::new(last, nodes))
}

#[cycle(spread)]
#[tactic(auto, using(spelled_archive::proofs::NodeViews::nodes, crate::proofs::SpreadRows::first_within))]
fn spread_nodes(
    alloc: Global,
    starts: &[u32],
    last: u32,
    nodes: Vec<SNode>,
) -> Result<Vec<SNode>, AllocError>
    requires starts { AreStarts starts.now last }
    requires within { AllByRecursion (IsNodeWithin (length starts.now))
        (map node_view nodes.items) }
    ensures { IfOk result (λ v. map node_view v.items
        ≡ map (spread_node starts.now last) (map node_view nodes.items)) }
{
    let mut spread = Vec::with_capacity(alloc, nodes.len())?;
    for node in nodes {
        let done = spread_node(alloc, starts, last, node)?;
        spread.push(done)?;
    }
    Ok(spread)
}

#[cycle(spread)]
#[tactic(auto, using(spelled_archive::proofs::NodeViews::nodes))]
fn spread_node(alloc: Global, starts: &[u32], last: u32, node: SNode) -> Result<SNode, AllocError>
    requires starts { AreStarts starts.now last }
    requires within { IsNodeWithin (length starts.now) (node_view node) }
    ensures { IfOk result (λ k. node_view k ≡ spread_node starts.now last (node_view node)) }
{
    match node {
        SNode::Inner { label, stamp, kids } => Ok(SNode::Inner {
            label,
            stamp: spread_stamp(alloc, starts, last, stamp)?,
            kids: spread_nodes(alloc, starts, last, kids)?,
        }),
        SNode::Leaf { label, stamp, alts } => Ok(SNode::Leaf {
            label,
            stamp: spread_stamp(alloc, starts, last, stamp)?,
            alts: spread_alts(alloc, starts, last, alts)?,
        }),
    }
}

fn spread_alts(
    alloc: Global,
    starts: &[u32],
    last: u32,
    alts: Vec<Alt>,
) -> Result<Vec<Alt>, AllocError>
    requires starts { AreStarts starts.now last }
    requires within { AllByRecursion (λ x. IsStampWithin (length starts.now) x.stamp)
        (map alt_view alts.items) }
    ensures { IfOk result (λ v. map alt_view v.items
        ≡ map (spread_alt starts.now last) (map alt_view alts.items)) }
{
    let mut spread = Vec::with_capacity(alloc, alts.len())?;
    for alt in alts {
        let done = spread_alt(alloc, starts, last, alt)?;
        spread.push(done)?;
    }
    Ok(spread)
}

fn spread_alt(alloc: Global, starts: &[u32], last: u32, alt: Alt) -> Result<Alt, AllocError>
    requires starts { AreStarts starts.now last }
    requires within { IsStampWithin (length starts.now) (alt_view alt).stamp }
    ensures { IfOk result (λ x. alt_view x ≡ spread_alt starts.now last (alt_view alt)) }
{
    let Alt { stamp, body } = alt;
    let stamp = spread_stamp(alloc, starts, last, stamp)?;
    Ok(Alt { stamp, body })
}

fn spread_stamp(
    alloc: Global,
    starts: &[u32],
    last: u32,
    stamp: Option<VersionSet>,
) -> Result<Option<VersionSet>, AllocError>
    requires starts { AreStarts starts.now last }
    requires within { IsStampWithin (length starts.now) (stamp_view stamp) }
    ensures { IfOk result (λ s. stamp_view s ≡ spread_stamp starts.now last (stamp_view stamp)) }
{
    match stamp {
        Some(set) => Ok(Some(spread_set(alloc, starts, last, &set)?)),
        None => Ok(None),
    }
}
