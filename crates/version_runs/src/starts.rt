// Where the runs of an archive's versions begin.
ghost use Rattle.std.specs.Prelude.{◌≡◌, ◌++◌, [], ◌∷◌, IfOk, OnOk, map};
ghost use Rattle.std.specs.List.{flat_map};
ghost use Rattle.version_set.specs.View.{pairs_of};
ghost use Rattle.archive_tree.specs.ArchiveView.{archive_view};
ghost use Rattle.archive_tree.specs.View.{alt_view, node_view, nodes_view, stamp_view};
ghost use Rattle.version_runs.specs.Runs.{alt_cuts, node_cuts, pair_cuts, row_cuts, stamp_cuts, starts_of, upto};

use archive_tree::{ANode, Alt, Archive, archives_stand_for_one_list};
use std::alloc::{AllocError, Global};
use version_set::VersionSet;

/// The numbers at which a run of the archive's versions begins, in ascending order: 1, and those at
/// which a set that is stored begins or ends.
///
/// It goes over the archive once, and sorts. It takes memory for two numbers for each interval,
/// whatever the number of versions.
pub fn starts_of(alloc: Global, old: &Archive) -> Result<Vec<u32>, AllocError>
    ensures { IfOk result (λ v. v.items ≡ starts_of (archive_view old.now)) }
{
    // A law, for the proof.
    archives_stand_for_one_list();
    let last = old.n();
    let mut cuts = first_cut(alloc, last)?;
    put_row_cuts(&mut cuts, last, old.kids())?;
    cuts.sort_unstable();
    cuts.dedup();
    Ok(cuts)
}

// 1, if there is a version.
fn first_cut(alloc: Global, last: u32) -> Result<Vec<u32>, AllocError>
    ensures { IfOk result (λ v. v.items ≡ upto last (1 ∷ [])) }
{
    let mut cuts = Vec::new(alloc);
    if last > 0 {
        cuts.push(1)?;
    }
    Ok(cuts)
}

#[cycle(cuts)]
#[tactic(auto, using(archive_tree::proofs::NodeViews::nodes))]
fn put_row_cuts(cuts: &mut Vec<u32>, last: u32, nodes: &[ANode]) -> Result<(), AllocError>
    ensures { OnOk result (cuts.new.items
        ≡ cuts.old.items ++ upto last (row_cuts (nodes_view nodes.now))) }
{
    for node in nodes {
        put_node_cuts(cuts, last, node)?;
    }
    Ok(())
}

#[cycle(cuts)]
#[tactic(auto, using(archive_tree::proofs::NodeViews::nodes))]
fn put_node_cuts(cuts: &mut Vec<u32>, last: u32, node: &ANode) -> Result<(), AllocError>
    ensures { OnOk result (cuts.new.items
        ≡ cuts.old.items ++ upto last (node_cuts (node_view node.now))) }
{
    match node {
        ANode::Inner { stamp, kids, .. } => {
            put_stamp_cuts(cuts, last, stamp)?;
            put_row_cuts(cuts, last, kids)
        }
        ANode::Leaf { stamp, alts, .. } => {
            put_stamp_cuts(cuts, last, stamp)?;
            put_alt_cuts(cuts, last, alts)
        }
    }
}

fn put_alt_cuts(cuts: &mut Vec<u32>, last: u32, alts: &[Alt]) -> Result<(), AllocError>
    ensures { OnOk result (cuts.new.items
        ≡ cuts.old.items ++ upto last (alt_cuts (map alt_view alts.now))) }
{
    for alt in alts {
        put_stamp_cuts(cuts, last, &alt.stamp)?;
    }
    Ok(())
}

fn put_stamp_cuts(
    cuts: &mut Vec<u32>,
    last: u32,
    stamp: &Option<VersionSet>,
) -> Result<(), AllocError>
    ensures { OnOk result (cuts.new.items
        ≡ cuts.old.items ++ upto last (stamp_cuts (stamp_view stamp.now))) }
{
    match stamp {
        Some(set) => put_set_cuts(cuts, last, set),
        None => Ok(()),
    }
}

fn put_set_cuts(cuts: &mut Vec<u32>, last: u32, set: &VersionSet) -> Result<(), AllocError>
    ensures { OnOk result (cuts.new.items
        ≡ cuts.old.items ++ upto last (flat_map pair_cuts (pairs_of set.now))) }
{
    for pair in set.pairs() {
        put_pair_cuts(cuts, last, *pair)?;
    }
    Ok(())
}

// Where an interval begins, and where what is behind it does, if that is not past the last number.
fn put_pair_cuts(cuts: &mut Vec<u32>, last: u32, pair: (u32, u32)) -> Result<(), AllocError>
    ensures { OnOk result (cuts.new.items ≡ cuts.old.items ++ upto last (pair_cuts pair)) }
{
    let (from, to) = pair;
    if from <= last {
        cuts.push(from)?;
    }
    if to < last {
        cuts.push(to + 1)?;
    }
    Ok(())
}
