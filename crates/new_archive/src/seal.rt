// An archive whose nodes leave out the sets that are those of their parents.
ghost use Rattle.std.specs.Prelude.{◌≡◌, IfOk, map};
ghost use Rattle.archive_tree.specs.View.{stamp_view};
ghost use Rattle.spelled_archive.specs.ArchiveView.{spelled_archive_view};
ghost use Rattle.spelled_archive.specs.View.{alt_view as spelled_alt_view, node_view};
ghost use Rattle.version_set.specs.View.{pairs_of};
ghost use Rattle.new_archive.specs.ArchiveView.{new_archive_view};
ghost use Rattle.new_archive.specs.Sealed.{seal, seal_alt, seal_stamp};
ghost use Rattle.new_archive.specs.AltView.{alt_view};
ghost use Rattle.new_archive.specs.View.{full_view, row_view};

use crate::node::{NewAlt, NewArchive, NewNode};
use spelled_archive::{Alt, SNode, SpelledArchive};
use std::alloc::{AllocError, Global};
use version_set::VersionSet;

/// The archive, as other crates have it. It goes over the nodes once, and moves them.
pub fn seal_archive(alloc: Global, archive: NewArchive) -> Result<SpelledArchive, AllocError>
    ensures { IfOk result (λ a. spelled_archive_view a ≡ new_archive_view archive) }
{
    let (n, kids) = archive.into_parts();
    let all = VersionSet::upto(alloc, n);
    let nodes = seal_nodes(alloc, &all, kids)?;
    Ok(SpelledArchive::new(n, nodes))
}

#[cycle(seal)]
#[tactic(auto, using(crate::proofs::Views::fulls, spelled_archive::proofs::NodeViews::nodes))]
fn seal_nodes(
    alloc: Global,
    parent: &VersionSet,
    kids: Vec<NewNode>,
) -> Result<Vec<SNode>, AllocError>
    ensures { IfOk result (λ v. map node_view v.items
        ≡ map (seal (pairs_of parent.now)) (row_view kids.items)) }
{
    let mut nodes = Vec::with_capacity(alloc, kids.len())?;
    for kid in kids {
        let node = seal_node(alloc, parent, kid)?;
        nodes.push(node)?;
    }
    Ok(nodes)
}

// A node under a parent with the set.
#[cycle(seal)]
#[tactic(auto, using(crate::proofs::Views::fulls, spelled_archive::proofs::NodeViews::nodes))]
fn seal_node(alloc: Global, parent: &VersionSet, node: NewNode) -> Result<SNode, AllocError>
    ensures { IfOk result (λ k. node_view k ≡ seal (pairs_of parent.now) (full_view node)) }
{
    match node {
        NewNode::Inner { label, set, kids } => {
            let kids = seal_nodes(alloc, &set, kids)?;
            let stamp = seal_set(parent, set);
            Ok(SNode::Inner { label, stamp, kids })
        }
        NewNode::Leaf { label, set, alts } => {
            let alts = seal_alts(alloc, &set, alts.items)?;
            let stamp = seal_set(parent, set);
            Ok(SNode::Leaf { label, stamp, alts })
        }
    }
}

fn seal_alts(alloc: Global, parent: &VersionSet, alts: Vec<NewAlt>) -> Result<Vec<Alt>, AllocError>
    ensures { IfOk result (λ v. map spelled_alt_view v.items
        ≡ map (seal_alt (pairs_of parent.now)) (map alt_view alts.items)) }
{
    let mut sealed = Vec::with_capacity(alloc, alts.len())?;
    for alt in alts {
        sealed.push(sealed_alt(parent, alt))?;
    }
    Ok(sealed)
}

fn sealed_alt(parent: &VersionSet, alt: NewAlt) -> Alt
    ensures { spelled_alt_view result ≡ seal_alt (pairs_of parent.now) (alt_view alt) }
{
    let NewAlt { set, body } = alt;
    let stamp = seal_set(parent, set);
    Alt { stamp, body }
}

// The set, where it is not that of the parent.
fn seal_set(parent: &VersionSet, set: VersionSet) -> Option<VersionSet>
    ensures { stamp_view result ≡ seal_stamp (pairs_of parent.now) (pairs_of set) }
{
    if set.same(parent) { None } else { Some(set) }
}
