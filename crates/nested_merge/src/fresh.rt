// The nodes of one version alone.
ghost use Rattle.std.specs.Prelude.{◌≡◌, IfOk, None, [], ◌∷◌, map};
ghost use Rattle.keyed_tree.specs.View.{key_view, keyed_view};
ghost use Rattle.archive_tree.specs.View.{stamp_view, alt_view, node_view};
ghost use Rattle.nested_merge.specs.Merged.{fresh};

use archive_tree::{ANode, Alt};
use keyed_tree::{Body, Keyed};
use std::alloc::{AllocError, Global};
use version_set::VersionSet;

#[cycle(fresh)]
pub fn fresh_node(
    alloc: Global,
    stamp: Option<VersionSet>,
    new: &Keyed,
) -> Result<ANode, AllocError>
    ensures { IfOk result (λ a. node_view a ≡ fresh (stamp_view stamp) (keyed_view new.now)) }
{
    match new {
        Keyed::Inner { label, kids } => Ok(ANode::Inner {
            label: label.copy(alloc)?,
            stamp,
            kids: fresh_nodes(alloc, kids)?,
        }),
        Keyed::Leaf { label, body } => Ok(ANode::Leaf {
            label: label.copy(alloc)?,
            stamp,
            alts: only_alt(alloc, body)?,
        }),
    }
}

// The alternatives of a leaf that has one body alone.
fn only_alt(alloc: Global, body: &Body) -> Result<Vec<Alt>, AllocError>
    ensures { IfOk result (λ v. map alt_view v.items
        ≡ record { stamp = None; body = key_view body.now } ∷ []) }
{
    let body = body.copy(alloc)?;
    let mut alts = Vec::with_capacity(alloc, 1)?;
    alts.push_reserved(Alt { stamp: None, body });
    Ok(alts)
}

#[cycle(fresh)]
fn fresh_nodes(alloc: Global, new: &[Keyed]) -> Result<Vec<ANode>, AllocError>
    ensures { IfOk result (λ v. map node_view v.items ≡ map (fresh None) (map keyed_view new.now)) }
{
    let mut nodes = Vec::with_capacity(alloc, new.len())?;
    for kid in new {
        nodes.push_reserved(fresh_node(alloc, None, kid)?);
    }
    Ok(nodes)
}
