// One version of an archive's nodes.
ghost use Rattle.std.specs.Prelude.{◌≡◌, IfOk, map};
ghost use Rattle.std.specs.Option.{option_map};
ghost use Rattle.version_set.specs.Members.{members};
ghost use Rattle.version_set.specs.View.{pairs_of};
ghost use Rattle.keyed_tree.specs.Data.{kids_list};
ghost use Rattle.keyed_tree.specs.View.{key_view, label_view, keyed_view};
ghost use Rattle.archive_tree.specs.Read.{body_at, read, read_row, read_root};
ghost use Rattle.archive_tree.specs.Seek.{seek, members_in, AreRowsSorted};
ghost use Rattle.archive_tree.specs.View.{alt_view, node_view, nodes_view};

use crate::node::{ANode, Alt, effective, find_node};
use jsonml_tree::Scalar;
use keyed_tree::{Body, Keyed, Label};
use std::alloc::{AllocError, Global};
use version_set::VersionSet;

/// The tree of a node in a version that has it. Only what that version holds is copied.
#[cycle(read)]
pub fn read_node(
    alloc: Global,
    i: u32,
    parent: &VersionSet,
    node: &ANode,
) -> Result<Keyed, AllocError>
    ensures { IfOk result (λ k. keyed_view k
        ≡ read i (members (pairs_of parent.now)) (node_view node.now)) }
{
    let set = effective(node.stamp(), parent);
    match node {
        ANode::Inner { label, kids, .. } => Ok(Keyed::Inner {
            label: label.copy(alloc)?,
            kids: read_kids(alloc, i, set, kids)?,
        }),
        ANode::Leaf { label, alts, .. } => Ok(Keyed::Leaf {
            label: label.copy(alloc)?,
            body: read_body(alloc, i, set, alts)?,
        }),
    }
}

/// The version of that number, of the kids of the virtual root, which has the set.
pub fn read_version(
    alloc: Global,
    i: u32,
    all: &VersionSet,
    nodes: &[ANode],
) -> Result<Option<Keyed>, AllocError>
    ensures { IfOk result (λ o. option_map keyed_view o
        ≡ read_root i (members (pairs_of all.now)) (nodes_view nodes.now)) }
{
    for node in nodes {
        if effective(node.stamp(), all).contains(i) {
            return Ok(Some(read_node(alloc, i, all, node)?));
        }
    }
    Ok(None)
}

#[cycle(read)]
fn read_kids(
    alloc: Global,
    i: u32,
    set: &VersionSet,
    nodes: &[ANode],
) -> Result<Vec<Keyed>, AllocError>
    ensures { IfOk result (λ v. map keyed_view v.items
        ≡ kids_list (read_row i (members (pairs_of set.now)) (nodes_view nodes.now))) }
{
    let mut kids = Vec::new(alloc);
    for node in nodes {
        if effective(node.stamp(), set).contains(i) {
            kids.push(read_node(alloc, i, set, node)?)?;
        }
    }
    Ok(kids)
}

fn read_body(alloc: Global, i: u32, set: &VersionSet, alts: &[Alt]) -> Result<Body, AllocError>
    ensures { IfOk result (λ b. key_view b
        ≡ body_at i (members (pairs_of set.now)) (map alt_view alts.now)) }
{
    for alt in alts {
        if effective(&alt.stamp, set).contains(i) {
            return alt.body.copy(alloc);
        }
    }
    // This does not come: a leaf of an archive has a body in each of its versions.
    Ok(Body::Scalar(Scalar::Null))
}

/// The set of the node that the path leads to, below nodes whose parent has the set.
pub fn follow<'a>(all: &'a VersionSet, nodes: &'a [ANode], path: &[Label]) -> Option<&'a VersionSet>
    requires { AreRowsSorted (nodes_view nodes.now) }
    ensures { seek (map label_view path.now) (members (pairs_of all.now)) (nodes_view nodes.now)
        ≡ members_in (option_map (λ s. pairs_of s.now) result) }
{
    let mut set = all;
    let mut nodes = nodes;
    for label in path {
        let Some(node) = find_node(nodes, label) else {
            return None;
        };
        set = effective(node.stamp(), set);
        nodes = node.kids();
    }
    Some(set)
}
