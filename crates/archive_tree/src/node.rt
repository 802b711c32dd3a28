// The nodes of an archive.
ghost use Rattle.std.specs.Prelude.{◌≡◌, map, IsTrue};
ghost use Rattle.std.specs.Option.{option_map, unwrap_or};
ghost use Rattle.version_set.specs.Members.{members};
ghost use Rattle.version_set.specs.View.{pairs_of};
ghost use Rattle.keyed_tree.specs.View.{label_view};
ghost use Rattle.archive_tree.specs.Data.{eff, node_label, node_stamp, node_kids};
ghost use Rattle.archive_tree.specs.Stands.{labels};
ghost use Rattle.archive_tree.specs.Seek.{node_with, rise};
ghost use Rattle.archive_tree.specs.View.{stamp_view, node_view, nodes_view};

use keyed_tree::{Body, Label};
use version_set::VersionSet;

/// One of the bodies that a leaf has had, with the versions that have it, where they are not all
/// the leaf's.
#[derive(Debug, Drop)]
pub struct Alt {
    pub stamp: Option<VersionSet>,
    pub body: Body,
}

/// A node with the versions that have it, where they are not all that have its parent.
#[derive(Debug, Drop)]
pub enum ANode {
    Inner {
        label: Label,
        stamp: Option<VersionSet>,
        kids: Vec<ANode>,
    },
    Leaf {
        label: Label,
        stamp: Option<VersionSet>,
        alts: Vec<Alt>,
    },
}

impl ANode {
    /// The label of this node. It takes no memory.
    pub fn label(&self) -> &Label
        ensures { label_view result.now ≡ node_label (node_view self.now) }
    {
        match self {
            ANode::Inner { label, .. } => label,
            ANode::Leaf { label, .. } => label,
        }
    }

    /// The set that this node stores, if it stores one. It takes no memory.
    pub fn stamp(&self) -> &Option<VersionSet>
        ensures { stamp_view result.now ≡ node_stamp (node_view self.now) }
    {
        match self {
            ANode::Inner { stamp, .. } => stamp,
            ANode::Leaf { stamp, .. } => stamp,
        }
    }

    /// The kids of an inner node, and none of a leaf. It takes no memory.
    #[tactic(auto, using(crate::proofs::NodeViews::nodes))]
    pub fn kids(&self) -> &[ANode]
        ensures { nodes_view result.now ≡ node_kids (node_view self.now) }
    {
        match self {
            ANode::Inner { kids, .. } => kids,
            ANode::Leaf { .. } => &[],
        }
    }
}

/// The stored set, else the parent's. It takes no memory.
pub fn effective<'a>(stamp: &'a Option<VersionSet>, parent: &'a VersionSet) -> &'a VersionSet
    ensures members { members (pairs_of result.now)
        ≡ eff (stamp_view stamp.now) (members (pairs_of parent.now)) }
    ensures pairs { pairs_of result.now ≡ unwrap_or (stamp_view stamp.now) (pairs_of parent.now) }
{
    match stamp {
        Some(set) => set,
        None => parent,
    }
}

/// The node with that label, by halving. It takes no memory.
pub(crate) fn find_node<'a>(nodes: &'a [ANode], label: &Label) -> Option<&'a ANode>
    requires { IsTrue (rise (labels (nodes_view nodes.now))) }
    ensures { option_map (λ k. node_view k.now) result
        ≡ node_with (label_view label.now) (map node_view nodes.now) }
{
    match nodes.binary_search_by(|node| node.label().order(label)) {
        Ok(at) => Some(&nodes[at]),
        Err(_) => None,
    }
}
