// The nodes of an archive in memory.
ghost use Rattle.std.specs.Prelude.{◌≡◌};
ghost use Rattle.keyed_tree.specs.View.{label_view};
ghost use Rattle.archive_tree.specs.Data.{node_label, node_stamp};
ghost use Rattle.archive_tree.specs.Stands.{Kept};
ghost use Rattle.archive_tree.specs.View.{stamp_view};
ghost use Rattle.spelled_archive.specs.View.{node_view, nodes_view};

use crate::body::KeptBody;
use keyed_tree::Label;
use std::alloc::Global;
use version_set::VersionSet;

/// One of the bodies that a leaf has had, with the versions that have it, where they are not all
/// the leaf's.
#[derive(Drop)]
pub struct Alt {
    pub stamp: Option<VersionSet>,
    pub body: KeptBody,
}

/// A node with the versions that have it, where they are not all that have its parent.
#[derive(Drop)]
pub enum SNode {
    Inner {
        label: Label,
        stamp: Option<VersionSet>,
        kids: Vec<SNode>,
    },
    Leaf {
        label: Label,
        stamp: Option<VersionSet>,
        alts: Vec<Alt>,
    },
}

/// The archive of one list of versions, which are numbered from 1.
#[derive(Drop)]
pub struct SpelledArchive {
    n: u32,
    kids: Vec<SNode>,
    pub ghost stands: { ∥ Kept (record { n = n; kids = nodes_view kids.items }) ∥₁ },
}

impl SNode {
    /// The label of this node. It takes no memory.
    pub fn label(&self) -> &Label
        ensures { label_view result.now ≡ node_label (node_view self.now) }
    {
        match self {
            SNode::Inner { label, .. } => label,
            SNode::Leaf { label, .. } => label,
        }
    }

    /// The set that this node stores, if it stores one. It takes no memory.
    pub fn stamp(&self) -> &Option<VersionSet>
        ensures { stamp_view result.now ≡ node_stamp (node_view self.now) }
    {
        match self {
            SNode::Inner { stamp, .. } => stamp,
            SNode::Leaf { stamp, .. } => stamp,
        }
    }
}

impl SpelledArchive {
    ghost use Rattle.std.specs.Prelude.{◌≡◌, []};
    ghost use Rattle.archive_tree.specs.Stands.{ArchiveOf};
    ghost use Rattle.spelled_archive.specs.ArchiveView.{spelled_archive_view};

    /// The archive of no versions. It takes no memory.
    pub fn empty(alloc: Global) -> SpelledArchive
        ensures { ArchiveOf [] (spelled_archive_view result) }
    {
        SpelledArchive {
            n: 0,
            kids: Vec::new(alloc),
        }
    }

    /// The archive of these parts. It takes no memory.
    pub fn new(n: u32, kids: Vec<SNode>) -> SpelledArchive
        requires { ∥ Kept (record { n = n; kids = nodes_view kids.items }) ∥₁ }
        ensures { spelled_archive_view result ≡ record { n = n; kids = nodes_view kids.items } }
    {
        SpelledArchive { n, kids }
    }

    /// The number of versions, and the kids of the virtual root. It takes no memory.
    pub fn into_parts(self) -> (u32, Vec<SNode>)
        ensures parts { record { n = result.0; kids = nodes_view result.1.items }
            ≡ spelled_archive_view self }
        ensures stands { ∥ Kept (record { n = result.0; kids = nodes_view result.1.items }) ∥₁ }
    {
        (self.n, self.kids)
    }

    /// The number of versions. It takes no memory.
    pub fn n(&self) -> u32
        ensures { result ≡ (spelled_archive_view self.now).n }
    {
        self.n
    }

    /// The kids of the virtual root, in ascending order of their labels. It takes no memory.
    pub fn kids(&self) -> &[SNode]
        ensures { nodes_view result.now ≡ (spelled_archive_view self.now).kids }
    {
        &self.kids
    }
}
