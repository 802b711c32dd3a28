// The nodes of an archive that grows.
ghost use Rattle.std.specs.Prelude.{◌≡◌};
ghost use Rattle.keyed_tree.specs.View.{label_view};
ghost use Rattle.version_set.specs.Members.{upto_pairs};
ghost use Rattle.archive_tree.specs.Stands.{Kept};
ghost use Rattle.new_archive.specs.Full.{full_label, fulls_from};
ghost use Rattle.new_archive.specs.Sealed.{seal_row};
ghost use Rattle.new_archive.specs.View.{full_view, row_view};

use crate::bodies::Alts;
use keyed_tree::Label;
use spelled_archive::KeptBody;
use std::alloc::Global;
use version_set::VersionSet;

/// One of the bodies that a leaf has had, with the versions that have it.
#[derive(Drop)]
pub struct NewAlt {
    pub set: VersionSet,
    pub body: KeptBody,
}

/// A node with the versions that have it.
///
/// Kids stand in the order of their labels, alternatives in that of their first versions.
#[derive(Drop)]
pub enum NewNode {
    Inner {
        label: Label,
        set: VersionSet,
        kids: Vec<NewNode>,
    },
    Leaf {
        label: Label,
        set: VersionSet,
        alts: Alts,
    },
}

/// The archive of one list of versions, which are numbered from 1, while it grows.
#[derive(Drop)]
pub struct NewArchive {
    n: u32,
    kids: Vec<NewNode>,
    pub ghost stands: { ∥ Kept (record {
      n = n;
      kids = seal_row (upto_pairs n) (fulls_from (row_view kids.items));
    }) ∥₁ },
}

impl NewNode {
    /// The label of this node. It takes no memory.
    pub fn label(&self) -> &Label
        ensures { label_view result.now ≡ full_label (full_view self.now) }
    {
        match self {
            NewNode::Inner { label, .. } => label,
            NewNode::Leaf { label, .. } => label,
        }
    }
}

impl NewArchive {
    ghost use Rattle.std.specs.Prelude.{◌≡◌, []};
    ghost use Rattle.archive_tree.specs.Stands.{ArchiveOf, Kept};
    ghost use Rattle.version_set.specs.Members.{upto_pairs};
    ghost use Rattle.new_archive.specs.ArchiveView.{new_archive_view};
    ghost use Rattle.new_archive.specs.Full.{fulls_from};
    ghost use Rattle.new_archive.specs.Sealed.{seal_row};
    ghost use Rattle.new_archive.specs.View.{row_view};

    /// The archive of no versions. It takes no memory.
    pub fn empty(alloc: Global) -> NewArchive
        ensures { ArchiveOf [] (new_archive_view result) }
    {
        NewArchive {
            n: 0,
            kids: Vec::new(alloc),
        }
    }

    // The archive of these parts.
    pub(crate) fn new(n: u32, kids: Vec<NewNode>) -> NewArchive
        requires { ∥ Kept (record {
          n = n;
          kids = seal_row (upto_pairs n) (fulls_from (row_view kids.items));
        }) ∥₁ }
        ensures { new_archive_view result ≡ record {
          n = n;
          kids = seal_row (upto_pairs n) (fulls_from (row_view kids.items));
        } }
    {
        NewArchive { n, kids }
    }

    // The number of versions, and the kids of the virtual root.
    pub(crate) fn into_parts(self) -> (u32, Vec<NewNode>)
        ensures parts { record {
          n = result.0;
          kids = seal_row (upto_pairs result.0) (fulls_from (row_view result.1.items));
        } ≡ new_archive_view self }
        ensures stands { ∥ Kept (record {
          n = result.0;
          kids = seal_row (upto_pairs result.0) (fulls_from (row_view result.1.items));
        }) ∥₁ }
    {
        (self.n, self.kids)
    }

    /// The number of versions. It takes no memory.
    pub fn n(&self) -> u32
        ensures { result ≡ (new_archive_view self.now).n }
    {
        self.n
    }
}
