use crate::space::Space;
use archive_tree::{ANode, Alt};
use version_set::VersionSet;

/// What becomes of a stamp.
#[derive(Drop)]
pub enum Mark {
    /// It stays as it is.
    Stay,
    /// The version is added to the stored set, if there is one.
    Grow,
    /// This set is stored.
    Store(VersionSet),
}

/// A step along the alternatives of a leaf.
#[derive(Drop)]
pub enum AltStep {
    /// The next alternative.
    Old(Mark),
    New(Alt),
}

/// A step along a row of nodes.
#[cycle(plan)]
#[derive(Drop)]
pub enum Step {
    /// A node that the version alone has.
    Fresh(ANode),
    /// The next node.
    Old(Change),
}

/// What becomes of a node: of its stamp, and of what lies below it.
#[cycle(plan)]
#[derive(Drop)]
pub enum Change {
    Keep(Mark),
    Kids {
        mark: Mark,
        steps: Vec<Step>,
        space: Space<ANode>,
    },
    Alts {
        mark: Mark,
        steps: Vec<AltStep>,
        space: Space<Alt>,
    },
}

/// What one more version changes along the kids of the virtual root, with room for each row and all
/// that is new.
#[derive(Drop)]
pub struct Plan {
    pub steps: Vec<Step>,
    pub space: Space<ANode>,
}
