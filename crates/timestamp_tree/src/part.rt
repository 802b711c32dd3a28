ghost use Rattle.std.specs.Prelude.{◌≡◌, ◌+◌, ◌<◌, ◌^◌};
ghost use Rattle.timestamp_tree.specs.Data.{top, height};
ghost use Rattle.timestamp_tree.specs.PartView.{part_view};
ghost use Rattle.version_set.specs.View.{pairs_of};
ghost use Rattle.xa_fields.specs.declared.limits.TheConstants.{FIELD};

use version_set::VersionSet;

/// A tree over some of the sets, as a part of a tree has it.
#[derive(Drop)]
pub enum Part {
    Leaf {
        set: VersionSet,
    },
    Inner {
        /// The union of the sets below.
        set: VersionSet,
        /// The byte size of the left part.
        left_size: u64,
        left: Box<Part>,
        right: Box<Part>,
    },
}

/// The union of the sets of a tree.
pub fn set_of(node: &Part) -> &VersionSet
    ensures { pairs_of result.now ≡ top (part_view node.now) }
{
    match node {
        Part::Leaf { set } => set,
        Part::Inner { set, .. } => set,
    }
}

/// The number of levels below the root.
pub fn height_of(node: &Part) -> u32
    requires { height (part_view node.now) < FIELD }
    ensures { result ≡ height (part_view node.now) }
{
    match node {
        Part::Leaf { .. } => 0,
        Part::Inner { left, right, .. } => height_of(left).max(height_of(right)) + 1,
    }
}
