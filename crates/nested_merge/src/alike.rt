// Whether a version is alike with those of an archive.
ghost use Rattle.std.specs.Prelude.{◌≡◌, ◌↔◌, List, [], ◌∷◌, IsTrue};
ghost use Rattle.keyed_tree.specs.Data.{PlainKeyed, kids_of};
ghost use Rattle.keyed_tree.specs.Kids.{IsOrdered};
ghost use Rattle.keyed_tree.specs.View.{keyed_view};
ghost use Rattle.archive_tree.specs.ArchiveView.{archive_view};
ghost use Rattle.archive_tree.specs.Stands.{ArchiveOf};
ghost use Rattle.archive_tree.specs.View.{node_view, nodes_view};
ghost use Rattle.nested_merge.specs.Alike.{AlikeAll};
ghost use Rattle.nested_merge.specs.Fits.{fits, all_fit};

use archive_tree::{ANode, Archive};
use keyed_tree::Keyed;

/// Whether a path that the version and an old one hold ends in an inner node in both or in a leaf
/// in both, as `merge` asks. It takes no memory, and recurses as deep as nodes nest.
pub fn is_alike(old: &Archive, new: &Keyed) -> bool
    requires { IsOrdered (keyed_view new.now) }
    ensures { IsTrue result
        ↔ ((vs : List PlainKeyed) → ArchiveOf vs (archive_view old.now)
        → AlikeAll vs (keyed_view new.now)) }
{
    root_fits(old.kids(), new)
}

fn root_fits(nodes: &[ANode], tree: &Keyed) -> bool
    requires { IsOrdered (keyed_view tree.now) }
    ensures { result ≡ all_fit (nodes_view nodes.now) (keyed_view tree.now ∷ []) }
{
    for node in nodes {
        if tree.label().order(node.label()).is_eq() && !fits(node, tree) {
            return false;
        }
    }
    true
}

#[cycle(fits)]
fn fits(node: &ANode, tree: &Keyed) -> bool
    requires { IsOrdered (keyed_view tree.now) }
    ensures { result ≡ fits (node_view node.now) (keyed_view tree.now) }
{
    match (node, tree) {
        (ANode::Inner { kids, .. }, Keyed::Inner { .. }) => all_fit(kids, tree),
        (ANode::Leaf { .. }, Keyed::Leaf { .. }) => true,
        _ => false,
    }
}

#[cycle(fits)]
fn all_fit(nodes: &[ANode], tree: &Keyed) -> bool
    requires { IsOrdered (keyed_view tree.now) }
    ensures { result ≡ all_fit (nodes_view nodes.now) (kids_of (keyed_view tree.now)) }
{
    for node in nodes {
        if let Some(kid) = tree.find(node.label()) {
            if !fits(node, kid) {
                return false;
            }
        }
    }
    true
}
