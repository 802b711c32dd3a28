// How deep the elements of an archive's versions nest.
ghost use Rattle.std.specs.Prelude.{◌≡◌, nat_le, nat_lt, map};
ghost use Rattle.std.specs.List.{list_all};
ghost use Rattle.jsonml_tree.specs.Data.{tree_depth, trees_depth, content_depth};
ghost use Rattle.jsonml_tree.specs.View.{tree_view, items_view};
ghost use Rattle.keyed_tree.specs.Plain.{content_of};
ghost use Rattle.keyed_tree.specs.View.{key_view};
ghost use Rattle.archive_tree.specs.Data.{PlainAlt};
ghost use Rattle.archive_tree.specs.View.{alt_view, node_view, nodes_view};
ghost use Rattle.archive_file.specs.NodeFits.{is_shallow, are_shallow};

use archive_tree::{ANode, Alt};
use jsonml_tree::Tree;
use keyed_tree::{Body, KeyVal};

/// Whether elements nest at most so deep from these nodes on. It goes no deeper than that.
#[cycle(level)]
#[tactic(auto, using(archive_tree::proofs::NodeViews::nodes))]
pub(crate) fn are_shallow(nodes: &[ANode], left: u32) -> bool
    ensures { result ≡ are_shallow left (nodes_view nodes.now) }
{
    for node in nodes {
        if node.label().name.is_tag() && !is_shallow(node, left) {
            return false;
        }
    }
    true
}

#[cycle(level)]
#[tactic(auto, using(archive_tree::proofs::NodeViews::nodes))]
fn is_shallow(node: &ANode, left: u32) -> bool
    ensures { result ≡ is_shallow left (node_view node.now) }
{
    match node {
        ANode::Inner { kids, .. } => left > 0 && are_shallow(kids, left - 1),
        ANode::Leaf { alts, .. } => are_alts_shallow(alts, left),
    }
}

fn are_alts_shallow(alts: &[Alt], left: u32) -> bool
    ensures { result ≡ list_all (λ (x : PlainAlt). nat_lt (content_depth (content_of x.body)) left)
        (map alt_view alts.now) }
{
    for alt in alts {
        if !is_body_shallow(&alt.body, left) {
            return false;
        }
    }
    true
}

#[tactic(auto, using(jsonml_tree::proofs::Trees::trees, crate::proofs::Levels::levels))]
fn is_body_shallow(body: &Body, left: u32) -> bool
    ensures { result ≡ nat_lt (content_depth (content_of (key_view body.now))) left }
{
    match body {
        KeyVal::Scalar(_) => left > 0,
        KeyVal::Content(content) => left > 0 && are_items_shallow(&content.items, left - 1),
    }
}

#[cycle(items)]
#[tactic(auto, using(jsonml_tree::proofs::Trees::trees, crate::proofs::Levels::levels))]
fn are_items_shallow(items: &[Tree], left: u32) -> bool
    ensures { result ≡ nat_le (trees_depth (items_view items.now)) left }
{
    for item in items {
        if !is_tree_shallow(item, left) {
            return false;
        }
    }
    true
}

#[cycle(items)]
#[tactic(auto, using(jsonml_tree::proofs::Trees::trees, crate::proofs::Levels::levels))]
fn is_tree_shallow(tree: &Tree, left: u32) -> bool
    ensures { result ≡ nat_le (tree_depth (tree_view tree.now)) left }
{
    match tree {
        Tree::Text(_) => true,
        Tree::Elem { content, .. } => left > 0 && are_items_shallow(&content.items, left - 1),
    }
}
