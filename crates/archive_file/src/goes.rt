// Which nodes go into the fields of a file.
ghost use Rattle.std.specs.Prelude.{◌≡◌, map};
ghost use Rattle.archive_tree.specs.View.{alt_view, node_view, nodes_view};
ghost use Rattle.archive_file.specs.Goes.{alts_go, node_goes, nodes_go, row_goes};

use archive_tree::{ANode, Alt};
use record_format::{is_label, is_stamp, is_value};
use xa_fields::FIELD;

fn alts_go(alts: &[Alt]) -> bool
    ensures { result ≡ alts_go (map alt_view alts.now) }
{
    for alt in alts {
        if !is_stamp(&alt.stamp) || !is_value(&alt.body) {
            return false;
        }
    }
    true
}

#[cycle(nodes)]
#[tactic(auto, using(archive_tree::proofs::NodeViews::nodes, jsonml_tree::proofs::Trees::trees))]
fn node_goes(node: &ANode) -> bool
    ensures { result ≡ node_goes (node_view node.now) }
{
    match node {
        ANode::Inner { label, stamp, kids } => {
            if !is_label(label) || !is_stamp(stamp) || kids.len() >= FIELD {
                return false;
            }
            nodes_go(kids)
        }
        ANode::Leaf { label, stamp, alts } => {
            is_label(label) && is_stamp(stamp) && alts_go(alts)
        }
    }
}

#[cycle(nodes)]
#[tactic(auto, using(archive_tree::proofs::NodeViews::nodes))]
fn nodes_go(nodes: &[ANode]) -> bool
    ensures { result ≡ nodes_go (nodes_view nodes.now) }
{
    for node in nodes {
        if !node_goes(node) {
            return false;
        }
    }
    true
}

/// Whether the nodes have an encoding as far as lengths, counts, depths and numbers go.
#[tactic(auto, using(archive_tree::proofs::NodeViews::nodes, jsonml_tree::proofs::Trees::trees))]
pub fn row_goes(nodes: &[ANode]) -> bool
    ensures { result ≡ row_goes (nodes_view nodes.now) }
{
    nodes.len() < FIELD && nodes_go(nodes)
}
