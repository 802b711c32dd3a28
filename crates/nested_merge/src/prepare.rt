// Room in the sets to which a plan adds the version. What they hold stays as it is.
ghost use Rattle.std.specs.Prelude.{◌≡◌, OnOk, IsTrue, map};
ghost use Rattle.archive_tree.specs.View.{alt_view, node_view, nodes_view};
ghost use Rattle.nested_merge.specs.Below.{are_alts_below, is_node_below, are_nodes_below};
ghost use Rattle.nested_merge.specs.Plan.{steps_from};
ghost use Rattle.nested_merge.specs.PlanView.{alt_step_view, step_view, change_view};
ghost use Rattle.nested_merge.specs.Ready.{are_alts_ready, is_ready, are_ready};

use crate::plan::{AltStep, Change, Step};
use crate::stamp::prepare_stamp;
use archive_tree::{ANode, Alt};
use std::alloc::AllocError;

#[cycle(prepare)]
fn prepare_node(n: u32, change: &Change, node: &mut ANode) -> Result<(), AllocError>
    requires { IsTrue (is_node_below n (node_view node.old)) }
    ensures same { node_view node.new ≡ node_view node.old }
    ensures ready { OnOk result (IsTrue (is_ready n node.new (change_view change.now))) }
{
    match (change, node) {
        (Change::Keep(mark), ANode::Inner { stamp, .. }) => prepare_stamp(n, mark, stamp),
        (Change::Keep(mark), ANode::Leaf { stamp, .. }) => prepare_stamp(n, mark, stamp),
        (Change::Kids { mark, steps, .. }, ANode::Inner { stamp, kids, .. }) => {
            prepare_stamp(n, mark, stamp)?;
            prepare_kids(n, steps, kids)
        }
        (Change::Alts { mark, steps, .. }, ANode::Leaf { stamp, alts, .. }) => {
            prepare_stamp(n, mark, stamp)?;
            prepare_alts(n, steps, alts)
        }
        // No plan has these.
        (Change::Kids { .. }, ANode::Leaf { .. }) => Ok(()),
        (Change::Alts { .. }, ANode::Inner { .. }) => Ok(()),
    }
}

fn prepare_alts(n: u32, steps: &[AltStep], alts: &mut [Alt]) -> Result<(), AllocError>
    requires { IsTrue (are_alts_below n (map alt_view alts.old)) }
    ensures same { map alt_view alts.new ≡ map alt_view alts.old }
    ensures ready { OnOk result (IsTrue (are_alts_ready n alts.new (map alt_step_view steps.now))) }
{
    let mut i = 0;
    for step in steps {
        if let AltStep::Old(mark) = step {
            if i == alts.len() {
                return Ok(());
            }
            prepare_stamp(n, mark, &mut alts[i].stamp)?;
            i += 1;
        }
    }
    Ok(())
}

#[cycle(prepare)]
pub fn prepare_kids(n: u32, steps: &[Step], nodes: &mut [ANode]) -> Result<(), AllocError>
    requires { IsTrue (are_nodes_below n (nodes_view nodes.old)) }
    ensures same { nodes_view nodes.new ≡ nodes_view nodes.old }
    ensures ready { OnOk result (IsTrue
        (are_ready (map (is_ready n) nodes.new) (steps_from (map step_view steps.now)))) }
{
    let mut i = 0;
    for step in steps {
        if let Step::Old(change) = step {
            if i == nodes.len() {
                return Ok(());
            }
            prepare_node(n, change, &mut nodes[i])?;
            i += 1;
        }
    }
    Ok(())
}
