// The nodes that a plan makes. Nothing here takes memory.
ghost use Rattle.std.specs.Prelude.{◌≡◌, ◌≤◌, IsTrue, map, vec_len};
ghost use Rattle.archive_tree.specs.Data.{nodes_list};
ghost use Rattle.archive_tree.specs.View.{stamp_view, alt_view, node_view, nodes_view};
ghost use Rattle.nested_merge.specs.Plan.{keep, is_roomy, are_roomy, changed, applied_alts, applied, applied_row, steps_from};
ghost use Rattle.nested_merge.specs.PlanView.{room_of, mark_view, alt_step_view, step_view, change_view};
ghost use Rattle.nested_merge.specs.Ready.{is_stamp_ready, are_alts_ready, is_ready, are_ready};

use crate::plan::{AltStep, Change, Mark, Step};
use crate::space::{Space, put};
use crate::stamp::changed_stamp;
use archive_tree::{ANode, Alt};

fn changed_alt(n: u32, mark: Mark, old: Alt) -> Alt
    requires { IsTrue (is_stamp_ready n old.stamp (mark_view mark)) }
    ensures { alt_view result ≡ record {
      stamp = changed n (stamp_view old.stamp) (mark_view mark);
      body = (alt_view old).body;
    } }
{
    Alt {
        stamp: changed_stamp(n, old.stamp, mark),
        body: old.body,
    }
}

fn applied_alts(n: u32, steps: Vec<AltStep>, space: Space<Alt>, old: Vec<Alt>) -> Vec<Alt>
    requires room { vec_len steps ≤ room_of space }
    requires ready { IsTrue (are_alts_ready n old.items (map alt_step_view steps.items)) }
    ensures { map alt_view result.items
        ≡ applied_alts n (map alt_view old.items) (map alt_step_view steps.items) }
{
    let mut left = old.into_iter();
    let mut alts = space.into_items();
    for step in steps {
        match step {
            AltStep::New(alt) => put(&mut alts, alt),
            AltStep::Old(mark) => match left.next() {
                Some(alt) => put(&mut alts, changed_alt(n, mark, alt)),
                None => drop(mark),
            },
        }
    }
    alts
}

// A node that keeps what is below it.
fn marked_node(n: u32, mark: Mark, old: ANode) -> ANode
    requires { IsTrue (is_ready n old (keep (mark_view mark))) }
    ensures { node_view result ≡ applied n (node_view old) (keep (mark_view mark)) }
{
    match old {
        ANode::Inner { label, stamp, kids } => ANode::Inner {
            label,
            stamp: changed_stamp(n, stamp, mark),
            kids,
        },
        ANode::Leaf { label, stamp, alts } => ANode::Leaf {
            label,
            stamp: changed_stamp(n, stamp, mark),
            alts,
        },
    }
}

#[cycle(apply)]
fn applied_node(n: u32, change: Change, old: ANode) -> ANode
    requires roomy { IsTrue (is_roomy (change_view change)) }
    requires ready { IsTrue (is_ready n old (change_view change)) }
    ensures { node_view result ≡ applied n (node_view old) (change_view change) }
{
    match change {
        Change::Keep(mark) => marked_node(n, mark, old),
        Change::Kids { mark, steps, space } => match old {
            ANode::Inner { label, stamp, kids } => ANode::Inner {
                label,
                stamp: changed_stamp(n, stamp, mark),
                kids: applied_kids(n, steps, space, kids),
            },
            // No plan has this.
            leaf => leaf,
        },
        Change::Alts { mark, steps, space } => match old {
            ANode::Leaf { label, stamp, alts } => ANode::Leaf {
                label,
                stamp: changed_stamp(n, stamp, mark),
                alts: applied_alts(n, steps, space, alts),
            },
            // No plan has this.
            inner => inner,
        },
    }
}

#[cycle(apply)]
pub fn applied_kids(n: u32, steps: Vec<Step>, space: Space<ANode>, old: Vec<ANode>) -> Vec<ANode>
    requires room { vec_len steps ≤ room_of space }
    requires roomy { IsTrue (are_roomy (steps_from (map step_view steps.items))) }
    requires ready { IsTrue
        (are_ready (map (is_ready n) old.items) (steps_from (map step_view steps.items))) }
    ensures { map node_view result.items
        ≡ nodes_list
        (applied_row n (nodes_view old.items) (steps_from (map step_view steps.items))) }
{
    let mut left = old.into_iter();
    let mut kids = space.into_items();
    for step in steps {
        match step {
            Step::Fresh(node) => put(&mut kids, node),
            Step::Old(change) => match left.next() {
                Some(node) => put(&mut kids, applied_node(n, change, node)),
                None => drop(change),
            },
        }
    }
    kids
}
