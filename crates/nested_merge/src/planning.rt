// The plan of one more version, and room for each row that it makes.
ghost use Rattle.std.specs.Prelude.{◌≡◌, ◌+◌, ◌≤◌, ◌<◌, [], ◌∷◌, IfOk, IsTrue, map, vec_len};
ghost use Rattle.version_set.specs.Members.{upto_pairs};
ghost use Rattle.version_set.specs.View.{pairs_of};
ghost use Rattle.keyed_tree.specs.Data.{kids_from};
ghost use Rattle.keyed_tree.specs.Kids.{ascend, are_ordered, IsOrdered};
ghost use Rattle.keyed_tree.specs.View.{key_view, keyed_view};
ghost use Rattle.archive_tree.specs.View.{alt_view, node_view, nodes_view};
ghost use Rattle.nested_merge.specs.Plan.{steps_list, gone_step, started_step, planned_alts, planned, planned_row};
ghost use Rattle.nested_merge.specs.PlanView.{room_of, alt_step_view, step_view, change_view};

use crate::fresh::fresh_node;
use crate::plan::{AltStep, Change, Mark, Plan, Step};
use crate::space::Space;
use crate::stamp::{kept_mark, started_stamp};
use archive_tree::{ANode, Alt, effective};
use keyed_tree::{Body, Keyed};
use std::alloc::{AllocError, Global};
use std::cmp::Ordering;
use std::slice;
use version_set::VersionSet;

// The kids of the virtual root, for n versions, with those of one more.
pub fn plan_of(alloc: Global, n: u32, old: &[ANode], new: &Keyed) -> Result<Plan, AllocError>
    requires room { n < 4294967295 }
    requires ordered { IsOrdered (keyed_view new.now) }
    ensures steps { IfOk result (λ p. map step_view p.steps.items
        ≡ steps_list
        (planned_row (n + 1) (upto_pairs n) (nodes_view old.now) (keyed_view new.now ∷ []))) }
    ensures room { IfOk result (λ p. vec_len p.steps ≤ room_of p.space) }
{
    let all = VersionSet::upto(alloc, n);
    let steps = planned_kids(alloc, n + 1, &all, old, slice::from_ref(new))?;
    let space = Space::new(alloc, steps.len())?;
    Ok(Plan { steps, space })
}

// The alternatives of a leaf that had the set, with its body in version n.
fn planned_alts(
    alloc: Global,
    n: u32,
    set: &VersionSet,
    alts: &[Alt],
    body: &Body,
) -> Result<Vec<AltStep>, AllocError>
    requires { 1 ≤ n }
    ensures { IfOk result (λ v. map alt_step_view v.items
        ≡ planned_alts n (pairs_of set.now) (key_view body.now) (map alt_view alts.now)) }
{
    let mut steps = Vec::with_capacity(alloc, alts.len() + 1)?;
    let mut found = false;
    for alt in alts {
        if alt.body.order(body).is_eq() {
            found = true;
            steps.push_reserved(AltStep::Old(Mark::Grow));
        } else {
            steps.push_reserved(AltStep::Old(kept_mark(set, &alt.stamp)?));
        }
    }
    if !found {
        steps.push_reserved(AltStep::New(Alt {
            stamp: Some(VersionSet::single(alloc, n)),
            body: body.copy(alloc)?,
        }));
    }
    Ok(steps)
}

// A node, under a parent that had the set, with its tree in version n.
#[cycle(plan)]
fn planned_node(
    alloc: Global,
    n: u32,
    parent: &VersionSet,
    old: &ANode,
    new: &Keyed,
) -> Result<Change, AllocError>
    requires from { 1 ≤ n }
    requires ordered { IsOrdered (keyed_view new.now) }
    ensures { IfOk result (λ c. change_view c
        ≡ planned n (pairs_of parent.now) (node_view old.now) (keyed_view new.now)) }
{
    match (old, new) {
        (ANode::Inner { stamp, kids, .. }, Keyed::Inner { kids: more, .. }) => {
            let steps = planned_kids(alloc, n, effective(stamp, parent), kids, more)?;
            let space = Space::new(alloc, steps.len())?;
            Ok(Change::Kids {
                mark: Mark::Grow,
                steps,
                space,
            })
        }
        (ANode::Leaf { stamp, alts, .. }, Keyed::Leaf { body, .. }) => {
            let steps = planned_alts(alloc, n, effective(stamp, parent), alts, body)?;
            let space = Space::new(alloc, steps.len())?;
            Ok(Change::Alts {
                mark: Mark::Grow,
                steps,
                space,
            })
        }
        // Between alike versions this does not come.
        (ANode::Inner { .. }, Keyed::Leaf { .. }) => Ok(Change::Keep(Mark::Stay)),
        (ANode::Leaf { .. }, Keyed::Inner { .. }) => Ok(Change::Keep(Mark::Stay)),
    }
}

// The kids of a node that had the set, with its kids in version n: a walk along both rows, in the
// order of the labels.
#[cycle(plan)]
fn planned_kids(
    alloc: Global,
    n: u32,
    set: &VersionSet,
    old: &[ANode],
    new: &[Keyed],
) -> Result<Vec<Step>, AllocError>
    requires from { 1 ≤ n }
    requires ascending { IsTrue (ascend (kids_from (map keyed_view new.now))) }
    requires ordered { IsTrue (are_ordered (kids_from (map keyed_view new.now))) }
    ensures { IfOk result (λ v. map step_view v.items
        ≡ steps_list
        (planned_row n (pairs_of set.now) (nodes_view old.now) (map keyed_view new.now))) }
{
    let mut steps = Vec::with_capacity(alloc, old.len())?;
    let mut i = 0;
    let mut j = 0;
    loop {
        match (old.get(i), new.get(j)) {
            (None, None) => return Ok(steps),
            (Some(node), None) => {
                steps.push(gone_step(set, node)?)?;
                i += 1;
            }
            (None, Some(kid)) => {
                steps.push(started_step(alloc, n, set, kid)?)?;
                j += 1;
            }
            (Some(node), Some(kid)) => match kid.label().order(node.label()) {
                Ordering::Less => {
                    steps.push(started_step(alloc, n, set, kid)?)?;
                    j += 1;
                }
                Ordering::Equal => {
                    steps.push(Step::Old(planned_node(alloc, n, set, node, kid)?))?;
                    i += 1;
                    j += 1;
                }
                Ordering::Greater => {
                    steps.push(gone_step(set, node)?)?;
                    i += 1;
                }
            },
        }
    }
}

// A node that version n does not have, while its parent, with the set before, does.
#[tactic(auto, using(crate::proofs::Plans::plans))]
fn gone_step(parent: &VersionSet, node: &ANode) -> Result<Step, AllocError>
    ensures { IfOk result
        (λ s. step_view s ≡ gone_step (pairs_of parent.now) (node_view node.now)) }
{
    Ok(Step::Old(Change::Keep(kept_mark(parent, node.stamp())?)))
}

// A node that begins with version n, under a parent that had the set before.
#[tactic(auto, using(crate::proofs::Plans::plans))]
fn started_step(alloc: Global, n: u32, parent: &VersionSet, kid: &Keyed) -> Result<Step, AllocError>
    requires { 1 ≤ n }
    ensures { IfOk result
        (λ s. step_view s ≡ started_step n (pairs_of parent.now) (keyed_view kid.now)) }
{
    Ok(Step::Fresh(fresh_node(alloc, started_stamp(alloc, n, parent), kid)?))
}
