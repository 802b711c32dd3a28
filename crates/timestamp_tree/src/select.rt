// Searching a tree.
ghost use Rattle.std.specs.Prelude.{◌≡◌, ◌+◌, ◌≤◌, ◌^◌, ◌++◌, length, OnOk, OnErr};
ghost use Rattle.timestamp_tree.specs.Data.{leaves};
ghost use Rattle.timestamp_tree.specs.Tree.{IsTree};
ghost use Rattle.timestamp_tree.specs.Search.{answers_from, visits};
ghost use Rattle.timestamp_tree.specs.Prefix.{AppendsPrefix};
ghost use Rattle.timestamp_tree.specs.PartView.{part_view};
ghost use Rattle.xa_fields.specs.declared.limits.TheConstants.{FIELD};

use crate::part::Part;
use crate::steps::Steps;
use std::alloc::AllocError;
use std::sync::ledger::Ledger;

/// Appends the positions of the sets that hold i. The tree is over `count` sets, the first of
/// which has the position `first`.
#[tactic(auto, using(crate::proofs::Views::views))]
pub fn select_from<L: Ledger>(
    node: &Part,
    i: u32,
    first: u32,
    count: u32,
    out: &mut Vec<u32>,
    steps: &mut Steps<L>,
) -> Result<(), AllocError>
    requires tree { IsTree (part_view node.now) }
    requires count { count ≡ length (leaves (part_view node.now)) }
    requires few { first + count ≤ FIELD }
    ensures ok { OnOk result (out.new.items
        ≡ out.old.items ++ answers_from i first (leaves (part_view node.now))) }
    ensures err { OnErr result (AppendsPrefix out.old.items out.new.items
        (answers_from i first (leaves (part_view node.now)))) }
    ensures exact { OnOk result (steps.new ≡ steps.old + visits (part_view node.now) i) }
    ensures cost { steps.new ≤ steps.old + visits (part_view node.now) i }
{
    steps.tick();
    match node {
        Part::Leaf { set } => {
            if set.contains(i) {
                out.push(first)?;
            }
            Ok(())
        }
        Part::Inner {
            set,
            left,
            right,
            ..
        } => {
            if !set.contains(i) {
                return Ok(());
            }
            let half = count.div_ceil(2);
            select_from(left, i, first, half, out, steps)?;
            select_from(right, i, first + half, count - half, out, steps)
        }
    }
}
