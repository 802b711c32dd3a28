ghost use Rattle.std.specs.Prelude.{◌≡◌, ◌+◌, ◌*◌, ◌≤◌, ◌<◌, ◌^◌, ◌++◌, length, map, IfOk, OnOk, OnErr};
ghost use Rattle.version_set.specs.View.{pairs_of};
ghost use Rattle.xa_fields.specs.declared.limits.TheConstants.{FIELD};
ghost use Rattle.timestamp_tree.specs.Data.{leaves, height};
ghost use Rattle.timestamp_tree.specs.Bytes.{tree_bytes};
ghost use Rattle.timestamp_tree.specs.Tree.{IsTree, IsTree-prop, tree_of};
ghost use Rattle.timestamp_tree.specs.Search.{answers, visits};
ghost use Rattle.timestamp_tree.specs.Prefix.{AppendsPrefix};
ghost use Rattle.timestamp_tree.specs.PartView.{part_view};

use crate::build::build;
use crate::encode::put_node;
use crate::lend::lend_sets;
use crate::part::{Part, height_of};
use crate::select::select_from;
use crate::steps::Steps;
use std::alloc::{AllocError, Global};
use std::sync::ledger::Ledger;
use version_set::VersionSet;

/// A binary tree over a list of sets.
///
/// Its leaves are the sets, and each inner node has the union of the sets below it.
#[derive(Drop)]
pub struct TsTree {
    root: Part,
    count: u32,
    size: u64,
    pub ghost is_tree: { IsTree (part_view root) } by { IsTree-prop (part_view root) },
    ghost counted: { count ≡ length (leaves (part_view root)) },
    ghost few: { length (leaves (part_view root)) < FIELD },
    ghost sized: { size ≡ length (tree_bytes (part_view root)) },
}

impl TsTree {
    ghost use Rattle.timestamp_tree.specs.View.{ts_view};

    /// The tree over these sets.
    ///
    /// It copies each of them once, and makes one union for each inner node.
    pub fn of(alloc: Global, sets: &[VersionSet]) -> Result<TsTree, AllocError>
        requires some { 1 ≤ length sets.now }
        requires few { length sets.now < FIELD }
        ensures tree { IfOk result (λ tree. ts_view tree ≡ tree_of (map pairs_of sets.now)) }
        ensures leaves { IfOk result (λ tree.
            leaves (ts_view tree) ≡ map pairs_of sets.now) }
    {
        let lent = lend_sets(alloc, sets)?;
        TsTree::over(alloc, &lent)
    }

    /// The tree over these sets, which are lent.
    pub fn over(alloc: Global, sets: &[&VersionSet]) -> Result<TsTree, AllocError>
        requires some { 1 ≤ length sets.now }
        requires few { length sets.now < FIELD }
        ensures tree { IfOk result (λ tree.
            ts_view tree ≡ tree_of (map (λ s. pairs_of s.now) sets.now)) }
        ensures leaves { IfOk result (λ tree.
            leaves (ts_view tree) ≡ map (λ s. pairs_of s.now) sets.now) }
    {
        let (root, size) = build(alloc, sets)?;
        let count = sets.len() as u32;
        Ok(TsTree { root, count, size })
    }

    /// The number of levels below the root.
    pub fn height(&self) -> u32
        ensures { result ≡ height (ts_view self.now) }
    {
        height_of(&self.root)
    }

    /// Appends the positions, from 0, of the sets that hold i, and on a refusal the first of them.
    ///
    /// A step is a visited node. The memory is the row's own allocator's.
    pub fn select<L: Ledger>(
        &self,
        _alloc: Global,
        i: u32,
        out: &mut Vec<u32>,
        steps: &mut Steps<L>,
    ) -> Result<(), AllocError>
        ensures ok { OnOk result (out.new.items
            ≡ out.old.items ++ answers (leaves (ts_view self.now)) i) }
        ensures err { OnErr result (AppendsPrefix out.old.items out.new.items
            (answers (leaves (ts_view self.now)) i)) }

        // It visits as many nodes as are to be visited, and no more on a refusal.
        ensures exact { OnOk result (steps.new ≡ steps.old + visits (ts_view self.now) i) }
        ensures cost { steps.new ≤ steps.old + visits (ts_view self.now) i }

        // Each visited inner node that has i is above an answer, and adds two visits.
        ensures bound { visits (ts_view self.now) i
            ≤ 1 + 2 * length (answers (leaves (ts_view self.now)) i) * height (ts_view self.now) }
    {
        select_from(&self.root, i, 0, self.count, out, steps)
    }

    /// Appends the nodes in preorder: the set, the byte size of the left part or 0, the left part
    /// and the right part. On a refusal nothing changes. The memory is the row's own allocator's.
    pub fn encode(&self, _alloc: Global, out: &mut Vec<u8>) -> Result<(), AllocError>
        ensures ok { OnOk result (out.new.items
            ≡ out.old.items ++ tree_bytes (ts_view self.now)) }
        ensures err { OnErr result (out.new.items ≡ out.old.items) }
    {
        let before = out.len();
        out.reserve(self.size as usize)?;
        if put_node(out, &self.root).is_err() {
            out.truncate(before);
            return Err(AllocError);
        }
        Ok(())
    }
}
