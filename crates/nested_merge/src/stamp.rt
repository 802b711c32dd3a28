// The stamps that a version changes.
ghost use Rattle.std.specs.Prelude.{◌≡◌, ◌≤◌, IfOk, OnOk, IsTrue};
ghost use Rattle.version_set.specs.View.{pairs_of};
ghost use Rattle.archive_tree.specs.View.{stamp_view};
ghost use Rattle.nested_merge.specs.Merged.{started};
ghost use Rattle.nested_merge.specs.Plan.{changed, kept_mark};
ghost use Rattle.nested_merge.specs.PlanView.{mark_view};
ghost use Rattle.nested_merge.specs.Below.{is_stamp_below};
ghost use Rattle.nested_merge.specs.Ready.{is_stamp_ready};

use crate::plan::Mark;
use std::alloc::{AllocError, Global};
use version_set::VersionSet;

// What becomes of a stamp without version n, under a parent with it that had the set before.
pub fn kept_mark(parent: &VersionSet, stamp: &Option<VersionSet>) -> Result<Mark, AllocError>
    ensures { IfOk result
        (λ m. mark_view m ≡ kept_mark (pairs_of parent.now) (stamp_view stamp.now)) }
{
    match stamp {
        None => Ok(Mark::Store(parent.copy()?)),
        Some(_) => Ok(Mark::Stay),
    }
}

/// The stamp of what begins with version n, under a parent that had the set before.
pub fn started_stamp(alloc: Global, n: u32, parent: &VersionSet) -> Option<VersionSet>
    requires { 1 ≤ n }
    ensures { stamp_view result ≡ started n (pairs_of parent.now) }
{
    if parent.pairs().is_empty() {
        None
    } else {
        Some(VersionSet::single(alloc, n))
    }
}

// Makes room in the stored set, if version n is to be added to it.
pub fn prepare_stamp(n: u32, mark: &Mark, stamp: &mut Option<VersionSet>) -> Result<(), AllocError>
    requires { IsTrue (is_stamp_below n (stamp_view stamp.old)) }
    ensures same { stamp_view stamp.new ≡ stamp_view stamp.old }
    ensures ready { OnOk result (IsTrue (is_stamp_ready n stamp.new (mark_view mark.now))) }
{
    match (mark, stamp) {
        (Mark::Grow, Some(set)) => set.reserve_one(),
        _ => Ok(()),
    }
}

// What the mark makes of the stamp. It takes no memory.
pub fn changed_stamp(n: u32, stamp: Option<VersionSet>, mark: Mark) -> Option<VersionSet>
    requires { IsTrue (is_stamp_ready n stamp (mark_view mark)) }
    ensures { stamp_view result ≡ changed n (stamp_view stamp) (mark_view mark) }
{
    match (mark, stamp) {
        (Mark::Store(set), _) => Some(set),
        (Mark::Grow, Some(mut set)) => {
            set.add_last(n);
            Some(set)
        }
        (_, stamp) => stamp,
    }
}
