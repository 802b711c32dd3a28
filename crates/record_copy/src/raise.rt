// Later numbers.
ghost use Rattle.std.specs.Prelude.{◌≡◌, ◌≤◌, IfOk};
ghost use Rattle.std.specs.List.{AllByRecursion};
ghost use Rattle.archive_tree.specs.View.{stamp_view};
ghost use Rattle.record_copy.specs.Raised.{raised, raised_stamp};
ghost use Rattle.record_parts.specs.ShownViews.{shown_stamp};
ghost use Rattle.version_set.specs.View.{pairs_of};
ghost use Rattle.record_parts.specs.declared.limits.TheConstants.{MOST_VERSIONS};

use record_format::StampView;
use std::alloc::{AllocError, Global};
use version_set::VersionSet;

/// By how much each number of what is read is raised.
#[derive(Clone, Copy)]
pub struct Raise {
    pub alloc: Global,
    pub by: u32,
    pub ghost few: { by ≤ MOST_VERSIONS },
}

/// The stamp that is shown, with each number raised. There is always room: the numbers that are
/// shown are at most 999,999.
pub(crate) fn raise_stamp(
    raise: &Raise,
    stamp: StampView<'_>,
) -> Result<Option<VersionSet>, AllocError>
    ensures { IfOk result (λ s.
        stamp_view s ≡ raised_stamp raise.now.by (shown_stamp stamp.entry)) }
{
    // Its bytes are those of a timestamp, whose numbers are few.
    let _spelled = stamp.bytes();
    match stamp.copy(raise.alloc)? {
        Some(set) => Ok(Some(raise_set(raise, set)?)),
        None => Ok(None),
    }
}

// The set with each number raised.
fn raise_set(raise: &Raise, set: VersionSet) -> Result<VersionSet, AllocError>
    requires few { AllByRecursion (λ p. p.1 ≤ MOST_VERSIONS) (pairs_of set) }
    ensures { IfOk result (λ s. pairs_of s ≡ raised raise.now.by (pairs_of set)) }
{
    if raise.by == 0 {
        return Ok(set);
    }
    set.shift(i64::from(raise.by))
}
