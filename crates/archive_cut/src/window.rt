// Which versions are cut out, and what is left of sets.
ghost use Rattle.std.specs.Prelude.{◌≡◌, ◌≤◌, ◌++◌, IfOk, OnOk};
ghost use Rattle.std.specs.Option.{option_map};
ghost use Rattle.version_set.specs.Pairs.{IsCanonical};
ghost use Rattle.version_set.specs.View.{pairs_of};
ghost use Rattle.archive_tree.specs.View.{stamp_view};
ghost use Rattle.archive_cut.specs.Sliced.{cut_set};
ghost use Rattle.archive_cut.specs.Windows.{cut_pair, stamp_left};

use std::alloc::{AllocError, Global};
use version_set::VersionSet;

/// The versions from the first to the last.
#[derive(Clone, Copy)]
pub(crate) struct Window {
    pub alloc: Global,
    pub first: u32,
    pub last: u32,
    pub ghost from: { 1 ≤ first },
    pub ghost order: { first ≤ last },
    pub ghost small: { last ≤ 4294967295 },
}

/// What is left of a set, counted from the first version.
pub(crate) fn cut_set(window: &Window, set: &VersionSet) -> Result<VersionSet, AllocError>
    ensures { IfOk result (λ left.
        pairs_of left ≡ cut_set window.now.first window.now.last (pairs_of set.now)) }
{
    let mut left = VersionSet::empty(window.alloc);
    for pair in set.pairs() {
        push_left(window, *pair, &mut left)?;
    }
    Ok(left)
}

// Adds what is left of an interval behind what is left of those before it.
fn push_left(window: &Window, pair: (u32, u32), left: &mut VersionSet) -> Result<(), AllocError>
    requires { IsCanonical (pairs_of left.old ++ cut_pair window.now.first window.now.last pair) }
    ensures { OnOk result (pairs_of left.new
        ≡ pairs_of left.old ++ cut_pair window.now.first window.now.last pair) }
{
    let from = pair.0.max(window.first);
    let to = pair.1.min(window.last);
    if from <= to {
        let before = window.first - 1;
        left.push_pair((from - before, to - before))?;
    }
    Ok(())
}

/// What is left of a stamp, under a parent of which this set is left; or None where no version is
/// left.
pub(crate) fn cut_stamp(
    window: &Window,
    stamp: &Option<VersionSet>,
    now: &VersionSet,
) -> Result<Option<Option<VersionSet>>, AllocError>
    ensures { IfOk result (λ left. option_map stamp_view left
        ≡ stamp_left window.now.first window.now.last (pairs_of now.now) (stamp_view stamp.now)) }
{
    let left = match stamp {
        Some(set) => cut_set(window, set)?,
        None => return Ok(if now.count() == 0 { None } else { Some(None) }),
    };
    if left.count() == 0 {
        return Ok(None);
    }
    if left.same(now) {
        return Ok(Some(None));
    }
    Ok(Some(Some(left)))
}
