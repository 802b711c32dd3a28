// Sets of nodes that both archives have, and of those that one has alone.
ghost use Rattle.std.specs.Prelude.{◌≡◌, IfOk};
ghost use Rattle.std.specs.Option.{unwrap_or};
ghost use Rattle.archive_join.specs.Joined.{alone, paired};
ghost use Rattle.archive_tree.specs.View.{stamp_view};
ghost use Rattle.version_set.specs.Members.{united};
ghost use Rattle.version_set.specs.View.{pairs_of};

use archive_tree::effective;
use std::alloc::AllocError;
use version_set::VersionSet;

/// The effective sets of a node that both have: in the first, in the second, with its numbers raised,
/// and in both together.
#[derive(Drop)]
pub(crate) struct Sets {
    pub one: VersionSet,
    pub two: VersionSet,
    pub both: VersionSet,
    pub ghost whole: { pairs_of both ≡ united (pairs_of one) (pairs_of two) },
}

/// The timestamp of what both have, under a node that has these sets.
pub(crate) fn paired_stamp(
    sets: &Sets,
    one: &Option<VersionSet>,
    two: &Option<VersionSet>,
) -> Result<Option<VersionSet>, AllocError>
    ensures { IfOk result (λ s. stamp_view s ≡ paired (pairs_of sets.now.one)
        (pairs_of sets.now.two) (stamp_view one.now) (stamp_view two.now)) }
{
    if one.is_none() && two.is_none() {
        return Ok(None);
    }
    let set = effective(one, &sets.one).union(effective(two, &sets.two))?;
    Ok(Some(set))
}

/// The timestamp of what one archive has alone, under a node that has the set there, and the other
/// set in the other archive.
pub(crate) fn alone_stamp(
    own: &VersionSet,
    other: &VersionSet,
    stamp: &Option<VersionSet>,
) -> Result<Option<VersionSet>, AllocError>
    ensures { IfOk result (λ s. stamp_view s
        ≡ alone (pairs_of own.now) (pairs_of other.now) (stamp_view stamp.now)) }
{
    if stamp.is_none() && other.count() == 0 {
        return Ok(None);
    }
    Ok(Some(effective(stamp, own).copy()?))
}

/// The sets of a node that both have with these timestamps, and with this one in both together,
/// under a node that has these sets.
pub(crate) fn own_sets(
    sets: &Sets,
    one: &Option<VersionSet>,
    two: &Option<VersionSet>,
    stamp: &Option<VersionSet>,
) -> Result<Sets, AllocError>
    requires { stamp_view stamp.now ≡ paired (pairs_of sets.now.one) (pairs_of sets.now.two)
        (stamp_view one.now) (stamp_view two.now) }
    ensures one { IfOk result (λ own. pairs_of own.one
        ≡ unwrap_or (stamp_view one.now) (pairs_of sets.now.one)) }
    ensures two { IfOk result (λ own. pairs_of own.two
        ≡ unwrap_or (stamp_view two.now) (pairs_of sets.now.two)) }
    ensures both { IfOk result (λ own. pairs_of own.both
        ≡ unwrap_or (stamp_view stamp.now) (pairs_of sets.now.both)) }
{
    Ok(Sets {
        one: effective(one, &sets.one).copy()?,
        two: effective(two, &sets.two).copy()?,
        both: effective(stamp, &sets.both).copy()?,
    })
}
