// Whether a timestamp is right under the parent's set.
ghost use Rattle.std.specs.Prelude.{◌≡◌, Some};
ghost use Rattle.std.specs.List.{list_all};
ghost use Rattle.version_set.specs.Members.{members, has};
ghost use Rattle.version_set.specs.View.{pairs_of};
ghost use Rattle.archive_tree.specs.PartsTest.{is_none, is_same, is_stamp_well};
ghost use Rattle.archive_tree.specs.Stands.{head_or};
ghost use Rattle.archive_tree.specs.View.{stamp_view};

use version_set::VersionSet;

// A stored set is not empty, lies in the parent's and differs from it; without one the parent's is
// not empty.
pub(crate) fn is_stamp_well(stamp: &Option<VersionSet>, parent: &VersionSet) -> bool
    ensures { result ≡ is_stamp_well (stamp_view stamp.now) (members (pairs_of parent.now)) }
{
    match stamp {
        None => !is_empty(parent),
        Some(set) => is_stored_well(set, parent),
    }
}

#[tactic(auto, using(archive_tree::proofs::Tells::canonical))]
fn is_stored_well(set: &VersionSet, parent: &VersionSet) -> bool
    ensures { result ≡ is_stamp_well (Some (pairs_of set.now)) (members (pairs_of parent.now)) }
{
    !is_empty(set) && !is_same(set, parent) && is_within(set, parent)
}

fn is_within(set: &VersionSet, other: &VersionSet) -> bool
    ensures { result ≡ list_all (has (members (pairs_of other.now))) (members (pairs_of set.now)) }
{
    set.is_within(other)
}

fn is_same(one: &VersionSet, other: &VersionSet) -> bool
    ensures { result ≡ is_same (members (pairs_of one.now)) (members (pairs_of other.now)) }
{
    one.same(other)
}

fn is_empty(set: &VersionSet) -> bool
    ensures { result ≡ is_none (members (pairs_of set.now)) }
{
    set.pairs().is_empty()
}

// The first number, 0 where there is none.
pub(crate) fn first_number(set: &VersionSet) -> u32
    ensures { result ≡ head_or 0 (members (pairs_of set.now)) }
{
    match set.pairs().first() {
        Some(pair) => pair.0,
        None => 0,
    }
}
