// An archive with one more version.
ghost use Rattle.std.specs.Prelude.{◌≡◌, ◌+◌, ◌≤◌, ◌<◌, ◌++◌, ℕ, List, [], ◌∷◌, Some, IsTrue, IfOk, IfErr, map, length};
ghost use Rattle.std.specs.List.{AllByRecursion};
ghost use Rattle.version_set.specs.Members.{upto_pairs};
ghost use Rattle.keyed_tree.specs.Data.{PlainKeyed};
ghost use Rattle.keyed_tree.specs.Kids.{IsOrdered};
ghost use Rattle.keyed_tree.specs.Proper.{IsElement};
ghost use Rattle.keyed_tree.specs.WellFormed.{IsKeyedWellFormed};
ghost use Rattle.keyed_tree.specs.View.{keyed_view};
ghost use Rattle.archive_tree.specs.ArchiveView.{archive_view};
ghost use Rattle.archive_tree.specs.Read.{version_at};
ghost use Rattle.archive_tree.specs.Stands.{ArchiveOf};
ghost use Rattle.archive_tree.specs.View.{nodes_view};
ghost use Rattle.nested_merge.specs.Alike.{AlikeAll};
ghost use Rattle.nested_merge.specs.Below.{are_nodes_below};
ghost use Rattle.nested_merge.specs.Laws.{AreVersions, HasOneArchive};
ghost use Rattle.nested_merge.specs.Merged.{merged_row, with_version};

use crate::apply::applied_kids;
use crate::planning::plan_of;
use crate::prepare::prepare_kids;
use archive_tree::{ANode, Archive};
use keyed_tree::Keyed;
use std::alloc::{AllocError, Global};

/// The archive of the old versions followed by the new one. Where memory runs out, the old archive
/// comes back.
///
/// It goes once along the nodes of the version and those of the archive beside them, in the order
/// of their labels, and recurses as deep as they nest. A plan takes all the memory first: room for
/// each row, what is new, and each set that changes. Then the old nodes are moved into their
/// places, and none is copied.
pub fn merge(alloc: Global, old: Archive, new: &Keyed) -> Result<Archive, (AllocError, Archive)>
    requires room { (archive_view old).n < 4294967295 }
    requires element { IsElement (keyed_view new.now) }
    requires ordered { IsOrdered (keyed_view new.now) }
    requires well_formed { IsKeyedWellFormed (keyed_view new.now) }
    requires alike { (vs : List PlainKeyed) → ArchiveOf vs (archive_view old)
        → AlikeAll vs (keyed_view new.now) }
    ensures archive { IfOk result (λ a. (vs : List PlainKeyed) → ArchiveOf vs (archive_view old)
        → ArchiveOf (vs ++ keyed_view new.now ∷ []) (archive_view a)) }
    ensures merged { IfOk result (λ a. archive_view a
        ≡ with_version (archive_view old) (keyed_view new.now)) }
    ensures count { IfOk result (λ a. (archive_view a).n ≡ (archive_view old).n + 1) }

    // Every earlier version is read as before, and the new one at the new number.
    ensures earlier { IfOk result (λ a. (i : ℕ) → 1 ≤ i → i ≤ (archive_view old).n
        → version_at i (archive_view a) ≡ version_at i (archive_view old)) }
    ensures newest { IfOk result (λ a. version_at ((archive_view old).n + 1) (archive_view a)
        ≡ Some (keyed_view new.now)) }
    ensures refused { IfErr result (λ e. archive_view e.1 ≡ archive_view old) }
{
    let (n, kids) = old.into_parts();
    match grown_kids(alloc, n, kids, new) {
        Ok(kids) => Ok(Archive::new(n + 1, kids)),
        Err((error, kids)) => Err((error, Archive::new(n, kids))),
    }
}

// The kids of the virtual root, for n versions, with those of one more.
fn grown_kids(
    alloc: Global,
    n: u32,
    old: Vec<ANode>,
    new: &Keyed,
) -> Result<Vec<ANode>, (AllocError, Vec<ANode>)>
    requires room { n < 4294967295 }
    requires below { IsTrue (are_nodes_below (n + 1) (nodes_view old.items)) }
    requires ordered { IsOrdered (keyed_view new.now) }
    ensures grown { IfOk result (λ v. nodes_view v.items
        ≡ merged_row (n + 1) (upto_pairs n) (nodes_view old.items) (keyed_view new.now ∷ [])) }
    ensures refused { IfErr result (λ e. nodes_view e.1.items ≡ nodes_view old.items) }
{
    let plan = match plan_of(alloc, n, &old, new) {
        Ok(plan) => plan,
        Err(error) => return Err((error, old)),
    };
    let mut kids = old;
    match prepare_kids(n + 1, &plan.steps, &mut kids) {
        Ok(()) => Ok(applied_kids(n + 1, plan.steps, plan.space, kids)),
        Err(error) => Err((error, kids)),
    }
}

/// The archive of these versions, which are merged one after another.
pub fn merge_all(alloc: Global, versions: &[Keyed]) -> Result<Archive, AllocError>
    requires room { length versions.now ≤ 4294967295 }
    requires versions { AreVersions (map keyed_view versions.now) }
    requires well_formed { AllByRecursion IsKeyedWellFormed (map keyed_view versions.now) }
    ensures archive { IfOk result (λ a. ArchiveOf (map keyed_view versions.now) (archive_view a)) }

    // Every list of versions has one archive, and no other.
    ensures one_archive { (vs : List PlainKeyed) → AreVersions vs → HasOneArchive vs }
{
    let mut archive = Archive::empty(alloc);
    for version in versions {
        archive = match merge(alloc, archive, version) {
            Ok(next) => next,
            Err((error, _)) => return Err(error),
        };
    }
    Ok(archive)
}
