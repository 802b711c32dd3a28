ghost use Rattle.archive_tree.specs.Data.{PlainArchive};
ghost use Rattle.archive_tree.specs.Stands.{Kept};
ghost use Rattle.archive_tree.specs.WellFormed.{AreNodesWellFormed};
ghost use Rattle.archive_tree.specs.View.{nodes_view};

use crate::check::are_archive_parts;
use crate::node::ANode;
use crate::read::{follow, read_version};
use keyed_tree::{Keyed, Label};
use std::alloc::{AllocError, Global};
use version_set::VersionSet;

/// The archive of one list of versions, which are numbered from 1.
#[derive(Debug, Drop)]
pub struct Archive {
    n: u32,
    kids: Vec<ANode>,
    pub ghost stands: { ∥ Kept (record { n = n; kids = nodes_view kids.items }) ∥₁ },
    pub ghost well_formed: { AreNodesWellFormed (nodes_view kids.items) },
}

impl Archive {
    ghost use Rattle.std.specs.Prelude.{◌≡◌, ◌≤◌, ◌↔◌, ℕ, List, [], map, IsTrue, IsSome, IfOk, IfSome, IfNone, Some};
    ghost use Rattle.std.specs.Option.{option_map};
    ghost use Rattle.std.specs.List.{range_with_len};
    ghost use Rattle.version_set.specs.Members.{members, has};
    ghost use Rattle.version_set.specs.View.{pairs_of};
    ghost use Rattle.keyed_tree.specs.Data.{PlainKeyed};
    ghost use Rattle.keyed_tree.specs.Holds.{Holds};
    ghost use Rattle.keyed_tree.specs.WellFormed.{IsKeyedWellFormed};
    ghost use Rattle.keyed_tree.specs.View.{label_view, keyed_view};
    ghost use Rattle.archive_tree.specs.Stands.{ArchiveOf, version_of};
    ghost use Rattle.archive_tree.specs.History.{hist};
    ghost use Rattle.archive_tree.specs.Parts.{IsArchive};
    ghost use Rattle.archive_tree.specs.Read.{version_at};
    ghost use Rattle.archive_tree.specs.Seek.{seek};
    ghost use Rattle.archive_tree.specs.ArchiveView.{archive_view};

    /// The archive of no versions. It takes no memory.
    pub fn empty(alloc: Global) -> Archive
        ensures { ArchiveOf [] (archive_view result) }
    {
        Archive {
            n: 0,
            kids: Vec::new(alloc),
        }
    }

    /// The archive of these parts. It takes no memory.
    pub fn new(n: u32, kids: Vec<ANode>) -> Archive
        requires stands { ∥ Kept (record { n = n; kids = nodes_view kids.items }) ∥₁ }
        requires well_formed { AreNodesWellFormed (nodes_view kids.items) }
        ensures parts { archive_view result ≡ record { n = n; kids = nodes_view kids.items } }

        // A list has one archive.
        ensures one_archive { (vs : List PlainKeyed) (b : PlainArchive)
            → ArchiveOf vs (archive_view result)
            → ArchiveOf vs b
            → archive_view result ≡ b }
    {
        Archive { n, kids }
    }

    /// The archive of these parts, or None where no list of versions has an archive of these parts.
    pub fn of_parts(alloc: Global, n: u32, kids: Vec<ANode>) -> Result<Option<Archive>, AllocError>
        requires { AreNodesWellFormed (nodes_view kids.items) }
        ensures none { IfOk result (λ o. IfNone o
            ((vs : List PlainKeyed)
            → ¬ (ArchiveOf vs (record { n = n; kids = nodes_view kids.items })))) }
        ensures parts { IfOk result (λ o. IfSome o (λ a. archive_view a
            ≡ record { n = n; kids = nodes_view kids.items })) }

        // Parts are those of an archive exactly where they meet the conditions.
        ensures conditions { IfOk result (λ o. IsSome o
            ↔ IsArchive (record { n = n; kids = nodes_view kids.items })) }
    {
        if are_archive_parts(alloc, n, &kids)? {
            Ok(Some(Archive { n, kids }))
        } else {
            Ok(None)
        }
    }

    /// The number of versions, and the kids of the virtual root. It takes no memory.
    pub fn into_parts(self) -> (u32, Vec<ANode>)
        ensures parts { record { n = result.0; kids = nodes_view result.1.items }
            ≡ archive_view self }
        ensures stands { ∥ Kept (record { n = result.0; kids = nodes_view result.1.items }) ∥₁ }
        ensures well_formed { AreNodesWellFormed (nodes_view result.1.items) }
    {
        (self.n, self.kids)
    }

    /// The number of versions. It takes no memory.
    pub fn n(&self) -> u32
        ensures { result ≡ (archive_view self.now).n }
    {
        self.n
    }

    /// The kids of the virtual root, in ascending order of their labels. It takes no memory.
    pub fn kids(&self) -> &[ANode]
        ensures nodes { nodes_view result.now ≡ (archive_view self.now).kids }
        ensures well_formed { AreNodesWellFormed (nodes_view result.now) }

        // An archive stands for one list.
        ensures one_list { (vs us : List PlainKeyed) → ArchiveOf vs (archive_view self.now)
            → ArchiveOf us (archive_view self.now) → vs ≡ us }
    {
        &self.kids
    }

    /// The version of that number. None where there is none. Only what that version holds is
    /// copied.
    pub fn version(&self, alloc: Global, i: u32) -> Result<Option<Keyed>, AllocError>
        ensures found { IfOk result (λ o. IsSome o ↔ ((1 ≤ i) × (i ≤ (archive_view self.now).n))) }
        ensures item { (vs : List PlainKeyed) → ArchiveOf vs (archive_view self.now)
            → IfOk result (λ o. option_map keyed_view o ≡ version_of vs i) }
        ensures read { IfOk result (λ o. option_map keyed_view o
            ≡ version_at i (archive_view self.now)) }
        ensures well_formed { IfOk result (λ o. IfSome o (λ k. IsKeyedWellFormed (keyed_view k))) }
    {
        self.tree_at(alloc, i)
    }

    // What the nodes have at the number.
    fn tree_at(&self, alloc: Global, i: u32) -> Result<Option<Keyed>, AllocError>
        ensures { IfOk result (λ o. option_map keyed_view o
            ≡ version_at i (archive_view self.now)) }
    {
        let all = VersionSet::upto(alloc, self.n);
        read_version(alloc, i, &all, &self.kids)
    }

    /// The numbers of the versions that hold the path: for the empty path, all. Each label is
    /// looked for by halving.
    pub fn history(&self, alloc: Global, path: &[Label]) -> Result<VersionSet, AllocError>
        ensures members { (vs : List PlainKeyed) → ArchiveOf vs (archive_view self.now)
            → IfOk result (λ s. members (pairs_of s) ≡ hist vs (map label_view path.now)) }
        ensures holds { (vs : List PlainKeyed) → ArchiveOf vs (archive_view self.now)
            → IfOk result (λ s. (i : ℕ) (k : PlainKeyed) → version_of vs i ≡ Some k
            → IsTrue (has (members (pairs_of s)) i) ↔ Holds (map label_view path.now) k) }
    {
        self.set_at(alloc, path)
    }

    // The set of the node that the path leads to.
    fn set_at(&self, alloc: Global, path: &[Label]) -> Result<VersionSet, AllocError>
        ensures { IfOk result (λ s. members (pairs_of s)
            ≡ seek
            (map label_view path.now)
            (range_with_len 1 (archive_view self.now).n)
            (archive_view self.now).kids) }
    {
        let all = VersionSet::upto(alloc, self.n);
        match follow(&all, &self.kids, path) {
            Some(set) => set.copy(),
            None => Ok(VersionSet::empty(alloc)),
        }
    }
}
