// What follows from the definitions.
ghost use Rattle.std.specs.Prelude.{◌++◌, [], ◌∷◌, List};
ghost use Rattle.keyed_tree.specs.Data.{PlainKeyed};
ghost use Rattle.keyed_tree.specs.Kids.{IsOrdered};
ghost use Rattle.keyed_tree.specs.Proper.{IsElement};
ghost use Rattle.archive_tree.specs.Data.{PlainArchive};
ghost use Rattle.archive_tree.specs.Stands.{ArchiveOf};
ghost use Rattle.nested_merge.specs.Alike.{AlikeAll};
ghost use Rattle.nested_merge.specs.Merged.{with_version};

/// The archive of a list with one more version is the one that `with_version` makes, node by node,
/// of the list's archive.
pub fn archives_grow_by_a_version()
    ensures grows { (vs : List PlainKeyed) (a : PlainArchive) (k : PlainKeyed) → ArchiveOf vs a
        → AlikeAll vs k
        → IsOrdered k → IsElement k → ArchiveOf (vs ++ k ∷ []) (with_version a k) }
{}
