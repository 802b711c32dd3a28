// What follows from the definitions.
ghost use Rattle.std.specs.Prelude.{◌++◌, List};
ghost use Rattle.keyed_tree.specs.Alike.{AllAlike};
ghost use Rattle.keyed_tree.specs.Data.{PlainKeyed};
ghost use Rattle.archive_tree.specs.Data.{PlainArchive};
ghost use Rattle.archive_tree.specs.Stands.{ArchiveOf};
ghost use Rattle.archive_join.specs.Joined.{joined};

/// The archive of two lists of versions, one behind the other, is the one that `joined` makes, node
/// by node, of the archives of the two.
pub fn joined_archives_have_the_versions_of_both()
    ensures joins { (vs us : List PlainKeyed) (a b : PlainArchive) → ArchiveOf vs a → ArchiveOf us b
        → AllAlike (vs ++ us) → ArchiveOf (vs ++ us) (joined a b) }
{}
