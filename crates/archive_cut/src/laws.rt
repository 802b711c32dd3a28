// What follows from the definitions.
ghost use Rattle.std.specs.Prelude.{◌≤◌, ℕ, List};
ghost use Rattle.keyed_tree.specs.Data.{PlainKeyed};
ghost use Rattle.archive_tree.specs.Data.{PlainArchive};
ghost use Rattle.archive_tree.specs.Stands.{ArchiveOf};
ghost use Rattle.archive_cut.specs.Sliced.{items, sliced};

/// The archive of the versions from one number to another is the one that `sliced` makes, node by
/// node, of the archive of all versions.
pub fn slices_have_their_archives()
    ensures sliced { (vs : List PlainKeyed) (a : PlainArchive) (i j : ℕ) → ArchiveOf vs a
        → 1 ≤ i → i ≤ j → j ≤ a.n → ArchiveOf (items i j vs) (sliced i j a) }
{}
