// What follows from the definitions.
ghost use Rattle.std.specs.Prelude.{◌≡◌, ◌↔◌, ℕ, List};
ghost use Rattle.keyed_tree.specs.Data.{PlainKeyed};
ghost use Rattle.archive_tree.specs.Data.{PlainArchive};
ghost use Rattle.archive_tree.specs.Parts.{IsArchive};
ghost use Rattle.archive_tree.specs.Read.{version_at};
ghost use Rattle.archive_tree.specs.Stands.{ArchiveOf, Kept, version_of};

/// A list of versions has at most one archive, and an archive stands for at most one list. The
/// conditions on parts say when there is a list, which can then be told. What is read of an archive
/// at a number is the version of that number.
pub fn archives_stand_for_one_list()
    ensures one_archive { (vs : List PlainKeyed) (a b : PlainArchive)
        → ArchiveOf vs a → ArchiveOf vs b → a ≡ b }
    ensures one_list { (vs us : List PlainKeyed) (a : PlainArchive)
        → ArchiveOf vs a → ArchiveOf us a → vs ≡ us }
    ensures conditions { (a : PlainArchive) → IsArchive a ↔ Kept a }
    ensures told { (a : PlainArchive) → ∥ Kept a ∥₁ → Kept a }
    ensures versions { (vs : List PlainKeyed) (a : PlainArchive) (i : ℕ) → ArchiveOf vs a
        → version_at i a ≡ version_of vs i }
{}
