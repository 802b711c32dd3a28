// What follows from the definitions.
ghost use Rattle.std.specs.Prelude.{◌≡◌, ◌≤◌, ℕ, List, length};
ghost use Rattle.keyed_tree.specs.Data.{PlainKeyed};
ghost use Rattle.archive_tree.specs.Data.{PlainArchive};
ghost use Rattle.archive_tree.specs.Stands.{ArchiveOf, version_of};
ghost use Rattle.version_runs.specs.Runs.{AreStarts, run_of, starts_of, versions_at};
ghost use Rattle.version_runs.specs.Spread.{AreNodesWithin, spread, spread_list};

/// The versions of a run are equal, and an archive of one version of each run, spread, is that of
/// all versions. Spread, versions are in their order: at each number stands that of its run.
pub fn runs_have_one_version()
    ensures starts { (a : PlainArchive) → AreStarts (starts_of a) a.n }
    ensures equal { (vs : List PlainKeyed) (a : PlainArchive) → ArchiveOf vs a
        → spread_list (starts_of a) a.n (versions_at (starts_of a) vs) ≡ vs }
    ensures archive { (ps : List ℕ) (n : ℕ) (us : List PlainKeyed) (a : PlainArchive)
        → AreStarts ps n → length ps ≡ a.n → ArchiveOf us a
        → ArchiveOf (spread_list ps n us) (spread ps n a) }
    ensures at_number { (ps : List ℕ) (n : ℕ) (us : List PlainKeyed) (i : ℕ)
        → AreStarts ps n → 1 ≤ i → i ≤ n
        → version_of (spread_list ps n us) i ≡ version_of us (run_of ps i) }
    ensures within { (us : List PlainKeyed) (a : PlainArchive)
        → ArchiveOf us a → AreNodesWithin a.n a.kids }
{}
