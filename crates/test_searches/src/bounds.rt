// How much a search of the two archives looks at.
ghost use Rattle.std.specs.Prelude.{◌≡◌, [], ◌∷◌};
ghost use Rattle.file_history.specs.Halving.{probes_along};
ghost use Rattle.record_format.specs.Probed.{probed, steps_along};
ghost use Rattle.record_format.specs.Seen.{seen, steps_for};
ghost use Rattle.test_searches.specs.Worked.{db, e, one, six};

// Behind the 22 bytes of the header's fixed fields and the tail, and in visited nodes.
fn versions_are_bounded()
    ensures one { (seen one 1 ≡ 116) × (steps_for one 1 ≡ 1) }
    ensures five { (seen six 5 ≡ 382) × (steps_for six 5 ≡ 8) }
    ensures six { (seen six 6 ≡ 111) × (steps_for six 6 ≡ 2) }
{}

// Behind the header and the tail, and in children that are looked at.
fn histories_are_bounded()
    ensures { (probed six (db ∷ e 3 ∷ []) ≡ 343) × (steps_along six (db ∷ e 3 ∷ []) ≡ 5) }
{}

// Of eight children the fifth is looked at first, then the third, or the seventh and the last.
fn histories_count_their_steps()
    ensures none { probes_along six [] ≡ 0 }
    ensures root { probes_along six (db ∷ []) ≡ 1 }
    ensures fifth { probes_along six (db ∷ e 5 ∷ []) ≡ 2 }
    ensures third { probes_along six (db ∷ e 3 ∷ []) ≡ 3 }
    ensures last { probes_along six (db ∷ e 8 ∷ []) ≡ 4 }
    ensures absent { probes_along six (db ∷ e 9 ∷ []) ≡ 4 }
    ensures below { probes_along six (db ∷ e 3 ∷ db ∷ []) ≡ 3 }
{}
