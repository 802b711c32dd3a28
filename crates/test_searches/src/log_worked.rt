// The log of a salary that returns, and of a leaf that is not always there.
ghost use Rattle.std.specs.Prelude.{◌≡◌, [], ◌∷◌};
ghost use Rattle.content_log.specs.Log.{log};
ghost use Rattle.test_searches.specs.Logged.{db, entry, none, paid, sal};

fn bodies_are_told_once()
    ensures returns { log (paid 1 ∷ paid 2 ∷ paid 1 ∷ []) (db ∷ sal ∷ [])
        ≡ entry (1 ∷ 3 ∷ []) 1 ∷ entry (2 ∷ []) 2 ∷ [] }
    ensures leaves { log (paid 2 ∷ none ∷ paid 1 ∷ paid 2 ∷ []) (db ∷ sal ∷ [])
        ≡ entry (1 ∷ 4 ∷ []) 2 ∷ entry (3 ∷ []) 1 ∷ [] }
    ensures above { log (paid 1 ∷ paid 2 ∷ []) (db ∷ []) ≡ [] }
    ensures root { log (paid 1 ∷ paid 2 ∷ []) [] ≡ [] }
{}
