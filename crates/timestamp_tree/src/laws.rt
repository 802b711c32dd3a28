// What follows from the definitions.
ghost use Rattle.std.specs.Prelude.{◌≡◌, ◌+◌, ◌*◌, ◌<◌, ℕ, List, [], ◌∷◌, length, take, drop};
ghost use Rattle.timestamp_tree.specs.Bytes.{stored};
ghost use Rattle.timestamp_tree.specs.Data.{PlainTs, leaf};
ghost use Rattle.timestamp_tree.specs.Parts.{StandParts};
ghost use Rattle.timestamp_tree.specs.Tree.{half, joined, tree_of};

/// The parts of a node stand one behind the other behind its own bytes, and are the trees over the
/// two halves of its sets.
pub fn trees_stand_part_by_part()
    ensures size { (set : List (ℕ × ℕ)) (left : ℕ)
        → length (stored set left) ≡ 12 + 8 * length set }
    ensures parts { (set : List (ℕ × ℕ)) (left : ℕ) (l r : PlainTs) → StandParts set left l r }
    ensures one { (set : List (ℕ × ℕ)) → tree_of (set ∷ []) ≡ leaf set }
    ensures halves { (sets : List (List (ℕ × ℕ))) → 1 < length sets → tree_of sets
        ≡ joined (tree_of (take (half (length sets)) sets))
        (tree_of (drop (half (length sets)) sets)) }
{}
