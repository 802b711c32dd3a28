// What follows from the definitions.
ghost use Rattle.std.specs.Prelude.{◌≡◌, ℕ, List};
ghost use Rattle.record_format.specs.Nodes.{Piece, dir_of};
ghost use Rattle.row_ends.specs.Kids.{PlainKids, AreKids, dir_in};

/// The directory of kids is that of the pieces that they are.
pub fn kids_stand_for_pieces()
    ensures { (set : List (ℕ × ℕ)) (ps : List Piece) (k : PlainKids) → AreKids set ps k
        → dir_in set k ≡ dir_of ps }
{}
