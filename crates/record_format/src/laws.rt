// What follows from the definitions.
ghost use Rattle.std.specs.Prelude.{◌≡◌, ◌↔◌, ℕ, ◌<◌, ◌≤◌, ◌^◌, List, [], ◌++◌, length, Some, Ok};
ghost use Rattle.std.specs.List.{slice_get, AllByRecursion};
ghost use Rattle.key_spec.specs.Canonical.{canonical};
ghost use Rattle.key_spec.specs.Closed.{closed};
ghost use Rattle.key_spec.specs.Data.{PlainRule};
ghost use Rattle.keyed_tree.specs.Data.{PlainKeyed};
ghost use Rattle.xa_fields.specs.Laws.{IsBytes, Reads};
ghost use Rattle.timestamp_tree.specs.Bytes.{stored};
ghost use Rattle.timestamp_tree.specs.Data.{top};
ghost use Rattle.timestamp_tree.specs.Reading.{stored_at};
ghost use Rattle.timestamp_tree.specs.Tree.{tree_of};
ghost use Rattle.record_format.specs.Data.{PlainDir, PlainRec};
ghost use Rattle.record_format.specs.DirParts.{DirParts, entry_of};
ghost use Rattle.record_format.specs.Nodes.{Piece, dir_of};
ghost use Rattle.record_format.specs.Spelling.{framed, rec_bytes};
ghost use Rattle.record_parts.specs.Bounds.{IsSet, most};
ghost use Rattle.record_format.specs.Bounds.{IsDir, IsRec};
ghost use Rattle.record_format.specs.Files.{FileOf};
ghost use Rattle.record_format.specs.Fronts.{fixed, header};
ghost use Rattle.record_format.specs.Reading.{frame_at, record_at};
ghost use Rattle.record_format.specs.Shapes.{IsShapedDir, FitsDir};

/// An encoding has one value, and none is the front of another.
pub fn encodings_tell_records_apart()
    ensures one_value { (r s : PlainRec) → IsRec r → IsRec s → rec_bytes r ≡ rec_bytes s → r ≡ s }
    ensures no_front { (r s : PlainRec) (rest : List ℕ) → IsRec r → IsRec s
        → rec_bytes r ≡ rec_bytes s ++ rest → rest ≡ [] }
{}

/// Versions have at most one archive file under a specification. Its front is the header with their
/// number and, where the canonical text of the specification specifies it, with the specification.
pub fn versions_have_one_file()
    ensures one_file { (rules : List PlainRule) (versions : List PlainKeyed) (a b : List ℕ)
        → FileOf rules versions a → FileOf rules versions b → a ≡ b }
    ensures header { (rules : List PlainRule) (versions : List PlainKeyed) (bytes : List ℕ)
        → closed (canonical rules) ≡ Ok rules → FileOf rules versions bytes
        → header bytes ≡ Some (rules, length versions) }
    ensures fixed { (rules : List PlainRule) (versions : List PlainKeyed) (bytes : List ℕ)
        → FileOf rules versions bytes → fixed bytes ≡ Some (length versions) }
{}

/// What is read of some bytes is spelled so, and what is spelled so is read.
pub fn records_are_read_as_spelled()
    ensures records { Reads record_at rec_bytes IsRec }
    ensures frames { Reads frame_at (λ p. framed p.0 p.1)
        (λ p. IsBytes p.1 × (length p.1 < 2 ^ 64)) }
{}

/// A directory that has an encoding is in shape, and its lengths and counts fit their fields.
pub fn encodings_are_of_shape_and_fit()
    ensures { (d : PlainDir) → IsDir d ↔ (IsShapedDir d × FitsDir d) }
{}

/// Where the parts of a directory stand, and what is read of a node of its tree.
pub fn directories_stand_part_by_part()
    ensures parts { (d : PlainDir) → DirParts d }
    ensures entries { (ps : List Piece) (i : ℕ) (p : Piece) → slice_get ps i ≡ Some p
        → slice_get (dir_of ps).entries i ≡ Some (entry_of ps i p) }
    ensures nodes { Reads (stored_at most) (λ p. stored p.0 p.1)
        (λ p. IsSet p.0 × (p.1 < 2 ^ 64)) }
    ensures sets { (sets : List (List (ℕ × ℕ))) → 1 ≤ length sets
        → AllByRecursion IsSet sets → IsSet (top (tree_of sets)) }
{}
