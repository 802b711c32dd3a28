// What follows from the definitions.
ghost use Rattle.std.specs.Prelude.{◌≡◌, ◌≢◌, ◌-◌, ◌≤◌, ℕ, List, length, drop, replicate, Some, IsTrue};
ghost use Rattle.std.specs.List.{AllByRecursion};
ghost use Rattle.jsonml_text.specs.Texts.{AreTexts};
ghost use Rattle.key_spec.specs.Closed.{IsClosed};
ghost use Rattle.key_spec.specs.Data.{PlainRule};
ghost use Rattle.keyed_tree.specs.Data.{PlainKeyed};
ghost use Rattle.keyed_tree.specs.Kids.{IsOrdered};
ghost use Rattle.keyed_tree.specs.Plain.{plain};
ghost use Rattle.keyed_tree.specs.Proper.{IsElement, IsProper};
ghost use Rattle.keyed_tree.specs.WellFormed.{IsKeyedWellFormed};
ghost use Rattle.keyed_tree.specs.Alike.{AllAlike};
ghost use Rattle.archive_tree.specs.Data.{PlainArchive};
ghost use Rattle.archive_tree.specs.Stands.{ArchiveOf};
ghost use Rattle.record_parts.specs.Bounds.{deepest, most};
ghost use Rattle.record_format.specs.Files.{FileOf};
ghost use Rattle.record_format.specs.Fronts.{fixed, header};
ghost use Rattle.record_format.specs.Nested.{are_nested};
ghost use Rattle.record_format.specs.Shapes.{IsShaped};
ghost use Rattle.archive_file.specs.KeyedBy.{IsKeyedBy, AreKeyedBy};
ghost use Rattle.archive_file.specs.Sound.{SoundAs};

/// Versions that are keyed by one specification can be merged: they are alike, and each of them is an element, proper, ordered
/// and well formed. Where their texts are UTF-8 and they are not too many, their archive is within the bounds of the format but
/// for the fit of lengths and counts.
pub fn keyed_versions_can_be_merged()
    ensures alike { (rules : List PlainRule) (vs : List PlainKeyed)
        → AreKeyedBy rules vs → AllAlike vs }
    ensures elements { (rules : List PlainRule) (k : PlainKeyed) → IsKeyedBy rules k → IsElement k }
    ensures proper { (rules : List PlainRule) (k : PlainKeyed) → IsKeyedBy rules k → IsProper k }
    ensures ordered { (rules : List PlainRule) (k : PlainKeyed) → IsKeyedBy rules k → IsOrdered k }
    ensures well_formed { (rules : List PlainRule) (k : PlainKeyed)
        → IsKeyedBy rules k → IsKeyedWellFormed k }
    ensures shaped { (rules : List PlainRule) (vs : List PlainKeyed) (a : PlainArchive)
        → IsClosed rules → AreKeyedBy rules vs → AllByRecursion (λ v. AreTexts (plain v)) vs
        → ArchiveOf vs a → a.n ≤ most → IsShaped a }
{}

/// A sound archive has one reading. Its specification and the number of its versions stand at its front, its texts are UTF-8,
/// and its inner nodes nest no deeper than elements may.
pub fn sound_archives_have_one_reading()
    ensures one { (rules others : List PlainRule) (vs us : List PlainKeyed) (bytes : List ℕ)
        → SoundAs rules vs bytes → SoundAs others us bytes → (rules ≡ others) × (vs ≡ us) }
    ensures header { (rules : List PlainRule) (vs : List PlainKeyed) (bytes : List ℕ)
        → SoundAs rules vs bytes → header bytes ≡ Some (rules, length vs) }
    ensures fixed { (rules : List PlainRule) (vs : List PlainKeyed) (bytes : List ℕ)
        → SoundAs rules vs bytes → fixed bytes ≡ Some (length vs) }
    ensures texts { (rules : List PlainRule) (vs : List PlainKeyed) (bytes : List ℕ)
        → SoundAs rules vs bytes → AllByRecursion (λ v. AreTexts (plain v)) vs }
    ensures nested { (rules : List PlainRule) (vs : List PlainKeyed) (bytes : List ℕ)
        (a : PlainArchive)
        → SoundAs rules vs bytes → ArchiveOf vs a → IsTrue (are_nested deepest a.kids) }
{}

/// No file of an archive ends in eight bytes 255. Its last eight bytes spell the length of a directory that stands in it.
pub fn files_do_not_end_in_a_mark()
    ensures file { (rules : List PlainRule) (vs : List PlainKeyed) (bytes : List ℕ)
        → FileOf rules vs bytes → drop (length bytes - 8) bytes ≢ replicate 8 255 }
    ensures sound { (rules : List PlainRule) (vs : List PlainKeyed) (bytes : List ℕ)
        → SoundAs rules vs bytes → drop (length bytes - 8) bytes ≢ replicate 8 255 }
{}
