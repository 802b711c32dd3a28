// What follows from the definitions.
ghost use Rattle.std.specs.Prelude.{◌≡◌, ◌≤◌, ℕ, List};
ghost use Rattle.std.specs.List.{AllByRecursion};
ghost use Rattle.jsonml_text.specs.Texts.{AreTexts};
ghost use Rattle.keyed_tree.specs.Data.{PlainKeyed};
ghost use Rattle.keyed_tree.specs.Plain.{plain};
ghost use Rattle.key_spec.specs.Closed.{IsClosed};
ghost use Rattle.key_spec.specs.Data.{PlainRule};
ghost use Rattle.key_rules.specs.Faults.{PlainKeyFault};
ghost use Rattle.archive_tree.specs.Data.{PlainArchive};
ghost use Rattle.archive_tree.specs.Stands.{ArchiveOf};
ghost use Rattle.record_parts.specs.Bounds.{most};
ghost use Rattle.record_format.specs.Shapes.{IsShaped};
ghost use Rattle.archive_file.specs.KeyedBy.{AreKeyedBy};
ghost use Rattle.archive_rekey.specs.Rekeyed.{AreRekeyed, IsArchiveUnder, IsFirstBad};

/// Versions are at most one list under other rules, and have at most one first bad version; never
/// both.
pub fn versions_have_one_rekeying()
    ensures one_list { (rules : List PlainRule) (vs us ws : List PlainKeyed)
        → AreRekeyed rules vs us → AreRekeyed rules vs ws → us ≡ ws }
    ensures one_fault { (rules : List PlainRule) (vs : List PlainKeyed) (i j : ℕ)
        (f g : PlainKeyFault)
        → IsFirstBad rules vs i f → IsFirstBad rules vs j g → (i ≡ j) × (f ≡ g) }
    ensures apart { (rules : List PlainRule) (vs us : List PlainKeyed) (i : ℕ) (f : PlainKeyFault)
        → AreRekeyed rules vs us → ¬ IsFirstBad rules vs i f }
{}

/// An archive under other keys is within the bounds of the format, but for the fit of lengths and
/// counts, where the texts of its versions are UTF-8 and these are not too many. So it can be
/// written.
pub fn rekeyed_archives_are_shaped()
    ensures shaped { (rules : List PlainRule) (vs : List PlainKeyed) (a : PlainArchive)
        → IsClosed rules → AllByRecursion (λ v. AreTexts (plain v)) vs
        → IsArchiveUnder rules vs a
        → ((us : List PlainKeyed) → ArchiveOf us a → AreKeyedBy rules us) → a.n ≤ most
        → IsShaped a }
{}
