// What follows from the definitions.
ghost use Rattle.std.specs.Prelude.{◌≡◌, ℕ, true, List, [], length, take, replicate, Some, None};
ghost use Rattle.key_spec.specs.Data.{PlainRule};
ghost use Rattle.keyed_tree.specs.Data.{PlainKeyed};
ghost use Rattle.record_format.specs.Files.{FileOf};
ghost use Rattle.archive_file.specs.Sound.{SoundAs};
ghost use Rattle.version_notes.specs.Notes.{are_empty};
ghost use Rattle.version_notes.specs.Parts.{parts_behind, parts_in};
ghost use Rattle.version_notes.specs.Reader.{AreBehind, at_first};
ghost use Rattle.version_notes.specs.declared.parts.Parts.{Parts};
ghost use Rattle.noted_file.specs.Contents.{Contents, unnoted};
ghost use Rattle.noted_file.specs.Full.{FullOf, FullAs, Full};
ghost use Rattle.version_notes.specs.Reading.{notes_from};

/// A file with notes has one specification, one list of versions and one list of notes; and these
/// have one file.
pub fn full_files_have_one_reading()
    ensures reading { (c d : Contents) (bytes : List ℕ) → FullAs c bytes → FullAs d bytes → c ≡ d }
    ensures file { (c : Contents) (a b : List ℕ) → FullOf c a → FullOf c b → a ≡ b }
    ensures defined { (c : Contents) (bytes : List ℕ) → FullAs c bytes → FullOf c bytes }
{}

/// An archive's file is one whose notes are all empty, and there is no other such file.
pub fn sound_files_are_full()
    ensures sound { (rules : List PlainRule) (vs : List PlainKeyed) (bytes : List ℕ)
        → SoundAs rules vs bytes → FullAs (unnoted rules vs) bytes }
    ensures file { (rules : List PlainRule) (vs : List PlainKeyed) (bytes : List ℕ)
        → FileOf rules vs bytes → FullOf (unnoted rules vs) bytes }
    ensures sound_core { (c : Contents) (bytes : List ℕ)
        → are_empty c.notes ≡ true → FullAs c bytes → SoundAs c.rules c.versions bytes }
    ensures file_core { (c : Contents) (bytes : List ℕ)
        → are_empty c.notes ≡ true → FullOf c bytes → FileOf c.rules c.versions bytes }
{}

/// The parts of a file with notes are its core and the notes. Bytes that have no parts are no such
/// file.
pub fn full_files_have_parts()
    ensures parts { (c : Contents) (bytes : List ℕ) (full : FullAs c bytes)
        → parts_in bytes ≡ Some (parts_behind full.core c.notes) }
    ensures core { (c : Contents) (bytes : List ℕ) (parts : Parts)
        → FullAs c bytes → parts_in bytes ≡ Some parts
        → SoundAs c.rules c.versions (take parts.core bytes) }
    ensures behind { (c : Contents) (bytes : List ℕ) (parts : Parts)
        → FullAs c bytes → parts_in bytes ≡ Some parts
        → AreBehind parts (length c.versions) bytes c.notes }
    ensures full { (c : Contents) (bytes : List ℕ) (parts : Parts)
        → SoundAs c.rules c.versions (take parts.core bytes)
        → AreBehind parts (length c.versions) bytes c.notes → FullAs c bytes }
    ensures none { (bytes : List ℕ) → parts_in bytes ≡ None → ¬ Full bytes }
{}

/// A file is one with notes exactly where its core is sound and the notes come one after another,
/// as many as the core has versions, and then none any more. With no part for notes all are empty.
pub fn full_files_are_read_note_by_note()
    ensures come { (c : Contents) (bytes name : List ℕ) (parts : Parts)
        → FullAs c bytes → parts_in bytes ≡ Some parts
        → notes_from (at_first name parts (length c.versions)) bytes ≡ Some c.notes }
    ensures full { (c : Contents) (bytes name : List ℕ) (parts : Parts)
        → parts_in bytes ≡ Some parts → SoundAs c.rules c.versions (take parts.core bytes)
        → notes_from (at_first name parts (length c.versions)) bytes ≡ Some c.notes
        → FullAs c bytes }
    ensures empty { (n : ℕ) (bytes name : List ℕ) (parts : Parts) → parts.notes ≡ None
        → notes_from (at_first name parts n) bytes ≡ Some (replicate n []) }
    ensures damaged { (rules : List PlainRule) (vs : List PlainKeyed) (bytes name : List ℕ)
        (parts : Parts)
        → parts_in bytes ≡ Some parts → SoundAs rules vs (take parts.core bytes)
        → notes_from (at_first name parts (length vs)) bytes ≡ None → ¬ Full bytes }
{}
