// What follows from the definitions.
ghost use Rattle.std.specs.Prelude.{◌≡◌, ◌↔◌, ◌≤◌, ℕ, ◌+◌, Bool, true, false, not, List, [], ◌∷◌, ◌++◌, length, take, Some, None, option_map, IfSome};
ghost use Rattle.std.specs.List.{AllByRecursion};
ghost use Rattle.std.specs.Int.{w64};
ghost use Rattle.xa_fields.specs.Laws.{IsBytes};
ghost use Rattle.xa_fields.specs.Reading.{number_at, only_at, text_at};
ghost use Rattle.xa_fields.specs.Spelling.{text_bytes};
ghost use Rattle.version_notes.specs.Notes.{AreNotes, IsNote, are_empty, ending, is_note, note_at, notes_part};
ghost use Rattle.version_notes.specs.Parts.{all_but, is_marked, last, parts_behind, parts_in, with_notes};
ghost use Rattle.version_notes.specs.Reader.{AreBehind, Comes, PlainReader, at_first, behind, left_of, next_of, place_behind};
ghost use Rattle.version_notes.specs.Reading.{notes_from};
ghost use Rattle.version_notes.specs.declared.parts.Parts.{Parts};
ghost use Rattle.version_notes.specs.declared.place.Place.{Place};
ghost use Rattle.version_notes.specs.Writer.{after_all, all_appended, fresh, last_appended};

/// What notes are spelled as is read as these notes, and as no others.
pub fn notes_are_read_back()
    ensures again { (note rest : List ℕ) → IsNote note
        → note_at (text_bytes note ++ rest) ≡ Some (note, rest) }
    ensures only { (bytes note rest : List ℕ) → note_at bytes ≡ Some (note, rest)
        → IsNote note × (bytes ≡ text_bytes note ++ rest) }

    // In bytes each note that reads is spelled so.
    ensures bytes { (bytes : List ℕ) → IsBytes bytes
        → note_at bytes ≡ only_at is_note text_at bytes }

    // As many notes with the same bytes are the same notes.
    ensures same { (ours others : List (List ℕ)) → AllByRecursion IsNote ours
        → AllByRecursion IsNote others → length ours ≡ length others
        → notes_part ours ≡ notes_part others → ours ≡ others }
{}

/// Behind bytes that do not end in the mark, notes are found again, and behind no others.
pub fn parts_are_read_back()
    ensures found { (core : List ℕ) (notes : List (List ℕ))
        → is_marked core ≡ false → AreNotes notes
        → parts_in (core ++ notes_part notes) ≡ Some (parts_behind core notes) }
    ensures only { (core other : List ℕ) (ours others : List (List ℕ))
        → is_marked core ≡ false → is_marked other ≡ false → AreNotes ours → AreNotes others
        → core ++ notes_part ours ≡ other ++ notes_part others
        → (core ≡ other) × (notes_part ours ≡ notes_part others) }
    ensures end { (bytes : List ℕ) (parts : Parts) (size : ℕ)
        → parts_in bytes ≡ Some parts → parts.notes ≡ Some size
        → (last 16 bytes ≡ ending size) × (parts.core + size + 16 ≡ length bytes) }

    // In bytes each number before the mark gives parts, where there is room for so many.
    ensures number { (bytes rest : List ℕ) (size : ℕ) → IsBytes bytes → is_marked bytes ≡ true
        → number_at w64 (last 8 (all_but 8 bytes)) ≡ Some (size, rest)
        → size + 16 ≤ length bytes
        → parts_in bytes ≡ Some (with_notes (length bytes) size) }
{}

/// A reader gives the notes that stand behind a file, and what it gives is what stands there.
pub fn readers_give_the_notes()
    ensures comes { (name core : List ℕ) (notes : List (List ℕ)) → AreNotes notes
        → Comes (at_first name (parts_behind core notes) (length notes))
        (core ++ notes_part notes) notes }
    ensures only { (name bytes : List ℕ) (parts : Parts) (versions : ℕ) (notes : List (List ℕ))
        → parts_in bytes ≡ Some parts
        → Comes (at_first name parts versions) bytes notes
        → AreBehind parts versions bytes notes }

    // A note that comes next is spelled where the reader stands, and behind it stands what is left.
    ensures next { (r : PlainReader) (p : Place) (file note : List ℕ)
        → r.place ≡ Some p → next_of r file ≡ Some (Some note)
        → IsNote note
        × (left_of p file ≡ text_bytes note ++ left_of (place_behind p note) file) }

    // No byte behind the notes says what comes.
    ensures front { (r : PlainReader) (total : ℕ) (file : List ℕ)
        → IfSome r.place (λ p. p.end ≤ total) → next_of r (take total file) ≡ next_of r file }
{}

/// A writer appends what stands behind a file: each push and then the end.
pub fn writers_append_the_part()
    ensures part { (at_once : Bool) (notes : List (List ℕ))
        → (at_once ≡ true → are_empty notes ≡ false)
        → all_appended (fresh at_once) notes ++ last_appended (after_all (fresh at_once) notes)
        ≡ notes_part notes }
    ensures used { (at_once : Bool) (notes : List (List ℕ))
        → (after_all (fresh at_once) notes).used ≡ not (are_empty notes) }
    ensures pushed { (at_once : Bool) (notes : List (List ℕ))
        → (after_all (fresh at_once) notes).pushed ≡ length notes }
{}

/// What a reader still gives is what it gives next, and what it gives behind that.
pub fn notes_come_one_by_one()
    ensures comes { (r : PlainReader) (file : List ℕ) (notes : List (List ℕ))
        → (notes_from r file ≡ Some notes) ↔ Comes r file notes }
    ensures note { (r : PlainReader) (file note : List ℕ) → next_of r file ≡ Some (Some note)
        → notes_from r file
        ≡ option_map (λ others. note ∷ others) (notes_from (behind r note) file) }
    ensures last { (r : PlainReader) (file : List ℕ) → next_of r file ≡ Some None
        → notes_from r file ≡ Some [] }
    ensures damage { (r : PlainReader) (file : List ℕ) → next_of r file ≡ None
        → notes_from r file ≡ None }
{}
