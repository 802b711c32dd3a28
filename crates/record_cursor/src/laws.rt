// What follows from the definitions.
ghost use Rattle.std.specs.Prelude.{◌≡◌, ◌≢◌, ◌≤◌, ℕ, List, [], ◌∷◌, ◌++◌, length, map, drop, Option, Some, Ok, IsTrue};
ghost use Rattle.std.specs.List.{flat_map, AllByRecursion};
ghost use Rattle.key_spec.specs.Canonical.{canonical};
ghost use Rattle.key_spec.specs.Closed.{closed};
ghost use Rattle.key_spec.specs.Data.{PlainRule};
ghost use Rattle.archive_tree.specs.Data.{PlainArchive};
ghost use Rattle.xa_fields.specs.Laws.{IsBytes};
ghost use Rattle.xa_outside.specs.Folder.{Files, front_of};
ghost use Rattle.record_format.specs.Bounds.{IsRec};
ghost use Rattle.record_format.specs.Data.{PlainRec};
ghost use Rattle.record_format.specs.Files.{HasFile, weight, header_bytes, file_bytes};
ghost use Rattle.record_format.specs.Fronts.{header_at};
ghost use Rattle.record_format.specs.Nested.{are_nested};
ghost use Rattle.record_format.specs.Spelling.{rec_bytes};
ghost use Rattle.record_format.specs.Whole.{has_parts};
ghost use Rattle.record_parts.specs.Bounds.{deepest};
ghost use Rattle.record_cursor.specs.Items.{PlainItem, finish, item_of, items_of};
ghost use Rattle.record_cursor.specs.Moves.{Comes, Goes};
ghost use Rattle.record_cursor.specs.Next.{next_of, Gives, size_of, read_for};
ghost use Rattle.record_cursor.specs.Places.{Standing, among_nodes, finished, after_item, after_items};
ghost use Rattle.record_cursor.specs.View.{PlainCursor, shown_item};
ghost use Rattle.record_cursor.specs.declared.item.Item.{Item};

/// A record that has an encoding, and may come, comes next where its bytes stand, and so do records
/// that may come one after another.
pub fn records_give_their_items()
    ensures next { (s t : Standing) (r : PlainRec) (rest : List ℕ) → IsRec r
        → after_item s (item_of r) ≡ Some t
        → next_of s (rec_bytes r ++ rest) ≡ Some (item_of r, (t, rest)) }
    ensures all { (s t : Standing) (rs : List PlainRec) (rest : List ℕ) → AllByRecursion IsRec rs
        → after_items s (map item_of rs) ≡ Some t
        → Gives s (flat_map rec_bytes rs ++ rest) (map item_of rs) t rest }

    // Only its bytes give the item of a record that has parts.
    ensures only { (s t : Standing) (r : PlainRec) (bytes rest : List ℕ) → IsBytes bytes
        → IsTrue (has_parts r) → next_of s bytes ≡ Some (item_of r, (t, rest))
        → IsRec r × (bytes ≡ rec_bytes r ++ rest) }

    // The cursor moves by the record's bytes, and reads them, of an END its weight alone.
    ensures size { (s : Standing) (r : PlainRec) → size_of s (item_of r) ≡ length (rec_bytes r) }
    ensures weight { (s : Standing) (r : PlainRec) → read_for s (item_of r) ≡ weight r }

    // It reads no more than it moves by, and moves by nine bytes or more as long as records come.
    ensures within { (s : Standing) (i : PlainItem) → read_for s i ≤ size_of s i }
    ensures least { (s : Standing) (i : PlainItem) → i ≢ finish → 9 ≤ size_of s i }
{}

/// A cursor gives the items that come, one after another, and those of an archive's file come at its
/// first record.
pub fn cursors_give_what_comes()
    ensures next { (told : Option Files) (old new : PlainCursor) (item : Item)
        (i : PlainItem) (is : List PlainItem) → Comes told old (i ∷ is) → Goes told old item new
        → (shown_item item ≡ i) × Comes told new is }
    ensures starts { (files : Files) (name : List ℕ) (rules : List PlainRule) (a : PlainArchive)
        (c : PlainCursor) → HasFile rules a → IsTrue (are_nested deepest a.kids)
        → front_of files name c.length ≡ Some (file_bytes rules a) → c.name ≡ name
        → c.standing ≡ among_nodes 0 → c.at ≡ length (header_bytes rules a.n)
        → Comes (Some files) c (items_of a) }
{}

/// The file of an archive whose inner nodes nest at most 120 deep gives the items of its records
/// behind its header, and then ends.
pub fn files_give_their_items()
    ensures header { (rules : List PlainRule) (a : PlainArchive)
        → closed (canonical rules) ≡ Ok rules
        → HasFile rules a → header_at (file_bytes rules a)
        ≡ Some ((rules, a.n), drop (length (header_bytes rules a.n)) (file_bytes rules a)) }
    ensures items { (rules : List PlainRule) (a : PlainArchive) → HasFile rules a
        → IsTrue (are_nested deepest a.kids)
        → Gives (among_nodes 0) (drop (length (header_bytes rules a.n)) (file_bytes rules a))
        (items_of a) finished [] }
{}
