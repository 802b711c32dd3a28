// What follows from the definitions.
ghost use Rattle.std.specs.Prelude.{◌≡◌, ◌↔◌, ℕ, ◌&&◌, List, [], ◌∷◌, None, IsTrue};
ghost use Rattle.std.specs.List.{list_all, range_with_len};
ghost use Rattle.jsonml_tree.specs.declared.limits.TheConstants.{GREATEST_DEPTH};
ghost use Rattle.version_set.specs.Members.{upto_pairs};
ghost use Rattle.key_spec.specs.Data.{PlainRule};
ghost use Rattle.keyed_tree.specs.Data.{PlainLabel, PlainKeyed};
ghost use Rattle.keyed_tree.specs.Lists.{Has};
ghost use Rattle.archive_tree.specs.Data.{Stamp, PlainAlt, PlainNode, inner_node};
ghost use Rattle.archive_tree.specs.Data.{PlainNodes, nodes_list, PlainArchive};
ghost use Rattle.archive_tree.specs.Parts.{node_sets};
ghost use Rattle.archive_tree.specs.PartsTest.{are_alts_well, are_parts, is_archive};
ghost use Rattle.archive_tree.specs.Seek.{rise};
ghost use Rattle.archive_tree.specs.Stands.{labels, ArchiveOf, Kept};
ghost use Rattle.archive_file.specs.NodeFits.{is_archive_keyed};
ghost use Rattle.archive_file.specs.Sound.{Sound, SoundAs};
ghost use Rattle.node_judge.specs.Awaited.{Awaited, holds_at, is_met, keeps};
ghost use Rattle.node_judge.specs.InPlace.{is_sound_in, is_placed};
ghost use Rattle.node_judge.specs.InPlace.{is_sound_archive, LiesSound};
ghost use Rattle.node_judge.specs.Rows.{PlainFrame, root_frame, goes_on, is_row_sound};

/// What has to hold of an archive is said of each of its nodes in its place. A node waits for key
/// values: its kids meet them, and keep what they are handed. A node is right in its place exactly
/// where it is well, fits the rules, is not too deep and keeps what its parent waits for. An
/// alternative that inherits is the only one of its leaf. Then an archive is sound exactly where
/// its row of nodes is, and a file exactly where such nodes lie in it.
pub fn nodes_are_sound_in_their_place()
    ensures met { (w : Awaited) (l : PlainLabel) (s : Stamp) (ks : PlainNodes)
        → IsTrue (rise (labels ks))
        → holds_at w (inner_node l s ks)
        ≡ (is_met (labels ks) w && list_all (λ k. keeps k w) (nodes_list ks)) }
    ensures node { (rules : List PlainRule) (path : List (List ℕ)) (ns : List ℕ) (left : ℕ)
        (ws : List Awaited) (k : PlainNode)
        → is_sound_in rules path ns left ws k ≡ is_placed rules path ns left ws k }
    ensures alone { (ns : List ℕ) (xs : List PlainAlt) (x : PlainAlt)
        → IsTrue (are_alts_well ns xs) → Has x xs → x.stamp ≡ None → xs ≡ x ∷ [] }
    ensures archive { (rules : List PlainRule) (a : PlainArchive)
        → is_sound_archive rules a ≡ (is_archive a && is_archive_keyed rules a) }
    ensures versions { (rules : List PlainRule) (vs : List PlainKeyed) (bytes : List ℕ)
        → SoundAs rules vs bytes
        ↔ ((a : PlainArchive) × (ArchiveOf vs a × LiesSound rules a bytes)) }
    ensures kept { (rules : List PlainRule) (a : PlainArchive) (bytes : List ℕ)
        → LiesSound rules a bytes → Kept a }
    ensures file { (bytes : List ℕ) → Sound bytes
        ↔ ((rules : List PlainRule) × (a : PlainArchive) × LiesSound rules a bytes) }
    ensures one { (rules others : List PlainRule) (a b : PlainArchive) (bytes : List ℕ)
        → LiesSound rules a bytes → LiesSound others b bytes → (rules ≡ others) × (a ≡ b) }
{}

/// A row is right exactly where its kids are opened one after another, each is right inside, and
/// nothing is waited for at its end. The row of the virtual root tells the same of an archive.
pub fn rows_are_right_kid_by_kid()
    ensures rows { (f : PlainFrame) (ks : PlainNodes) → goes_on f ks ≡ is_row_sound f ks }
    ensures archive { (rules : List PlainRule) (a : PlainArchive) → is_sound_archive rules a
        ≡ (goes_on (root_frame rules (upto_pairs a.n) GREATEST_DEPTH) a.kids
        && are_parts (range_with_len 1 a.n) (node_sets (range_with_len 1 a.n) a.kids)) }
{}
