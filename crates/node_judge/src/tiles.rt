// Whether intervals divide a set.
ghost use Rattle.std.specs.Prelude.{◌≡◌, ℕ, List, map};
ghost use Rattle.std.specs.List.{AllByRecursion, flat_map};
ghost use Rattle.version_set.specs.Members.{members};
ghost use Rattle.version_set.specs.Pairs.{IsCanonical};
ghost use Rattle.version_set.specs.View.{pairs_of};
ghost use Rattle.archive_tree.specs.PartsTest.{are_parts, do_tile};

use version_set::VersionSet;

/// Whether the sets of these intervals are pairwise disjoint and together the set. The intervals are
/// sorted and gone along once.
pub fn divide(set: &VersionSet, mut pairs: Vec<(u32, u32)>) -> bool
    ensures { (ss : List (List (ℕ × ℕ))) → AllByRecursion IsCanonical ss
        → pairs.items ≡ flat_map (λ s. s) ss
        → result ≡ are_parts (members (pairs_of set.now)) (map members ss) }
{
    pairs.sort_unstable_by_key(|pair| pair.0);
    do_tile(set.pairs(), &pairs)
}

// Whether the later intervals follow one upon another through the first ones, and end with them.
fn do_tile(whole: &[(u32, u32)], pairs: &[(u32, u32)]) -> bool
    ensures { result ≡ do_tile 0 whole.now pairs.now }
{
    let mut at = 0;
    let mut low = 0;
    for (from, to) in pairs {
        if at == whole.len() {
            return false;
        }
        let (first, last) = whole[at];
        if *from != first.max(low) || *to > last {
            return false;
        }
        if *to < last {
            low = *to + 1;
            continue;
        }
        at += 1;
        low = 0;
    }
    at == whole.len()
}
