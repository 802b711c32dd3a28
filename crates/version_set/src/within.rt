// Whether a set lies in another.
ghost use Rattle.std.specs.Prelude.{ℕ, ◌≤◌, ◌↔◌, IsTrue};
ghost use Rattle.version_set.specs.Pairs.{IsCanonical};
ghost use Rattle.version_set.specs.Members.{members, has};
ghost use Rattle.version_set.specs.View.{pairs_of};

use crate::set::VersionSet;

impl VersionSet {
    /// Whether each number of this set is in the other. Each interval is looked for by halving, and
    /// nothing takes memory.
    pub fn is_within(&self, other: &VersionSet) -> bool
        ensures { IsTrue result ↔ ((n : ℕ) → IsTrue (has (members (pairs_of self.now)) n)
            → IsTrue (has (members (pairs_of other.now)) n)) }
    {
        for (from, to) in self.pairs() {
            if !spans(other.pairs(), *from, *to) {
                return false;
            }
        }
        true
    }
}

// Whether one of the intervals has all of the numbers, from the first to the last.
fn spans(pairs: &[(u32, u32)], from: u32, to: u32) -> bool
    requires canonical { IsCanonical pairs.now }
    requires order { from ≤ to }
    ensures { IsTrue result ↔ ((n : ℕ) → from ≤ n → n ≤ to → IsTrue (has (members pairs.now) n)) }
{
    let at = pairs.partition_point(|pair| pair.1 < from);
    if at == pairs.len() {
        return false;
    }
    let (first, last) = pairs[at];
    first <= from && to <= last
}
