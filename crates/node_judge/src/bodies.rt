// Whether bodies differ, by their bytes.
ghost use Rattle.std.specs.Prelude.{◌≡◌, ℕ, List, map};
ghost use Rattle.std.specs.List.{AllByRecursion};
ghost use Rattle.std.specs.List.Sorted.{IsPermutation, IsSortedBy};
ghost use Rattle.std.specs.Cmp.Lexicographic.{slice_cmp};
ghost use Rattle.std.specs.Ordering.{is_lt, nat_cmp};
ghost use Rattle.keyed_tree.specs.Data.{PlainKey};
ghost use Rattle.archive_tree.specs.PartsTest.{do_differ};
ghost use Rattle.record_parts.specs.Bounds.{IsValue};
ghost use Rattle.record_parts.specs.Spelling.{value_bytes};
ghost use Rattle.node_judge.specs.Neighbours.{neighbours_differ};

// Whether the bodies that these bytes spell are all different.
pub(crate) fn do_differ(bodies: Vec<Vec<u8>>) -> bool
    ensures { (ks : List PlainKey) → AllByRecursion IsValue ks
        → map (λ v. v.items) bodies.items ≡ map value_bytes ks → result ≡ do_differ ks }
{
    do_neighbours_differ(&in_order(bodies))
}

fn in_order(mut bodies: Vec<Vec<u8>>) -> Vec<Vec<u8>>
    ensures same { IsPermutation bodies.items result.items }
    ensures in_order { IsSortedBy (λ a b. is_lt (slice_cmp nat_cmp a b))
        (map (λ v. v.items) result.items) }
{
    bodies.sort_unstable_by(|one, two| one.as_slice().cmp(two.as_slice()));
    bodies
}

fn do_neighbours_differ(bodies: &[Vec<u8>]) -> bool
    ensures { result ≡ neighbours_differ (map (λ v. v.items) bodies.now) }
{
    let Some((first, rest)) = bodies.split_first() else {
        return true;
    };
    let mut last = first.as_slice();
    for body in rest {
        if last == body.as_slice() {
            return false;
        }
        last = body.as_slice();
    }
    true
}
