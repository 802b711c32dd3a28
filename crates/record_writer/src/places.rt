// The sets of a row's children, by their places.
ghost use Rattle.std.specs.Prelude.{◌≡◌, ◌<◌, length, IfSome, IsSome};
ghost use Rattle.version_set.specs.View.{pairs_of};
ghost use Rattle.record_writer.specs.Places.{IsAtEnd, set_at};

use version_set::VersionSet;

/// The place of the set, where it is the first or the last.
pub fn find_set(sets: &[VersionSet], set: &VersionSet) -> Option<usize>
    ensures known { IfSome result (λ at. at < length sets.now) }
    ensures at { IfSome result (λ at. set_at sets.now at ≡ pairs_of set.now) }
    ensures found { IsAtEnd sets.now (pairs_of set.now) → IsSome result }
{
    if sets.is_empty() {
        return None;
    }
    if sets[0].same(set) {
        return Some(0);
    }
    let last = sets.len() - 1;
    if sets[last].same(set) {
        return Some(last);
    }
    None
}
