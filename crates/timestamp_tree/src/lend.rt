ghost use Rattle.std.specs.Prelude.{◌≡◌, length, map, IfOk};
ghost use Rattle.version_set.specs.View.{pairs_of};

use std::alloc::{AllocError, Global};
use version_set::VersionSet;

/// The sets, lent.
pub fn lend_sets(alloc: Global, sets: &[VersionSet]) -> Result<Vec<&VersionSet>, AllocError>
    ensures sets { IfOk result (λ lent.
        map (λ s. pairs_of s.now) lent.items ≡ map pairs_of sets.now) }
    ensures count { IfOk result (λ lent. length lent.items ≡ length sets.now) }
{
    let mut lent = Vec::with_capacity(alloc, sets.len())?;
    for set in sets {
        lent.push(set)?;
    }
    Ok(lent)
}
