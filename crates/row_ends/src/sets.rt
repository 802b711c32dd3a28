// The effective sets of kids, from the last to the first.
ghost use Rattle.std.specs.Prelude.{◌≡◌, ◌<◌, ◌++◌, ◌∷◌, [], length, IfOk};
ghost use Rattle.version_set.specs.View.{pairs_of};

use crate::parts::Stored;
use std::alloc::AllocError;
use version_set::VersionSet;

/// The sets of the kids that are left. The last is given first.
#[derive(Drop)]
pub struct Sets<'a> {
    /// The set of the parent.
    pub row: &'a VersionSet,
    /// The sets of the kids that store one.
    pub stored: &'a [Stored],
    /// So many kids behind the last of those inherit theirs.
    pub inheriting: u32,
}

impl Sets<'_> {
    ghost use Rattle.row_ends.specs.SetsView.{sets_view};

    /// Takes the last set.
    pub fn take_last(&mut self) -> Result<VersionSet, AllocError>
        requires { 0 < length (sets_view self.old) }
        ensures { IfOk result (λ set.
            sets_view self.old ≡ sets_view self.new ++ pairs_of set ∷ []) }
    {
        if self.inheriting > 0 {
            self.inheriting -= 1;
            return self.row.copy();
        }
        let Some((last, front)) = self.stored.split_last() else {
            unreachable!();
        };
        self.stored = front;
        self.inheriting = last.inheriting;
        last.set.copy()
    }
}
