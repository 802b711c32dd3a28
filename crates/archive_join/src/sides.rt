// The two archives.
ghost use Rattle.std.specs.Prelude.{◌≡◌};

use record_copy::Raise;

/// By how much the numbers of the first are raised, which is by none, and those of the second.
#[derive(Clone, Copy)]
pub(crate) struct Sides {
    pub one: Raise,
    pub two: Raise,
    pub ghost first: { one.by ≡ 0 },
}
