ghost use Rattle.std.specs.Prelude.{◌≡◌};
ghost use Rattle.xarch_run.specs.declared.stop.Stop.TheVariants as stop;

use std::alloc::AllocError;

/// Why the reader has no further line.
#[derive(Clone, Copy, Debug, PartialEq, Eq)]
pub(crate) enum Stop {
    /// A read failed.
    Failed,
    /// The input has a byte past those that a batch may have.
    PastLimit,
    Memory,
}

impl From<AllocError> for Stop {
    ghost from_gives = { λ _ e. e ≡ stop.Memory };

    fn from(_: AllocError) -> Stop {
        Stop::Memory
    }
}
