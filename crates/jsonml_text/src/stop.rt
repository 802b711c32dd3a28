ghost use Rattle.std.specs.Prelude.{◌≡◌};
ghost use Rattle.jsonml_text.specs.declared.stop.Stop.TheVariants.{Memory};

use std::alloc::{AllocError, AllocFailed};

/// Why no more is read of a document: a shape fault, or want of memory.
#[derive(Drop)]
pub(crate) enum Stop {
    Shape(u8),
    Memory,
}

impl From<AllocError> for Stop {
    ghost from_gives = { λ _ s. s ≡ Memory };

    fn from(_: AllocError) -> Stop {
        Stop::Memory
    }
}

impl<T: Drop> From<AllocFailed<T>> for Stop {
    ghost from_gives = { λ _ s. s ≡ Memory };

    fn from(_: AllocFailed<T>) -> Stop {
        Stop::Memory
    }
}
