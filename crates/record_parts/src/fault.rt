// Why nothing was read, or spelled.
ghost use Rattle.std.specs.Prelude.{◌≡◌};
ghost use Rattle.record_parts.specs.declared.fault.RecFault.TheVariants.{Memory};
ghost use Rattle.record_parts.specs.declared.fault.SpellFault.TheVariants as unspelled;

use std::alloc::{AllocError, AllocFailed};

/// Why no record was read: the bytes are none, or there is no memory.
#[derive(Clone, Copy, Debug, PartialEq, Eq)]
pub enum RecFault {
    Damage,
    Memory,
}

impl From<AllocError> for RecFault {
    ghost from_gives = { λ _ e. e ≡ Memory };

    fn from(_e: AllocError) -> RecFault {
        RecFault::Memory
    }
}

impl<T: Drop> From<AllocFailed<T>> for RecFault {
    ghost from_gives = { λ _ e. e ≡ Memory };

    fn from(_e: AllocFailed<T>) -> RecFault {
        RecFault::Memory
    }
}

/// Why a label or a body was not spelled: a length, a count or a number does not fit its field, elements nest too deep or
/// names do not ascend, or there is no memory.
#[derive(Clone, Copy, Debug, Drop, PartialEq, Eq)]
pub enum SpellFault {
    TooLong,
    Memory,
}

impl From<AllocError> for SpellFault {
    ghost from_gives = { λ _ e. e ≡ unspelled.Memory };

    fn from(_e: AllocError) -> SpellFault {
        SpellFault::Memory
    }
}
