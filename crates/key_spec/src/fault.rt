use std::alloc::{AllocError, AllocFailed};

/// Why a text is no specification.
#[derive(Debug, Drop, PartialEq, Eq)]
pub enum SpecFault {
    /// The number of the faulty line, or 0 for the text as a whole, and the kind of the fault:
    /// 1 no rule or not UTF-8, 2 a context that is no target, 3 a repeated context and tag, 4 a repeated key path or `.` beside another,
    /// 5 a key for what is implied without one, 6 a context at a frontier end, 7 past a limit.
    Bad { line: u32, why: u8 },
    /// There was not enough memory.
    Memory,
}

impl From<AllocError> for SpecFault {
    ghost use Rattle.std.specs.Prelude.{◌≡◌};
    ghost use Rattle.key_spec.specs.declared.fault.SpecFault.TheVariants.{Memory};

    ghost from_gives = { λ _ fault. fault ≡ Memory };

    fn from(_error: AllocError) -> SpecFault {
        SpecFault::Memory
    }
}

impl<T: Drop> From<AllocFailed<T>> for SpecFault {
    ghost use Rattle.std.specs.Prelude.{◌≡◌};
    ghost use Rattle.key_spec.specs.declared.fault.SpecFault.TheVariants.{Memory};

    ghost from_gives = { λ _ fault. fault ≡ Memory };

    fn from(_error: AllocFailed<T>) -> SpecFault {
        SpecFault::Memory
    }
}
