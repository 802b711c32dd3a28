// Why nothing more is written.
ghost use Rattle.std.specs.Prelude.{◌≡◌};
ghost use Rattle.record_writer.specs.declared.fault.WriteFault.TheVariants.{Memory};

use std::alloc::{AllocError, AllocFailed};
use thiserror::Error;

/// Why a call of a writer failed: a length or a count does not fit its field or the file would have
/// more than 274,877,906,944 bytes, the folder failed, or there is no memory.
#[derive(Clone, Copy, Debug, Drop, PartialEq, Eq, Error)]
pub enum WriteFault {
    #[error("TooLong")]
    TooLong,
    #[error("Folder")]
    Folder,
    #[error("Memory")]
    Memory,
}

impl From<AllocError> for WriteFault {
    ghost from_gives = { λ _ e. e ≡ Memory };

    fn from(_e: AllocError) -> WriteFault {
        WriteFault::Memory
    }
}

impl<T: Drop> From<AllocFailed<T>> for WriteFault {
    ghost from_gives = { λ _ e. e ≡ Memory };

    fn from(_e: AllocFailed<T>) -> WriteFault {
        WriteFault::Memory
    }
}
