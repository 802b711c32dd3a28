// Why nothing was read.
ghost use Rattle.std.specs.Prelude.{◌≡◌};
ghost use Rattle.record_cursor.specs.declared.fault.CursorFault.TheVariants.{Memory};

use std::alloc::AllocError;
use thiserror::Error;

/// Why a file gave no header or no record: none stands there, the folder failed, or there is no
/// memory.
#[derive(Clone, Copy, Debug, Drop, PartialEq, Eq, Error)]
pub enum CursorFault {
    #[error("Damage")]
    Damage,
    #[error("Folder")]
    Folder,
    #[error("Memory")]
    Memory,
}

impl From<AllocError> for CursorFault {
    ghost from_gives = { λ _ e. e ≡ Memory };

    fn from(_e: AllocError) -> CursorFault {
        CursorFault::Memory
    }
}
