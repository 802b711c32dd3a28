// Why no history is told.
ghost use Rattle.std.specs.Prelude.{◌≡◌};
ghost use Rattle.file_history.specs.declared.fault.HistFault.TheVariants.{Memory};

use record_cursor::CursorFault;
use std::alloc::AllocError;
use thiserror::Error;

/// Why no history was told: the file is no sound archive, the folder failed, or there is no memory.
#[derive(Clone, Copy, Debug, Drop, PartialEq, Eq, Error)]
pub enum HistFault {
    #[error("Damage")]
    Damage,
    #[error("Folder")]
    Folder,
    #[error("Memory")]
    Memory,
}

impl From<AllocError> for HistFault {
    ghost from_gives = { λ _ e. e ≡ Memory };

    fn from(_e: AllocError) -> HistFault {
        HistFault::Memory
    }
}

impl From<CursorFault> for HistFault {
    ghost use Rattle.file_history.specs.Told.{of_cursor};

    ghost from_gives = { λ fault e. e ≡ of_cursor fault };

    fn from(fault: CursorFault) -> HistFault {
        match fault {
            CursorFault::Damage => HistFault::Damage,
            CursorFault::Folder => HistFault::Folder,
            CursorFault::Memory => HistFault::Memory,
        }
    }
}
