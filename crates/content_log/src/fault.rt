// Why no log is written.
ghost use Rattle.std.specs.Prelude.{◌≡◌};
ghost use Rattle.content_log.specs.declared.fault.LogFault.TheVariants.{Memory, Out};

use file_history::HistFault;
use record_cursor::CursorFault;
use std::alloc::AllocError;
use thiserror::Error;
use xa_outside::Failed;

/// Why a log was not written, or not to its end: the file is no sound archive, the folder or the
/// output failed, or there is no memory.
#[derive(Clone, Copy, Debug, Drop, PartialEq, Eq, Error)]
pub enum LogFault {
    #[error("Damage")]
    Damage,
    #[error("Folder")]
    Folder,
    #[error("Out")]
    Out,
    #[error("Memory")]
    Memory,
}

impl From<AllocError> for LogFault {
    ghost from_gives = { λ _ e. e ≡ Memory };

    fn from(_e: AllocError) -> LogFault {
        LogFault::Memory
    }
}

impl From<Failed> for LogFault {
    ghost from_gives = { λ _ e. e ≡ Out };

    fn from(_failed: Failed) -> LogFault {
        LogFault::Out
    }
}

impl From<CursorFault> for LogFault {
    ghost use Rattle.content_log.specs.Told.{of_cursor};

    ghost from_gives = { λ fault e. e ≡ of_cursor fault };

    fn from(fault: CursorFault) -> LogFault {
        match fault {
            CursorFault::Damage => LogFault::Damage,
            CursorFault::Folder => LogFault::Folder,
            CursorFault::Memory => LogFault::Memory,
        }
    }
}

impl From<HistFault> for LogFault {
    ghost use Rattle.content_log.specs.Told.{of_history};

    ghost from_gives = { λ fault e. e ≡ of_history fault };

    fn from(fault: HistFault) -> LogFault {
        match fault {
            HistFault::Damage => LogFault::Damage,
            HistFault::Folder => LogFault::Folder,
            HistFault::Memory => LogFault::Memory,
        }
    }
}
