// Why nodes were not copied.
ghost use Rattle.std.specs.Prelude.{◌≡◌};
ghost use Rattle.std.specs.Result.{result_map_both};
ghost use Rattle.record_copy.specs.Faults.{of_writer};

use record_cursor::CursorFault;
use record_writer::WriteFault;
use std::alloc::AllocError;
use thiserror::Error;

/// Why nodes were not copied: the file that is read is no sound archive, the new file would be too
/// long, the folder failed, or there is no memory.
#[derive(Clone, Copy, Debug, Drop, PartialEq, Eq, Error)]
pub enum CopyFault {
    #[error("Damage")]
    Damage,
    #[error("TooLong")]
    TooLong,
    #[error("Folder")]
    Folder,
    #[error("Memory")]
    Memory,
}

impl From<AllocError> for CopyFault {
    ghost use Rattle.record_copy.specs.declared.fault.CopyFault.TheVariants.{Memory};

    ghost from_gives = { λ _ e. e ≡ Memory };

    fn from(_e: AllocError) -> CopyFault {
        CopyFault::Memory
    }
}

impl From<CursorFault> for CopyFault {
    ghost use Rattle.record_copy.specs.Faults.{of_cursor};

    ghost from_gives = { λ fault e. e ≡ of_cursor fault };

    fn from(fault: CursorFault) -> CopyFault {
        match fault {
            CursorFault::Damage => CopyFault::Damage,
            CursorFault::Folder => CopyFault::Folder,
            CursorFault::Memory => CopyFault::Memory,
        }
    }
}

impl From<WriteFault> for CopyFault {
    ghost use Rattle.record_copy.specs.Faults.{of_writer};

    ghost from_gives = { λ fault e. e ≡ of_writer fault };

    fn from(fault: WriteFault) -> CopyFault {
        match fault {
            WriteFault::TooLong => CopyFault::TooLong,
            WriteFault::Folder => CopyFault::Folder,
            WriteFault::Memory => CopyFault::Memory,
        }
    }
}

/// What a call of the writer comes to.
pub fn written(call: Result<(), WriteFault>) -> Result<(), CopyFault>
    ensures { result ≡ result_map_both (λ x. x) of_writer call }
{
    match call {
        Ok(()) => Ok(()),
        Err(fault) => Err(CopyFault::from(fault)),
    }
}
