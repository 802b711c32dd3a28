// Why no version was added.
ghost use Rattle.std.specs.Prelude.{◌≡◌};
ghost use Rattle.std.specs.Result.{result_map_both};
ghost use Rattle.stream_merge.specs.Passes.{of_writer};

use record_cursor::CursorFault;
use record_writer::WriteFault;
use std::alloc::AllocError;
use thiserror::Error;

/// Why no version was added: the file is no sound archive, the folder failed, the archive has
/// 999,999 versions, the new file would be too long, or there is no memory.
#[derive(Clone, Copy, Debug, Drop, PartialEq, Eq, Error)]
pub enum AddFault {
    #[error("Damage")]
    Damage,
    #[error("Folder")]
    Folder,
    #[error("Limit")]
    Limit,
    #[error("TooLong")]
    TooLong,
    #[error("Memory")]
    Memory,
}

/// Why a part of the merge failed. The number of versions is judged before.
#[derive(Clone, Copy, Drop)]
pub(crate) enum MergeFault {
    Damage,
    Folder,
    TooLong,
    Memory,
}

impl From<AllocError> for MergeFault {
    ghost use Rattle.stream_merge.specs.declared.fault.MergeFault.TheVariants.{Memory};

    ghost from_gives = { λ _ e. e ≡ Memory };

    fn from(_e: AllocError) -> MergeFault {
        MergeFault::Memory
    }
}

impl From<CursorFault> for MergeFault {
    ghost use Rattle.stream_merge.specs.Passes.{of_cursor};

    ghost from_gives = { λ fault e. e ≡ of_cursor fault };

    fn from(fault: CursorFault) -> MergeFault {
        match fault {
            CursorFault::Damage => MergeFault::Damage,
            CursorFault::Folder => MergeFault::Folder,
            CursorFault::Memory => MergeFault::Memory,
        }
    }
}

impl From<WriteFault> for MergeFault {
    ghost use Rattle.stream_merge.specs.Passes.{of_writer};

    ghost from_gives = { λ fault e. e ≡ of_writer fault };

    fn from(fault: WriteFault) -> MergeFault {
        match fault {
            WriteFault::TooLong => MergeFault::TooLong,
            WriteFault::Folder => MergeFault::Folder,
            WriteFault::Memory => MergeFault::Memory,
        }
    }
}

impl From<MergeFault> for AddFault {
    ghost use Rattle.stream_merge.specs.Added.{of_merge};

    ghost from_gives = { λ fault e. e ≡ of_merge fault };

    fn from(fault: MergeFault) -> AddFault {
        match fault {
            MergeFault::Damage => AddFault::Damage,
            MergeFault::Folder => AddFault::Folder,
            MergeFault::TooLong => AddFault::TooLong,
            MergeFault::Memory => AddFault::Memory,
        }
    }
}

/// What a call of the writer comes to.
pub(crate) fn written(call: Result<(), WriteFault>) -> Result<(), MergeFault>
    ensures { result ≡ result_map_both (λ x. x) of_writer call }
{
    match call {
        Ok(()) => Ok(()),
        Err(fault) => Err(MergeFault::from(fault)),
    }
}
