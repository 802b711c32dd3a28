// Why archives were not joined.
ghost use Rattle.std.specs.Prelude.{◌≡◌};
ghost use Rattle.std.specs.Result.{result_map_both};
ghost use Rattle.archive_join.specs.Faults.{of_side};

use record_copy::CopyFault;
use std::alloc::AllocError;
use thiserror::Error;

/// Why archives were not joined: the file of the first or of the second is no sound archive, the new
/// file would be too long, the folder failed, or there is no memory.
#[derive(Clone, Copy, Debug, Drop, PartialEq, Eq, Error)]
pub enum JoinFault {
    #[error("Damage")]
    Damage { second: bool },
    #[error("TooLong")]
    TooLong,
    #[error("Folder")]
    Folder,
    #[error("Memory")]
    Memory,
}

impl From<AllocError> for JoinFault {
    ghost use Rattle.archive_join.specs.declared.fault.JoinFault.TheVariants.{Memory};

    ghost from_gives = { λ _ e. e ≡ Memory };

    fn from(_e: AllocError) -> JoinFault {
        JoinFault::Memory
    }
}

/// What a call comes to that reads the second archive, or the first, or neither and then finds no
/// damage.
pub(crate) fn of_side<T: Drop>(second: bool, call: Result<T, CopyFault>) -> Result<T, JoinFault>
    ensures { result ≡ result_map_both (λ x. x) (of_side second) call }
{
    match call {
        Ok(value) => Ok(value),
        Err(CopyFault::Damage) => Err(JoinFault::Damage { second }),
        Err(CopyFault::TooLong) => Err(JoinFault::TooLong),
        Err(CopyFault::Folder) => Err(JoinFault::Folder),
        Err(CopyFault::Memory) => Err(JoinFault::Memory),
    }
}
