// Why nothing was cut out.
ghost use Rattle.std.specs.Prelude.{◌≡◌};
ghost use Rattle.std.specs.Result.{result_map_both};
ghost use Rattle.record_copy.specs.Faults.{of_cursor};
ghost use Rattle.archive_cut.specs.Faults.{of_cut};

use record_copy::CopyFault;
use record_cursor::CursorFault;
use thiserror::Error;

/// Why nothing was cut out: the file is no sound archive, the new file would be too long, the folder
/// failed, or there is no memory.
#[derive(Clone, Copy, Debug, Drop, PartialEq, Eq, Error)]
pub enum CutFault {
    #[error("Damage")]
    Damage,
    #[error("TooLong")]
    TooLong,
    #[error("Folder")]
    Folder,
    #[error("Memory")]
    Memory,
}

/// What the cutting comes to.
pub(crate) fn done(call: Result<(), CopyFault>) -> Result<(), CutFault>
    ensures { result_map_both (λ x. x) of_cut result ≡ call }
{
    match call {
        Ok(()) => Ok(()),
        Err(CopyFault::Damage) => Err(CutFault::Damage),
        Err(CopyFault::TooLong) => Err(CutFault::TooLong),
        Err(CopyFault::Folder) => Err(CutFault::Folder),
        Err(CopyFault::Memory) => Err(CutFault::Memory),
    }
}

/// What a call of the cursor comes to.
pub(crate) fn taken(call: Result<(), CursorFault>) -> Result<(), CopyFault>
    ensures { result ≡ result_map_both (λ x. x) of_cursor call }
{
    match call {
        Ok(()) => Ok(()),
        Err(fault) => Err(CopyFault::from(fault)),
    }
}
