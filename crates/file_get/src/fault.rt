// Why no version is written.
use content_print::PrintFault;
use record_cursor::CursorFault;
use thiserror::Error;
use xa_outside::Failed;

/// Why a version was not written, or not to its end: the archive has no such version, but so many;
/// the file is no sound archive; the folder or the output failed; or there is no memory.
#[derive(Clone, Copy, Debug, Drop, PartialEq, Eq, Error)]
pub enum GetFault {
    #[error("NoVersion")]
    NoVersion { n: u32 },
    #[error("Damage")]
    Damage,
    #[error("Folder")]
    Folder,
    #[error("Out")]
    Out,
    #[error("Memory")]
    Memory,
}

impl From<CursorFault> for GetFault {
    ghost use Rattle.std.specs.Prelude.{◌≡◌};
    ghost use Rattle.file_get.specs.Told.{of_cursor};

    ghost from_gives = { λ fault e. e ≡ of_cursor fault };

    fn from(fault: CursorFault) -> GetFault {
        match fault {
            CursorFault::Damage => GetFault::Damage,
            CursorFault::Folder => GetFault::Folder,
            CursorFault::Memory => GetFault::Memory,
        }
    }
}

impl From<PrintFault> for GetFault {
    ghost use Rattle.std.specs.Prelude.{◌≡◌};
    ghost use Rattle.file_get.specs.Told.{of_print};

    ghost from_gives = { λ fault e. e ≡ of_print fault };

    fn from(fault: PrintFault) -> GetFault {
        match fault {
            PrintFault::Damage => GetFault::Damage,
            PrintFault::Out => GetFault::Out,
        }
    }
}

impl From<Failed> for GetFault {
    ghost use Rattle.std.specs.Prelude.{◌≡◌};
    ghost use Rattle.file_get.specs.declared.fault.GetFault.TheVariants.{Out};

    ghost from_gives = { λ _ e. e ≡ Out };

    fn from(_failed: Failed) -> GetFault {
        GetFault::Out
    }
}
