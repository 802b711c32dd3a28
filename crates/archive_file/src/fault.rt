// Why there is no file, or no archive.
use std::alloc::{AllocError, AllocFailed};

/// Why an archive has no file: it would be too long, or there is no memory.
#[derive(Clone, Copy, Debug, PartialEq, Eq)]
pub enum EncodeFault {
    TooLong,
    Memory,
}

impl From<AllocError> for EncodeFault {
    ghost use Rattle.std.specs.Prelude.{◌≡◌};
    ghost use Rattle.archive_file.specs.declared.fault.EncodeFault.TheVariants.{Memory};

    ghost from_gives = { λ _ e. e ≡ Memory };

    fn from(_e: AllocError) -> EncodeFault {
        EncodeFault::Memory
    }
}

/// Why bytes give no archive: they are no sound archive, or there is no memory.
#[derive(Clone, Copy, Debug, PartialEq, Eq)]
pub enum FileFault {
    Damage,
    Memory,
}

impl From<AllocError> for FileFault {
    ghost use Rattle.std.specs.Prelude.{◌≡◌};
    ghost use Rattle.archive_file.specs.declared.fault.FileFault.TheVariants.{Memory};

    ghost from_gives = { λ _ e. e ≡ Memory };

    fn from(_e: AllocError) -> FileFault {
        FileFault::Memory
    }
}

impl<T: Drop> From<AllocFailed<T>> for FileFault {
    ghost use Rattle.std.specs.Prelude.{◌≡◌};
    ghost use Rattle.archive_file.specs.declared.fault.FileFault.TheVariants.{Memory};

    ghost from_gives = { λ _ e. e ≡ Memory };

    fn from(_e: AllocFailed<T>) -> FileFault {
        FileFault::Memory
    }
}
