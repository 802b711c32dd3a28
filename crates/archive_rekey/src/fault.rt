ghost use Rattle.std.specs.Prelude.{◌≡◌};
ghost use Rattle.archive_rekey.specs.declared.fault.RekeyFault.TheVariants.{Memory};

use key_rules::KeyFault;
use std::alloc::AllocError;

/// Why an archive is not there under other keys.
#[derive(Debug, Drop)]
pub enum RekeyFault {
    /// The version of this number is the first that does not satisfy the keys. Versions count from
    /// 1. The place of the fault is that in the document that the version spells.
    Key { version: u32, fault: KeyFault },
    Memory,
}

impl From<AllocError> for RekeyFault {
    ghost from_gives = { λ _ e. e ≡ Memory };

    fn from(_: AllocError) -> RekeyFault {
        RekeyFault::Memory
    }
}
