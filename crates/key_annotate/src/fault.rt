ghost use Rattle.std.specs.Prelude.{◌≡◌};
ghost use Rattle.key_annotate.specs.declared.fault.AnnotateFault.TheVariants.{Memory};

use key_rules::KeyFault;
use std::alloc::{AllocError, AllocFailed};

/// Why a document has no keyed tree: it does not satisfy the keys, or memory ran out.
#[derive(Debug, Drop)]
pub enum AnnotateFault {
    Key(KeyFault),
    Memory,
}

impl From<AllocError> for AnnotateFault {
    ghost from_gives = { λ _ e. e ≡ Memory };

    fn from(_: AllocError) -> AnnotateFault {
        AnnotateFault::Memory
    }
}

impl<T: Drop> From<AllocFailed<T>> for AnnotateFault {
    ghost from_gives = { λ _ e. e ≡ Memory };

    fn from(_: AllocFailed<T>) -> AnnotateFault {
        AnnotateFault::Memory
    }
}
