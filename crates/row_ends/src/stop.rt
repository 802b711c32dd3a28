// Why no more bytes are compared.
ghost use Rattle.std.specs.Prelude.{◌≡◌};
ghost use Rattle.record_cursor.specs.declared.fault.CursorFault.TheVariants.{Memory};
ghost use Rattle.row_ends.specs.declared.stop.Stop.TheVariants.{Fault};

use record_cursor::CursorFault;
use std::alloc::AllocError;

/// Why no more bytes are compared: the file has others there, or there is a fault.
#[derive(Clone, Copy)]
pub(crate) enum Stop {
    Differs,
    Fault(CursorFault),
}

impl From<CursorFault> for Stop {
    ghost from_gives = { λ fault e. e ≡ Fault fault };

    fn from(fault: CursorFault) -> Stop {
        Stop::Fault(fault)
    }
}

impl From<AllocError> for Stop {
    ghost from_gives = { λ _ e. e ≡ Fault Memory };

    fn from(_e: AllocError) -> Stop {
        Stop::Fault(CursorFault::Memory)
    }
}
