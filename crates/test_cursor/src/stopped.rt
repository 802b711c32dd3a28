use record_cursor::CursorFault;
use record_writer::WriteFault;
use std::alloc::{AllocError, AllocFailed};
use xa_outside::Failed;

/// Something failed.
#[derive(Clone, Copy, Drop)]
pub struct Stopped;

impl From<AllocError> for Stopped {
    fn from(_e: AllocError) -> Stopped {
        Stopped
    }
}

impl<T: Drop> From<AllocFailed<T>> for Stopped {
    fn from(_e: AllocFailed<T>) -> Stopped {
        Stopped
    }
}

impl From<CursorFault> for Stopped {
    fn from(_e: CursorFault) -> Stopped {
        Stopped
    }
}

impl From<WriteFault> for Stopped {
    fn from(_e: WriteFault) -> Stopped {
        Stopped
    }
}

impl From<Failed> for Stopped {
    fn from(_e: Failed) -> Stopped {
        Stopped
    }
}
