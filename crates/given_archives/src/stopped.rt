use std::fmt::Debug;

/// Something failed before the call that is tried, which is then not made.
#[derive(Clone, Copy, Drop, PartialEq)]
pub struct Stopped;

impl<E: Debug + Drop> From<E> for Stopped {
    fn from(_e: E) -> Stopped {
        Stopped
    }
}
