use std::io::ErrorKind;

/// What a call of the file system is.
#[derive(Clone, Copy, PartialEq, Eq)]
pub enum CallKind {
    Now,
    Look,
    LookAtOpen,
    ReadLink,
    Open,
    Make,
    Raise,
    Read,
    Write,
    Sync,
    Give,
    SetMode,
    Rename,
    Remove,
}

/// A call that leads to no inode.
pub const NO_INODE: usize = usize::MAX;

/// A call that was made: of what kind, the inode that it led to, and the mode that this had then.
#[derive(Clone, Copy)]
pub struct Call {
    pub kind: CallKind,
    pub inode: usize,
    pub mode: u32,
    /// A file was given a name that is not a draft's.
    pub names: bool,
}

/// What another process does.
#[derive(Clone, Copy)]
pub enum Event {
    /// It writes these bytes into the file of this name, which it makes where there is none.
    Rewrites(&'static str, &'static [u8]),
    /// It puts another file under this name.
    Replaces(&'static str, &'static [u8]),
    /// It writes what stands under the first name into the file of the second one.
    Copies(&'static str, &'static str),
    /// It gives what stands under the first name the second one.
    Moves(&'static str, &'static str),
    Removes(&'static str),
}

/// What comes at a call.
#[derive(Clone, Copy)]
pub enum What {
    Fails(ErrorKind),
    /// It is interrupted so often, if it is one that waits.
    IsInterrupted(u32),
    /// It and all calls after it fail: the process is dead.
    Stops,
    /// Another process does something before it.
    Meets(Event),
}

/// What comes at the call of this number, counted from 0.
#[derive(Clone, Copy)]
pub struct Trouble {
    pub at: usize,
    pub what: What,
}
