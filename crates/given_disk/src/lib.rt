//! Serves tests alone: a file system in memory, of which a call fails, is interrupted, or meets another process, as it is told.
//! It is an instrument and no model: its contracts are bounds alone.
#![tactic(auto)]

mod calls;
mod changes;
mod compared;
mod disk;
mod events;
mod file;
mod inode;
mod judged;
mod numbers;
mod paths;
mod state;
mod stream;
mod system;
mod trouble;

pub use disk::{MemDisk, OnDisk};
pub use file::MemFile;
pub use inode::{Access, Inode, PLAIN, Row, Sort};
pub use state::{Limits, NO_LIMITS, State};
pub use stream::MemStream;
pub use trouble::{Call, CallKind, Event, NO_INODE, Trouble, What};
