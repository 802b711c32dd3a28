//! The folder that a program runs in and its standard streams, as the objects that commands are given. What the system holds
//! is trusted: the folder tells no files, and only what it counts is proved.
#![tactic(auto)]

mod access;
mod again;
mod calls;
mod disk;
mod draft;
mod opened;
mod pages;
mod same_name;
mod streams;
mod system;
mod target;

pub use disk::DiskFolder;
pub use streams::{ReaderSource, WriterSink};
pub use system::{Kind, Mark, Moment, Seen, System};
