//! The outside of the archiver: where bytes come from, where they go, and a folder of files.
//!
//! Every object counts its faults, and a call fails only where that count rises, or stands at its
//! last value. The objects in memory stand in for the real ones in tests, and fail where they are
//! told to.
#![tactic(auto)]

mod buffered;
mod copy;
mod folder;
mod folder_call;
mod folder_script;
mod front;
mod held;
mod laws;
mod mem_folder;
mod mem_sink;
mod mem_source;
mod meter;
mod named_files;
mod pieces;
mod script;
mod sink;
mod source;
mod sure;

pub use buffered::Buffered;
pub use folder::{Folder, fill_at};
pub use folder_call::{FolderCall, FolderFail};
pub use front::{ReadFault, read_front};
pub use laws::{reads_add_up, writes_add_up};
pub use mem_folder::MemFolder;
pub use mem_sink::MemSink;
pub use mem_source::MemSource;
pub use meter::Meter;
pub use pieces::put_buffered;
pub use sink::{Sink, put_all};
pub use source::{Source, fill};
pub use sure::{SureFolder, SureSink, SureSource};

/// A call on an object of the outside failed.
#[derive(Clone, Copy, Debug, PartialEq, Eq)]
pub struct Failed;
