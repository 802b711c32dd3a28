//! Serves tests alone: lists of small documents and of large ones, specifications and versions of texts, and the
//! archives that they are merged to, in memory, as a file and in a folder.
#![tactic(auto)]

mod archives;
mod documents;
mod folders;
mod judged;
mod large;
pub mod lists;
mod stopped;

pub use archives::{archive, encoded, file, grown};
pub use documents::{specification, version};
pub use folders::{Failing, NAME, NEVER, OTHER, folder, is_drafted};
pub use judged::{Judge, hold_large, hold_listed};
pub use large::{GREAT_SIZES, SIZES, Size, documents_of, keys_of, lent};
pub use stopped::Stopped;
