//! Adding a version to an archive file, which is read once and never held.
#![tactic(auto)]

mod add;
mod begin;
mod beside;
mod copy;
mod fault;
mod fresh;
mod inherited;
mod leaf;
mod merge;

pub use add::{stream_add, stream_append};
pub use fault::AddFault;
