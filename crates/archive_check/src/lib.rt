//! Whether a file is a sound archive.
#![tactic(auto)]

mod fault;
mod file;

pub use fault::CheckFault;
pub use file::check;
