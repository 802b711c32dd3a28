//! What is counted of an archive: its versions, nodes, alternatives and timestamps, and the bytes of its file.
#![tactic(auto)]

mod counts;
mod fault;
mod file;
mod memory;
mod records;

pub use counts::Counts;
pub use fault::StatsFault;
pub use file::stats;
pub use memory::counts_of;
