//! The contents that a leaf has had over time, each with its versions, out of an archive's file.
#![tactic(auto)]

mod alternatives;
mod entry;
mod fault;
mod frontier;
mod leaf;

pub use fault::LogFault;
pub use frontier::at_frontier;
pub use leaf::log;
