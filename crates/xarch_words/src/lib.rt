//! The commands that words spell, and the status and the line of each fault.
#![tactic(auto)]

mod fault;
mod keys;
pub mod limits;
mod line;
mod words;

pub use fault::{Fault, Quantity, status};
pub use line::write_fault;
pub use words::{Command, read_words};
