//! Serves tests alone: cases of whole commands as lines of text, and what does them over a folder in memory.
//!
//! The forms of the lines stand in the README of the crate `test_commands`, whose data are such cases.
#![tactic(auto)]

mod calls;
mod failing;
mod file;
mod given;
mod interpreter;
mod judge;
mod line;
mod number;
mod runs;
mod scene;
mod scope;
mod shown;
mod spelled;
mod steps;
mod stopped;
mod tried;
mod verb;

pub use file::{Report, check};
pub use given::{Given, read_given};
pub use runs::Runs;
