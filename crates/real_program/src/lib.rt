//! The program as one call over a system, the words that it is given, and three streams: what `main` calls.
#![tactic(auto)]

mod program;

pub use program::{run_words, serve};
