//! Serves tests alone: known files and other bytes, specifications and documents of texts, nodes and keyed trees that
//! are made of tables, and how a test says what does not hold.
#![tactic(auto)]

pub mod bytes;
pub mod documents;
mod fails;
pub mod shapes;

pub use fails::{all_told, told};
