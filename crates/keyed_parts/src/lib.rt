//! The parts of a lent keyed tree, one after another.
#![tactic(auto)]

mod kid;
mod kids;
mod order;

pub use kid::{Inside, Kid};
pub use kids::Kids;
