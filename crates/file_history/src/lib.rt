//! The history of an element, out of an archive's file: its children are searched by halving.
#![tactic(auto)]

mod fault;
mod follow;
mod leaf;
mod open;
mod search;

pub use fault::HistFault;
pub use follow::history;
pub use leaf::{LeafAt, find_leaf};
