//! Archives of keyed trees: each node is kept once, with the numbers of the versions that have it.
#![tactic(auto)]

mod archive;
mod check;
mod laws;
mod node;
mod read;

pub use archive::Archive;
pub use laws::archives_stand_for_one_list;
pub use node::{ANode, Alt, effective};
