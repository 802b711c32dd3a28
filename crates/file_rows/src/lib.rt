//! The rows of an archive's file, each part at its offset: nothing is read but what is asked for.
#![tactic(auto)]

mod entries;
mod places;
mod rows;

pub use places::{Child, Row};
pub use rows::{count_children, read_child, root_row, row_of, tree_of};
