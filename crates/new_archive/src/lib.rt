//! An archive in memory whose nodes have all their numbers while it grows, and sealing it.
#![tactic(auto)]

mod bodies;
mod find;
mod fresh;
mod leaf;
mod node;
mod row;
mod seal;
mod spellings;
mod version;
mod weave;

pub use bodies::Alts;
pub use node::{NewAlt, NewArchive, NewNode};
pub use seal::seal_archive;
pub use version::merge_lent;
