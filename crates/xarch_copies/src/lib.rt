//! The commands that make an archive out of archives.
#![tactic(auto)]

mod cut;
mod join;
mod notes;
mod slice;

pub use cut::run_cut;
pub use join::run_join;
