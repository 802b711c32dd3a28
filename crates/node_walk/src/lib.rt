//! Judging the nodes of an archive file, record by record, over any folder. No node is built: each is
//! judged in its place as it is met, and the END of each row by what is kept of its finished kids.
#![tactic(auto)]

mod alternatives;
mod ends;
mod file;
mod finish;
mod keep;
mod next;
mod root;
mod rows;
mod verdict;

pub use file::judge_nodes;
