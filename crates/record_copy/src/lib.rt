//! Reading the nodes of an archive file one by one, and copying them into another, with each of
//! their numbers raised. What is read is owned, and nothing is held but one record, and the labels
//! and sets of the nodes that stand open.
#![tactic(auto)]

mod begin;
mod copy;
mod fault;
mod finish;
mod kind;
mod parts;
mod raise;
mod read;

pub use begin::{begin_node, put_alternative};
pub use copy::copy_node;
pub use fault::{CopyFault, written};
pub use finish::read_finish;
pub use kind::Kind;
pub use parts::{Alternative, Head};
pub use raise::Raise;
pub use read::{read_alternative, read_head};
