//! A version out of an archive's file: the stored timestamp trees lead to what it has, and it is
//! printed on the way.
#![tactic(auto)]

mod body;
mod fault;
mod look;
mod missing;
mod node;
mod print;
mod read;
mod root;
mod sets;
mod span;
mod value;
mod version;
mod walk;

pub use fault::GetFault;
pub use version::get;
