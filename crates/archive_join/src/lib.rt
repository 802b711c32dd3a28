//! Two archives in one, the versions of the second behind those of the first. Both files are read
//! once and never held.
#![tactic(auto)]

mod alternatives;
mod fault;
mod heads;
mod held;
mod laws;
mod leaf;
mod sets;
mod sides;
mod walk;
mod whole;

pub use fault::JoinFault;
pub use laws::joined_archives_have_the_versions_of_both;
pub use whole::join;
