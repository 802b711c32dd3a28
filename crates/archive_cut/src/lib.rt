//! Cutting some versions out of an archive file, which is read once and never held.
#![tactic(auto)]

mod alternatives;
mod fault;
mod held;
mod laws;
mod leaf;
mod open;
mod skip;
mod walk;
mod whole;
mod window;

pub use fault::CutFault;
pub use laws::slices_have_their_archives;
pub use whole::cut;
