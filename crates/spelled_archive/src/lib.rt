//! Archives in memory whose bodies are kept as their encodings.
#![tactic(auto)]

mod body;
mod node;

pub use body::{KeptBody, Spelled};
pub use node::{Alt, SNode, SpelledArchive};
