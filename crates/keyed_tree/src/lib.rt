//! Keyed trees: nodes with labels, where a label is a name and the key values that tell its node apart.
#![tactic(auto)]

mod keyed;
mod label;
mod lent;

pub use keyed::{Body, Keyed};
pub use label::{KeyVal, Label, Name};
pub use lent::{LentVal, NameView};
