//! Keyed trees of documents: each element above the frontier with its label, its kids in the order of their labels.
#![tactic(auto)]

mod annotate;
mod build;
mod fault;
mod fronted;
mod label;
mod lent;
mod order;

pub use annotate::{keyed, keyed_laws, lent_keyed};
pub use fault::AnnotateFault;
pub use label::{KeyList, KeyedLabel};
pub use lent::{Head, LentKeyed, own_attr};
