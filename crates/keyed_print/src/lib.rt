//! Keyed trees of documents as text: each as the element that it spells, printed without a copy.
#![tactic(auto)]

mod print_lent;
mod put;

pub use put::put_keyed;
