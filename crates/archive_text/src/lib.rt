//! Archives with notes as text: a line of JSON for each of their parts.
#![tactic(auto)]

mod cells;
mod draft;
mod expected;
mod export;
mod fault;
mod keys;
mod laws;
mod lines;
mod nodes;
mod notes;
mod read;
mod tree;

pub use export::write_text;
pub use fault::{ReadFault, TextFault};
pub use laws::texts_have_one_reading;
pub use read::{Kept, read_text, read_with_file};
