//! Contents printed straight out of their bytes.
#![tactic(auto)]

mod fault;
mod lent_content;
mod lent_element;

pub use fault::PrintFault;
pub use lent_content::{print_lent_attr, print_lent_content};
pub use lent_element::write_lent_element;
