//! Printing of documents, whole or call by call.
#![tactic(auto)]

mod array;
mod last;
mod laws;
mod pieces;
mod print;
mod printer;
mod quote;
mod run;

pub use array::write_content;
pub use laws::calls_print_the_tree;
pub use pieces::write_scalar;
pub use print::{print_content, print_lent_content, write_tree};
pub use printer::Printer;
pub use quote::{write_behind_quote, write_quoted};
pub use run::plain_run;
