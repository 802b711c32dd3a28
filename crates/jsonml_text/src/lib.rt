//! Documents: reading them from JSON. What prints them is handed on from `jsonml_print`.
#![tactic(auto)]

mod document;
mod fault;
mod laws;
mod level;
mod object;
mod read;
mod room;
mod scalar;
mod scan;
mod stop;
mod straight;
mod string;
mod word;

pub use document::{content_of, lend_document, read_document};
pub use fault::DocFault;
pub use jsonml_print::{
    Printer, calls_print_the_tree, print_content, print_lent_content, write_content, write_scalar,
    write_tree,
};
pub use laws::{contents_read_back, levels_end_with_the_depth, printed_documents_read_back};
pub use scalar::scalar_of;
