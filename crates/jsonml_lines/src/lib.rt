//! Flat lines of JSON: an array of a word, scalars and contents on each, written and read one after another.
#![tactic(auto)]

mod laws;
mod line;
mod plain;
mod read;
mod split;
mod value;
mod write;

pub use jsonml_print::write_content;
pub use laws::printed_lines_read_back;
pub use line::Line;
pub use read::take_line;
pub use write::{end_line, write_cell, write_text_cell, write_word};
