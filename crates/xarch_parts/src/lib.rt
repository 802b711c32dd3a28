//! What the commands of the program share: how input files are read, and archives read and
//! stored, how output is written, and the words for what a command may do.
#![tactic(auto)]

mod archives;
mod counts;
mod front;
mod fronts;
mod inputs;
mod names;
mod notes;
mod put;
mod readings;

pub use archives::{begin, check_free, commit, draft, file_from, store};
pub use counts::{write_count, write_counts};
pub use front::Front;
pub use fronts::{read_front, read_parts};
pub use inputs::{at_most, length_of, limited_length, read_whole};
pub use names::{damaged, notes_fault};
pub use notes::{push_notes, store_noted};
pub use put::{write_bytes, write_keyed};
pub use readings::{doc_from, keyed_from, read_spec};
