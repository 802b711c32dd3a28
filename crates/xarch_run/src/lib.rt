//! The program as one call: what the words of a command line have it do.
#![tactic(auto)]

mod answers;
mod batch;
mod feed;
mod front;
mod laws;
mod line;
mod lines;
mod merged;
mod program;
mod step;
mod stop;
mod turn;
mod words;

pub use answers::say;
pub use laws::{
    archives_hold_what_was_handed_in, statuses_tell_faults, tables_make_documents_by_their_keys,
};
pub use merged::file_of_versions;
pub use program::run;
pub use step::take_step;
pub use xarch_words::{Command, Fault, Quantity, read_words, status, write_fault};
