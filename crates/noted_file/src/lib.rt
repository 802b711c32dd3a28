//! Archives with a note for each version: which files they are, and how they are read.
#![tactic(auto)]

mod laws;

pub use laws::{
    full_files_are_read_note_by_note, full_files_have_one_reading, full_files_have_parts,
    sound_files_are_full,
};
