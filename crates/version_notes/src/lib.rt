//! The notes behind the records of an archive, read and written over any folder.
//!
//! A file has them where some note is not empty: the notes of all versions, each with its length,
//! the number of these bytes, and eight bytes that no file without notes ends in.
#![tactic(auto)]

mod fault;
mod laws;
mod limits;
mod note;
mod parts;
mod place;
mod reader;
mod text;
mod walk;
mod writer;

pub use fault::{NotesFault, PartsFault};
pub use laws::{
    notes_are_read_back, notes_come_one_by_one, parts_are_read_back, readers_give_the_notes,
    writers_append_the_part,
};
pub use limits::LONGEST_NOTE;
pub use parts::{Parts, parts_of};
pub use reader::NoteReader;
pub use text::{is_note, is_printed};
pub use walk::{check_notes, copy_notes, read_notes};
pub use writer::NoteWriter;
