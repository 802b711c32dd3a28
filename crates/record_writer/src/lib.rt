//! Writing an archive file into the draft of a folder, record by record.
#![tactic(auto)]

mod end;
mod fault;
mod given;
mod laws;
mod places;
mod plan;
mod rows;
mod spell;
mod writer;

pub use fault::WriteFault;
pub use given::{BodyFrom, LabelFrom};
pub use laws::{walks_close_what_they_begin, walks_spell_files};
pub use writer::Writer;
