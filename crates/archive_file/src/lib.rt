//! The bytes of an archive, and which archives they are.
#![tactic(auto)]

mod decode;
mod encode;
mod ends;
mod fault;
mod front;
mod goes;
mod keyedness;
mod laws;
mod lead;
mod level;
mod reading;

pub use decode::decode_file;
pub use encode::encode_file;
pub use fault::{EncodeFault, FileFault};
pub use front::header_of;
pub use keyedness::is_keyed;
pub use laws::{
    files_do_not_end_in_a_mark, keyed_versions_can_be_merged, sound_archives_have_one_reading,
};
pub use record_format::fixed_of;
