//! Records of an archive file: bytes of labels, timestamps, bodies and directories, both ways.
#![tactic(auto)]

mod headers;
mod laws;
mod lend_records;
mod limits;
mod put_directory;
mod put_records;
mod rec;
mod take_directory;
mod take_records;
mod views;

pub use headers::{fixed_of, put_header, take_header};
pub use laws::{
    directories_stand_part_by_part, encodings_are_of_shape_and_fit, encodings_tell_records_apart,
    records_are_read_as_spelled, versions_have_one_file,
};
pub use lend_records::{view, view_body};
pub use limits::LONGEST;
pub use put_directory::put_entries;
pub use put_records::{close, encode, open, put_alt, put_end, put_inner, put_leaf, put_leaf_end};
pub use rec::{ALT, Dir, END, Entry, FRAME, INNER, LEAF, LEAF_END, Rec};
pub use record_parts::{
    BodyView, DEEPEST, LabelView, MOST_VERSIONS, RecFault, StampView, is_label, is_set, is_stamp,
    is_value,
};
pub use take_records::{decode, take_frame, take_record};
pub use views::View;
