//! Reading an archive file record by record, over any folder.
//!
//! A header is read first; a cursor then gives one record after another, each read once and lent
//! out of one buffer.
#![tactic(auto)]

mod buffer;
mod cursor;
mod fault;
mod fill;
mod fixed;
mod front;
mod header;
mod item;
mod laws;
mod opening;
mod place;
mod step;

pub use buffer::Buffer;
pub use cursor::Cursor;
pub use fault::CursorFault;
pub use fill::{fill_first, fill_part};
pub use fixed::{Fixed, read_fixed};
pub use front::{read_header, read_header_in};
pub use header::Header;
pub use item::Item;
pub use laws::{cursors_give_what_comes, files_give_their_items, records_give_their_items};
pub use opening::read_opening;
