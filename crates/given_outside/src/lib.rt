//! Serves tests alone: words, bytes in pieces, objects in memory of which listed calls fail, what stands in a folder,
//! and how a test says what does not hold.
#![tactic(auto)]

mod ends;
mod folders;
mod pieces;
mod stored;

pub use ends::{Ends, Outside, QUIET, ends_of, sink};
pub use folders::folder;
pub use given_parts::bytes::{Pieces, joined};
pub use given_parts::told;
pub use pieces::{are_joined, is_prefix, texts};
pub use stored::{holds, is_stored};
