//! ENDs of rows: whether the END of a row stands in a file, told from the entries and sets of its
//! finished kids. It is compared from its last byte to its first, in pieces, and never built.
#![tactic(auto)]

mod end;
mod entries;
mod kids;
mod laws;
mod parts;
mod room;
mod sets;
mod spell;
mod stop;
mod tree;

pub use end::is_end;
pub use kids::Kids;
pub use laws::kids_stand_for_pieces;
pub use room::Room;
