//! What holds of each node of a sound archive, said of the node in its place.
#![tactic(auto)]

mod bodies;
mod body;
mod frame;
mod held;
mod label;
mod laws;
mod lent_keys;
mod stamp;
mod tiles;
mod wait;

pub use frame::{Frame, Leaf};
pub use held::Held;
pub use label::KeptLabel;
pub use laws::{nodes_are_sound_in_their_place, rows_are_right_kid_by_kid};
pub use lent_keys::keys_of;
pub use tiles::divide;
pub use wait::{Wait, hand_all, waits_of};
