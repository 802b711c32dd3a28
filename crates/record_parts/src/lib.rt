//! The parts of an archive file's records: bytes of labels, timestamps, key values and bodies, both
//! ways.
#![tactic(auto)]

mod fault;
mod fits;
mod laws;
mod lend_parts;
mod lent;
mod limits;
mod order_both;
mod order_lent;
mod order_parts;
mod order_scalars;
mod order_values;
mod put_lent;
mod put_parts;
mod put_values;
mod shown;
mod skip_parts;
mod skip_values;
mod take_parts;
mod take_values;
mod views;

pub use fault::{RecFault, SpellFault};
pub use fits::{is_label, is_set, is_stamp, is_value};
pub use keyed_tree::NameView;
pub use laws::{parts_are_of_shape_and_fit, parts_are_read_as_spelled};
pub use lend_parts::{lend_alternative, lend_body, lend_label, lend_opening};
pub use lent::{is_above, lend_attr, lend_scalar};
pub use limits::{DEEPEST, MOST_VERSIONS};
pub use put_lent::{put_lent_label, put_lent_value};
pub use put_parts::{put_label, put_stamp};
pub use put_values::put_value;
pub use take_parts::{take_label, take_set, take_stamp};
pub use take_values::take_value;
pub use views::{BodyView, LabelView, StampView};
