//! JsonML trees: texts, and elements with a tag, attributes that hold scalars, and items.
#![tactic(auto)]

mod both_lent;
mod lent;
mod lent_attr;
mod lent_order;
mod limits;
mod scalar;
mod tree;

pub use lent::{LentContent, LentRow, LentTree};
pub use lent_attr::{LentAttr, LentScalar, do_names_ascend};
pub use limits::GREATEST_DEPTH;
pub use scalar::{Attr, Scalar};
pub use tree::{Content, Place, Tree};
