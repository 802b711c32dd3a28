//! Specifications: which elements of a document are keyed, and by what.
#![tactic(auto)]

mod close;
mod closing;
mod context;
mod copies;
mod fault;
mod form;
mod given;
mod limits;
mod line;
mod name;
mod order;
mod place;
mod rule;
mod spec;
mod stretch;
mod tagged;
mod texts;
mod token;

pub use context::Context;
pub use copies::copy_names;
pub use fault::SpecFault;
pub use limits::{LONGEST_TEXT, MOST_RULES};
pub use name::is_name;
pub use rule::{KeyPath, Rule};
pub use spec::{Spec, may_be_canonical};
