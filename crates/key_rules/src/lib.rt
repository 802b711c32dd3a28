//! The keys of a specification on a document: labels, satisfaction, and the first fault.
#![tactic(auto)]

mod check;
mod fault;
mod label;
mod lent;
mod node;
mod user_path;
mod walk;

pub use check::is_space_only;
pub use fault::{KeyFault, LabelFault, PathFault};
pub use label::{label_of, lent_label};
pub use lent::{LentKeys, LentLabel};
pub use user_path::read_path;
pub use walk::{first_fault, first_lent_fault};
