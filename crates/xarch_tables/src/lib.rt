//! The commands on tables: the document of a table, and the specification for it.
#![tactic(auto)]

mod apart;
mod document;
mod keys;
mod page;
mod table;

pub use keys::run_tablekeys;
pub use table::run_table;
