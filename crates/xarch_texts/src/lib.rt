//! The commands between archives and texts, one at a time.
#![tactic(auto)]

mod export;
mod import;

pub use export::run_export;
pub use import::run_import;
