//! The commands that only read files, one at a time: what each writes to the output.
#![tactic(auto)]

mod asked;
mod check;
mod fronts;
mod get;
mod history;
mod log;
mod norm;
mod stats;
mod versions;

pub use check::run_check;
pub use get::run_get;
pub use history::run_history;
pub use log::run_log;
pub use norm::run_norm;
pub use stats::run_stats;
pub use versions::run_versions;
