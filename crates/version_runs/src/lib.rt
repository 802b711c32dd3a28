//! Runs of version numbers, between which alone an archive's versions may differ.
#![tactic(auto)]

mod laws;
mod spread;
mod starts;

pub use laws::runs_have_one_version;
pub use spread::spread_set;
pub use starts::starts_of;
