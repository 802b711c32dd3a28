//! Sets of version numbers, as ascending lists of intervals.
#![tactic(auto)]

mod limits;
mod pairs;
mod set;
mod text;
mod within;

pub use limits::GREATEST_NUMBER;
pub use set::VersionSet;
