//! Merging one version into an archive in memory.
#![tactic(auto)]

mod alike;
mod apply;
mod fresh;
mod laws;
mod plan;
mod planning;
mod prepare;
mod space;
mod stamp;
mod version;

pub use alike::is_alike;
pub use laws::archives_grow_by_a_version;
pub use stamp::started_stamp;
pub use version::{merge, merge_all};
