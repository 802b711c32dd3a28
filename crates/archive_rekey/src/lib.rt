//! Archives under other keys.
#![tactic(auto)]

mod fault;
mod index;
mod laws;
mod lend;
mod plain;
mod spread;
mod versions;
mod write;

pub use fault::RekeyFault;
pub use laws::{rekeyed_archives_are_shaped, versions_have_one_rekeying};
pub use plain::rekey;
pub use versions::rekey_spelled;
pub use write::write_spelled;
