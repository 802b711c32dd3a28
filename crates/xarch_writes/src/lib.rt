//! The commands that write archives, one at a time: what each does to the files.
#![tactic(auto)]

mod add;
mod demo;
mod init;
mod notes;
mod rekey;
mod rekeyed;

pub use add::run_add;
pub use demo::run_demo;
pub use init::run_init;
pub use rekey::run_rekey;
