//! Numbers and texts in bytes.
#![tactic(auto)]

mod limits;
mod put;
mod take;

pub use limits::FIELD;
pub use put::{append_text, append_u8, append_u32, append_u64, put_text, put_u32, put_u64};
pub use take::{take_text, take_u8, take_u32, take_u64};
