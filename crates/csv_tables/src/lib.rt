//! Tables of comma-separated fields: their reading, the documents that they make, and the specifications for these.
#![tactic(auto)]

mod column;
mod columns;
mod fault;
mod keys;
mod laws;
mod length;
mod read;
mod table;
mod tree;

pub use fault::TableFault;
pub use keys::{are_keys, keys_text, table_spec};
pub use laws::{tables_read_back, tables_satisfy_their_keys};
pub use length::text_length;
pub use read::read_table;
pub use table::{Table, has_columns};
pub use tree::table_tree;
