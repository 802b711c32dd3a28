/// How deep the elements of a document may nest: its root is at depth 1.
pub const GREATEST_DEPTH: u32 = 120;
