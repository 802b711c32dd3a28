/// A note has at most so many bytes.
pub const LONGEST_NOTE: usize = 1_024;
