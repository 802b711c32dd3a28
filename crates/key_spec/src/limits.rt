//! The greatest numbers of a specification.

/// The rules of a closed specification, given and implied.
pub const MOST_RULES: usize = 4_096;

/// The bytes of its canonical text.
pub const LONGEST_TEXT: usize = 1_048_576;
