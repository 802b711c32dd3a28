// The numbers of the format.
use jsonml_tree::GREATEST_DEPTH;

/// An archive has at most so many versions.
pub const MOST_VERSIONS: u32 = 999_999;

/// Elements nest at most so deep.
pub const DEEPEST: u32 = GREATEST_DEPTH;
