/// An archive file has at most so many bytes.
pub const LONGEST: u64 = 274_877_906_944;
