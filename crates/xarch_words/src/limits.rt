//! The greatest numbers that a command takes, beside those of the format and of notes.

/// The bytes of a specification.
pub const SPECIFICATION: u64 = 1_048_576;

/// The bytes of a document.
pub const DOCUMENT: u64 = 67_108_864;

/// The bytes of an archive's text.
pub const TEXT: u64 = 67_108_864;

/// The documents of a demonstration.
pub const DEMO: u64 = 1_000;

/// The bytes of a line of a batch.
pub const LINE: usize = 1_048_576;

/// The bytes of a batch.
pub const BATCH: usize = 1_073_741_824;
