// Where a reader stands among the notes of a file.

/// The offset of the next note, where the notes end, and whether one that was read is not empty.
#[derive(Clone, Copy)]
pub(crate) struct Place {
    pub(crate) at: u64,
    pub(crate) end: u64,
    pub(crate) used: bool,
}
