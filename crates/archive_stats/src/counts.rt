/// What is counted of an archive and of its file.
#[derive(Clone, Copy, Debug, PartialEq, Eq)]
pub struct Counts {
    pub versions: u32,
    /// Nodes above the frontier, the virtual root not counted.
    pub inner: u64,
    pub leaves: u64,
    pub alternatives: u64,
    /// The timestamps that nodes and alternatives store.
    pub stamps: u64,
    /// The greatest of the header's bytes and each record's, the body of a record that closes an inner node not counted.
    pub largest: u64,
    /// The file's length.
    pub bytes: u64,
}
