use key_spec::Spec;

/// What stands in front of the records of an archive file.
#[derive(Drop)]
pub struct Header {
    pub spec: Spec,
    pub versions: u32,
    /// The offset of the first record.
    pub first: u64,
    /// The file's length.
    pub length: u64,
}
