/// The calls of a folder.
#[derive(Clone, Copy, Debug, PartialEq, Eq)]
pub enum FolderCall {
    Length,
    ReadAt,
    Begin,
    Append,
    Commit,
}

/// The number-th call of one kind, counted from 1.
#[derive(Clone, Copy, Debug, PartialEq, Eq)]
pub struct FolderFail {
    pub call: FolderCall,
    pub number: u64,
}
