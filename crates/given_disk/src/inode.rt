use std::alloc::{AllocError, Global};

/// What an inode is.
#[derive(Clone, Copy, PartialEq, Eq)]
pub enum Sort {
    File,
    /// Its bytes are the text of the link.
    Link,
    Folder,
    /// A folder that is a file system of its own.
    Mount,
    /// A folder that nobody may look into.
    Closed,
    /// A pipe or a terminal, which also stands for a standard stream.
    Pipe,
}

/// Who may do what with a file.
#[derive(Clone, Copy, PartialEq, Eq)]
pub struct Access {
    pub mode: u32,
    pub owner: u32,
    pub group: u32,
}

/// What a new file has under the common umask.
pub const PLAIN: Access = Access {
    mode: 0o644,
    owner: 1000,
    group: 1000,
};

/// A name, and what stands under it. A file in a folder has the name without links.
#[derive(Clone, Copy)]
pub struct Row(pub &'static str, pub Sort, pub &'static [u8], pub Access);

/// What names lead to. It stays though its name goes, so no number is given twice.
#[derive(Drop)]
pub struct Inode {
    pub sort: Sort,
    pub bytes: Vec<u8>,
    pub access: Access,
    pub device: u64,
    /// When the bytes were changed last, in seconds.
    pub modified: i64,
    /// When anything was changed last, in seconds.
    pub changed: i64,
}

impl Inode {
    /// One that was made at time 0.
    pub fn new(alloc: Global, sort: Sort, bytes: &[u8], device: u64) -> Result<Inode, AllocError> {
        Ok(Inode {
            sort,
            bytes: Vec::from_slice(alloc, bytes)?,
            access: PLAIN,
            device,
            modified: 0,
            changed: 0,
        })
    }

    /// Another inode that is the same.
    pub fn copied(&self, alloc: Global) -> Result<Inode, AllocError> {
        Ok(Inode {
            sort: self.sort,
            bytes: Vec::from_slice(alloc, &self.bytes)?,
            access: self.access,
            device: self.device,
            modified: self.modified,
            changed: self.changed,
        })
    }

    /// Whether the other is of the same sort and has the same bytes.
    pub fn is_like(&self, other: &Inode) -> bool {
        self.sort == other.sort && self.bytes.as_slice() == other.bytes.as_slice()
    }

    pub fn is_folder(&self) -> bool {
        matches!(self.sort, Sort::Folder | Sort::Mount | Sort::Closed)
    }
}
