use std::alloc::{AllocError, Global};
use xa_outside::{FolderFail, MemFolder};

/// A folder with these files, whose listed calls fail.
pub fn folder(
    alloc: Global,
    fails: &[FolderFail],
    files: &[(&str, &[u8])],
) -> Result<MemFolder, AllocError> {
    let mut folder = MemFolder::new(alloc, Vec::from_slice(alloc, fails)?);
    for (name, bytes) in files {
        folder.put(name, Vec::from_slice(alloc, bytes)?)?;
    }
    Ok(folder)
}
