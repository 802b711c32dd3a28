use std::alloc::Global;
use xa_outside::{Folder, FolderCall, FolderFail, MemFolder};

/// The name under which a file stands in a folder.
pub const NAME: &str = "a.xar";

/// The name of a second file.
pub const OTHER: &str = "b.xar";

/// A call of a folder, and which time it fails; none fails the 0th time.
pub type Failing = (FolderCall, u64);

/// No call fails.
pub const NEVER: Failing = (FolderCall::ReadAt, 0);

/// A folder with these files, where one call fails. Its draft is empty.
pub fn folder(alloc: Global, files: &[(&str, &[u8])], failing: Failing) -> Option<MemFolder> {
    let (call, number) = failing;
    let mut fails = Vec::new(alloc);
    fails.push(FolderFail { call, number }).ok()?;
    let mut folder = MemFolder::new(alloc, fails);
    for (name, bytes) in files {
        folder.put(name, Vec::from_slice(alloc, bytes).ok()?).ok()?;
    }
    folder.begin().ok()?;
    Some(folder)
}

/// Whether the draft is this file.
pub fn is_drafted(folder: &mut MemFolder, bytes: &[u8]) -> bool {
    folder.commit("draft").is_ok() && folder.file("draft") == Some(bytes)
}
