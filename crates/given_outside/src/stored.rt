use std::alloc::Global;
use xa_outside::{Folder, fill_at};

/// Whether a draft of these pieces is committed under this name.
pub fn is_stored<F: Folder>(folder: &mut F, name: &str, pieces: &[&[u8]]) -> bool {
    let mut is_written = folder.begin().is_ok();
    for piece in pieces {
        is_written = is_written && folder.append(piece).is_ok();
    }
    is_written && folder.commit(name).is_ok()
}

/// Whether these bytes stand in the file of this name from the offset on.
pub fn holds<F: Folder>(folder: &mut F, alloc: Global, name: &str, at: u32, bytes: &[u8]) -> bool {
    match vec![in alloc; 0u8; bytes.len()] {
        Ok(mut found) => {
            let count = fill_at(folder, name, at as u64, &mut found);
            count == Ok(bytes.len()) && found.as_slice() == bytes
        }
        Err(_) => false,
    }
}
