//! Cutting versions out of archive files.
use archive_cut::{CutFault, cut};
use given_archives::{NAME, Stopped};
use record_cursor::{Cursor, read_header};
use std::alloc::Global;
use xa_outside::{Folder, MemFolder};

/// What is answered where the versions from the first to the last are cut out of the file, which
/// has so many bytes, and appended to the draft.
pub(crate) fn cut_out(
    alloc: Global,
    folder: &mut MemFolder,
    length: usize,
    first: u32,
    last: u32,
) -> Result<Result<(), CutFault>, Stopped> {
    let header = read_header(alloc, folder, NAME, length as u64)?;
    if first < 1 || last < first || header.versions < last {
        return Err(Stopped);
    }
    let cursor = Cursor::start(alloc, NAME, &header)?;
    folder.begin()?;
    Ok(cut(alloc, folder, &header, cursor, first, last))
}
