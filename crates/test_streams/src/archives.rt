//! Adding documents to archive files.
use given_archives::{NAME, Stopped};
use jsonml_text::lend_document;
use key_annotate::lent_keyed;
use record_cursor::{Cursor, read_header};
use std::alloc::Global;
use stream_merge::{AddFault, stream_add, stream_append};
use xa_outside::{Folder, MemFolder};

/// What is answered where the document is added to the file, which has so many bytes.
pub(crate) fn add(
    alloc: Global,
    folder: &mut MemFolder,
    length: usize,
    document: &str,
) -> Result<Result<(), AddFault>, Stopped> {
    grow(alloc, folder, length as u64, document, true)
}

/// What is answered where the file with the document is appended to the draft and not committed.
pub(crate) fn append(
    alloc: Global,
    folder: &mut MemFolder,
    length: usize,
    document: &str,
) -> Result<Result<(), AddFault>, Stopped> {
    grow(alloc, folder, length as u64, document, false)
}

fn grow(
    alloc: Global,
    folder: &mut MemFolder,
    length: u64,
    document: &str,
    commits: bool,
) -> Result<Result<(), AddFault>, Stopped> {
    if document.len() > 67_108_864 {
        return Err(Stopped);
    }
    folder.begin()?;
    let header = read_header(alloc, folder, NAME, length)?;
    let tree = lend_document(alloc, document.as_bytes())?;
    let new = lent_keyed(alloc, &header.spec, &tree)?;
    let cursor = Cursor::start(alloc, NAME, &header)?;
    if commits {
        Ok(stream_add(alloc, folder, NAME, &header, cursor, &new))
    } else {
        Ok(stream_append(alloc, folder, NAME, &header, cursor, &new))
    }
}
