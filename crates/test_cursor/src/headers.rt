// Reading the header of the archive of one version, the element `db`.
pub(crate) use given_parts::bytes::TINY;
use given_parts::bytes::edit;
use given_parts::told;
use record_cursor::{CursorFault, Header, read_header, read_header_in};
use std::alloc::{AllocError, Global};
use std::test::Fail;
use xa_outside::{FolderCall, FolderFail, MemFolder};

/// A folder with this file, whose read of this number fails.
pub(crate) fn folder(alloc: Global, file: &[u8], number: u64) -> Result<MemFolder, AllocError> {
    let call = FolderCall::ReadAt;
    let mut folder = MemFolder::new(alloc, vec![in alloc; FolderFail { call, number }]?);
    folder.put("a.xar", Vec::from_slice(alloc, file)?)?;
    Ok(folder)
}

fn is_tiny(alloc: Global, header: &Header) -> bool {
    match header.spec.text(alloc) {
        Ok(text) => {
            text.as_str() == "(/, (db, {}))\n"
                && (header.versions, header.first, header.length) == (1, 28, 142)
        }
        Err(_) => false,
    }
}

fn is_tiny_read(alloc: Global, folder: &mut MemFolder) -> bool {
    match read_header(alloc, folder, "a.xar", 142) {
        Ok(header) => is_tiny(alloc, &header),
        Err(_) => false,
    }
}

fn is_header_read(alloc: Global) -> bool {
    match folder(alloc, TINY, 0) {
        Ok(mut folder) => is_tiny_read(alloc, &mut folder),
        Err(_) => false,
    }
}

/// The name and the length of a file, whether a header stands there, and whether one is read where the length is not asked for.
const FRONTS: &[(&str, u64, bool, bool)] = &[
    ("a.xar", 142, true, true),
    ("a.xar", 28, true, true),
    ("a.xar", 27, false, false),
    ("a.xar", 0, false, false),
    ("a.xar", 143, false, true),
    ("b.xar", 142, false, false),
    ("b.xar", 0, false, false),
];

fn is_read(found: &Result<Header, CursorFault>) -> Option<bool> {
    match found {
        Ok(_) => Some(true),
        Err(CursorFault::Damage) => Some(false),
        Err(_) => None,
    }
}

/// Whether a header stands in front of the first bytes of the file of this name, or does not, as it should.
fn is_judged(alloc: Global, file: &[u8], name: &str, length: u64, stands: bool) -> bool {
    match folder(alloc, file, 0) {
        Ok(mut folder) => is_read(&read_header(alloc, &mut folder, name, length)) == Some(stands),
        Err(_) => false,
    }
}

/// Whether a header is read, or not, where the length is not asked for.
fn is_known(alloc: Global, name: &str, length: u64, stands: bool) -> bool {
    match folder(alloc, TINY, 0) {
        Ok(mut folder) => {
            is_read(&read_header_in(alloc, &mut folder, name, length)) == Some(stands)
        }
        Err(_) => false,
    }
}

fn are_fronts_judged(alloc: Global, rows: &[(&str, u64, bool, bool)]) -> bool {
    for (name, length, stands, known) in rows {
        if !is_judged(alloc, TINY, name, *length, *stands)
            || !is_known(alloc, name, *length, *known)
        {
            return false;
        }
    }
    true
}

/// An offset and the byte that stands there instead: each byte of the magic, the length of the
/// specification's text, the text, and a number of versions past 999,999.
const BROKEN: &[(usize, u8)] = &[
    (0, 120),
    (1, 97),
    (2, 114),
    (3, 99),
    (4, 50),
    (5, 32),
    (6, 1),
    (8, 1),
    (9, 13),
    (9, 15),
    (10, 91),
    (12, 47),
    (15, 32),
    (23, 32),
    (24, 1),
    (25, 16),
];

fn is_broken(alloc: Global, at: usize, byte: u8) -> bool {
    match Vec::from_slice(alloc, TINY) {
        Ok(mut file) => {
            edit(&mut file, &[(at, byte)]);
            is_judged(alloc, &file, "a.xar", 142, false)
        }
        Err(_) => false,
    }
}

fn are_broken(alloc: Global, rows: &[(usize, u8)]) -> bool {
    for (at, byte) in rows {
        if !is_broken(alloc, *at, *byte) {
            return false;
        }
    }
    true
}

/// Whether a header is read at the second time, where the first read of its text fails.
fn is_told_and_read(alloc: Global, folder: &mut MemFolder) -> bool {
    is_folder_fault(&read_header(alloc, folder, "a.xar", 142))
        && is_read(&read_header(alloc, folder, "a.xar", 142)) == Some(true)
}

fn is_folder_fault(found: &Result<Header, CursorFault>) -> bool {
    matches!(found, Err(CursorFault::Folder))
}

fn is_fault_told(alloc: Global) -> bool {
    match folder(alloc, TINY, 2) {
        Ok(mut folder) => is_told_and_read(alloc, &mut folder),
        Err(_) => false,
    }
}

#[test]
fn headers_are_read_or_refused(rt: HostRuntime) -> Result<(), Fail> {
    told(is_header_read(rt.alloc()), "the header")?;
    told(
        are_fronts_judged(rt.alloc(), FRONTS),
        "a header ends within the file",
    )?;
    told(
        are_broken(rt.alloc(), BROKEN),
        "no header has a broken field",
    )?;
    told(is_fault_told(rt.alloc()), "a read that fails")
}
