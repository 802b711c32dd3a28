use archive_file::decode_file;
use archive_stats::{Counts, StatsFault, counts_of, stats};
use given_parts::bytes::{COMPANY, COMPANY_WITHOUT_VERSIONS, FLOORS, TEXTS, TINY};
use given_parts::told;
use std::alloc::{AllocError, Global};
use std::test::Fail;
use xa_outside::{FolderCall, FolderFail, MemFolder, SureFolder};

/// A file, and its seven numbers in the order in which they are printed.
const COUNTED: &[(&str, &[u8], [u64; 7])] = &[
    (
        "an archive without versions has its header and an end",
        COMPANY_WITHOUT_VERSIONS,
        [0, 0, 0, 0, 0, 204, 225],
    ),
    (
        "a salary that returns has two alternatives with timestamps",
        COMPANY,
        [3, 3, 5, 6, 2, 204, 1198],
    ),
    ("an attribute is a leaf", FLOORS, [2, 2, 2, 3, 2, 204, 669]),
    (
        "a record may be greater than the header",
        TEXTS,
        [3, 0, 1, 2, 2, 42, 202],
    ),
    (
        "the body of an end is not counted",
        TINY,
        [1, 0, 1, 1, 0, 28, 142],
    ),
];

fn numbers(counts: &Counts) -> [u64; 7] {
    [
        counts.versions as u64,
        counts.inner,
        counts.leaves,
        counts.alternatives,
        counts.stamps,
        counts.largest,
        counts.bytes,
    ]
}

fn are_counts(found: &Option<Counts>, wanted: &[u64; 7]) -> bool {
    match found {
        Some(counts) => numbers(counts) == *wanted,
        None => false,
    }
}

/// Whether the archive that the bytes are the file of has these seven numbers.
fn is_decoded_counted(alloc: Global, file: &[u8], wanted: &[u64; 7]) -> bool {
    match decode_file(alloc, file) {
        Ok((spec, archive)) => {
            archive.n() <= 999_999 && are_counts(&counts_of(alloc, &spec, &archive).ok(), wanted)
        }
        Err(_) => false,
    }
}

/// A folder in which the file of this name has these bytes.
pub(crate) fn folder(alloc: Global, file: &[u8]) -> Result<SureFolder, AllocError> {
    let mut folder = SureFolder::new(alloc);
    folder.put("a.xar", Vec::from_slice(alloc, file)?)?;
    Ok(folder)
}

fn is_read_counted(alloc: Global, folder: &mut SureFolder, length: u64, wanted: &[u64; 7]) -> bool {
    are_counts(&stats(alloc, folder, "a.xar", length).ok(), wanted)
}

/// Whether they are read from a folder in which the file has these bytes.
fn is_stored_counted(alloc: Global, file: &[u8], wanted: &[u64; 7]) -> bool {
    match folder(alloc, file) {
        Ok(mut folder) => is_read_counted(alloc, &mut folder, file.len() as u64, wanted),
        Err(_) => false,
    }
}

#[test]
fn archives_and_their_files_are_counted(rt: HostRuntime) -> Result<(), Fail> {
    for (name, file, wanted) in COUNTED {
        let is_counted = is_decoded_counted(rt.alloc(), file, wanted)
            && is_stored_counted(rt.alloc(), file, wanted);
        told(is_counted, name)?;
    }
    Ok(())
}

/// The name and the length of a file, and the bytes that are counted, or none where that is damage.
const FRONTS: &[(&str, &str, u64, Option<u64>)] = &[
    ("the whole file", "a.xar", 142, Some(142)),
    ("a byte less", "a.xar", 141, None),
    ("more than there is", "a.xar", 147, None),
    ("no file", "b.xar", 142, None),
];

fn is_counted(found: &Result<Counts, StatsFault>, bytes: &Option<u64>) -> bool {
    match (found, bytes) {
        (Ok(counts), Some(bytes)) => counts.bytes == *bytes,
        (Err(StatsFault::Damage), None) => true,
        _ => false,
    }
}

/// A file with four bytes behind its archive.
pub(crate) fn longer_file(alloc: Global) -> Result<Vec<u8>, AllocError> {
    let mut file = Vec::from_slice(alloc, TINY)?;
    file.extend_from_slice(b"more")?;
    Ok(file)
}

fn are_fronts_counted(alloc: Global, folder: &mut SureFolder) -> Result<(), Fail> {
    for (row, name, length, bytes) in FRONTS {
        let found = stats(alloc, folder, name, *length);
        told(is_counted(&found, bytes), row)?;
    }
    Ok(())
}

#[test]
fn only_the_first_bytes_of_a_file_are_read(rt: HostRuntime) -> Result<(), Fail> {
    let file = longer_file(rt.alloc())?;
    let mut folder = folder(rt.alloc(), &file)?;
    are_fronts_counted(rt.alloc(), &mut folder)
}

/// A folder whose first read fails.
pub(crate) fn failing_folder(alloc: Global, file: &[u8]) -> Result<MemFolder, AllocError> {
    let first_read = FolderFail {
        call: FolderCall::ReadAt,
        number: 1,
    };
    let mut folder = MemFolder::new(alloc, vec![in alloc; first_read]?);
    folder.put("a.xar", Vec::from_slice(alloc, file)?)?;
    Ok(folder)
}

/// Whether the folder's failure is told, and the archive is counted then.
fn is_failure_told(alloc: Global, folder: &mut MemFolder) -> bool {
    let first = stats(alloc, folder, "a.xar", 142);
    let second = stats(alloc, folder, "a.xar", 142);
    first == Err(StatsFault::Folder) && is_counted(&second, &Some(142))
}

#[test]
fn a_failed_read_is_told_as_such(rt: HostRuntime) -> Result<(), Fail> {
    let mut folder = failing_folder(rt.alloc(), TINY)?;
    assert!(rt; is_failure_told(rt.alloc(), &mut folder));
    Ok(())
}
