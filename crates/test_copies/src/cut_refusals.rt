// What is refused where the folder fails, or the file is damaged.
use crate::cut_files::cut_out;
use archive_cut::CutFault;
use given_archives::lists::TINY;
use given_archives::{Failing, NAME, NEVER, file, folder};
use given_parts::told;
use std::alloc::Global;
use std::test::Fail;
use xa_outside::FolderCall;

// Whether this is answered where the first version is cut out of these bytes, which stay.
fn is_answered(
    alloc: Global,
    bytes: &[u8],
    failing: Failing,
    wanted: Result<(), CutFault>,
) -> bool {
    let Some(mut folder) = folder(alloc, &[(NAME, bytes)], failing) else {
        return false;
    };
    cut_out(alloc, &mut folder, bytes.len(), 1, 1) == Ok(wanted) && folder.file(NAME) == Some(bytes)
}

// Whether a file without so many of its last bytes is damaged.
fn is_damaged(alloc: Global, whole: &[u8], less: usize) -> bool {
    match whole.get(..whole.len().saturating_sub(less)) {
        Some(front) => is_answered(alloc, front, NEVER, Err(CutFault::Damage)),
        None => false,
    }
}

fn are_damaged(alloc: Global) -> bool {
    match file(alloc, TINY, &[r#"["db"]"#, r#"["db","x"]"#]) {
        Some(whole) => [1, 8, 9, 65]
            .iter()
            .all(|less| is_damaged(alloc, &whole, *less)),
        None => false,
    }
}

/// The calls that are made after the header was read, in their numbers: of two parts of each record
/// with a body, and one of each other, of the tail; of the header and each record.
const CALLS: &[(FolderCall, u64, u64)] = &[(FolderCall::ReadAt, 3, 9), (FolderCall::Append, 1, 5)];

// Whether the folder's fault is told at each of these calls, and there is none behind the last.
fn are_told(alloc: Global, bytes: &[u8], call: FolderCall, first: u64, last: u64) -> bool {
    for number in first..=last {
        if !is_answered(alloc, bytes, (call, number), Err(CutFault::Folder)) {
            return false;
        }
    }
    is_answered(alloc, bytes, (call, last.saturating_add(1)), Ok(()))
}

fn are_faults_told(alloc: Global) -> bool {
    match file(alloc, TINY, &[r#"["db"]"#]) {
        Some(bytes) => {
            CALLS.iter().all(|(call, first, last)| are_told(alloc, &bytes, *call, *first, *last))
        }
        None => false,
    }
}

#[test]
fn damage_and_a_failing_folder_are_told(rt: HostRuntime) -> Result<(), Fail> {
    told(are_damaged(rt.alloc()), "a file that is cut short")?;
    told(are_faults_told(rt.alloc()), "a call that fails")
}
