// What is refused over sound archives, and where the folder fails.
use crate::archives::add;
use given_archives::{Failing, NAME, NEVER, folder};
use given_parts::bytes::TINY;
use given_parts::told;
use std::alloc::Global;
use std::test::Fail;
use stream_merge::AddFault;
use xa_outside::FolderCall;

/// The header of 999,999 versions.
const FULL: &[u8] = b"XARC1\n\0\0\0\x0e(/, (db, {}))\n\0\x0f\x42\x3f";

// Whether this is answered where a version is added to these bytes, which stay where it is not added.
fn is_answered(
    alloc: Global,
    bytes: &[u8],
    failing: Failing,
    wanted: Result<(), AddFault>,
) -> bool {
    let Some(mut folder) = folder(alloc, &[(NAME, bytes)], failing) else {
        return false;
    };
    let stays = wanted.is_err();
    add(alloc, &mut folder, bytes.len(), r#"["db"]"#) == Ok(wanted)
        && (folder.file(NAME) == Some(bytes)) == stays
}

/// The calls that are made after the header was read, in their numbers: of two parts of each record
/// with a body, and one of each other, of the tail; of the header and each record; and the commit.
const CALLS: &[(FolderCall, u64, u64)] = &[
    (FolderCall::ReadAt, 3, 9),
    (FolderCall::Append, 1, 5),
    (FolderCall::Commit, 1, 1),
];

// Whether the folder's fault is told at each of these calls, and there is none behind the last.
fn are_told(alloc: Global, call: FolderCall, first: u64, last: u64) -> bool {
    for number in first..=last {
        if !is_answered(alloc, TINY, (call, number), Err(AddFault::Folder)) {
            return false;
        }
    }
    is_answered(alloc, TINY, (call, last.saturating_add(1)), Ok(()))
}

#[test]
fn a_file_stays_where_a_version_is_refused(rt: HostRuntime) -> Result<(), Fail> {
    let alloc = rt.alloc();
    let is_limit = is_answered(alloc, FULL, NEVER, Err(AddFault::Limit));
    told(is_limit, "999,999 versions")?;
    let are_told = CALLS.iter().all(|(call, first, last)| are_told(alloc, *call, *first, *last));
    told(are_told, "a call that fails")
}
