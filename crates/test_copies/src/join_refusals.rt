// What is refused where one of the files is damaged, or the folder fails.
use crate::joined_files::joined;
use archive_join::JoinFault;
use given_archives::lists::{NUMBERED, SIX};
use given_archives::{Failing, NAME, NEVER, OTHER, file, folder};
use given_parts::told;
use std::alloc::Global;
use std::test::Fail;
use xa_outside::FolderCall;

// Whether this is answered where these files are joined, which stay.
fn is_answered(
    alloc: Global,
    one: &[u8],
    two: &[u8],
    failing: Failing,
    wanted: Result<(), JoinFault>,
) -> bool {
    let Some(mut folder) = folder(alloc, &[(NAME, one), (OTHER, two)], failing) else {
        return false;
    };
    joined(alloc, &mut folder, (NAME, OTHER), (one.len(), two.len())) == Ok(wanted)
        && folder.file(NAME) == Some(one)
        && folder.file(OTHER) == Some(two)
}

// Whether the side is named that lacks so many of its last bytes.
fn is_named(alloc: Global, whole: &[u8], less: usize) -> bool {
    let Some(cut) = whole.get(..whole.len().saturating_sub(less)) else {
        return false;
    };
    is_answered(
        alloc,
        cut,
        whole,
        NEVER,
        Err(JoinFault::Damage { second: false }),
    ) && is_answered(
        alloc,
        whole,
        cut,
        NEVER,
        Err(JoinFault::Damage { second: true }),
    )
}

// Whether the side is named whose byte behind the header is changed to this.
fn is_kind_named(alloc: Global, whole: &[u8], kind: u8) -> bool {
    let Ok(mut changed) = Vec::from_slice(alloc, whole) else {
        return false;
    };
    match changed.get_mut(46) {
        Some(byte) => *byte = kind,
        None => return false,
    }
    is_answered(
        alloc,
        &changed,
        whole,
        NEVER,
        Err(JoinFault::Damage { second: false }),
    ) && is_answered(
        alloc,
        whole,
        &changed,
        NEVER,
        Err(JoinFault::Damage { second: true }),
    )
}

fn are_damaged(alloc: Global, whole: &[u8]) -> bool {
    [1, 8, 9, 65, 600, 1200]
        .iter()
        .all(|less| is_named(alloc, whole, *less))
        && [0, 3, 4, 5, 6]
            .iter()
            .all(|kind| is_kind_named(alloc, whole, *kind))
}

// Whether the folder's fault is told at each call of this kind from the first to the last, and there is none behind.
fn are_told(alloc: Global, whole: &[u8], call: FolderCall, first: u64, last: u64) -> bool {
    for number in first..=last {
        if !is_answered(alloc, whole, whole, (call, number), Err(JoinFault::Folder)) {
            return false;
        }
    }
    is_answered(alloc, whole, whole, (call, last.saturating_add(1)), Ok(()))
}

#[test]
fn damage_and_a_failing_folder_are_told(rt: HostRuntime) -> Result<(), Fail> {
    let alloc = rt.alloc();
    let six = file(alloc, NUMBERED, SIX).ok_or("no file")?;
    told(are_damaged(alloc, &six), "the side that is damaged")?;
    told(are_told(alloc, &six, FolderCall::ReadAt, 5, 94), "reads")?;
    told(are_told(alloc, &six, FolderCall::Append, 1, 28), "appends")
}
