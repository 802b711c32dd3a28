// Archives that are joined. What is expected was merged in memory of the documents of both, and
// written at once.
use crate::joined_files::joined;
use given_archives::lists::TINY;
use given_archives::{
    GREAT_SIZES, Judge, NAME, NEVER, OTHER, SIZES, file, folder, hold_large, hold_listed,
    is_drafted,
};
use std::alloc::Global;
use std::test::Fail;

// Whether both files stay, and are joined to this one.
fn is_whole(alloc: Global, one: &[u8], two: &[u8], wanted: &[u8]) -> bool {
    let Some(mut folder) = folder(alloc, &[(NAME, one), (OTHER, two)], NEVER) else {
        return false;
    };
    joined(alloc, &mut folder, (NAME, OTHER), (one.len(), two.len())) == Ok(Ok(()))
        && folder.file(NAME) == Some(one)
        && folder.file(OTHER) == Some(two)
        && is_drafted(&mut folder, wanted)
}

// Whether the files of the documents on both sides of a place are joined to that of all.
fn is_joined(alloc: Global, whole: &[u8], keys: &str, documents: &[&str], place: usize) -> bool {
    let Some((front, rest)) = documents.split_at_checked(place) else {
        return false;
    };
    match (file(alloc, keys, front), file(alloc, keys, rest)) {
        (Some(one), Some(two)) => is_whole(alloc, &one, &two, whole),
        _ => false,
    }
}

// Whether that is so for each place.
fn are_joined(alloc: Global, whole: &[u8], keys: &str, documents: &[&str]) -> bool {
    for place in 0..=documents.len() {
        if !is_joined(alloc, whole, keys, documents, place) {
            return false;
        }
    }
    true
}

/// The files of the documents on both sides of each place are joined to that of all, or those of both halves are.
enum Joined {
    Parts,
    Halves,
}

impl Judge for Joined {
    fn holds(&self, alloc: Global, keys: &str, documents: &[&str]) -> bool {
        match file(alloc, keys, documents) {
            Some(whole) => match self {
                Joined::Parts => are_joined(alloc, &whole, keys, documents),
                Joined::Halves => { is_joined(alloc, &whole, keys, documents, documents.len() / 2) }
            },
            None => false,
        }
    }
}

#[test]
fn parts_are_joined_to_the_archive_of_all_versions(rt: HostRuntime) -> Result<(), Fail> {
    hold_listed(&Joined::Parts, rt.alloc())
}

#[test]
fn large_archives_are_joined(rt: HostRuntime) -> Result<(), Fail> {
    hold_large(&Joined::Halves, rt.alloc(), SIZES)
}

#[test]
fn great_archives_are_joined(rt: HostRuntime) -> Result<(), Fail> {
    hold_large(&Joined::Halves, rt.alloc(), GREAT_SIZES)
}

// Whether an archive is joined to itself.
fn is_doubled(alloc: Global, one: &[u8], wanted: &[u8]) -> bool {
    let Some(mut folder) = folder(alloc, &[(NAME, one)], NEVER) else {
        return false;
    };
    joined(alloc, &mut folder, (NAME, NAME), (one.len(), one.len())) == Ok(Ok(()))
        && is_drafted(&mut folder, wanted)
}

fn are_doubled(alloc: Global) -> bool {
    let (one, other) = (r#"["db","x"]"#, r#"["db","y"]"#);
    match (
        file(alloc, TINY, &[one, other]),
        file(alloc, TINY, &[one, other, one, other]),
    ) {
        (Some(file), Some(wanted)) => is_doubled(alloc, &file, &wanted),
        _ => false,
    }
}

#[test]
fn an_archive_is_joined_to_itself(rt: HostRuntime) {
    assert!(rt; are_doubled(rt.alloc()));
}
