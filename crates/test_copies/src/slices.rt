// Versions cut out of files. What is expected was merged in memory of their documents alone, and
// written at once.
use crate::cut_files::cut_out;
use given_archives::{
    GREAT_SIZES, Judge, NAME, NEVER, SIZES, file, folder, hold_large, hold_listed, is_drafted,
};
use std::alloc::Global;
use std::test::Fail;

// Whether the versions from the first to the last are cut out as this file.
fn is_slice(alloc: Global, whole: &[u8], first: u32, last: u32, wanted: &[u8]) -> bool {
    let Some(mut folder) = folder(alloc, &[(NAME, whole)], NEVER) else {
        return false;
    };
    cut_out(alloc, &mut folder, whole.len(), first, last) == Ok(Ok(()))
        && folder.file(NAME) == Some(whole)
        && is_drafted(&mut folder, wanted)
}

// Whether the documents from one place to another are cut out of the file of all.
fn is_cut(
    alloc: Global,
    whole: &[u8],
    keys: &str,
    documents: &[&str],
    from: usize,
    to: usize,
) -> bool {
    let slice = documents.get(from..to).unwrap_or(&[]);
    match (
        file(alloc, keys, slice),
        u32::try_from(from),
        u32::try_from(to),
    ) {
        (Some(wanted), Ok(from), Ok(to)) => {
            is_slice(alloc, whole, from.saturating_add(1), to, &wanted)
        }
        _ => false,
    }
}

// Whether the documents from this one on are cut out of the file of all, however many.
fn are_cut_from(alloc: Global, whole: &[u8], keys: &str, documents: &[&str], from: usize) -> bool {
    for last in from..documents.len() {
        if !is_cut(alloc, whole, keys, documents, from, last + 1) {
            return false;
        }
    }
    true
}

fn are_cut(alloc: Global, whole: &[u8], keys: &str, documents: &[&str]) -> bool {
    for from in 0..documents.len() {
        if !are_cut_from(alloc, whole, keys, documents, from) {
            return false;
        }
    }
    true
}

fn are_halves_cut(alloc: Global, whole: &[u8], keys: &str, documents: &[&str]) -> bool {
    let (middle, end) = (documents.len() / 2, documents.len());
    is_cut(alloc, whole, keys, documents, 0, middle)
        && is_cut(alloc, whole, keys, documents, middle, end)
}

/// Each slice of the documents' file is the file of its documents, or both halves are.
enum Cut {
    Slices,
    Halves,
}

impl Judge for Cut {
    fn holds(&self, alloc: Global, keys: &str, documents: &[&str]) -> bool {
        match file(alloc, keys, documents) {
            Some(whole) => match self {
                Cut::Slices => are_cut(alloc, &whole, keys, documents),
                Cut::Halves => are_halves_cut(alloc, &whole, keys, documents),
            },
            None => false,
        }
    }
}

#[test]
fn slices_are_the_archives_of_their_versions(rt: HostRuntime) -> Result<(), Fail> {
    hold_listed(&Cut::Slices, rt.alloc())
}

#[test]
fn large_archives_are_cut(rt: HostRuntime) -> Result<(), Fail> {
    hold_large(&Cut::Halves, rt.alloc(), SIZES)
}

#[test]
fn great_archives_are_cut(rt: HostRuntime) -> Result<(), Fail> {
    hold_large(&Cut::Halves, rt.alloc(), GREAT_SIZES)
}
