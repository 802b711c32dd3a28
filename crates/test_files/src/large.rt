//! Files in which something is large.
use crate::checks::has_versions;
use crate::counts::folder;
use crate::damaged_files::written_again;
use archive_stats::stats;
use given_archives::{GREAT_SIZES, Judge, SIZES, file, hold_large};
use std::alloc::Global;
use std::test::Fail;

fn is_counted(alloc: Global, file: &[u8]) -> bool {
    match folder(alloc, file) {
        Ok(mut folder) => stats(alloc, &mut folder, "a.xar", file.len() as u64).is_ok(),
        Err(_) => false,
    }
}

/// Whether the file is read and written again, sound and counted.
fn is_file(alloc: Global, bytes: &[u8], versions: usize) -> bool {
    match (written_again(alloc, bytes), u32::try_from(versions)) {
        (Some(again), Ok(versions)) => {
            again.as_slice() == bytes
                && has_versions(alloc, bytes, versions)
                && is_counted(alloc, bytes)
        }
        _ => false,
    }
}

/// The documents' file is read, written again and counted.
struct Whole;

impl Judge for Whole {
    fn holds(&self, alloc: Global, keys: &str, documents: &[&str]) -> bool {
        match file(alloc, keys, documents) {
            Some(bytes) => is_file(alloc, &bytes, documents.len()),
            None => false,
        }
    }
}

#[test]
fn large_archives_are_sound(rt: HostRuntime) -> Result<(), Fail> {
    hold_large(&Whole, rt.alloc(), SIZES)
}

#[test]
fn great_archives_are_sound(rt: HostRuntime) -> Result<(), Fail> {
    hold_large(&Whole, rt.alloc(), GREAT_SIZES)
}
