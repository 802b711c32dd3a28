// Archives that are written again.
use crate::walk::write_again;
use given_archives::{Judge, NAME, NEVER, OTHER, SIZES, file, folder, hold_large, hold_listed};
use std::alloc::Global;
use std::test::Fail;

fn is_same(alloc: Global, bytes: &[u8]) -> bool {
    match folder(alloc, &[(NAME, bytes)], NEVER) {
        Some(mut folder) => {
            write_again(alloc, &mut folder, NAME, OTHER).is_ok()
                && folder.file(OTHER) == Some(bytes)
        }
        None => false,
    }
}

/// The archive is written again as it is.
struct WrittenAgain;

impl Judge for WrittenAgain {
    fn holds(&self, alloc: Global, keys: &str, documents: &[&str]) -> bool {
        match file(alloc, keys, documents) {
            Some(bytes) => is_same(alloc, &bytes),
            None => false,
        }
    }
}

#[test]
fn an_archive_walked_by_a_cursor_into_a_writer_is_the_same(rt: HostRuntime) -> Result<(), Fail> {
    hold_listed(&WrittenAgain, rt.alloc())?;
    hold_large(&WrittenAgain, rt.alloc(), SIZES)
}
