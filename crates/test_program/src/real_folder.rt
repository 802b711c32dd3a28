use given_outside::{Ends, QUIET, ends_of, holds, is_stored, texts};
use real_objects::DiskFolder;
use std::alloc::Global;
use std::fs;
use std::test::Fail;
use xa_outside::Folder;
use xarch_run::run;

/// An archive of one version that has no node.
const DAMAGED: &[u8] = b"XARC1\n\0\0\0\x0e(/, (db, {}))\n\0\0\0\x01\x09\0\0\0\0\0\0\0\0";

/// An archive, and a document that is to be added to it.
const ADD: [&str; 3] = ["add", "xarch-test-archive", "xarch-test-document"];

fn is_answered(
    folder: &mut DiskFolder<HostRuntime>,
    alloc: Global,
    ends: &mut Ends,
    words: &[String],
    status: u8,
) -> bool {
    let Ends { input, out, err } = ends;
    run(alloc, words, folder, input, out, err) == status
}

/// Whether nothing is added, with this status, and the archive's file stays the damaged one.
fn is_left(folder: &mut DiskFolder<HostRuntime>, alloc: Global, status: u8) -> bool {
    match (texts(alloc, &ADD), ends_of(alloc, &QUIET)) {
        (Ok(words), Ok(mut ends)) => {
            is_answered(folder, alloc, &mut ends, &words, status)
                && holds(folder, alloc, ADD[1], 0, DAMAGED)
        }
        _ => false,
    }
}

#[test]
fn what_cannot_be_added_leaves_the_real_file(rt: HostRuntime) -> Result<(), Fail> {
    let alloc = rt.alloc();
    let [_, archive, doc] = ADD;
    let mut folder = DiskFolder::new(&rt, alloc);
    let is_archived = is_stored(&mut folder, archive, &[DAMAGED]);
    let is_given = is_archived && is_stored(&mut folder, doc, &[b"[\"db\"]\n"]);
    assert!(rt; is_given && is_left(&mut folder, alloc, 11));

    // A folder stands where the draft would have to be written.
    folder.discard();
    let is_in_the_way = fs::create_dir(&rt, ".xarch-draft").is_ok();
    let is_refused = is_in_the_way && is_left(&mut folder, alloc, 13);
    assert!(rt; is_refused && fs::remove_dir(&rt, ".xarch-draft").is_ok());

    // The document has 65 MiB.
    let piece = vec![in alloc; b' '; 1_048_576]?;
    let is_given = is_stored(&mut folder, doc, &[piece.as_slice(); 65]);
    let is_refused = is_given && is_left(&mut folder, alloc, 12);
    folder.discard();
    let is_removed = fs::remove_file(&rt, doc).is_ok() && fs::remove_file(&rt, archive).is_ok();
    assert!(rt; is_refused && is_removed);
    Ok(())
}
