use given_outside::{holds, is_stored, told};
use real_objects::{DiskFolder, ReaderSource, WriterSink};
use std::alloc::{AllocError, Global};
use std::fs;
use std::fs::Permissions;
use std::os::unix::fs::{PermissionsExt, symlink};
use std::rt::Files;
use std::test::Fail;
use xa_outside::{Folder, Sink, Source};

/// Whether neither the length nor a byte of what has this name is told.
fn is_refused(folder: &mut DiskFolder<HostRuntime>, name: &str) -> bool {
    let mut one = [0u8; 1];
    folder.length(name).is_err() && folder.read_at(name, 0, &mut one).is_err()
}

/// Whether under each of these names its own bytes are stored.
fn are_stored(folder: &mut DiskFolder<HostRuntime>, names: &[&str]) -> bool {
    for name in names {
        if !is_stored(folder, name, &[name.as_bytes()]) {
            return false;
        }
    }
    true
}

/// Whether the file of each of these names holds the name's own bytes from the offset on, read in this order.
fn are_held(folder: &mut DiskFolder<HostRuntime>, alloc: Global, names: &[&str], at: u32) -> bool {
    for name in names {
        let Some(rest) = name.as_bytes().get(at as usize..) else {
            return false;
        };
        if !holds(folder, alloc, name, at, rest) {
            return false;
        }
    }
    true
}

/// Whether each of these names is taken away.
fn are_removed(rt: &HostRuntime, names: &[&str]) -> bool {
    for name in names {
        if fs::remove_file(rt, name).is_err() {
            return false;
        }
    }
    true
}

/// What is tried in a folder that is opened anew.
#[derive(Clone, Copy)]
enum Tried {
    Committed,
    NoFiles,
    SecondCommit,
    OlderFile,
    SideBySide,
    ThirdFile,
    SecondDraft,
    ManyPages,
    DraftLink,
    Loop,
    PathThroughFile,
    Rewritten,
    LinkAndMode,
    OwnersAlone,
    TwoCommands,
}

const TRIED: &[(&str, Tried)] = &[
    ("the folder reads what was committed", Tried::Committed),
    ("folders and the draft are no files", Tried::NoFiles),
    (
        "a file that stands open is read anew after a commit",
        Tried::SecondCommit,
    ),
    (
        "the older of two open files is read anew after a commit",
        Tried::OlderFile,
    ),
    ("two files stand open side by side", Tried::SideBySide),
    (
        "a third open file replaces the older of two",
        Tried::ThirdFile,
    ),
    (
        "what was appended to an abandoned draft is gone",
        Tried::SecondDraft,
    ),
    (
        "more pages than are held are read again and again",
        Tried::ManyPages,
    ),
    ("a draft does not go through a link", Tried::DraftLink),
    ("a link that leads to itself is not absent", Tried::Loop),
    ("a path through a file is absent", Tried::PathThroughFile),
    ("a file that was rewritten is read anew", Tried::Rewritten),
    (
        "an archive that is a link stays one and keeps its mode",
        Tried::LinkAndMode,
    ),
    ("a draft is its owner's alone", Tried::OwnersAlone),
    (
        "the draft of another command is not committed",
        Tried::TwoCommands,
    ),
];

fn does_hold(rt: &HostRuntime, folder: &mut DiskFolder<HostRuntime>, tried: Tried) -> bool {
    match tried {
        Tried::Committed => is_committed_read(rt, folder),
        Tried::NoFiles => are_no_files(rt, folder),
        Tried::SecondCommit => is_second_read(rt, folder),
        Tried::OlderFile => is_older_read(rt, folder),
        Tried::SideBySide => are_two_open(rt, folder),
        Tried::ThirdFile => is_older_replaced(rt, folder),
        Tried::SecondDraft => is_abandoned_gone(rt, folder),
        Tried::ManyPages => are_pages_read(rt, folder),
        Tried::DraftLink => is_draft_apart(rt, folder),
        Tried::Loop => is_loop_refused(rt, folder),
        Tried::PathThroughFile => is_path_absent(rt, folder),
        Tried::Rewritten => is_rewritten_read(rt, folder),
        Tried::LinkAndMode => is_link_kept(rt, folder),
        Tried::OwnersAlone => is_owners_alone(rt, folder),
        Tried::TwoCommands => is_other_apart(rt, folder),
    }
}

fn is_held(rt: &HostRuntime, tried: Tried) -> bool {
    let mut folder = DiskFolder::new(rt, rt.alloc());
    does_hold(rt, &mut folder, tried)
}

#[test]
fn the_real_folder_holds_what_is_committed(rt: HostRuntime) -> Result<(), Fail> {
    for (name, tried) in TRIED {
        told(is_held(&rt, *tried), name)?;
    }
    Ok(())
}

fn is_long_read(rt: &HostRuntime, folder: &mut DiskFolder<HostRuntime>, long: &[u8]) -> bool {
    let name = "xarch-test-of-the-folder";
    is_stored(folder, name, &[b"first, ", long, b", last"])
        && folder.length(name) == Ok(Some(70_013))
        && holds(folder, rt.alloc(), name, 70_007, b", last")
        && holds(folder, rt.alloc(), name, 7, long)
        && are_removed(rt, &[name])
        && folder.length(name) == Ok(None)
}

fn is_committed_read(rt: &HostRuntime, folder: &mut DiskFolder<HostRuntime>) -> bool {
    match vec![in rt.alloc(); b'x'; 70_000] {
        Ok(long) => is_long_read(rt, folder, &long),
        Err(_) => false,
    }
}

fn are_no_files(rt: &HostRuntime, folder: &mut DiskFolder<HostRuntime>) -> bool {
    let is_apart = is_refused(folder, ".")
        && is_refused(folder, ".xarch-draft")
        && folder.begin().is_ok()
        && is_refused(folder, "./.xarch-draft")
        && folder.commit(".xarch-draft").is_err()
        && folder.commit("./.xarch-draft").is_err();
    folder.discard();
    is_apart && fs::open(rt, ".xarch-draft").is_err()
}

fn is_second_read(rt: &HostRuntime, folder: &mut DiskFolder<HostRuntime>) -> bool {
    let name = "xarch-test-of-a-second-commit";
    is_stored(folder, name, &[b"old"])
        && holds(folder, rt.alloc(), name, 0, b"old")
        && is_stored(folder, name, &[b"new"])
        && holds(folder, rt.alloc(), name, 0, b"new")
        && are_removed(rt, &[name])
}

fn is_older_read(rt: &HostRuntime, folder: &mut DiskFolder<HostRuntime>) -> bool {
    let name = "xarch-test-of-the-older-file";
    let other = "xarch-test-of-the-newer-file";
    is_stored(folder, other, &[b"other"])
        && is_stored(folder, name, &[b"old"])
        && holds(folder, rt.alloc(), name, 0, b"old")
        && holds(folder, rt.alloc(), other, 0, b"other")
        && is_stored(folder, name, &[b"new"])
        && holds(folder, rt.alloc(), name, 0, b"new")
        && holds(folder, rt.alloc(), other, 0, b"other")
        && are_removed(rt, &[name, other])
}

/// Whether the files of these names are held from each of twenty offsets on.
fn is_each_end_held(folder: &mut DiskFolder<HostRuntime>, alloc: Global, names: &[&str]) -> bool {
    for at in 0..20 {
        if !are_held(folder, alloc, names, at) {
            return false;
        }
    }
    true
}

fn are_two_open(rt: &HostRuntime, folder: &mut DiskFolder<HostRuntime>) -> bool {
    // (the names are of one length, and differ in their first letter)
    let names = ["one-xarch-test-of-two", "two-xarch-test-of-two"];

    // (what stands open is read on, though its name is gone)
    are_stored(folder, &names)
        && are_held(folder, rt.alloc(), &names, 0)
        && are_removed(rt, &names)
        && is_each_end_held(folder, rt.alloc(), &names)
}

fn is_older_replaced(rt: &HostRuntime, folder: &mut DiskFolder<HostRuntime>) -> bool {
    let first = "xarch-test-of-the-first";
    let second = "xarch-test-of-the-second";
    let third = "xarch-test-of-the-third";
    let in_turn = [first, second, third, first, second, third];

    // (the last two stand open, and are read on though their names are gone; the first does not)
    are_stored(folder, &[first, second, third])
        && are_held(folder, rt.alloc(), &in_turn, 0)
        && are_removed(rt, &[first, second, third])
        && are_held(folder, rt.alloc(), &[second, third, second], 0)
        && !holds(folder, rt.alloc(), first, 0, first.as_bytes())
}

/// Whether a draft of this piece is begun, and left.
fn is_abandoned(folder: &mut DiskFolder<HostRuntime>, piece: &[u8]) -> bool {
    folder.begin().is_ok() && folder.append(piece).is_ok()
}

fn is_abandoned_gone(rt: &HostRuntime, folder: &mut DiskFolder<HostRuntime>) -> bool {
    let name = "xarch-test-of-a-second-draft";
    is_abandoned(folder, b"old")
        && is_stored(folder, name, &[b"new"])
        && folder.length(name) == Ok(Some(3))
        && holds(folder, rt.alloc(), name, 0, b"new")
        && are_removed(rt, &[name])
}

/// So many pages of 32 KiB, each of its number.
fn pages(alloc: Global, count: u8) -> Result<Vec<u8>, AllocError> {
    let mut bytes = Vec::new(alloc);
    for number in 0..count {
        let end = bytes.len().saturating_add(32_768);
        bytes.resize(end, number)?;
    }
    Ok(bytes)
}

/// Whether the file of this name holds these bytes, read in pieces of 10,000.
fn is_held_in_pieces(
    folder: &mut DiskFolder<HostRuntime>,
    alloc: Global,
    name: &str,
    bytes: &[u8],
) -> bool {
    let mut at = 0u32;
    for piece in bytes.chunks(10_000) {
        if !holds(folder, alloc, name, at, piece) {
            return false;
        }
        at = at.saturating_add(10_000);
    }
    true
}

/// Whether the pages are stored, and read three times.
fn are_stored_and_read(
    rt: &HostRuntime,
    folder: &mut DiskFolder<HostRuntime>,
    bytes: &[u8],
) -> bool {
    let name = "xarch-test-of-many-pages";
    if !is_stored(folder, name, &[bytes]) {
        return false;
    }
    for _ in 0..3 {
        if !is_held_in_pieces(folder, rt.alloc(), name, bytes) {
            return false;
        }
    }
    are_removed(rt, &[name])
}

fn are_pages_read(rt: &HostRuntime, folder: &mut DiskFolder<HostRuntime>) -> bool {
    match pages(rt.alloc(), 19) {
        Ok(bytes) => are_stored_and_read(rt, folder, &bytes),
        Err(_) => false,
    }
}

fn is_draft_apart(rt: &HostRuntime, folder: &mut DiskFolder<HostRuntime>) -> bool {
    let other = "xarch-test-of-another-file";
    let name = "xarch-test-of-a-draft";
    is_stored(folder, other, &[b"other"])
        && symlink(rt, other, ".xarch-draft").is_ok()
        && is_stored(folder, name, &[b"draft"])
        && holds(folder, rt.alloc(), other, 0, b"other")
        && holds(folder, rt.alloc(), name, 0, b"draft")
        && are_removed(rt, &[other, name])
}

fn is_loop_refused(rt: &HostRuntime, folder: &mut DiskFolder<HostRuntime>) -> bool {
    let link = "xarch-test-of-a-loop";
    let is_refused = symlink(rt, link, link).is_ok()
        && is_refused(folder, link)
        && folder.begin().is_ok()
        && folder.commit(link).is_err();
    folder.discard();
    is_refused && are_removed(rt, &[link])
}

fn is_path_absent(rt: &HostRuntime, folder: &mut DiskFolder<HostRuntime>) -> bool {
    let name = "xarch-test-of-a-path";
    let mut one = [0u8; 1];
    is_stored(folder, name, &[b"file"])
        && folder.length("xarch-test-of-a-path/x") == Ok(None)
        && folder.read_at("xarch-test-of-a-path/x", 0, &mut one) == Ok(0)
        && are_removed(rt, &[name])
}

fn is_rewritten_read(rt: &HostRuntime, folder: &mut DiskFolder<HostRuntime>) -> bool {
    let name = "xarch-test-of-a-rewritten-file";
    for bytes in [b"old", b"new", b"odd"] {
        let is_read = fs::write(rt, name, bytes.as_slice()).is_ok()
            && folder.length(name) == Ok(Some(3))
            && holds(folder, rt.alloc(), name, 0, bytes);
        if !is_read {
            return false;
        }
    }
    are_removed(rt, &[name])
}

fn has_mode(rt: &HostRuntime, name: &str, mode: u32) -> bool {
    match fs::metadata(rt, name) {
        Ok(found) => found.permissions().mode() % 0o1000 == mode,
        Err(_) => false,
    }
}

fn is_link(rt: &HostRuntime, name: &str) -> bool {
    match fs::symlink_metadata(rt, name) {
        Ok(found) => found.is_symlink(),
        Err(_) => false,
    }
}

fn is_link_kept(rt: &HostRuntime, folder: &mut DiskFolder<HostRuntime>) -> bool {
    let name = "xarch-test-of-a-mode";
    let link = "xarch-test-of-a-link";
    fs::write(rt, name, b"old".as_slice()).is_ok()
        && rt
            .set_permissions(name, Permissions::from_mode(0o640))
            .is_ok()
        && symlink(rt, name, link).is_ok()
        && is_stored(folder, link, &[b"new"])
        && holds(folder, rt.alloc(), name, 0, b"new")
        && is_link(rt, link)
        && has_mode(rt, name, 0o640)
        && are_removed(rt, &[link, name])
}

fn is_owners_alone(rt: &HostRuntime, folder: &mut DiskFolder<HostRuntime>) -> bool {
    let is_alone = is_abandoned(folder, b"draft") && has_mode(rt, ".xarch-draft", 0o600);
    folder.discard();
    is_alone && fs::metadata(rt, ".xarch-draft").is_err()
}

/// Whether another command's draft takes the place of this one's, and is committed.
fn is_replaced(
    rt: &HostRuntime,
    first: &mut DiskFolder<HostRuntime>,
    second: &mut DiskFolder<HostRuntime>,
) -> bool {
    let name = "xarch-test-of-two-commands";
    let is_apart = is_abandoned(first, b"first")
        && is_abandoned(second, b"other")
        && first.commit(name).is_err()
        && first.length(name) == Ok(None)
        && second.commit(name).is_ok()
        && holds(second, rt.alloc(), name, 0, b"other");
    first.discard();
    is_apart && are_removed(rt, &[name])
}

fn is_other_apart(rt: &HostRuntime, folder: &mut DiskFolder<HostRuntime>) -> bool {
    let mut second = DiskFolder::new(rt, rt.alloc());
    is_replaced(rt, folder, &mut second)
}

#[test]
fn an_input_ends(rt: HostRuntime) {
    let mut input = ReaderSource::new(b"a".as_slice());
    let mut one = [0u8; 1];
    assert!(rt; input.read(&mut one) == Ok(1) && one == *b"a");
    assert!(rt; input.read(&mut one) == Ok(0) && input.read(&mut one) == Ok(0));
}

#[test]
fn the_standard_output_and_error_take_a_piece(rt: HostRuntime) {
    let is_written = WriterSink::new(rt.stdout()).write(b"\n") == Ok(1);
    assert!(rt; is_written && WriterSink::new(rt.stderr()).write(b"\n") == Ok(1));
}
