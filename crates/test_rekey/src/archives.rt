//! What archive files hold under other keys.
use archive_file::{decode_file, encode_file};
use archive_rekey::{RekeyFault, rekey, rekey_spelled, rekeyed_archives_are_shaped, write_spelled};
use archive_tree::archives_stand_for_one_list;
use given_archives::{NAME, specification};
use key_spec::Spec;
use std::alloc::Global;
use xa_outside::{Folder, MemFolder};

/// The file of the versions of a file under other keys, or why they are not there.
pub(crate) fn under(
    alloc: Global,
    file: &[u8],
    spec: &Spec,
) -> Option<Result<Vec<u8>, RekeyFault>> {
    // For what `write_spelled` requires: the rules are closed, and laws.
    let _ = spec.rules();
    archives_stand_for_one_list();
    rekeyed_archives_are_shaped();
    let mut folder = MemFolder::new(alloc, Vec::new(alloc));
    folder.begin().ok()?;
    match decode_file(alloc, file) {
        Ok((_, old)) => match rekey_spelled(alloc, &old, spec) {
            Ok(archive) => match write_spelled(alloc, &mut folder, spec, &archive) {
                Ok(()) => Some(Ok(drafted(alloc, folder)?)),
                Err(_) => None,
            },
            Err(fault) => Some(Err(fault)),
        },
        Err(_) => None,
    }
}

// What was drafted. It is committed.
fn drafted(alloc: Global, mut folder: MemFolder) -> Option<Vec<u8>> {
    folder.commit(NAME).ok()?;
    Vec::from_slice(alloc, folder.file(NAME)?).ok()
}

/// The same, one version after another.
pub(crate) fn plainly_under(
    alloc: Global,
    file: &[u8],
    spec: &Spec,
) -> Option<Result<Vec<u8>, RekeyFault>> {
    match decode_file(alloc, file) {
        Ok((_, old)) => match rekey(alloc, &old, spec) {
            Ok(archive) => match encode_file(alloc, spec, &archive) {
                Ok(bytes) => Some(Ok(bytes)),
                Err(_) => None,
            },
            Err(fault) => Some(Err(fault)),
        },
        Err(_) => None,
    }
}

/// The file of the versions of a file under other keys, which they satisfy.
pub(crate) fn file_under(alloc: Global, file: &[u8], keys: &str) -> Option<Vec<u8>> {
    match specification(alloc, keys) {
        Some(spec) => under(alloc, file, &spec)?.ok(),
        None => None,
    }
}

/// The same, one version after another.
pub(crate) fn plain_file_under(alloc: Global, file: &[u8], keys: &str) -> Option<Vec<u8>> {
    match specification(alloc, keys) {
        Some(spec) => plainly_under(alloc, file, &spec)?.ok(),
        None => None,
    }
}
