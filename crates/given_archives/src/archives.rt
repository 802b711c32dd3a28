ghost use Rattle.std.specs.Prelude.{◌++◌, ◌∷◌, [], List, IfSome};
ghost use Rattle.keyed_tree.specs.Data.{PlainKeyed};
ghost use Rattle.keyed_tree.specs.View.{keyed_view};
ghost use Rattle.archive_tree.specs.ArchiveView.{archive_view};
ghost use Rattle.archive_tree.specs.Stands.{ArchiveOf};
ghost use Rattle.keyed_tree.specs.WellFormed.{IsKeyedWellFormed};

use crate::documents::{specification, version};
use archive_file::{encode_file, is_keyed};
use archive_tree::Archive;
use key_spec::Spec;
use keyed_tree::Keyed;
use nested_merge::{is_alike, merge};
use std::alloc::Global;

/// The archive with one more version, if that meets the conditions.
pub fn grown(alloc: Global, old: Archive, new: &Keyed) -> Option<Archive>
    requires { IsKeyedWellFormed (keyed_view new.now) }
    ensures { IfSome result (λ a. (vs : List PlainKeyed) → ArchiveOf vs (archive_view old)
        → ArchiveOf (vs ++ keyed_view new.now ∷ []) (archive_view a)) }
{
    let may_grow = old.n() != u32::MAX && new.is_element() && new.is_ordered();
    if !may_grow || !is_alike(&old, new) {
        return None;
    }
    match merge(alloc, old, new) {
        Ok(archive) => Some(archive),
        Err(_) => None,
    }
}

fn with_document(alloc: Global, spec: &Spec, old: Archive, document: &str) -> Option<Archive> {
    match version(alloc, spec, document) {
        Some(new) => grown(alloc, old, &new),
        None => None,
    }
}

/// The archive of these documents, merged one after another.
pub fn archive(alloc: Global, spec: &Spec, documents: &[&str]) -> Option<Archive> {
    let mut archive = Archive::empty(alloc);
    for document in documents {
        archive = with_document(alloc, spec, archive, document)?;
    }
    Some(archive)
}

/// The file of an archive, if its versions satisfy the keys.
pub fn encoded(alloc: Global, spec: &Spec, archive: &Archive) -> Option<Vec<u8>> {
    let Ok(is_keyed) = is_keyed(alloc, spec, archive) else {
        return None;
    };
    if archive.n() > 999_999 || !is_keyed {
        return None;
    }
    match encode_file(alloc, spec, archive) {
        Ok(bytes) => Some(bytes),
        Err(_) => None,
    }
}

fn file_by(alloc: Global, spec: &Spec, documents: &[&str]) -> Option<Vec<u8>> {
    match archive(alloc, spec, documents) {
        Some(archive) => encoded(alloc, spec, &archive),
        None => None,
    }
}

/// The file of these documents under the keys, merged in memory and written at once.
pub fn file(alloc: Global, keys: &str, documents: &[&str]) -> Option<Vec<u8>> {
    match specification(alloc, keys) {
        Some(spec) => file_by(alloc, &spec, documents),
        None => None,
    }
}
