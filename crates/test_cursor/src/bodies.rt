// A record that is long, and a label.
use crate::cursors::{Asked, is_so};
use crate::headers::TINY;
use crate::nested::record;
use given_parts::told;
use keyed_tree::{Label, Name};
use record_cursor::{Cursor, Item};
use std::alloc::{AllocError, Global};
use std::test::Fail;
use xa_outside::MemFolder;

fn db(alloc: Global) -> Result<Label, AllocError> {
    Ok(Label {
        name: Name::Tag(String::from_str(alloc, "db")?),
        keys: Vec::new(alloc),
    })
}

/// Whether the next item is the leaf of this label, in all versions.
fn is_leaf(cursor: &mut Cursor, folder: &mut MemFolder, db: &Label) -> bool {
    match cursor.next(folder) {
        Ok(Item::Leaf { label, stamp }) => label.order(db).is_eq() && !stamp.is_stored(),
        _ => false,
    }
}

/// Whether the next item is an alternative of this body.
fn is_alternative(cursor: &mut Cursor, folder: &mut MemFolder, wanted: &[u8]) -> bool {
    match cursor.next(folder) {
        Ok(Item::Alt { body, .. }) => body.bytes() == wanted,
        _ => false,
    }
}

/// Whether the leaf of this label is given, and then an alternative of this body.
pub(crate) fn are_lent(
    cursor: &mut Cursor,
    folder: &mut MemFolder,
    label: &Label,
    body: &[u8],
) -> bool {
    is_leaf(cursor, folder, label) && is_alternative(cursor, folder, body)
}

/// Whether the file begins with the leaf `db` and an alternative of this body.
fn is_begun(alloc: Global, file: &[u8], body: &[u8]) -> bool {
    match db(alloc) {
        Ok(db) => is_so(alloc, file, file.len() as u64, 0, Asked::Lends(&db, body)),
        Err(_) => false,
    }
}

/// The header and the leaf of the file of one version.
const OPEN: &[u8] = b"\
    XARC1\n\0\0\0\x0e(/, (db, {}))\n\0\0\0\x01\x02\0\0\0\0\0\0\0\x0c\x01\0\0\0\x02db\0\0\0\0\0";

/// A text of so many bytes, as a body: a scalar, of which it is a text, and its length.
fn long_body(alloc: Global, length: u32) -> Result<Vec<u8>, AllocError> {
    let mut body = vec![in alloc; 0u8, 5]?;
    body.extend_from_slice(&length.to_be_bytes())?;
    body.extend_from_slice(&vec![in alloc; b'x'; length as usize]?)?;
    Ok(body)
}

/// A file of a leaf with this body.
fn file_of(alloc: Global, body: &[u8]) -> Result<Vec<u8>, AllocError> {
    let mut file = Vec::from_slice(alloc, OPEN)?;
    file.extend_from_slice(&record(alloc, 3, b"\0", body)?)?;
    Ok(file)
}

fn is_body_lent(alloc: Global, body: &[u8]) -> bool {
    match file_of(alloc, body) {
        Ok(file) => is_begun(alloc, &file, body),
        Err(_) => false,
    }
}

fn is_long_lent(alloc: Global) -> bool {
    match long_body(alloc, 1_048_577) {
        Ok(body) => is_body_lent(alloc, &body),
        Err(_) => false,
    }
}

#[test]
fn labels_and_bodies_are_lent(rt: HostRuntime) -> Result<(), Fail> {
    let empty = b"\x01\0\0\0\0\0\0\0\0";
    told(is_begun(rt.alloc(), TINY, empty), "a label")?;
    told(is_long_lent(rt.alloc()), "a long body")
}
