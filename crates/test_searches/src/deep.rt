// Files whose inner nodes nest as deep as they may, and by one deeper.
use crate::files::{ONE, folder};
use crate::gets::written;
use crate::histories::{history_of, label};
use file_get::GetFault;
use file_history::HistFault;
use keyed_tree::Label;
use std::alloc::Global;
use std::test::Fail;
use xa_outside::MemSink;

/// A leaf `a` with an empty content.
const LEAF: &[u8] = b"\
    \x02\0\0\0\0\0\0\0\x0b\x01\0\0\0\x01a\0\0\0\0\0\x03\0\0\0\0\0\0\0\n\0\x01\0\0\0\0\0\0\0\0\
    \x05\0\0\0\0\0\0\0\0";

/// The record that opens an inner node `a`.
const INNER: &[u8] = b"\x01\0\0\0\0\0\0\0\x0b\x01\0\0\0\x01a\0\0\0\0\0";

/// The END of a node of one child, as far as the child's length, and its set behind the entry.
const END: &[u8] = b"\x04\0\0\0\0\0\0\0\x30\0\0\0\x01\0\0\0\0\0\0\0\0";

const SET: &[u8] = b"\0\0\0\x01\0\0\0\x01\0\0\0\x01\0\0\0\0\0\0\0\0";

/// The length of the body of such an END.
const BODY: u64 = 48;

/// How many bytes a node has more than its one child: those that open it, and its END.
const AROUND: u64 = 77;

/// Puts the END of a node whose child has so many bytes, and an END of such a length or none.
fn put_end(out: &mut Vec<u8>, child: u64, dir: u64) -> Option<()> {
    out.extend_from_slice(END).ok()?;
    out.extend_from_slice(&child.to_be_bytes()).ok()?;
    out.extend_from_slice(&dir.to_be_bytes()).ok()?;
    out.extend_from_slice(SET).ok()
}

/// Puts a leaf in so many inner nodes, each the only child of the one around it, and the END of the virtual root.
fn put_nested(out: &mut Vec<u8>, depth: u32) -> Option<()> {
    for _ in 0..depth {
        out.extend_from_slice(INNER).ok()?;
    }
    out.extend_from_slice(LEAF).ok()?;
    let mut child = LEAF.len() as u64;
    let mut dir = 0;
    for _ in 0..depth {
        put_end(out, child, dir)?;
        child = child.saturating_add(AROUND);
        dir = BODY;
    }
    put_end(out, child, dir)
}

/// The file of a leaf in so many inner nodes.
fn nested(alloc: Global, depth: u32) -> Option<Vec<u8>> {
    let mut file = Vec::new(alloc);
    file.extend_from_slice(ONE.get(..28)?).ok()?;
    put_nested(&mut file, depth)?;
    file.extend_from_slice(&BODY.to_be_bytes()).ok()?;
    Some(file)
}

/// The path of `a` in `a`, so many.
fn path(alloc: Global, length: u32) -> Option<Vec<Label>> {
    let mut path = Vec::new(alloc);
    for _ in 0..length {
        path.push(label(alloc, "a", &[])?).ok()?;
    }
    Some(path)
}

/// Whether the leaf in so many inner nodes is found by its path, or the file is damaged.
fn is_found(alloc: Global, depth: u32, wanted: bool) -> bool {
    let Some(file) = nested(alloc, depth) else {
        return false;
    };
    let Some(mut folder) = folder(alloc, &file, 1000) else {
        return false;
    };
    match path(alloc, depth.saturating_add(1)) {
        Some(path) => match history_of(alloc, &mut folder, file.len() as u64, &path) {
            Ok(set) => wanted && set.pairs() == [(1, 1)].as_slice(),
            Err(fault) => !wanted && fault == HistFault::Damage,
        },
        None => false,
    }
}

/// Whether the version of a leaf in so many inner nodes is written, or the file is damaged.
fn is_printed(alloc: Global, depth: u32, wanted: bool) -> bool {
    let Some(file) = nested(alloc, depth) else {
        return false;
    };
    let Some(mut folder) = folder(alloc, &file, 5000) else {
        return false;
    };
    let mut out = MemSink::new(alloc, Vec::new(alloc));
    match written(alloc, &mut folder, file.len() as u64, 1, &mut out) {
        Ok(()) => wanted,
        Err(fault) => !wanted && fault == GetFault::Damage,
    }
}

#[test]
fn no_more_than_120_inner_nodes_stand_open(rt: HostRuntime) -> Result<(), Fail> {
    let alloc = rt.alloc();
    assert!(rt; is_found(alloc, 120, true));
    assert!(rt; is_found(alloc, 121, false));
    assert!(rt; is_printed(alloc, 120, true));
    assert!(rt; is_printed(alloc, 121, false));
    Ok(())
}
