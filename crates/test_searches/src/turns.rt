// Versions of elements that come and go by turns, which are in sets of many intervals.
use crate::files::folder;
use crate::gets::written;
use given_archives::file;
use std::alloc::Global;
use std::test::Fail;
use xa_outside::MemSink;

const KEYS: &str = "(/, (db, {}))\n(/db, (e, {@id}))\n";

/// The document of the odd versions, and of the others.
type Turns = (&'static str, &'static str);

/// One element or the other.
const EITHER: Turns = ("[\"db\",[\"e\",{\"id\":1}]]", "[\"db\",[\"e\",{\"id\":2}]]");

/// Two elements or none.
const BOTH: Turns = ("[\"db\",[\"e\",{\"id\":1}],[\"e\",{\"id\":2}]]", "[\"db\"]");

/// The document of a version.
fn document(turns: Turns, version: u32) -> &'static str {
    let (odd, even) = turns;
    if version % 2 == 1 { odd } else { even }
}

/// The file of so many versions.
fn file_of(alloc: Global, turns: Turns, count: u32) -> Option<Vec<u8>> {
    let mut documents = Vec::new(alloc);
    for index in 0..count {
        documents.push(document(turns, index + 1)).ok()?;
    }
    file(alloc, KEYS, &documents)
}

/// Whether the version is this document, and so many bytes are pulled at most.
fn is_written(alloc: Global, file: &[u8], version: u32, document: &str, most: u64) -> bool {
    let Some(mut folder) = folder(alloc, file, 0) else {
        return false;
    };
    let mut out = MemSink::new(alloc, Vec::new(alloc));
    written(alloc, &mut folder, file.len() as u64, version, &mut out).is_ok()
        && out.taken().strip_suffix(b"\n") == Some(document.as_bytes())
        && folder.pulled() <= most
}

/// The documents, how many versions, and how many bytes are pulled at most for an odd version and
/// for another: of a set of 30 intervals nine are read in each tree node, and all where the element
/// stands.
const TURNS: &[(Turns, u32, u64, u64)] = &[
    (EITHER, 17, 500, 500),
    (EITHER, 18, 500, 500),
    (EITHER, 60, 640, 640),
    (BOTH, 17, 613, 181),
    (BOTH, 18, 613, 181),
    (BOTH, 60, 1045, 213),
];

fn are_written(alloc: Global, turns: Turns, count: u32, odd: u64, even: u64) -> bool {
    let Some(file) = file_of(alloc, turns, count) else {
        return false;
    };
    for index in 0..count {
        let version = index + 1;
        let most = if version % 2 == 1 { odd } else { even };
        if !is_written(alloc, &file, version, document(turns, version), most) {
            return false;
        }
    }
    true
}

#[test]
fn each_version_has_the_elements_of_its_turn(rt: HostRuntime) -> Result<(), Fail> {
    for (turns, count, odd, even) in TURNS {
        let holds = are_written(rt.alloc(), *turns, *count, *odd, *even);
        assert!(rt; holds, "{count} versions");
    }
    Ok(())
}
