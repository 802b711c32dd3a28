// Logs out of a file.
ghost use Rattle.std.specs.Prelude.{◌≡◌, ◌<◌};
ghost use Rattle.record_cursor.specs.View.{header_view, IsHeader};

use content_log::{LogFault, log};
use given_archives::lists::{COMPANY, FLOORS, NUMBERED, PAID_90, PAID_95, RETURN, SALARIES, SIX};
use given_archives::{
    Failing, NAME, NEVER, Size, Stopped, documents_of, file, folder, keys_of, lent,
};
use given_outside::sink;
use given_parts::told;
use key_rules::read_path;
use keyed_tree::Label;
use record_cursor::{Header, read_header};
use std::alloc::Global;
use std::marker::Brand;
use std::sync::ledger::{Blank, Ledger};
use std::test::Fail;
use timestamp_tree::Steps;
use xa_outside::{FolderCall, MemFolder, MemSink};

fn counted<L: Ledger>(
    blank: Blank,
    alloc: Global,
    folder: &mut MemFolder,
    header: &Header,
    path: &[Label],
    out: &mut MemSink,
) -> Result<(), LogFault>
    requires name { blank.name ≡ L.name }
    requires parts { blank.parts ≡ L.parts }
    requires some { 0 < blank.parts }
    requires header { IsHeader (header_view header.now) }
{
    let mut steps: Steps<L> = Steps::new(blank);
    log(alloc, folder, NAME, header, path, out, &mut steps)
}

/// Writes the log of a path in the file in the folder.
fn logged(
    alloc: Global,
    folder: &mut MemFolder,
    size: usize,
    path: &str,
    out: &mut MemSink,
) -> Result<Result<(), LogFault>, Stopped> {
    let header = read_header(alloc, folder, NAME, size as u64)?;
    let labels = read_path(alloc, &header.spec, path)?;
    let blank = Blank::new(1);
    Ok(counted::<Brand>(blank, alloc, folder, &header, &labels, out))
}

/// Whether the log of the path in the file has these lines, and no more bytes are pulled than so many.
fn is_told(alloc: Global, bytes: &[u8], path: &str, lines: &[u8], most: u64) -> bool {
    let Some(mut folder) = folder(alloc, &[(NAME, bytes)], NEVER) else {
        return false;
    };
    let mut out = MemSink::new(alloc, Vec::new(alloc));
    logged(alloc, &mut folder, bytes.len(), path, &mut out) == Ok(Ok(()))
        && out.taken() == lines
        && folder.pulled() <= most
}

fn is_logged(
    alloc: Global,
    keys: &str,
    documents: &[&str],
    path: &str,
    lines: &str,
    most: u64,
) -> bool {
    match file(alloc, keys, documents) {
        Some(bytes) => is_told(alloc, &bytes, path, lines.as_bytes(), most),
        None => false,
    }
}

const SALARY: &str = r#"["db",["dept","finance"],["emp","John","Doe"],"sal"]"#;

/// The salary is cut, and stays.
const CUT: &[&str] = &[PAID_95, PAID_90, PAID_90];

/// Keys, documents, a path, its lines, and how many bytes are pulled at most: the front and the tail, what the search
/// looks at, and the leaf.
const LOGGED: &[(&str, &str, &[&str], &str, &str, u64)] = &[
    (
        "a salary that returns has one line",
        COMPANY,
        SALARIES,
        SALARY,
        "1,3 [\"sal\",\"90K\"]\n2 [\"sal\",\"95K\"]\n",
        100_000,
    ),
    (
        "a leaf inherits from the nodes above it",
        COMPANY,
        RETURN,
        SALARY,
        "1,3 [\"sal\",\"90K\"]\n",
        100_000,
    ),
    (
        "lines stand in the order of first versions",
        COMPANY,
        CUT,
        SALARY,
        "1 [\"sal\",\"95K\"]\n2-3 [\"sal\",\"90K\"]\n",
        100_000,
    ),
    (
        "an attribute is its scalar",
        COMPANY,
        FLOORS,
        r#"["db",["dept","finance"],"@floor"]"#,
        "1 \"3\"\n2 3\n",
        100_000,
    ),
    (
        "an element",
        NUMBERED,
        SIX,
        r#"["db",["e",3]]"#,
        "2,5 [\"e\",{\"id\":3}]\n",
        490,
    ),
    ("no element", NUMBERED, SIX, r#"["db",["e",9]]"#, "", 397),
    ("an inner node", NUMBERED, SIX, r#"["db"]"#, "", 112),
    ("the root", NUMBERED, SIX, "[]", "", 54),
];

#[test]
fn contents_are_logged(rt: HostRuntime) -> Result<(), Fail> {
    for (name, keys, documents, path, lines, most) in LOGGED {
        let holds = is_logged(rt.alloc(), keys, documents, path, lines, *most);
        told(holds, name)?;
    }
    Ok(())
}

/// A line for each of the contents, of which one is in one version.
fn lines_of(alloc: Global, documents: &[&str]) -> Option<String> {
    let mut lines = String::new(alloc);
    let mut version = 0u32;
    for document in documents {
        version = version.saturating_add(1);
        lines
            .push_str(format!(in alloc; "{version} {document}\n").ok()?.as_str())
            .ok()?;
    }
    Some(lines)
}

fn are_lines(alloc: Global, keys: &str, documents: &[&str]) -> bool {
    match lines_of(alloc, documents) {
        Some(lines) => is_logged(
            alloc,
            keys,
            documents,
            r#"["db"]"#,
            lines.as_str(),
            u64::MAX,
        ),
        None => false,
    }
}

/// Whether the root of documents of this size is logged.
fn is_large_logged(alloc: Global, size: Size) -> bool {
    let Ok(documents) = documents_of(alloc, size) else {
        return false;
    };
    match lent(alloc, &documents) {
        Some(documents) => are_lines(alloc, keys_of(size), &documents),
        None => false,
    }
}

#[test]
fn many_and_deep_contents_are_logged(rt: HostRuntime) -> Result<(), Fail> {
    told(is_large_logged(rt.alloc(), Size::Contents), "many contents")?;
    told(is_large_logged(rt.alloc(), Size::Depth), "deep contents")
}

/// Whether the log of the salary is refused so, where a call and a write fail, and nothing was written.
fn is_refused(alloc: Global, bytes: &[u8], wanted: LogFault, failing: Failing, write: u64) -> bool {
    match (folder(alloc, &[(NAME, bytes)], failing), sink(alloc, write)) {
        (Some(mut folder), Ok(mut out)) => {
            logged(alloc, &mut folder, bytes.len(), SALARY, &mut out) == Ok(Err(wanted))
                && out.taken().is_empty()
        }
        _ => false,
    }
}

/// Whether faults of the file's calls, and of the output, are told.
fn are_told(alloc: Global, bytes: &[u8]) -> bool {
    let read = |number: u64| (FolderCall::ReadAt, number);
    is_refused(alloc, bytes, LogFault::Folder, read(3), 0)
        && is_refused(alloc, bytes, LogFault::Folder, read(28), 0)
        && is_refused(alloc, bytes, LogFault::Out, NEVER, 1)
}

/// Whether the file without its last byte's value is damaged.
fn is_tail_damage(alloc: Global, bytes: &[u8]) -> bool {
    match bytes.split_last() {
        Some((_, front)) => is_damaged(alloc, front, &[255]),
        None => false,
    }
}

/// Whether the log of the salary is damage in the file of these bytes.
fn is_damaged(alloc: Global, front: &[u8], rest: &[u8]) -> bool {
    let Ok(mut bytes) = Vec::from_slice(alloc, front) else {
        return false;
    };
    bytes.extend_from_slice(rest).is_ok() && is_refused(alloc, &bytes, LogFault::Damage, NEVER, 0)
}

/// The same bytes, but that the first of these old ones are replaced by the new ones.
fn replaced(alloc: Global, bytes: &[u8], old: &[u8], new: &[u8]) -> Option<Vec<u8>> {
    for at in 0..bytes.len() {
        if let Some(rest) = bytes[at..].strip_prefix(old) {
            let mut replaced = Vec::from_slice(alloc, &bytes[..at]).ok()?;
            replaced.extend_from_slice(new).ok()?;
            replaced.extend_from_slice(rest).ok()?;
            return Some(replaced);
        }
    }
    None
}

/// Whether the log of the salary is damage, once the first of these old bytes are replaced.
fn is_changed_damage(alloc: Global, bytes: &[u8], old: &[u8], new: &[u8]) -> bool {
    match replaced(alloc, bytes, old, new) {
        Some(changed) => is_refused(alloc, &changed, LogFault::Damage, NEVER, 0),
        None => false,
    }
}

/// The alternative of versions 1 and 3: the stored set, and the content.
const FIRST: &[u8] =
    b"\x01\0\0\0\x02\0\0\0\x01\0\0\0\x01\0\0\0\x03\0\0\0\x03\x01\0\0\0\0\0\0\0\x01\0\0\0\0\x0390K";

/// That of version 2.
const SECOND: &[u8] = b"\x01\0\0\0\x01\0\0\0\x02\0\0\0\x02\x01\0\0\0\0\0\0\0\x01\0\0\0\0\x0395K";

/// The same without a set, with texts that are longer by as many bytes.
const FIRST_INHERITED: &[u8] = b"\0\x01\0\0\0\0\0\0\0\x01\0\0\0\0\x1790K, and a pound a week";

const SECOND_INHERITED: &[u8] = b"\0\x01\0\0\0\0\0\0\0\x01\0\0\0\0\x0f95K, and a cart";

/// Bytes of the salary's alternatives, and others in their place: texts that are none, and sets that are missing.
const CHANGED: &[(&str, &[u8], &[u8])] = &[
    ("the first text", b"90K", b"\xff0K"),
    ("the second text", b"95K", b"\xff5K"),
    ("the first of two inherits", FIRST, FIRST_INHERITED),
    ("the second of two inherits", SECOND, SECOND_INHERITED),
];

/// Whether both inherit, and that is damage.
fn is_both_damage(alloc: Global, bytes: &[u8]) -> bool {
    match replaced(alloc, bytes, FIRST, FIRST_INHERITED) {
        Some(first) => is_changed_damage(alloc, &first, SECOND, SECOND_INHERITED),
        None => false,
    }
}

#[test]
fn faults_and_damage_are_told(rt: HostRuntime) -> Result<(), Fail> {
    let alloc = rt.alloc();
    let bytes = file(alloc, COMPANY, SALARIES).ok_or("no file")?;
    told(are_told(alloc, &bytes), "a call that fails")?;
    told(is_tail_damage(alloc, &bytes), "the tail")?;
    told(is_both_damage(alloc, &bytes), "both inherit")?;
    for (name, old, new) in CHANGED {
        told(is_changed_damage(alloc, &bytes, old, new), name)?;
    }
    Ok(())
}
