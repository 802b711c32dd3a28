//! What is read from texts.
use crate::written::{WRITTEN, Written, is_written};
use archive_text::{Kept, ReadFault, read_text, read_with_file, write_text};
use archive_tree::Archive;
use given_archives::{
    GREAT_SIZES, Judge, SIZES, archive, file, hold_large, hold_listed, specification,
};
use given_parts::bytes::{Pieces, joined};
use given_parts::told;
use key_spec::Spec;
use std::alloc::Global;
use std::test::Fail;
use xa_outside::MemSink;

fn are_same_notes(ours: &[String], others: &[&str]) -> bool {
    ours.len() == others.len()
        && ours
            .iter()
            .zip(others.iter())
            .all(|(own, other)| own.as_str() == *other)
}

/// Whether what was read has this text and these notes.
fn is_kept(alloc: Global, kept: &Kept, notes: &[&str], text: &[u8]) -> bool {
    are_same_notes(&kept.notes, notes) && is_written(alloc, &kept.spec, &kept.archive, notes, text)
}

/// Whether the text and the file of an archive are read of the text, with the notes.
fn is_read_back(alloc: Global, text: &[u8], notes: &[&str], file: &[u8]) -> bool {
    if text.len() > 67_108_864 {
        return false;
    }
    match read_with_file(alloc, text) {
        Ok((kept, found)) => found.as_slice() == file && is_kept(alloc, &kept, notes, text),
        Err(_) => false,
    }
}

fn is_written_read_back(alloc: Global, written: &Written) -> bool {
    match file(alloc, written.0, written.1) {
        Some(file) => is_read_back(alloc, written.3.as_bytes(), written.2, &file),
        None => false,
    }
}

/// The text of an archive without notes.
fn text(alloc: Global, spec: &Spec, archive: &Archive) -> Option<Vec<u8>> {
    let mut notes = Vec::new(alloc);
    for _ in 0..archive.n() {
        notes.push(String::new(alloc)).ok()?;
    }
    let mut sink = MemSink::new(alloc, Vec::new(alloc));
    write_text(alloc, spec, archive, &notes, &mut sink).ok()?;
    Vec::from_slice(alloc, sink.taken()).ok()
}

/// Whether the text of the documents' archive is read as their file.
fn is_told_again(alloc: Global, keys: &str, documents: &[&str]) -> bool {
    let (Some(spec), Some(file)) = (specification(alloc, keys), file(alloc, keys, documents)) else {
        return false;
    };
    let Some(archive) = archive(alloc, &spec, documents) else {
        return false;
    };
    match text(alloc, &spec, &archive) {
        Some(text) => is_file_read(alloc, &text, &file),
        None => false,
    }
}

fn is_file_read(alloc: Global, text: &[u8], file: &[u8]) -> bool {
    if text.len() > 67_108_864 {
        return false;
    }
    match read_with_file(alloc, text) {
        Ok((_, found)) => found.as_slice() == file,
        Err(_) => false,
    }
}

/// The text of the documents' archive gives their file.
struct ToldAgain;

impl Judge for ToldAgain {
    fn holds(&self, alloc: Global, keys: &str, documents: &[&str]) -> bool {
        is_told_again(alloc, keys, documents)
    }
}

#[test]
fn texts_give_their_archives(rt: HostRuntime) -> Result<(), Fail> {
    for (name, written) in WRITTEN {
        told(is_written_read_back(rt.alloc(), written), name)?;
    }
    hold_listed(&ToldAgain, rt.alloc())
}

#[test]
fn large_texts_give_their_archives(rt: HostRuntime) -> Result<(), Fail> {
    hold_large(&ToldAgain, rt.alloc(), SIZES)
}

#[test]
fn great_texts_give_their_archives(rt: HostRuntime) -> Result<(), Fail> {
    hold_large(&ToldAgain, rt.alloc(), GREAT_SIZES)
}

/// Texts of no archive.
const REFUSED: &[(&str, &str)] = &[
    ("nothing", ""),
    (
        "no last line",
        "[\"xarch\",0]\n[\"key\",\"(/, (db, {}))\"]\n",
    ),
    (
        "no last line below a node",
        r#"["xarch",1]
["key","(/, (db, {}))"]
["leaf","","db"]
["alt","",[]]
["end"]
"#,
    ),
    (
        "no last line feed",
        "[\"xarch\",0]\n[\"key\",\"(/, (db, {}))\"]\n[\"end\"]",
    ),
    (
        "a line behind the last",
        "[\"xarch\",0]\n[\"key\",\"(/, (db, {}))\"]\n[\"end\"]\n[\"end\"]\n",
    ),
    (
        "a blank behind a comma",
        r#"["xarch",1]
["key","(/, (db, {}))"]
["leaf", "","db"]
["alt","",[]]
["end"]
["end"]
"#,
    ),
    (
        "the versions written where they are those of the parent",
        r#"["xarch",1]
["key","(/, (db, {}))"]
["leaf","1","db"]
["alt","",[]]
["end"]
["end"]
"#,
    ),
    (
        "a line for an empty note",
        r#"["xarch",1]
["key","(/, (db, {}))"]
["note",1,""]
["leaf","","db"]
["alt","",[]]
["end"]
["end"]
"#,
    ),
    (
        "notes behind the nodes",
        r#"["xarch",1]
["key","(/, (db, {}))"]
["leaf","","db"]
["alt","",[]]
["end"]
["note",1,"first"]
["end"]
"#,
    ),
    (
        "a note of no version",
        r#"["xarch",1]
["key","(/, (db, {}))"]
["note",2,"second"]
["leaf","","db"]
["alt","",[]]
["end"]
["end"]
"#,
    ),
    (
        "notes in another order",
        r#"["xarch",2]
["key","(/, (db, {}))"]
["note",2,"second"]
["note",1,"first"]
["leaf","","db"]
["alt","",[]]
["end"]
["end"]
"#,
    ),
    (
        "a note with a line feed",
        r#"["xarch",1]
["key","(/, (db, {}))"]
["note",1,"a\nb"]
["leaf","","db"]
["alt","",[]]
["end"]
["end"]
"#,
    ),
    (
        "keys that are not written out",
        "[\"xarch\",0]\n[\"key\",\"(/,(db,{}))\"]\n[\"end\"]\n",
    ),
    (
        "an element without a rule",
        r#"["xarch",1]
["key","(/, (db, {}))"]
["leaf","","other"]
["alt","",[]]
["end"]
["end"]
"#,
    ),
    (
        "a version without an element",
        r#"["xarch",2]
["key","(/, (db, {}))"]
["leaf","1","db"]
["alt","",[]]
["end"]
["end"]
"#,
    ),
    (
        "a million versions",
        "[\"xarch\",1000000]\n[\"key\",\"(/, (db, {}))\"]\n[\"end\"]\n",
    ),
    (
        "4,294,967,295 versions",
        "[\"xarch\",4294967295]\n[\"key\",\"(/, (db, {}))\"]\n[\"end\"]\n",
    ),
    (
        "a note of version 4,294,967,295",
        r#"["xarch",1]
["key","(/, (db, {}))"]
["note",4294967295,"first"]
["leaf","","db"]
["alt","",[]]
["end"]
["end"]
"#,
    ),
    (
        "a number in a content",
        r#"["xarch",1]
["key","(/, (db, {}))"]
["leaf","","db"]
["alt","",[5]]
["end"]
["end"]
"#,
    ),
    (
        "an element without a tag",
        r#"["xarch",1]
["key","(/, (db, {}))"]
["leaf","","db"]
["alt","",[[]]]
["end"]
["end"]
"#,
    ),
    (
        "a tag that is spelled otherwise",
        r#"["xarch",1]
["key","(/, (db, {}))"]
["leaf","","d\u0062"]
["alt","",[]]
["end"]
["end"]
"#,
    ),
    (
        "a text that is spelled otherwise",
        r#"["xarch",1]
["key","(/, (db, {}))"]
["leaf","","db"]
["alt","",["\/"]]
["end"]
["end"]
"#,
    ),
];

const HEAD: &[u8] = b"[\"xarch\",1]\n[\"key\",\"(/, (db, {}))\"]\n";

/// Long texts of no archive.
const LONG: &[(&str, Pieces)] = &[
    (
        "121 open nodes",
        &[
            (HEAD, 1),
            (b"[\"open\",\"\",\"a\"]\n", 121),
            (b"[\"end\"]\n", 122),
        ],
    ),
    (
        "many open nodes",
        &[(HEAD, 1), (b"[\"open\",\"\",\"a\"]\n", 200_000)],
    ),
    // What is written for it differs behind two million letters, up to which it is not compared again and again.
    (
        "a long text whose last letter is spelled otherwise",
        &[
            (HEAD, 1),
            (b"[\"leaf\",\"\",\"db\"]\n[\"alt\",\"\",[\"", 1),
            (
                b"abcdefghijklmnopqrstuvwxyzabcdefghijklmnopqrstuvwxyz",
                40_000,
            ),
            (b"\\u0061\"]]\n[\"end\"]\n[\"end\"]\n", 1),
        ],
    ),
];

fn is_refused(alloc: Global, text: &[u8]) -> bool {
    if text.len() > 67_108_864 {
        return false;
    }
    matches!(read_text(alloc, text), Err(ReadFault::Bad))
}

fn is_long_refused(alloc: Global, text: Pieces) -> bool {
    match joined(alloc, text) {
        Ok(text) => is_refused(alloc, &text),
        Err(_) => false,
    }
}

#[test]
fn other_texts_are_refused(rt: HostRuntime) -> Result<(), Fail> {
    for (name, text) in REFUSED {
        told(is_refused(rt.alloc(), text.as_bytes()), name)?;
    }
    for (name, text) in LONG {
        told(is_long_refused(rt.alloc(), text), name)?;
    }
    Ok(())
}
