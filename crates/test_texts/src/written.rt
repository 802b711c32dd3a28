//! What is written for archives.
use archive_text::{TextFault, write_text};
use archive_tree::Archive;
use given_archives::lists::{COMPANY, NUMBERED, SALARIES, TINY};
use given_archives::{archive, specification};
use given_parts::told;
use key_spec::Spec;
use std::alloc::{AllocError, Global};
use std::test::Fail;
use xa_outside::MemSink;

/// The keys, the documents, their notes, and the text.
pub(crate) struct Written(
    pub &'static str,
    pub &'static [&'static str],
    pub &'static [&'static str],
    pub &'static str,
);

pub(crate) const WRITTEN: &[(&str, Written)] = &[
    (
        "no version",
        Written(
            TINY,
            &[],
            &[],
            r#"["xarch",0]
["key","(/, (db, {}))"]
["end"]
"#,
        ),
    ),
    (
        "one empty document",
        Written(
            TINY,
            &[r#"["db"]"#],
            &[""],
            r#"["xarch",1]
["key","(/, (db, {}))"]
["leaf","","db"]
["alt","",[]]
["end"]
["end"]
"#,
        ),
    ),
    (
        "an empty note beside another",
        Written(
            TINY,
            &[r#"["db"]"#, r#"["db"]"#],
            &["first", ""],
            r#"["xarch",2]
["key","(/, (db, {}))"]
["note",1,"first"]
["leaf","","db"]
["alt","",[]]
["end"]
["end"]
"#,
        ),
    ),
    (
        "a salary that returns",
        Written(
            COMPANY,
            SALARIES,
            &["", "", "back"],
            r#"["xarch",3]
["key","(/, (db, {}))"]
["key","(/db, (dept, {name}))"]
["key","(/db/dept, (emp, {fn, ln}))"]
["key","(/db/dept, (name, {}))"]
["key","(/db/dept/emp, (fn, {}))"]
["key","(/db/dept/emp, (ln, {}))"]
["key","(/db/dept/emp, (sal, {}))"]
["key","(/db/dept/emp, (tel, {.}))"]
["note",3,"back"]
["open","","db"]
["open","","dept",["finance"]]
["open","","emp",["John"],["Doe"]]
["leaf","","fn"]
["alt","",["John"]]
["end"]
["leaf","","ln"]
["alt","",["Doe"]]
["end"]
["leaf","","sal"]
["alt","1,3",["90K"]]
["alt","2",["95K"]]
["end"]
["leaf","","tel",["123-4567"]]
["alt","",["123-4567"]]
["end"]
["end"]
["leaf","","name"]
["alt","",["finance"]]
["end"]
["end"]
["end"]
["end"]
"#,
        ),
    ),
    (
        "attributes, and a number as a key value",
        Written(
            NUMBERED,
            &[r#"["db",{"by":"me"},["e",{"id":-2,"x":true},"a\n",["b",{"c":null}]]]"#],
            &[""],
            r#"["xarch",1]
["key","(/, (db, {}))"]
["key","(/db, (e, {@id}))"]
["open","","db"]
["leaf","","@by"]
["alt","","me"]
["end"]
["leaf","","e",-2]
["alt","",[{"id":-2,"x":true},"a\n",["b",{"c":null}]]]
["end"]
["end"]
["end"]
"#,
        ),
    ),
];

pub(crate) fn strings(alloc: Global, texts: &[&str]) -> Result<Vec<String>, AllocError> {
    let mut strings = Vec::with_capacity(alloc, texts.len())?;
    for text in texts {
        strings.push(String::from_str(alloc, text)?)?;
    }
    Ok(strings)
}

/// Whether this is written of an archive with these notes.
pub(crate) fn is_written(
    alloc: Global,
    spec: &Spec,
    archive: &Archive,
    notes: &[&str],
    text: &[u8],
) -> bool {
    let mut sink = MemSink::new(alloc, Vec::new(alloc));
    match strings(alloc, notes) {
        Ok(notes) => {
            write_text(alloc, spec, archive, &notes, &mut sink).is_ok() && sink.taken() == text
        }
        Err(_) => false,
    }
}

fn is_text(alloc: Global, written: &Written) -> bool {
    let Some(spec) = specification(alloc, written.0) else {
        return false;
    };
    match archive(alloc, &spec, written.1) {
        Some(archive) => is_written(alloc, &spec, &archive, written.2, written.3.as_bytes()),
        None => false,
    }
}

/// What is answered where a write of the empty archive fails.
fn is_fault_told(alloc: Global) -> bool {
    let mut fails = Vec::new(alloc);
    if fails.push(1).is_err() {
        return false;
    }
    let mut sink = MemSink::new(alloc, fails);
    match specification(alloc, TINY) {
        Some(spec) => {
            let archive = Archive::empty(alloc);
            write_text(alloc, &spec, &archive, &[], &mut sink) == Err(TextFault::Sink)
        }
        None => false,
    }
}

#[test]
fn archives_have_their_text(rt: HostRuntime) -> Result<(), Fail> {
    for (name, written) in WRITTEN {
        told(is_text(rt.alloc(), written), name)?;
    }
    told(is_fault_told(rt.alloc()), "a write that fails")
}
