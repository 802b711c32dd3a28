//! Lines and contents on their own.
use given_parts::documents::read;
use given_parts::told;
use jsonml_lines::{Line, end_line, take_line, write_cell, write_content, write_word};
use jsonml_print::write_quoted;
use jsonml_tree::{Attr, Content, Scalar, Tree};
use keyed_tree::KeyVal;
use std::alloc::{AllocError, Global};
use std::test::Fail;
use xa_outside::MemSink;

fn sample(alloc: Global) -> Result<Content, AllocError> {
    let name = String::from_str(alloc, "a\"")?;
    let attr = Attr {
        name,
        value: Scalar::Whole(7),
    };
    let text = String::from_str(alloc, "x\ny")?;
    let attrs = Vec::from_array(alloc, [attr])?;
    let items = Vec::from_array(alloc, [Tree::Text(text)])?;
    Ok(Content { attrs, items })
}

fn is_written(alloc: Global, content: &Content, wanted: &str) -> bool {
    let mut sink = MemSink::new(alloc, Vec::new(alloc));
    write_content(content, &mut sink).is_ok() && sink.taken() == wanted.as_bytes()
}

/// Documents, and what their root elements hold, as arrays.
const ARRAYS: &[(&str, &str)] = &[
    (r#"["db"]"#, "[]"),
    (r#"["db","t"]"#, r#"["t"]"#),
    (r#"["db",["e"],"t"]"#, r#"[["e"],"t"]"#),
    (r#"["db",{"a":1,"b":null}]"#, r#"[{"a":1,"b":null}]"#),
    (
        r#"["db",{"a":1},["e",{"b":2},"x"],["f"]]"#,
        r#"[{"a":1},["e",{"b":2},"x"],["f"]]"#,
    ),
];

/// Whether this is written for what the root element of a document holds.
fn is_array_of(alloc: Global, document: &str, wanted: &str) -> bool {
    let Some(tree) = read(alloc, document.as_bytes()) else {
        return false;
    };
    match &tree {
        Tree::Elem { content, .. } => is_written(alloc, content, wanted),
        Tree::Text(_) => false,
    }
}

#[test]
fn contents_are_written_as_arrays(rt: HostRuntime) -> Result<(), Fail> {
    for (document, array) in ARRAYS {
        told(is_array_of(rt.alloc(), document, array), document)?;
    }
    Ok(())
}

fn is_quoted(alloc: Global, text: &str, wanted: &str) -> bool {
    let mut sink = MemSink::new(alloc, Vec::new(alloc));
    write_quoted(text, &mut sink).is_ok() && sink.taken() == wanted.as_bytes()
}

fn line(alloc: Global, cell: &KeyVal) -> Option<Vec<u8>> {
    let mut sink = MemSink::new(alloc, Vec::new(alloc));
    write_word("w", &mut sink).ok()?;
    write_cell(cell, &mut sink).ok()?;
    end_line(&mut sink).ok()?;
    Vec::from_slice(alloc, sink.taken()).ok()
}

fn is_same_line(line: &Line, cell: &KeyVal) -> bool {
    match line.cells.as_slice() {
        [only] => line.word.as_str() == "w" && only.same(cell),
        _ => false,
    }
}

fn is_read_back(alloc: Global, cell: &KeyVal) -> bool {
    let Some(bytes) = line(alloc, cell) else {
        return false;
    };
    match take_line(alloc, &bytes, 0) {
        Ok(Some((line, next))) => next == bytes.len() && is_same_line(&line, cell),
        _ => false,
    }
}

/// Whether a content is written as an array, and read back as a cell.
fn is_sample_right(alloc: Global) -> bool {
    match sample(alloc) {
        Ok(content) => {
            is_written(alloc, &content, r#"[{"a\"":7},"x\ny"]"#)
                && is_read_back(alloc, &KeyVal::Content(content))
        }
        Err(_) => false,
    }
}

#[test]
fn lines_and_contents_are_written(rt: HostRuntime) -> Result<(), Fail> {
    let alloc = rt.alloc();
    told(is_sample_right(alloc), "a content")?;
    told(
        is_read_back(alloc, &KeyVal::Scalar(Scalar::Null)),
        "a scalar",
    )?;
    told(
        is_quoted(alloc, "a\t\u{1}\u{e9}", "\"a\\t\\u0001\u{e9}\""),
        "escapes",
    )
}

fn is_no_line(alloc: Global, text: &str) -> bool {
    match take_line(alloc, text.as_bytes(), 0) {
        Ok(None) => true,
        _ => false,
    }
}

const NO_LINES: &[&str] = &[
    "",
    "\n",
    "x\n",
    "[\n",
    "[\"a\"]",
    "[]\n",
    "[1]\n",
    "{}\n",
    "[\"a\",{}]\n",
    "[\"a\",1.5]\n",
    // An array that is no content.
    "[\"a\",[5]]\n",
    "[\"a\",[[]]]\n",
    "[\"a\",[\"x\",{}]]\n",
];

#[test]
fn other_bytes_are_no_line(rt: HostRuntime) -> Result<(), Fail> {
    for text in NO_LINES {
        told(is_no_line(rt.alloc(), text), text)?;
    }
    Ok(())
}
