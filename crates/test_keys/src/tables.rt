//! Tables: what is read, what is refused, and what they make.
ghost use Rattle.std.specs.Prelude.{◌≤◌, length};
ghost use Rattle.csv_tables.specs.Records.{IsRegular};
ghost use Rattle.csv_tables.specs.View.{table_view};
ghost use Rattle.jsonml_tree.specs.Fits.{IsElement};
ghost use Rattle.jsonml_tree.specs.View.{tree_view};

use crate::table_texts::read;
use csv_tables::{Table, TableFault, has_columns, table_tree, text_length};
use given_outside::texts;
use given_parts::told;
use jsonml_text::write_tree;
use jsonml_tree::Tree;
use std::alloc::{AllocError, Global};
use std::test::Fail;
use xa_outside::MemSink;

/// A text that is no table, and the number of its bad record and why.
const BAD: &[(&str, &[u8], u64, u8)] = &[
    ("a record that is too short", b"id,name\n2\n", 2, 2),
    (
        "a record that is too long",
        b"id,name\n2,Ann\n3,Bo,x\n",
        3,
        2,
    ),
    ("no record", b"", 0, 1),
    ("nothing but line ends", b"\n\r\n", 0, 1),
    ("two columns of one name", b"id,id\n", 1, 4),
    (
        "two columns of one name, not side by side",
        b"b,a,b\n",
        1,
        4,
    ),
    ("a heading that is not UTF-8", b"id,\xff\n", 1, 3),
    ("a field that is not UTF-8", b"id,name\n2,\xff\n", 2, 3),
    (
        "a heading that is not UTF-8, with two names alike",
        b"\xff,\xff\n",
        1,
        3,
    ),
    (
        "a record that is too short and not UTF-8",
        b"id,name\n\xff\n",
        2,
        2,
    ),
    (
        "the first bad record, not a later one",
        b"id\n1,2\n\xff\n",
        2,
        2,
    ),
];

/// A table, its document with the tag `t`, and how many bytes that has with its line feed.
const DOCUMENTS: &[(&str, &[u8], &[u8], u128)] = &[
    (
        "a quoted field",
        b"id,name\n2,Ann\n1,\"Bo, Jr\"\n",
        br#"["t",["row",{"id":"2","name":"Ann"}],["row",{"id":"1","name":"Bo, Jr"}]]"#,
        73,
    ),
    ("a heading alone", b"id,name", br#"["t"]"#, 6),
    (
        "columns out of order",
        b"b,c,a\n1,2,3\n",
        br#"["t",["row",{"a":"3","b":"1","c":"2"}]]"#,
        40,
    ),
    (
        "rows alike stay",
        b"a\n1\n1\n",
        br#"["t",["row",{"a":"1"}],["row",{"a":"1"}]]"#,
        42,
    ),
    (
        "escapes",
        b"\"a\"\"\"\n\"x\n\x01\"\n",
        br#"["t",["row",{"a\"":"x\n\u0001"}]]"#,
        34,
    ),
    (
        "one byte order mark",
        b"\xef\xbb\xbfid\n1\n",
        br#"["t",["row",{"id":"1"}]]"#,
        25,
    ),
    (
        "two byte order marks",
        b"\xef\xbb\xbf\xef\xbb\xbfid\n1\n",
        b"[\"t\",[\"row\",{\"\xef\xbb\xbfid\":\"1\"}]]",
        28,
    ),
];

/// Names of columns, and whether a table with the columns `id` and `name` has them.
const COLUMNS: &[(&str, &[&str], bool)] = &[
    ("both columns", &["name", "id"], true),
    ("no column", &[], true),
    ("a column that is not there", &["id", "x"], false),
    ("a part of a name", &["nam"], false),
];

fn is_bad(found: &Result<Table, TableFault>, row: u64, why: u8) -> bool {
    match found {
        Err(fault) => *fault == TableFault::Bad { row, why },
        Ok(_) => false,
    }
}

#[test]
fn bad_tables_are_refused(rt: HostRuntime) -> Result<(), Fail> {
    for (name, text, row, why) in BAD {
        told(is_bad(&read(rt.alloc(), text), *row, *why), name)?;
    }
    Ok(())
}

/// Whether this is printed for the tree.
fn is_printed(alloc: Global, tree: &Tree, wanted: &[u8]) -> bool
    requires { IsElement (tree_view tree.now) }
{
    let mut sink = MemSink::new(alloc, Vec::new(alloc));
    write_tree(tree, &mut sink).is_ok() && sink.taken() == wanted
}

/// Whether the table has this document, and as many bytes.
fn makes_document(alloc: Global, table: &Table, wanted: &[u8], size: u128) -> bool
    requires regular { IsRegular (table_view table.now) }
    requires few { length (table_view table.now).rows ≤ 67108864 }
{
    if text_length(table, "t") != size {
        return false;
    }
    match table_tree(alloc, table, "t") {
        Ok(tree) => is_printed(alloc, &tree, wanted),
        Err(_) => false,
    }
}

fn has_document(alloc: Global, text: &[u8], wanted: &[u8], length: u128) -> bool {
    match read(alloc, text) {
        Ok(table) => makes_document(alloc, &table, wanted, length),
        Err(_) => false,
    }
}

#[test]
fn tables_make_documents(rt: HostRuntime) -> Result<(), Fail> {
    for (name, text, wanted, length) in DOCUMENTS {
        told(has_document(rt.alloc(), text, wanted, *length), name)?;
    }
    told(has_wide_document(rt.alloc()), "200 columns")
}

/// Appends the numbers of columns from 101 to 299, each between these texts.
fn put_columns(
    alloc: Global,
    text: &mut String,
    before: &str,
    behind: &str,
) -> Result<(), AllocError> {
    for column in 101..300 {
        text.push_str(format!(in alloc; "{before}{column}{behind}")?.as_str())?;
    }
    Ok(())
}

/// Appends a table of 200 columns and a row.
fn put_table(alloc: Global, text: &mut String) -> Result<(), AllocError> {
    text.push_str("a100")?;
    put_columns(alloc, text, ",a", "")?;
    text.push_str("\nx")?;
    for _ in 101..300 {
        text.push_str(",x")?;
    }
    text.push_str("\n")
}

/// Appends its document.
fn put_document(alloc: Global, text: &mut String) -> Result<(), AllocError> {
    text.push_str(r#"["t",["row",{"a100":"x""#)?;
    put_columns(alloc, text, ",\"a", "\":\"x\"")?;
    text.push_str("}]]")
}

fn has_wide_document(alloc: Global) -> bool {
    let mut text = String::new(alloc);
    let mut document = String::new(alloc);
    let is_put = put_table(alloc, &mut text).is_ok() && put_document(alloc, &mut document).is_ok();
    let size = (document.len() as u128).saturating_add(1);
    is_put && has_document(alloc, text.as_bytes(), document.as_bytes(), size)
}

fn has_each(alloc: Global, table: &Table, keys: &[&str], wanted: bool) -> bool {
    match texts(alloc, keys) {
        Ok(keys) => has_columns(table, &keys) == wanted,
        Err(_) => false,
    }
}

fn has_names(alloc: Global, keys: &[&str], wanted: bool) -> bool {
    match read(alloc, b"id,name\n2,Ann\n") {
        Ok(table) => has_each(alloc, &table, keys, wanted),
        Err(_) => false,
    }
}

#[test]
fn columns_are_fields_of_the_heading(rt: HostRuntime) -> Result<(), Fail> {
    for (name, keys, wanted) in COLUMNS {
        told(has_names(rt.alloc(), keys, *wanted), name)?;
    }
    Ok(())
}
