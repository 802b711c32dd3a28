//! Specifications of tables, and their documents' keys.
ghost use Rattle.std.specs.Prelude.{◌≤◌, length};
ghost use Rattle.csv_tables.specs.Records.{IsRegular};
ghost use Rattle.csv_tables.specs.View.{table_view};
ghost use Rattle.key_spec.specs.View.{names_view};
ghost use Rattle.csv_tables.specs.Keys.{AreKeys};

use crate::table_texts::read;
use csv_tables::{Table, are_keys, keys_text, table_spec, table_tree};
use given_outside::texts;
use given_parts::told;
use key_rules::{KeyFault, first_fault};
use key_spec::{Spec, is_name};
use std::alloc::{AllocError, Global};
use std::test::Fail;

/// Key columns, and the canonical text of their specification under the tag `t`; none where they may be no key columns.
const SPECS: &[(&str, &[&str], Option<&str>)] = &[
    (
        "one key column",
        &["id"],
        Some("(/, (t, {}))\n(/t, (row, {@id}))\n(/t/row, (cell, {}))\n"),
    ),
    (
        "two key columns in their own order",
        &["name", "id"],
        Some("(/, (t, {}))\n(/t, (row, {@name, @id}))\n(/t/row, (cell, {}))\n"),
    ),
    ("no key column", &[], None),
    ("a key column twice", &["id", "name", "id"], None),
    ("a name with a blank", &["i d"], None),
    (
        "sixteen key columns",
        &[
            "a", "b", "c", "d", "e", "f", "g", "h", "i", "j", "k", "l", "m", "n", "o", "p",
        ],
        Some(
            "(/, (t, {}))\n(/t, (row, {@a, @b, @c, @d, @e, @f, @g, @h, @i, @j, @k, @l, @m, @n, @o, @p}))\n(/t/row, (cell, {}))\n",
        ),
    ),
    (
        "seventeen key columns",
        &[
            "a", "b", "c", "d", "e", "f", "g", "h", "i", "j", "k", "l", "m", "n", "o", "p", "q",
        ],
        None,
    ),
];

/// A table, key columns, and the place of the first fault of the keys of its document: a row whose number is given.
const FAULTS: &[(&str, &[u8], &[&str], Option<u32>)] = &[
    (
        "rows of different keys",
        b"id,name\n2,Ann\n1,\"Bo, Jr\"\n",
        &["id"],
        None,
    ),
    (
        "a repeated key",
        b"id,name\n2,Ann\n2,Eve\n",
        &["id"],
        Some(2),
    ),
    (
        "a repeated key that is not the neighbour's",
        b"id\n1\n2\n3\n1\n2\n",
        &["id"],
        Some(4),
    ),
    (
        "rows that differ in one of two key columns",
        b"a,b\n1,1\n1,2\n2,1\n",
        &["b", "a"],
        None,
    ),
    (
        "rows that agree in both key columns",
        b"b,a,c\n1,2,x\n2,1,y\n1,2,z\n",
        &["a", "b"],
        Some(3),
    ),
    ("no rows", b"id\n", &["id"], None),
];

fn spec_by(alloc: Global, keys: &[String]) -> Result<Option<Spec>, AllocError>
    requires { AreKeys (names_view keys.now) }
{
    if !is_name("t") {
        return Ok(None);
    }
    let text = keys_text(alloc, "t", keys)?;
    if text.len() > 1_048_576 {
        return Ok(None);
    }
    Ok(Some(table_spec(alloc, "t", keys)?))
}

/// The specification of a table with the tag `t`, where these may be key columns.
fn spec_of(alloc: Global, keys: &[String]) -> Option<Spec> {
    if !are_keys(keys) {
        return None;
    }
    match spec_by(alloc, keys) {
        Ok(spec) => spec,
        Err(_) => None,
    }
}

fn is_text(found: Result<String, AllocError>, wanted: &str) -> bool {
    match found {
        Ok(text) => text.as_str() == wanted,
        Err(_) => false,
    }
}

/// Whether the specification has this canonical text, and the text is that of the keys.
fn has_text(alloc: Global, keys: &[String], wanted: &str) -> bool {
    match spec_of(alloc, keys) {
        Some(spec) => {
            is_text(spec.text(alloc), wanted) && is_text(keys_text(alloc, "t", keys), wanted)
        }
        None => false,
    }
}

fn has_text_or_not(alloc: Global, keys: &[&str], wanted: &Option<&str>) -> bool {
    match (texts(alloc, keys), wanted) {
        (Ok(keys), Some(text)) => has_text(alloc, &keys, text),
        (Ok(keys), None) => !are_keys(&keys) && spec_of(alloc, &keys).is_none(),
        _ => false,
    }
}

#[test]
fn specifications_have_three_rules(rt: HostRuntime) -> Result<(), Fail> {
    for (name, keys, wanted) in SPECS {
        told(has_text_or_not(rt.alloc(), keys, wanted), name)?;
    }
    Ok(())
}

/// Whether the first fault of a document's keys is at this row, for a label that an earlier one has.
fn is_at(found: &Result<Option<KeyFault>, AllocError>, wanted: &Option<u32>) -> bool {
    match (found, wanted) {
        (Ok(None), None) => true,
        (Ok(Some(fault)), Some(row)) => {
            fault.why == 5 && fault.place.steps.as_slice() == [*row].as_slice()
        }
        _ => false,
    }
}

fn is_faulty(alloc: Global, table: &Table, spec: &Spec, wanted: &Option<u32>) -> bool
    requires regular { IsRegular (table_view table.now) }
    requires few { length (table_view table.now).rows ≤ 67108864 }
{
    match table_tree(alloc, table, "t") {
        Ok(tree) => is_at(&first_fault(alloc, spec, &tree), wanted),
        Err(_) => false,
    }
}

fn is_faulty_by(alloc: Global, text: &[u8], spec: &Spec, wanted: &Option<u32>) -> bool {
    match read(alloc, text) {
        Ok(table) => is_faulty(alloc, &table, spec, wanted),
        Err(_) => false,
    }
}

fn is_fault_by(alloc: Global, text: &[u8], keys: &[String], wanted: &Option<u32>) -> bool {
    match spec_of(alloc, keys) {
        Some(spec) => is_faulty_by(alloc, text, &spec, wanted),
        None => false,
    }
}

fn is_fault_of(alloc: Global, text: &[u8], keys: &[&str], wanted: &Option<u32>) -> bool {
    match texts(alloc, keys) {
        Ok(keys) => is_fault_by(alloc, text, &keys, wanted),
        Err(_) => false,
    }
}

#[test]
fn rows_that_agree_in_all_key_columns_are_a_fault(rt: HostRuntime) -> Result<(), Fail> {
    for (name, text, keys, wanted) in FAULTS {
        told(is_fault_of(rt.alloc(), text, keys, wanted), name)?;
    }
    Ok(())
}
