use crate::asked::{Asked, is_so};
use given_parts::documents::{lend, read};
use given_parts::told;
use jsonml_text::write_tree;
use jsonml_tree::Tree;
use std::alloc::{AllocError, Global};
use std::test::Fail;
use xa_outside::MemSink;

/// In which order the attributes of an element are written.
#[derive(Clone, Copy)]
enum Written {
    Up,
    Down,
    /// Up, and then the first name once more.
    Again,
}

/// Rows of many attributes, and whether their texts are lent as they stand.
const ROWS: &[(&str, u32, Written, bool)] = &[
    ("64 attributes upwards", 64, Written::Up, true),
    ("65 attributes upwards", 65, Written::Up, true),
    ("65 attributes downwards", 65, Written::Down, true),
    (
        "65 attributes, one of them twice",
        65,
        Written::Again,
        false,
    ),
    ("100 attributes upwards", 100, Written::Up, true),
    ("100 attributes downwards", 100, Written::Down, true),
    (
        "100 attributes, one of them twice",
        100,
        Written::Again,
        false,
    ),
    ("1,000 attributes upwards", 1000, Written::Up, true),
    ("1,000 attributes downwards", 1000, Written::Down, true),
    (
        "1,000 attributes, one of them twice",
        1000,
        Written::Again,
        false,
    ),
    ("one attribute twice", 1, Written::Again, false),
];

fn digit(number: u32) -> u8 {
    b'0' + (number % 10) as u8
}

/// Appends an attribute that is named by a number of four digits, and a comma.
fn put_attribute(text: &mut Vec<u8>, number: u32, value: u8) -> Result<(), AllocError> {
    let mut attribute = *b"\"a0000\":\"x\",";
    attribute[2] = digit(number / 1000);
    attribute[3] = digit(number / 100);
    attribute[4] = digit(number / 10);
    attribute[5] = digit(number);
    attribute[9] = value;
    text.extend_from_slice(&attribute)
}

/// Appends so many attributes, of which that of the number 0 has this value.
fn put_attributes(
    text: &mut Vec<u8>,
    count: u32,
    is_down: bool,
    first: u8,
) -> Result<(), AllocError> {
    for at in 0..count {
        let number = if is_down { count - 1 - at } else { at };
        let value = if number == 0 { first } else { b'x' };
        put_attribute(text, number, value)?;
    }
    Ok(())
}

/// Ends the document in place of the last comma.
fn end_row(text: &mut Vec<u8>) -> Result<(), AllocError> {
    text.pop();
    text.extend_from_slice(b"},\"t\"]")
}

/// A document of so many attributes, each with the same value.
fn put_document(text: &mut Vec<u8>, count: u32, written: Written) -> Result<(), AllocError> {
    text.extend_from_slice(b"[\"db\",{")?;
    put_attributes(text, count, matches!(written, Written::Down), b'x')?;
    if let Written::Again = written {
        put_attribute(text, 0, b'y')?;
    }
    end_row(text)
}

/// What is printed of it: the names ascend, and of two values of one name the last stays.
fn put_printed(text: &mut Vec<u8>, count: u32, written: Written) -> Result<(), AllocError> {
    let first = if let Written::Again = written {
        b'y'
    } else {
        b'x'
    };
    text.extend_from_slice(b"[\"db\",{")?;
    put_attributes(text, count, false, first)?;
    end_row(text)
}

fn is_put(alloc: Global, tree: &Tree, text: &[u8]) -> bool {
    let mut sink = MemSink::new(alloc, Vec::new(alloc));
    match tree {
        Tree::Text(_) => false,
        Tree::Elem { .. } => write_tree(tree, &mut sink).is_ok() && text == sink.taken(),
    }
}

/// Whether both ways to read the document give one tree, this is printed of it, and its attributes are lent or not.
fn is_tree_so(alloc: Global, tree: &Tree, document: &[u8], text: &[u8], are_lent: bool) -> bool {
    is_put(alloc, tree, text)
        && is_so(alloc, lend(alloc, document), Asked::Owns(tree))
        && is_so(alloc, lend(alloc, document), Asked::AreLent(are_lent))
}

fn is_read_so(alloc: Global, document: &[u8], text: &[u8], are_lent: bool) -> bool {
    match read(alloc, document) {
        Some(tree) => is_tree_so(alloc, &tree, document, text, are_lent),
        None => false,
    }
}

fn is_row_read(alloc: Global, count: u32, written: Written, are_lent: bool) -> bool {
    let mut document = Vec::new(alloc);
    let mut text = Vec::new(alloc);
    put_document(&mut document, count, written).is_ok()
        && put_printed(&mut text, count, written).is_ok()
        && is_read_so(alloc, &document, &text, are_lent)
}

#[test]
fn rows_of_many_attributes_are_put_in_order(rt: HostRuntime) -> Result<(), Fail> {
    for (name, count, written, lent) in ROWS {
        told(is_row_read(rt.alloc(), *count, *written, *lent), name)?;
    }
    Ok(())
}
