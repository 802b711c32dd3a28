//! Lists of documents of which something is large: at these sizes a call that says that it finds no memory is told from
//! one that works.
use crate::lists::{NUMBERED, TINY};
use std::alloc::{AllocError, Global};

/// What is large.
#[derive(Clone, Copy, Drop)]
pub enum Size {
    /// A leaf with three hundred contents, each in one version.
    Contents,
    /// An element that comes and goes in three hundred versions.
    Intervals,
    /// A row of seventy thousand elements, which is more than two bytes count, and the same without the first.
    Row,
    /// Key values of a million letters, the first of an element that then gets a text.
    Keys,
    /// A hundred attributes above the frontier, and as many in a content, in two versions.
    Attributes,
    /// Elements in one another, 120 deep, and one less.
    Depth,
}

/// What is large, by name.
pub const SIZES: &[(&str, Size)] = &[
    ("three hundred contents", Size::Contents),
    ("a hundred and fifty intervals", Size::Intervals),
    ("a hundred attributes", Size::Attributes),
    ("elements 120 deep", Size::Depth),
];

/// What is so large that tests with it are quick only once they are built.
pub const GREAT_SIZES: &[(&str, Size)] = &[
    ("a row of seventy thousand", Size::Row),
    ("key values of a million letters", Size::Keys),
];

/// The keys of the documents of this size.
pub fn keys_of(size: Size) -> &'static str {
    match size {
        Size::Contents | Size::Depth => TINY,
        Size::Intervals | Size::Row | Size::Keys | Size::Attributes => NUMBERED,
    }
}

/// Documents of this size, as they are printed but for the line feed.
pub fn documents_of(alloc: Global, size: Size) -> Result<Vec<String>, AllocError> {
    match size {
        Size::Contents => contents(alloc),
        Size::Intervals => intervals(alloc),
        Size::Row => both(alloc, row(alloc, 0)?, row(alloc, 1)?),
        Size::Keys => both(alloc, keyed(alloc, "")?, keyed(alloc, ",\"x\"")?),
        Size::Attributes => both(alloc, described(alloc, "null")?, described(alloc, "-1")?),
        Size::Depth => both(alloc, nested(alloc, 119)?, nested(alloc, 118)?),
    }
}

fn both(alloc: Global, first: String, second: String) -> Result<Vec<String>, AllocError> {
    let mut documents = Vec::new(alloc);
    documents.push(first)?;
    documents.push(second)?;
    Ok(documents)
}

fn contents(alloc: Global) -> Result<Vec<String>, AllocError> {
    let mut documents = Vec::new(alloc);
    for i in 0..300 {
        documents.push(format!(in alloc; "[\"db\",\"{i}\"]")?)?;
    }
    Ok(documents)
}

fn intervals(alloc: Global) -> Result<Vec<String>, AllocError> {
    let mut documents = Vec::new(alloc);
    for _ in 0..150 {
        documents.push(String::from_str(alloc, r#"["db",["e",{"id":1}]]"#)?)?;
        documents.push(String::from_str(alloc, r#"["db"]"#)?)?;
    }
    Ok(documents)
}

// The elements from this number on.
fn row(alloc: Global, first: u32) -> Result<String, AllocError> {
    let mut text = String::from_str(alloc, "[\"db\"")?;
    for i in first..70_000 {
        text.push_str(format!(in alloc; ",[\"e\",{{\"id\":{i}}}]")?.as_str())?;
    }
    text.push_str("]")?;
    Ok(text)
}

// Elements with this behind the attribute that is their key.
fn keyed(alloc: Global, more: &str) -> Result<String, AllocError> {
    let letters = "abcdefghij".repeat(alloc, 100_000)?;
    let mut text = String::from_str(alloc, "[\"db\",[\"e\",{\"id\":\"")?;
    text.push_str(letters.as_str())?;
    text.push_str("\"}")?;
    text.push_str(more)?;
    text.push_str("]]")?;
    Ok(text)
}

// Names in their order, each with this value.
fn attributes(alloc: Global, value: &str) -> Result<String, AllocError> {
    let mut text = String::new(alloc);
    for i in 100..200 {
        text.push_str(format!(in alloc; "\"a{i}\":{value},")?.as_str())?;
    }
    Ok(text)
}

// An inner node and a content with these attributes.
fn described(alloc: Global, value: &str) -> Result<String, AllocError> {
    let attributes = attributes(alloc, value)?;
    let attributes = attributes.as_str();
    format!(in alloc; "[\"db\",{{{attributes}\"z\":0}},[\"e\",{{{attributes}\"id\":1}}]]")
}

fn nested(alloc: Global, depth: usize) -> Result<String, AllocError> {
    let mut text = String::from_str(alloc, "[\"db\"")?;
    text.push_str(",[\"a\"".repeat(alloc, depth)?.as_str())?;
    text.push_str("]".repeat(alloc, depth)?.as_str())?;
    text.push_str("]")?;
    Ok(text)
}

/// These texts, lent.
pub fn lent(alloc: Global, texts: &[String]) -> Option<Vec<&str>> {
    let mut lent = Vec::new(alloc);
    for text in texts {
        lent.push(text.as_str()).ok()?;
    }
    Some(lent)
}
