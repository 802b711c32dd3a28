// Archives of rows and leaves in which few sets are stored or many.
use crate::rekeyed::{NUMBERED_TOO, is_same_file, is_same_plainly};
use given_archives::lent;
use given_archives::lists::{NUMBERED, TINY};
use given_parts::told;
use std::alloc::{AllocError, Global};
use std::test::Fail;

/// The keys of items, and of items two levels below them.
const NESTED: &str = "(/, (db, {}))
(/db, (e, {@id}))
(/db/e, (f, {}))
(/db/e/f, (g, {@id}))
";

/// An item that each version has another of.
fn one(alloc: Global, number: u32) -> Result<String, AllocError> {
    format!(in alloc; r#"["db",["e",{{"id":{number}}}]]"#)
}

/// Beside it one that all versions have, which stands between these.
fn between(alloc: Global, number: u32) -> Result<String, AllocError> {
    format!(in alloc; r#"["db",["e",{{"id":{number}}}],["e",{{"id":41}}]]"#)
}

/// Beside it one that all versions have, and two levels below that another item in each.
fn inside(alloc: Global, number: u32) -> Result<String, AllocError> {
    format!(in alloc;
        r#"["db",["e",{{"id":{number}}}],["e",{{"id":41}},["f",["g",{{"id":{number}}}]]]]"#
    )
}

#[derive(Clone, Copy)]
enum Shape {
    One,
    Between,
    Inside,
}

/// So many documents, each with an item of another even number.
fn documents(alloc: Global, shape: Shape, count: u32) -> Result<Vec<String>, AllocError> {
    let mut documents = Vec::new(alloc);
    for version in 0..count {
        let number = version.saturating_mul(2).saturating_add(2);
        let document = match shape {
            Shape::One => one(alloc, number)?,
            Shape::Between => between(alloc, number)?,
            Shape::Inside => inside(alloc, number)?,
        };
        documents.push(document)?;
    }
    Ok(documents)
}

/// What stores the sets, the documents, their keys, and other keys.
const SHAPES: &[(&str, Shape, &str, &str)] = &[
    ("contents of a leaf", Shape::One, TINY, NUMBERED),
    ("kids of a row", Shape::One, NUMBERED, TINY),
    (
        "kids of a row, and one that stores none",
        Shape::Between,
        NUMBERED,
        NUMBERED_TOO,
    ),
    (
        "kids two levels below kids",
        Shape::Inside,
        NESTED,
        NUMBERED,
    ),
    ("contents below kids", Shape::Inside, NUMBERED, NESTED),
];

/// So many sets are looked through at most, one more is searched, and so are many.
const COUNTS: &[u32] = &[32, 33, 40];

fn are_same(alloc: Global, shape: Shape, count: u32, keys: &str, others: &str) -> bool {
    let Ok(documents) = documents(alloc, shape, count) else {
        return false;
    };
    match lent(alloc, &documents) {
        Some(documents) => {
            is_same_file(alloc, keys, &documents, others)
                && is_same_plainly(alloc, keys, &documents, others)
        }
        None => false,
    }
}

#[test]
fn versions_are_found_among_few_and_many(rt: HostRuntime) -> Result<(), Fail> {
    for (name, shape, keys, others) in SHAPES {
        for count in COUNTS {
            told(are_same(rt.alloc(), *shape, *count, keys, others), name)?;
        }
    }
    Ok(())
}
