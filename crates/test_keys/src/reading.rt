//! Keyed trees and labels that are made of texts.
use given_parts::documents::{parse, read};
use jsonml_tree::Content;
use key_annotate::keyed;
use key_spec::Spec;
use keyed_tree::{KeyVal, Keyed, Label, Name};
use std::alloc::{AllocError, Global};

pub(crate) const COMPANY: &[u8] = b"# company
(/, (db, {}))
(/db, (dept, {name}))
(/db/dept, (emp, {fn, ln}))
(/db/dept/emp, (sal, {}))
(/db/dept/emp, (tel, {.}))
";

/// Elements in one another, seven deep.
pub(crate) const NESTED: &[u8] = b"(/, (a, {}))
(/a, (b, {}))
(/a/b, (c, {}))
(/a/b/c, (d, {}))
(/a/b/c/d, (e, {}))
(/a/b/c/d/e, (f, {}))
(/a/b/c/d/e/f, (g, {}))
";

/// A label: the name, with `@` before that of an attribute, and the texts that are its key values.
pub(crate) type Named = (&'static str, &'static [&'static str]);

fn keyed_doc(alloc: Global, spec: &Spec, doc: &[u8]) -> Option<Keyed> {
    match read(alloc, doc) {
        Some(doc) => keyed(alloc, spec, &doc).ok(),
        None => None,
    }
}

/// The keyed tree of a document by a specification.
pub(crate) fn keyed_of(alloc: Global, spec: &[u8], doc: &[u8]) -> Option<Keyed> {
    match parse(alloc, spec) {
        Some(spec) => keyed_doc(alloc, &spec, doc),
        None => None,
    }
}

fn keys(alloc: Global, texts: &[&str]) -> Result<Vec<KeyVal>, AllocError> {
    let mut keys = Vec::new(alloc);
    for text in texts {
        keys.push(KeyVal::Content(Content::of_text(alloc, text)?))?;
    }
    Ok(keys)
}

fn name(alloc: Global, text: &str) -> Result<Name, AllocError> {
    match text.strip_prefix("@") {
        Some(attr) => Ok(Name::Attr(String::from_str(alloc, attr)?)),
        None => Ok(Name::Tag(String::from_str(alloc, text)?)),
    }
}

pub(crate) fn label(alloc: Global, named: &Named) -> Result<Label, AllocError> {
    let name = name(alloc, named.0)?;
    let keys = keys(alloc, named.1)?;
    Ok(Label { name, keys })
}

pub(crate) fn labels(alloc: Global, path: &[Named]) -> Result<Vec<Label>, AllocError> {
    let mut labels = Vec::new(alloc);
    for named in path {
        labels.push(label(alloc, named)?)?;
    }
    Ok(labels)
}
