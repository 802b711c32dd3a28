// Names, contexts and key paths as they stand in a line.
ghost use Rattle.std.specs.Prelude.{◌≡◌, IfOk, option_map};
ghost use Rattle.std.specs.List.{list_all};
ghost use Rattle.key_spec.specs.Names.{is_name, is_name_byte, names_of, context_of, path_of, attr_path, tags_before};
ghost use Rattle.key_spec.specs.View.{names_view, path_view};

use crate::rule::KeyPath;
use std::alloc::{AllocError, Global};

/// Whether a specification may name an element or an attribute so.
pub fn is_name(text: &str) -> bool
    ensures { result ≡ is_name text.now }
{
    !text.is_empty() && are_name_bytes(text.as_bytes()) && text != "."
}

fn are_name_bytes(bytes: &[u8]) -> bool
    ensures { result ≡ list_all is_name_byte bytes.now }
{
    for b in bytes {
        if !is_name_byte(*b) {
            return false;
        }
    }
    true
}

fn is_name_byte(b: u8) -> bool
    ensures { result ≡ is_name_byte b }
{
    !matches!(
        b,
        b'/' | b'(' | b')' | b'{' | b'}' | b',' | b'@' | b'#' | b' ' | b'\t' | b'\r' | b'\n'
    )
}

/// The context that is written so: `/`, or a slash before each name.
pub(crate) fn read_context(alloc: Global, text: &str) -> Result<Option<Vec<String>>, AllocError>
    ensures { IfOk result (λ found. option_map (λ names. names_view names.items) found
        ≡ context_of text.now) }
{
    match text.strip_prefix('/') {
        None => Ok(None),
        Some(names) => {
            if names.is_empty() {
                Ok(Some(Vec::new(alloc)))
            } else {
                read_names(alloc, names)
            }
        }
    }
}

/// The names between the slashes, where each is one.
fn read_names(alloc: Global, text: &str) -> Result<Option<Vec<String>>, AllocError>
    ensures { IfOk result (λ found. option_map (λ names. names_view names.items) found
        ≡ names_of text.now) }
{
    let mut names = Vec::new(alloc);
    for part in text.split('/') {
        if !is_name(part) {
            return Ok(None);
        }
        names.push(String::from_str(alloc, part)?)?;
    }
    Ok(Some(names))
}

/// The key path that is written so: `.`, or tags, or an attribute behind tags or alone.
pub(crate) fn read_path(alloc: Global, text: &str) -> Result<Option<KeyPath>, AllocError>
    ensures { IfOk result (λ found. option_map path_view found ≡ path_of text.now) }
{
    if text == "." {
        let tags = Vec::new(alloc);
        return Ok(Some(KeyPath { tags, attr: None }));
    }
    match text.split_once('@') {
        None => read_tags_path(alloc, text),
        Some((front, name)) => read_attr_path(alloc, front, name),
    }
}

fn read_tags_path(alloc: Global, text: &str) -> Result<Option<KeyPath>, AllocError>
    ensures { IfOk result (λ found. option_map path_view found
        ≡ option_map (λ ts. record { tags = ts; attr = None }) (names_of text.now)) }
{
    let Some(tags) = read_names(alloc, text)? else {
        return Ok(None);
    };
    Ok(Some(KeyPath { tags, attr: None }))
}

fn read_attr_path(alloc: Global, front: &str, name: &str) -> Result<Option<KeyPath>, AllocError>
    ensures { IfOk result (λ found. option_map path_view found
        ≡ attr_path (tags_before front.now) name.now) }
{
    if !is_name(name) {
        return Ok(None);
    }
    let Some(tags) = read_tags_before(alloc, front)? else {
        return Ok(None);
    };
    let attr = String::from_str(alloc, name)?;
    Ok(Some(KeyPath {
        tags,
        attr: Some(attr),
    }))
}

/// The tags in front of an attribute: none, or names joined by slashes and one more slash.
fn read_tags_before(alloc: Global, front: &str) -> Result<Option<Vec<String>>, AllocError>
    ensures { IfOk result (λ found. option_map (λ names. names_view names.items) found
        ≡ tags_before front.now) }
{
    if front.is_empty() {
        return Ok(Some(Vec::new(alloc)));
    }
    match front.strip_suffix('/') {
        None => Ok(None),
        Some(tags) => read_names(alloc, tags),
    }
}
