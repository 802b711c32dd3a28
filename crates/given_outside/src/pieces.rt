use given_parts::bytes::{Pieces, joined};
use std::alloc::{AllocError, Global};

/// These words, as a program is given them.
pub fn texts(alloc: Global, texts: &[&str]) -> Result<Vec<String>, AllocError> {
    let mut strings = Vec::new(alloc);
    for text in texts {
        strings.push(String::from_str(alloc, text)?)?;
    }
    Ok(strings)
}

/// Whether the pieces make these bytes.
pub fn are_joined(alloc: Global, pieces: Pieces, bytes: &[u8]) -> bool {
    match joined(alloc, pieces) {
        Ok(whole) => whole.as_slice() == bytes,
        Err(_) => false,
    }
}

/// Whether what the pieces make begins with these bytes.
pub fn is_prefix(alloc: Global, pieces: Pieces, bytes: &[u8]) -> bool {
    match joined(alloc, pieces) {
        Ok(whole) => whole.starts_with(bytes),
        Err(_) => false,
    }
}
