use crate::large::{Size, documents_of, keys_of, lent};
use crate::lists::LISTS;
use given_parts::told;
use std::alloc::Global;
use std::test::Fail;

/// What is tried of the archives of documents.
pub trait Judge {
    /// Whether it holds of these documents under the keys.
    fn holds(&self, alloc: Global, keys: &str, documents: &[&str]) -> bool;
}

fn holds_lent<J: Judge>(judge: &J, alloc: Global, keys: &str, documents: &[String]) -> bool {
    match lent(alloc, documents) {
        Some(documents) => judge.holds(alloc, keys, &documents),
        None => false,
    }
}

fn holds_large<J: Judge>(judge: &J, alloc: Global, size: Size) -> bool {
    match documents_of(alloc, size) {
        Ok(documents) => holds_lent(judge, alloc, keys_of(size), &documents),
        Err(_) => false,
    }
}

/// Fails with the name of the first size of whose documents it does not hold.
pub fn hold_large<J: Judge>(judge: &J, alloc: Global, sizes: &[(&str, Size)]) -> Result<(), Fail> {
    for (name, size) in sizes {
        told(holds_large(judge, alloc, *size), name)?;
    }
    Ok(())
}

/// Fails with the name of the first list of small documents of which it does not hold.
pub fn hold_listed<J: Judge>(judge: &J, alloc: Global) -> Result<(), Fail> {
    for (name, keys, documents) in LISTS {
        told(judge.holds(alloc, keys, documents), name)?;
    }
    Ok(())
}
