// Copies of names.
ghost use Rattle.std.specs.Prelude.{◌≡◌, ◌++◌, ◌∷◌, [], IfOk, OnOk, string_bytes};
ghost use Rattle.key_spec.specs.View.{names_view};

use std::alloc::{AllocError, Global};

/// A copy of each name.
pub fn copy_names(alloc: Global, names: &[String]) -> Result<Vec<String>, AllocError>
    ensures { IfOk result (λ copies. names_view copies.items ≡ names_view names.now) }
{
    let mut copies = Vec::with_capacity(alloc, names.len())?;
    for name in names {
        push_copy(alloc, &mut copies, name)?;
    }
    Ok(copies)
}

pub(crate) fn push_copy(
    alloc: Global,
    names: &mut Vec<String>,
    name: &String,
) -> Result<(), AllocError>
    ensures { OnOk result (names_view names.new.items
        ≡ names_view names.old.items ++ string_bytes name.now ∷ []) }
{
    let copy = copy_name(alloc, name)?;
    names.push(copy)?;
    Ok(())
}

pub(crate) fn copy_name(alloc: Global, name: &String) -> Result<String, AllocError>
    ensures { IfOk result (λ copy. string_bytes copy ≡ string_bytes name.now) }
{
    String::from_str(alloc, name.as_str())
}
