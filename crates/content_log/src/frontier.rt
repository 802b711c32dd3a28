// Whether a path ends where contents are.
ghost use Rattle.std.specs.Prelude.{◌≡◌, map, string_bytes, IfOk};
ghost use Rattle.key_spec.specs.View.{names_view, spec_view};
ghost use Rattle.keyed_tree.specs.Data.{name_bytes};
ghost use Rattle.keyed_tree.specs.View.{label_view, name_view};
ghost use Rattle.content_log.specs.Frontier.{at_frontier, ends_by, names};

use key_spec::Spec;
use keyed_tree::{Label, Name};
use std::alloc::{AllocError, Global};

/// Whether the path is not empty, and ends in an attribute, or in an element at the frontier of the
/// specification. For an element it copies the names of the path.
pub fn at_frontier(alloc: Global, spec: &Spec, path: &[Label]) -> Result<bool, AllocError>
    ensures { IfOk result (λ at. at ≡ at_frontier (spec_view spec.now) (map label_view path.now)) }
{
    match path.last() {
        Some(last) => ends_at(alloc, spec, path, &last.name),
        None => Ok(false),
    }
}

// Whether a path that ends in this name ends in an attribute or at the frontier.
fn ends_at(alloc: Global, spec: &Spec, path: &[Label], name: &Name) -> Result<bool, AllocError>
    ensures { IfOk result (λ at. at
        ≡ ends_by (spec_view spec.now) (names (map label_view path.now)) (name_view name.now)) }
{
    match name {
        Name::Attr(_) => Ok(true),
        Name::Tag(_) => {
            let context = names_of(alloc, path)?;
            Ok(spec.is_frontier(&context))
        }
    }
}

// The names of the labels.
fn names_of(alloc: Global, path: &[Label]) -> Result<Vec<String>, AllocError>
    ensures { IfOk result (λ v. names_view v.items ≡ names (map label_view path.now)) }
{
    let mut texts = Vec::new(alloc);
    for label in path {
        texts.push(copy_of(alloc, &label.name)?)?;
    }
    Ok(texts)
}

fn copy_of(alloc: Global, name: &Name) -> Result<String, AllocError>
    ensures { IfOk result (λ s. string_bytes s ≡ name_bytes (name_view name.now)) }
{
    match name {
        Name::Attr(text) => String::from_str(alloc, text.as_str()),
        Name::Tag(text) => String::from_str(alloc, text.as_str()),
    }
}
