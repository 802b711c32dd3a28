ghost use Rattle.std.specs.Prelude.{IfSome};
ghost use Rattle.keyed_tree.specs.View.{keyed_view};
ghost use Rattle.keyed_tree.specs.WellFormed.{IsKeyedWellFormed};

use given_parts::documents::{parse, read};
use key_annotate::keyed;
use key_spec::Spec;
use keyed_tree::Keyed;
use std::alloc::Global;

/// The specification of this text.
pub fn specification(alloc: Global, text: &str) -> Option<Spec> {
    parse(alloc, text.as_bytes())
}

/// The keyed tree of a document.
pub fn version(alloc: Global, spec: &Spec, document: &str) -> Option<Keyed>
    ensures { IfSome result (λ k. IsKeyedWellFormed (keyed_view k)) }
{
    match read(alloc, document.as_bytes()) {
        Some(tree) => keyed(alloc, spec, &tree).ok(),
        None => None,
    }
}
