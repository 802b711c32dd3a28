//! Specifications and documents of texts.
ghost use Rattle.std.specs.Prelude.{IfSome};
ghost use Rattle.jsonml_tree.specs.Fits.{IsElement, ItemsFit};
ghost use Rattle.jsonml_tree.specs.LentView.{lent_tree_view};
ghost use Rattle.jsonml_tree.specs.View.{tree_view};
ghost use Rattle.jsonml_tree.specs.WellFormed.{IsWellFormed};

use jsonml_text::{lend_document, read_document};
use jsonml_tree::{LentTree, Tree};
use key_spec::Spec;
use std::alloc::Global;

/// The specification of this text.
pub fn parse(alloc: Global, text: &[u8]) -> Option<Spec> {
    if text.len() > 1_048_576 {
        return None;
    }
    Spec::parse(alloc, text).ok()
}

/// The document of these bytes.
pub fn read(alloc: Global, text: &[u8]) -> Option<Tree>
    ensures element { IfSome result (λ t. IsElement (tree_view t)) }
    ensures well_formed { IfSome result (λ t. IsWellFormed (tree_view t)) }
    ensures items_fit { IfSome result (λ t. ItemsFit (tree_view t)) }
{
    if text.len() > 67_108_864 {
        return None;
    }
    match read_document(alloc, text) {
        Ok(tree) => Some(tree),
        Err(_) => None,
    }
}

/// Whether this is the tree of the document.
pub fn is_read(alloc: Global, tree: &Tree, text: &[u8]) -> bool {
    match read(alloc, text) {
        Some(wanted) => tree.same(&wanted),
        None => false,
    }
}

/// The same document, whose texts are lent.
pub fn lend<'a>(alloc: Global, text: &'a [u8]) -> Option<LentTree<'a>>
    ensures element { IfSome result (λ t. IsElement (lent_tree_view t)) }
    ensures items_fit { IfSome result (λ t. ItemsFit (lent_tree_view t)) }
{
    if text.len() > 67_108_864 {
        return None;
    }
    match lend_document(alloc, text) {
        Ok(tree) => Some(tree),
        Err(_) => None,
    }
}
