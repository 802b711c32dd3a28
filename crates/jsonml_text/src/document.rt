ghost use Rattle.std.specs.Prelude.{◌≡◌, ◌≤◌, IfOk, IfErr, IfSome, Some, IsTrue, option_map, length};
ghost use Rattle.serde_json.specs.View.{view as data_of, items_view};
ghost use Rattle.jsonml_tree.specs.Data.{tree_depth};
ghost use Rattle.jsonml_tree.specs.LentView.{lent_tree_view};
ghost use Rattle.jsonml_tree.specs.View.{tree_view, content_view};
ghost use Rattle.jsonml_tree.specs.WellFormed.{IsWellFormed, is_content_well_formed};
ghost use Rattle.jsonml_tree.specs.declared.limits.TheConstants.{GREATEST_DEPTH};
ghost use Rattle.jsonml_text.specs.Reading.{reading, less_lf};
ghost use Rattle.jsonml_text.specs.Spelled.{root_of, content_in};
ghost use Rattle.jsonml_text.specs.Document.{doc, of_shape, of_value};
ghost use Rattle.jsonml_tree.specs.Fits.{IsElement, ItemsFit};
ghost use Rattle.jsonml_text.specs.Kept.{IsDocument};
ghost use Rattle.jsonml_text.specs.Texts.{AreTexts};
ghost use Rattle.jsonml_text.specs.Views.{refusal_of};

use crate::DocFault;
use crate::level::finds_too_deep;
use crate::read::{read_content, read_root};
use crate::stop::Stop;
use crate::straight::read_straight;
use jsonml_tree::{Content, LentTree, Place, Tree};
use serde_json::Value;
use std::alloc::{AllocError, Global};

/// The document of some bytes: an element, from JSON by `serde_json`, with one line feed at the end left out.
///
/// Most documents are read in one pass, straight from the bytes into the tree. A document that is written in a rare way
/// goes through a JSON value, and so do bytes that are no document, to tell why. It recurses as deep as JSON nests, which
/// is at most 127 levels.
pub fn read_document(alloc: Global, bytes: &[u8]) -> Result<Tree, DocFault>
    requires { length bytes.now ≤ 67108864 }
    ensures document { IfOk result (λ t. doc bytes.now ≡ Ok (tree_view t)) }
    ensures refused { IfErr result (λ f. IfSome (refusal_of f) (λ r. doc bytes.now ≡ Err r)) }

    // What every document is.
    ensures element { IfOk result (λ t. IsElement (tree_view t)) }
    ensures well_formed { IfOk result (λ t. IsWellFormed (tree_view t)) }
    ensures shallow { IfOk result (λ t. tree_depth (tree_view t) ≤ GREATEST_DEPTH) }
    ensures items_fit { IfOk result (λ t. ItemsFit (tree_view t)) }
    ensures texts { IfOk result (λ t. AreTexts (tree_view t)) }
{
    let copy = lend_document(alloc, bytes)?.own(alloc);
    Ok(copy?)
}

/// The same document, whose texts are lent by the bytes.
///
/// A tag or a text with escapes is a copy, and so is an attribute whose name or text has some, and every text of a document
/// that is written in a rare way.
pub fn lend_document<'a>(alloc: Global, bytes: &'a [u8]) -> Result<LentTree<'a>, DocFault>
    requires { length bytes.now ≤ 67108864 }
    ensures document { IfOk result (λ t. doc bytes.now ≡ Ok (lent_tree_view t)) }
    ensures refused { IfErr result (λ f. IfSome (refusal_of f) (λ r. doc bytes.now ≡ Err r)) }

    // What every document is.
    ensures element { IfOk result (λ t. IsElement (lent_tree_view t)) }
    ensures well_formed { IfOk result (λ t. IsWellFormed (lent_tree_view t)) }
    ensures shallow { IfOk result (λ t. tree_depth (lent_tree_view t) ≤ GREATEST_DEPTH) }
    ensures items_fit { IfOk result (λ t. ItemsFit (lent_tree_view t)) }
    ensures texts { IfOk result (λ t. AreTexts (lent_tree_view t)) }
{
    match read_plainly(alloc, bytes) {
        Some(tree) => Ok(tree),
        None => Ok(LentTree::keep(alloc, read_by_value(alloc, bytes)?)?),
    }
}

/// The document of some bytes that are written in a usual way.
#[tactic(auto, using(crate::proofs::Readings::readings))]
fn read_plainly<'a>(alloc: Global, bytes: &'a [u8]) -> Option<LentTree<'a>>
    ensures document { IfSome result (λ t. doc bytes.now ≡ Ok (lent_tree_view t)) }
    ensures kept { IfSome result (λ t. IsDocument (lent_tree_view t)) }
{
    let text = str::from_utf8(without_line_feed(bytes)).ok()?;
    read_straight(alloc, text)
}

/// The document of some bytes, by way of their JSON value.
fn read_by_value(alloc: Global, bytes: &[u8]) -> Result<Tree, DocFault>
    ensures document { IfOk result (λ t. doc bytes.now ≡ Ok (tree_view t)) }
    ensures refused { IfErr result (λ f. IfSome (refusal_of f) (λ r. doc bytes.now ≡ Err r)) }
    ensures kept { IfOk result (λ t. IsDocument (tree_view t)) }
{
    let value = json_value(alloc, bytes)?;
    document_of(alloc, &value)
}

/// The document that a value spells.
fn document_of(alloc: Global, value: &Value) -> Result<Tree, DocFault>
    ensures document { IfOk result
        (λ t. of_shape (root_of (data_of value.now)) ≡ Ok (tree_view t)) }
    ensures refused { IfErr result
        (λ f. IfSome (refusal_of f) (λ r. of_shape (root_of (data_of value.now)) ≡ Err r)) }
    ensures kept { IfOk result (λ t. IsDocument (tree_view t)) }
{
    let mut place = Vec::new(alloc);
    match read_root(alloc, value, &mut place) {
        Ok(tree) => if finds_too_deep(&tree, &mut place)? {
            Err(DocFault::TooDeep {
                place: Place { steps: place },
            })
        } else {
            Ok(tree)
        },
        Err(Stop::Shape(why)) => Err(DocFault::BadShape {
            place: Place { steps: place },
            why,
        }),
        Err(Stop::Memory) => Err(DocFault::Memory),
    }
}

/// The content that some values spell: the first gives the attributes where it is an object, and all others are items.
/// None where they have a shape fault.
pub fn content_of(alloc: Global, values: &[Value]) -> Result<Option<Content>, AllocError>
    ensures content { IfOk result
        (λ o. option_map content_view o ≡ content_in (items_view values.now)) }
    ensures well_formed { IfOk result
        (λ o. IfSome o (λ c. IsTrue (is_content_well_formed (content_view c)))) }
{
    match read_content(alloc, values, &mut Vec::new(alloc)) {
        Ok(content) => Ok(Some(content)),
        Err(Stop::Shape(_)) => Ok(None),
        Err(Stop::Memory) => Err(AllocError),
    }
}

/// The bytes, less one line feed where they end in one.
fn without_line_feed(bytes: &[u8]) -> &[u8]
    ensures { result.now ≡ less_lf bytes.now }
{
    if let [front @ .., b'\n'] = bytes {
        front
    } else {
        bytes
    }
}

/// The JSON value of a document's bytes.
#[tactic(auto, using(crate::proofs::Readings::readings), unfolding(crate::specs::Reading::reading))]
fn json_value(alloc: Global, bytes: &[u8]) -> Result<Value, DocFault>
    ensures value { IfOk result (λ v. reading bytes.now ≡ Some (data_of v)) }
    ensures refused { IfErr result
        (λ f. IfSome (refusal_of f) (λ r. of_value (reading bytes.now) ≡ Err r)) }
{
    match Value::from_slice(alloc, without_line_feed(bytes)) {
        Ok(value) => Ok(value),
        Err(error) => if error.is_memory() {
            Err(DocFault::Memory)
        } else {
            Err(DocFault::BadJson)
        },
    }
}
