// Elements without attributes.
ghost use Rattle.std.specs.Prelude.{◌≡◌, ◌++◌, IfOk, map, string_bytes, decimal};
ghost use Rattle.jsonml_tree.specs.View.{tree_view};
ghost use Rattle.xarch_gen.specs.Sample.{element_of, field};

use itoa::Buffer;
use jsonml_tree::{Content, Tree};
use std::alloc::{AllocError, Global};

/// A number in decimal behind a text.
pub(crate) fn numbered(alloc: Global, before: &str, number: u32) -> Result<String, AllocError>
    ensures { IfOk result (λ s. string_bytes s ≡ before.now ++ decimal number) }
{
    let mut buffer = Buffer::new();
    let mut text = String::from_str(alloc, before)?;
    text.push_str(buffer.format(number))?;
    Ok(text)
}

/// An element with these items.
#[tactic(auto, using(jsonml_tree::proofs::Trees::trees))]
pub(crate) fn element(alloc: Global, tag: &str, items: Vec<Tree>) -> Result<Tree, AllocError>
    ensures { IfOk result (λ t. tree_view t ≡ element_of tag.now (map tree_view items.items)) }
{
    let content = Content {
        attrs: Vec::new(alloc),
        items,
    };
    Ok(Tree::Elem {
        tag: String::from_str(alloc, tag)?,
        content,
    })
}

/// An element with one text.
#[tactic(auto, using(jsonml_tree::proofs::Trees::trees))]
pub(crate) fn field(alloc: Global, tag: &str, value: String) -> Result<Tree, AllocError>
    ensures { IfOk result (λ t. tree_view t ≡ field tag.now (string_bytes value)) }
{
    let items = vec![in alloc; Tree::Text(value)]?;
    element(alloc, tag, items)
}
