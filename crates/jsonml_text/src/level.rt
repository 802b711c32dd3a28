ghost use Rattle.std.specs.Prelude.{◌+◌, IfOk, IsTrue, length, ◌≤◌};
ghost use Rattle.jsonml_tree.specs.View.{tree_view, items_view};
ghost use Rattle.jsonml_text.specs.Document.{too_deep_at, too_deep_from};
ghost use Rattle.jsonml_tree.specs.Fits.{ItemsFit, all_items_fit};
ghost use Rattle.jsonml_text.specs.Stops.{Finds};

use jsonml_tree::{GREATEST_DEPTH, Tree};
use std::alloc::AllocError;

/// Whether an element of this tree, which stands at `place`, is on a higher level. If so, `place` is then where the
/// first of them stands.
#[cycle(levels)]
pub(crate) fn finds_too_deep(tree: &Tree, place: &mut Vec<u32>) -> Result<bool, AllocError>
    requires { ItemsFit (tree_view tree.now) }
    ensures { IfOk result (Finds
        (too_deep_at place.old.items (tree_view tree.now)) place.old.items place.new.items) }
{
    match tree {
        Tree::Text(_) => Ok(false),
        Tree::Elem { content, .. } => {
            if place.len() >= GREATEST_DEPTH as usize {
                return Ok(true);
            }
            finds_among(&content.items, place)
        }
    }
}

#[cycle(levels)]
fn finds_among(items: &[Tree], place: &mut Vec<u32>) -> Result<bool, AllocError>
    requires few { length items.now ≤ 4294967295 }
    requires fit { IsTrue (all_items_fit (items_view items.now)) }
    ensures { IfOk result (Finds
        (too_deep_from place.old.items 1 (items_view items.now)) place.old.items place.new.items) }
{
    let mut position = 0;
    for item in items {
        position += 1;
        place.push(position)?;
        if finds_too_deep(item, place)? {
            return Ok(true);
        }
        place.pop();
    }
    Ok(false)
}
