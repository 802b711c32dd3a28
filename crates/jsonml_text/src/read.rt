ghost use Rattle.std.specs.Prelude.{◌≡◌, ℕ, ◌+◌, ◌≤◌, List, ◌∷◌, [], ◌++◌, OnOk, IfOk, map};
ghost use Rattle.serde_json.specs.View.{view as data_of, items_view};
ghost use Rattle.jsonml_tree.specs.Data.{content};
ghost use Rattle.jsonml_tree.specs.Fits.{IsElement};
ghost use Rattle.jsonml_tree.specs.View.{attr_view, tree_view, content_view, items_view as trees_view};
ghost use Rattle.jsonml_text.specs.Kept.{AreAttrsKept, IsKept, IsContentKept, AreKept};
ghost use Rattle.jsonml_text.specs.Spelled.{root_of, item_at, element_at, content_at, items_at};
ghost use Rattle.jsonml_text.specs.Front.{front_at};
ghost use Rattle.jsonml_text.specs.Stops.{Reads};

use crate::scalar::read_attrs;
use crate::stop::Stop;
use jsonml_tree::{Attr, Content, Tree};
use serde_json::Value;
use std::alloc::Global;

/// The element that a whole document spells, at the empty place.
pub(crate) fn read_root(alloc: Global, value: &Value, place: &mut Vec<u32>) -> Result<Tree, Stop>
    requires { place.old.items ≡ [] }
    ensures tree { Reads tree_view (root_of (data_of value.now)) [] place.new.items result }
    ensures element { IfOk result (λ t. IsElement (tree_view t)) }
    ensures kept { IfOk result (λ t. IsKept (tree_view t)) }
{
    match value {
        Value::Array(values) => read_element(alloc, values, place),
        Value::String(_) => Err(Stop::Shape(6)),
        _ => Err(Stop::Shape(3)),
    }
}

/// The tree that a value at this place spells.
#[cycle(read)]
fn read_item(alloc: Global, value: &Value, place: &mut Vec<u32>) -> Result<Tree, Stop>
    ensures tree { Reads tree_view
        (item_at place.old.items (data_of value.now)) place.old.items place.new.items result }
    ensures kept { IfOk result (λ t. IsKept (tree_view t)) }
{
    match value {
        Value::String(text) => Ok(Tree::Text(String::from_str(alloc, text.as_str())?)),
        Value::Array(values) => read_element(alloc, values, place),
        _ => Err(Stop::Shape(3)),
    }
}

/// The element that an array's values spell.
#[cycle(read)]
fn read_element(alloc: Global, values: &[Value], place: &mut Vec<u32>) -> Result<Tree, Stop>
    ensures tree { Reads tree_view
        (element_at place.old.items (items_view values.now))
        place.old.items place.new.items result }
    ensures element { IfOk result (λ t. IsElement (tree_view t)) }
    ensures kept { IfOk result (λ t. IsKept (tree_view t)) }
{
    match values.split_first() {
        None => Err(Stop::Shape(1)),
        Some((Value::String(tag), rest)) => {
            let tag = String::from_str(alloc, tag.as_str())?;
            let content = read_content(alloc, rest, place)?;
            Ok(Tree::Elem { tag, content })
        }
        Some(_) => Err(Stop::Shape(2)),
    }
}

/// The content that the values behind a tag spell.
#[cycle(read)]
pub(crate) fn read_content(
    alloc: Global,
    values: &[Value],
    place: &mut Vec<u32>,
) -> Result<Content, Stop>
    ensures content { Reads content_view
        (content_at place.old.items (items_view values.now))
        place.old.items place.new.items result }
    ensures kept { IfOk result (λ c. IsContentKept (content_view c)) }
{
    let (attrs, behind) = attrs_in_front(alloc, values)?;
    let items = read_items(alloc, behind, place)?;
    Ok(content_from(attrs, items))
}

/// The attributes that an object in front spells, if one stands there, and the values behind it.
#[tactic(auto, using(crate::proofs::Contents::fronts))]
fn attrs_in_front(alloc: Global, values: &[Value]) -> Result<(Vec<Attr>, &[Value]), Stop>
    ensures front { (place : List ℕ) → Reads (λ r. (map attr_view r.0.items, items_view r.1.now))
        (front_at place (items_view values.now)) place place result }
    ensures kept { IfOk result (λ r. AreAttrsKept (map attr_view r.0.items)) }
{
    match values.split_first() {
        Some((first, rest)) => match first.as_object() {
            Some(members) => Ok((read_attrs(alloc, members)?, rest)),
            None => Ok((Vec::new(alloc), values)),
        },
        None => Ok((Vec::new(alloc), values)),
    }
}

fn content_from(attrs: Vec<Attr>, items: Vec<Tree>) -> Content
    requires attrs { AreAttrsKept (map attr_view attrs.items) }
    requires items { AreKept (map tree_view items.items) }
    ensures content { content_view result
        ≡ content (map attr_view attrs.items) (trees_view items.items) }
    ensures kept { IsContentKept (content_view result) }
{
    Content { attrs, items }
}

/// The items that the values spell.
#[cycle(read)]
fn read_items(alloc: Global, values: &[Value], place: &mut Vec<u32>) -> Result<Vec<Tree>, Stop>
    ensures trees { Reads (λ v. trees_view v.items)
        (items_at place.old.items 1 (items_view values.now))
        place.old.items place.new.items result }
    ensures kept { IfOk result (λ v. AreKept (map tree_view v.items)) }
{
    let mut items = Vec::with_capacity(alloc, values.len())?;
    for value in values {
        let item = read_item_at(alloc, items.len() + 1, value, place)?;
        items.push_reserved(item);
    }
    Ok(items)
}

/// The item at this position of the element at this place.
#[cycle(read)]
fn read_item_at(
    alloc: Global,
    position: usize,
    value: &Value,
    place: &mut Vec<u32>,
) -> Result<Tree, Stop>
    ensures tree { Reads tree_view
        (item_at (place.old.items ++ position ∷ []) (data_of value.now))
        place.old.items place.new.items result }
    ensures kept { IfOk result (λ t. IsKept (tree_view t)) }
    ensures fits { OnOk result (position ≤ 4294967295) }
{
    let Ok(step) = u32::try_from(position) else {
        return Err(Stop::Memory);
    };
    place.push(step)?;
    let item = read_item(alloc, value, place)?;
    place.pop();
    Ok(item)
}
