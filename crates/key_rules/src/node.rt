#![tactic(auto, using(jsonml_tree::proofs::LentTrees::lent_trees))]

ghost use Rattle.std.specs.Prelude.{◌≡◌, ◌<◌, ◌≤◌, length, map, [], ◌∷◌};
ghost use Rattle.std.specs.Option.{option_map};
ghost use Rattle.jsonml_tree.specs.Data.{tree, no_trees};
ghost use Rattle.jsonml_tree.specs.LentAttrs.{lent_attr_view, lent_scalar_view};
ghost use Rattle.jsonml_tree.specs.LentView.{only_text, lent_tree_view, lent_row_view, lent_content_view, lent_items_view};
ghost use Rattle.key_spec.specs.View.{path_view};
ghost use Rattle.key_rules.specs.Reach.{scalar_named, values_at, reach};
ghost use Rattle.key_rules.specs.Few.{few, join, reached_view, values_from, values_among};

use jsonml_tree::{LentAttr, LentContent, LentRow, LentScalar, LentTree};
use key_spec::KeyPath;
use keyed_tree::LentVal;

/// The nodes of a key path that a search has found so far, each the scalar of an attribute or the content of an element.
/// It ends at the second.
#[derive(Clone, Copy)]
pub(crate) enum Reached<'a, 'b> {
    Nothing,
    One(LentVal<'a, 'b>),
    Several,
}

impl<'a, 'b> Reached<'a, 'b> {
    fn and(self, later: Reached<'a, 'b>) -> Reached<'a, 'b>
        ensures { reached_view result ≡ join (reached_view self.entry) (reached_view later.entry) }
    {
        match (self, later) {
            (Reached::Nothing, _) => later,
            (_, Reached::Nothing) => self,
            _ => Reached::Several,
        }
    }
}

/// The nodes of the key path at an element with this content.
#[tactic(auto, using(crate::proofs::Nodes::nodes))]
pub(crate) fn nodes_of<'a, 'b>(path: &KeyPath, content: LentContent<'a, 'b>) -> Reached<'a, 'b>
    ensures { reached_view result
        ≡ few (reach (lent_content_view content.entry) (path_view path.now)) }
{
    match content {
        LentContent::Text(text) => nodes_of_text(path, 0, text),
        LentContent::Row(row) => nodes_from(path, 0, row),
    }
}

/// The nodes behind the tags from the given one on, where an element holds this text alone.
#[tactic(auto, using(jsonml_tree::proofs::Trees::trees, jsonml_tree::proofs::LentTrees::lent_trees, crate::proofs::Nodes::nodes))]
fn nodes_of_text<'a, 'b>(path: &KeyPath, level: usize, text: &'a str) -> Reached<'a, 'b>
    requires { level ≤ length path.now.tags.items }
    ensures { reached_view result
        ≡ few (values_from (path_view path.now) level (only_text text.now)) }
{
    if level == path.tags.len() {
        own_text(path, text)
    } else {
        Reached::Nothing
    }
}

/// The nodes behind the tags from the given one on.
#[cycle(nodes)]
#[tactic(auto, using(jsonml_tree::proofs::Trees::trees, jsonml_tree::proofs::LentTrees::lent_trees, crate::proofs::Nodes::nodes))]
fn nodes_from<'a, 'b>(path: &KeyPath, level: usize, row: &'a LentRow<'b>) -> Reached<'a, 'b>
    requires { level ≤ length path.now.tags.items }
    ensures { reached_view result
        ≡ few (values_from (path_view path.now) level (lent_row_view row.now)) }
{
    if level == path.tags.len() {
        own_node(path, row)
    } else {
        nodes_among(path, level, &row.items)
    }
}

/// The nodes behind the items that have the tag of this level.
#[cycle(nodes)]
#[tactic(auto, using(jsonml_tree::proofs::LentTrees::lent_trees, crate::proofs::Nodes::nodes))]
fn nodes_among<'a, 'b>(path: &KeyPath, level: usize, items: &'a [LentTree<'b>]) -> Reached<'a, 'b>
    requires { level < length path.now.tags.items }
    ensures { reached_view result
        ≡ few (values_among (path_view path.now) level (lent_items_view items.now)) }
{
    let mut nodes = Reached::Nothing;
    for item in items {
        nodes = nodes.and(nodes_in(path, level, item));
        if let Reached::Several = nodes {
            return nodes;
        }
    }
    nodes
}

#[cycle(nodes)]
#[tactic(auto, using(jsonml_tree::proofs::LentTrees::lent_trees, crate::proofs::Nodes::nodes))]
fn nodes_in<'a, 'b>(path: &KeyPath, level: usize, item: &'a LentTree<'b>) -> Reached<'a, 'b>
    requires { level < length path.now.tags.items }
    ensures { reached_view result
        ≡ few (values_among (path_view path.now) level (tree (lent_tree_view item.now) no_trees)) }
{
    let tag = path.tags[level].as_str();
    match item {
        LentTree::Text(_) => Reached::Nothing,
        LentTree::Leaf { tag: own, text } => {
            if own.as_str() == tag {
                nodes_of_text(path, level + 1, text.as_str())
            } else {
                Reached::Nothing
            }
        }
        LentTree::Elem { tag: own, row } => {
            if own.as_str() == tag {
                nodes_from(path, level + 1, row)
            } else {
                Reached::Nothing
            }
        }
    }
}

/// Where the tags end: the text itself, and no attribute.
fn own_text<'a, 'b>(path: &KeyPath, text: &'a str) -> Reached<'a, 'b>
    ensures { reached_view result
        ≡ few (values_at (path_view path.now).attr (only_text text.now ∷ [])) }
{
    match &path.attr {
        None => Reached::One(LentVal::Content(LentContent::Text(text))),
        Some(_) => Reached::Nothing,
    }
}

/// Where the tags end: the row itself, or the attribute that the path names.
fn own_node<'a, 'b>(path: &KeyPath, row: &'a LentRow<'b>) -> Reached<'a, 'b>
    ensures { reached_view result
        ≡ few (values_at (path_view path.now).attr (lent_row_view row.now ∷ [])) }
{
    let Some(name) = &path.attr else {
        return Reached::One(LentVal::Content(LentContent::Row(row)));
    };
    match attribute(&row.attrs, name.as_str()) {
        Some(scalar) => Reached::One(LentVal::Scalar(scalar)),
        None => Reached::Nothing,
    }
}

fn attribute<'a>(attrs: &'a [LentAttr<'_>], name: &str) -> Option<LentScalar<'a>>
    ensures { option_map lent_scalar_view result
        ≡ scalar_named name.now (map lent_attr_view attrs.now) }
{
    for attr in attrs {
        if attr.name() == name {
            return Some(attr.value());
        }
    }
    None
}
