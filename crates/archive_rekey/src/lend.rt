// The versions of an archive as documents, which the archive lends.
ghost use Rattle.std.specs.Prelude.{◌≡◌, ◌≤◌, List, [], ◌∷◌, Some, IfOk, IsTrue, map, length};
ghost use Rattle.std.specs.Option.{option_map, option_to_list, unwrap_or};
ghost use Rattle.jsonml_tree.specs.Data.{content, element, no_trees, null};
ghost use Rattle.jsonml_tree.specs.LentAttrs.{lent_attr_view};
ghost use Rattle.jsonml_tree.specs.LentView.{lent_row_view, lent_tree_view};
ghost use Rattle.keyed_tree.specs.Data.{PlainKeyed, scalar};
ghost use Rattle.keyed_tree.specs.Plain.{attr_onto, attrs_among, content_of, items_among, plain};
ghost use Rattle.keyed_tree.specs.View.{key_view};
ghost use Rattle.archive_tree.specs.ArchiveView.{archive_view};
ghost use Rattle.archive_tree.specs.Data.{node_stamp, nodes_list};
ghost use Rattle.archive_tree.specs.Read.{body_at, read, read_root, read_row};
ghost use Rattle.archive_tree.specs.Stands.{ArchiveOf, version_of};
ghost use Rattle.archive_tree.specs.View.{alt_view, node_view, nodes_view};
ghost use Rattle.timestamp_tree.specs.View.{ts_view};
ghost use Rattle.archive_rekey.specs.Index.{IsLeafIndex, IsNodeIndex, IsOver, IsRowIndex, body_of, index_view, is_in};
ghost use Rattle.archive_rekey.specs.Progress.{IsDocument};
ghost use Rattle.archive_rekey.specs.Rekeyed.{SpellDocuments};

use crate::index::{Index, beside, has_version, places_in, row_places, tree_in};
use archive_tree::{ANode, Alt, Archive, archives_stand_for_one_list};
use jsonml_tree::{LentAttr, LentRow, LentScalar, LentTree};
use keyed_tree::{Body, KeyVal, Name};
use std::alloc::{AllocError, Global};
use std::borrow::CowStr;
use timestamp_tree::TsTree;

/// The document that the version of that number spells.
///
/// It takes memory for rows, and copies no text. A node that stores no set is in each version that
/// has its parent, so no set is looked at but those that are stored, and of many only those that
/// the index finds. Recursion is as deep as nodes and elements nest.
pub(crate) fn lend_document<'a>(
    alloc: Global,
    old: &'a Archive,
    index: Option<&'a Index>,
    number: u32,
) -> Result<LentTree<'a>, AllocError>
    requires documents { (vs : List PlainKeyed) → ArchiveOf vs (archive_view old.now)
        → SpellDocuments vs }
    requires index { IsRowIndex (option_map (λ x. index_view x.now) index)
        (nodes_list (archive_view old.now).kids) }
    requires first { 1 ≤ number }
    requires last { number ≤ (archive_view old.now).n }
    ensures spelled { IfOk result (λ t. (vs : List PlainKeyed) → ArchiveOf vs (archive_view old.now)
        → option_map plain (version_of vs number) ≡ Some (lent_tree_view t)) }
    ensures document { IfOk result (λ t. IsDocument (lent_tree_view t)) }
{
    // A law, for the proof.
    archives_stand_for_one_list();
    match lend_root(alloc, number, old.kids(), index)? {
        Some(document) => Ok(document),
        None => unreachable!(),
    }
}

/// The element that the version spells, of the kids of the virtual root.
fn lend_root<'a>(
    alloc: Global,
    number: u32,
    nodes: &'a [ANode],
    index: Option<&'a Index>,
) -> Result<Option<LentTree<'a>>, AllocError>
    requires first { 1 ≤ number }
    requires index { IsRowIndex (option_map (λ x. index_view x.now) index)
        (map node_view nodes.now) }
    ensures { IfOk result (λ o. option_map lent_tree_view o
        ≡ option_map plain (read_root number (number ∷ []) (nodes_view nodes.now))) }
{
    let places = row_places(alloc, number, nodes, index)?;
    if places.is_empty() {
        return Ok(None);
    }
    let place = places[0] as usize;
    let document = lend_node(alloc, number, &nodes[place], beside(index, place))?;
    Ok(Some(document))
}

/// The element that a node spells in a version that has it.
#[cycle(lend)]
fn lend_node<'a>(
    alloc: Global,
    number: u32,
    node: &'a ANode,
    index: Option<&'a Index>,
) -> Result<LentTree<'a>, AllocError>
    requires first { 1 ≤ number }
    requires there { IsTrue (is_in number (node_stamp (node_view node.now))) }
    requires index { IsNodeIndex (option_map (λ x. index_view x.now) index)
        (node_view node.now) }
    ensures { IfOk result (λ t. lent_tree_view t
        ≡ plain (read number (number ∷ []) (node_view node.now))) }
{
    match node {
        ANode::Inner { label, kids, .. } => {
            let row = lend_row(alloc, number, kids, index)?;
            Ok(LentTree::Elem {
                tag: CowStr::Borrowed(label.name.as_str()),
                row,
            })
        }
        ANode::Leaf { label, alts, .. } => {
            let body = body_in(alloc, number, alts, index)?;
            lend_leaf(alloc, label.name.as_str(), body)
        }
    }
}

/// The attributes and the items that the kids of an inner node spell.
#[cycle(lend)]
fn lend_row<'a>(
    alloc: Global,
    number: u32,
    nodes: &'a [ANode],
    index: Option<&'a Index>,
) -> Result<LentRow<'a>, AllocError>
    requires first { 1 ≤ number }
    requires index { IsRowIndex (option_map (λ x. index_view x.now) index)
        (map node_view nodes.now) }
    ensures { IfOk result (λ row. lent_row_view row
        ≡ content
        (attrs_among (read_row number (number ∷ []) (nodes_view nodes.now)))
        (items_among (read_row number (number ∷ []) (nodes_view nodes.now)))) }
{
    match tree_in(index) {
        Some(sets) => lend_found(alloc, number, nodes, index, sets),
        None => lend_each(alloc, number, nodes, index),
    }
}

/// The same, where the nodes that the version has are found by the tree over their sets.
#[cycle(lend)]
fn lend_found<'a>(
    alloc: Global,
    number: u32,
    nodes: &'a [ANode],
    index: Option<&'a Index>,
    sets: &TsTree,
) -> Result<LentRow<'a>, AllocError>
    requires first { 1 ≤ number }
    requires index { IsRowIndex (option_map (λ x. index_view x.now) index)
        (map node_view nodes.now) }
    requires over { IsOver (ts_view sets.now) (map node_stamp (map node_view nodes.now)) }
    ensures { IfOk result (λ row. lent_row_view row
        ≡ content
        (attrs_among (read_row number (number ∷ []) (nodes_view nodes.now)))
        (items_among (read_row number (number ∷ []) (nodes_view nodes.now)))) }
{
    let places = places_in(alloc, number, sets)?;
    // Few of them may be items, so these are counted before room is taken.
    let count = count_items(nodes, &places);
    let mut attrs = Vec::with_capacity(alloc, places.len() - count)?;
    let mut items = Vec::with_capacity(alloc, count)?;
    for place in &places {
        let place = *place as usize;
        let node = &nodes[place];
        let within = beside(index, place);
        if node.label().name.is_tag() {
            items.push(lend_node(alloc, number, node, within)?)?;
        } else if let Some(attr) = lend_attr(alloc, number, node, within)? {
            attrs.push(attr)?;
        }
    }
    Ok(LentRow { attrs, items })
}

/// How many of the nodes at those places are items.
fn count_items(nodes: &[ANode], places: &[u32]) -> usize
    ensures { result ≤ length places.now }
{
    let mut count = 0;
    for place in places {
        if let Some(node) = nodes.get(*place as usize) {
            if node.label().name.is_tag() {
                count += 1;
            }
        }
    }
    count
}

/// The same, where each node is looked at.
#[cycle(lend)]
fn lend_each<'a>(
    alloc: Global,
    number: u32,
    nodes: &'a [ANode],
    index: Option<&'a Index>,
) -> Result<LentRow<'a>, AllocError>
    requires first { 1 ≤ number }
    requires index { IsRowIndex (option_map (λ x. index_view x.now) index)
        (map node_view nodes.now) }
    ensures { IfOk result (λ row. lent_row_view row
        ≡ content
        (attrs_among (read_row number (number ∷ []) (nodes_view nodes.now)))
        (items_among (read_row number (number ∷ []) (nodes_view nodes.now)))) }
{
    let (names, tags) = count_kids(number, nodes);
    let mut attrs = Vec::with_capacity(alloc, names)?;
    let mut items = Vec::with_capacity(alloc, tags)?;
    let mut place = 0;
    for node in nodes {
        if has_version(node.stamp(), number) {
            let within = beside(index, place);
            if node.label().name.is_tag() {
                items.push(lend_node(alloc, number, node, within)?)?;
            } else if let Some(attr) = lend_attr(alloc, number, node, within)? {
                attrs.push(attr)?;
            }
        }
        place += 1;
    }
    Ok(LentRow { attrs, items })
}

/// How many of the nodes that the version has are attributes, and how many are items.
fn count_kids(number: u32, nodes: &[ANode]) -> (usize, usize) {
    let mut names = 0;
    let mut tags = 0;
    for node in nodes {
        if has_version(node.stamp(), number) {
            if node.label().name.is_tag() {
                tags += 1;
            } else {
                names += 1;
            }
        }
    }
    (names, tags)
}

/// The element of that tag with the body.
fn lend_leaf<'a>(
    alloc: Global,
    tag: &'a str,
    body: Option<&'a Body>,
) -> Result<LentTree<'a>, AllocError>
    ensures { IfOk result (λ t. lent_tree_view t
        ≡ element tag.now
        (content_of (unwrap_or (option_map (λ b. key_view b.now) body.entry) (scalar null)))) }
{
    match body {
        Some(KeyVal::Content(content)) => LentTree::lend_element(alloc, tag, content),
        // This does not come: in a version that spells a document an element has a content.
        _ => Ok(empty_element(alloc, tag)),
    }
}

fn empty_element(alloc: Global, tag: &str) -> LentTree<'_>
    ensures { lent_tree_view result ≡ element tag.now (content [] no_trees) }
{
    LentTree::Elem {
        tag: CowStr::Borrowed(tag),
        row: LentRow {
            attrs: Vec::new(alloc),
            items: Vec::new(alloc),
        },
    }
}

/// The attribute that a node spells in a version that has it, if it is named by one.
fn lend_attr<'a>(
    alloc: Global,
    number: u32,
    node: &'a ANode,
    index: Option<&'a Index>,
) -> Result<Option<LentAttr<'a>>, AllocError>
    requires first { 1 ≤ number }
    requires there { IsTrue (is_in number (node_stamp (node_view node.now))) }
    requires index { IsNodeIndex (option_map (λ x. index_view x.now) index)
        (node_view node.now) }
    ensures { IfOk result (λ o. map lent_attr_view (option_to_list o)
        ≡ attr_onto (read number (number ∷ []) (node_view node.now)) []) }
{
    let ANode::Leaf { label, alts, .. } = node else {
        return Ok(None);
    };
    let Name::Attr(name) = &label.name else {
        return Ok(None);
    };
    let value = match body_in(alloc, number, alts, index)? {
        Some(KeyVal::Scalar(value)) => value.lend(),
        Some(KeyVal::Content(_)) => return Ok(None),
        // This does not come: a leaf of an archive has a body in each of its versions.
        None => LentScalar::Null,
    };
    Ok(Some(LentAttr::Lent {
        name: name.as_str(),
        value,
    }))
}

/// The body of a leaf in a version that has it.
fn body_in<'a>(
    alloc: Global,
    number: u32,
    alts: &'a [Alt],
    index: Option<&'a Index>,
) -> Result<Option<&'a Body>, AllocError>
    requires first { 1 ≤ number }
    requires index { IsLeafIndex (option_map (λ x. index_view x.now) index)
        (map alt_view alts.now) }
    ensures { IfOk result (λ o. unwrap_or (option_map (λ b. key_view b.now) o) (scalar null)
        ≡ body_at number (number ∷ []) (map alt_view alts.now)) }
{
    match tree_in(index) {
        Some(sets) => {
            let places = places_in(alloc, number, sets)?;
            Ok(picked_body(alts, &places))
        }
        None => Ok(first_body(number, alts)),
    }
}

/// The body at the first of those places.
fn picked_body<'a>(alts: &'a [Alt], places: &[u32]) -> Option<&'a Body>
    ensures { unwrap_or (option_map (λ b. key_view b.now) result) (scalar null)
        ≡ body_of (map alt_view alts.now) places.now }
{
    if places.is_empty() {
        return None;
    }
    match alts.get(places[0] as usize) {
        Some(alt) => Some(&alt.body),
        None => None,
    }
}

/// The first body that the version has.
fn first_body<'a>(number: u32, alts: &'a [Alt]) -> Option<&'a Body>
    ensures { unwrap_or (option_map (λ b. key_view b.now) result) (scalar null)
        ≡ body_at number (number ∷ []) (map alt_view alts.now) }
{
    for alt in alts {
        if has_version(&alt.stamp, number) {
            return Some(&alt.body);
        }
    }
    None
}
