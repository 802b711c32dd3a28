// Where the key paths of a rule lead among an archive's nodes. Each kid is looked up by halving.
ghost use Rattle.std.specs.Prelude.{◌≡◌, [], Some, IsTrue, map, string_bytes};
ghost use Rattle.std.specs.Cmp.Lexicographic.{pointwise, slice_cmp};
ghost use Rattle.std.specs.List.{list_all};
ghost use Rattle.std.specs.Option.{option_map};
ghost use Rattle.std.specs.Ordering.{is_eq};
ghost use Rattle.jsonml_tree.specs.View.{scalar_view, attr_view, content_view};
ghost use Rattle.keyed_tree.specs.Data.{inside, scalar};
ghost use Rattle.keyed_tree.specs.Order.{key_cmp, label_cmp};
ghost use Rattle.keyed_tree.specs.View.{key_view, label_view};
ghost use Rattle.key_rules.specs.Reach.{scalar_named};
ghost use Rattle.key_spec.specs.Data.{PlainPath};
ghost use Rattle.key_spec.specs.RuleView.{path_view, rule_view};
ghost use Rattle.archive_tree.specs.Data.{PlainAlt, node_label};
ghost use Rattle.archive_tree.specs.Seek.{node_with, rise, is_sorted};
ghost use Rattle.archive_tree.specs.Stands.{labels};
ghost use Rattle.archive_tree.specs.View.{alt_view, node_view, nodes_view};
ghost use Rattle.archive_file.specs.NodeFits.{attr_label, bare_label, ends_in, bodies_are, lasting, always, node_leads_here, node_leads, node_has_keys};

use archive_tree::{ANode, Alt};
use jsonml_tree::{Attr, Content, Scalar};
use key_spec::{KeyPath, Rule};
use keyed_tree::{Body, KeyVal, Label, Name};
use std::cmp::Ordering;

/// Whether the rule's key paths lead to the node's key values in every version.
#[tactic(auto, using(crate::proofs::Nodes::sorted))]
pub(crate) fn has_keys(rule: &Rule, node: &ANode) -> bool
    requires { IsTrue (is_sorted (node_view node.now)) }
    ensures { result ≡ node_has_keys (Some (rule_view rule.now))
        (node_label (node_view node.now)).keys (node_view node.now) }
{
    do_lead(&rule.paths, &node.label().keys, node)
}

fn do_lead(paths: &[KeyPath], keys: &[KeyVal], node: &ANode) -> bool
    requires { IsTrue (is_sorted (node_view node.now)) }
    ensures { result ≡ pointwise (λ (p : PlainPath) v. node_leads p.tags p.attr v
        (node_view node.now)) (map path_view paths.now) (map key_view keys.now) }
{
    let mut values = keys.iter();
    for path in paths {
        let Some(value) = values.next() else {
            return false;
        };
        if !leads(path, value, node) {
            return false;
        }
    }
    values.next().is_none()
}

/// Whether the key path leads from the node to the value in every version.
fn leads(path: &KeyPath, value: &KeyVal, from: &ANode) -> bool
    requires { IsTrue (is_sorted (node_view from.now)) }
    ensures { result ≡ node_leads (path_view path.now).tags (path_view path.now).attr
        (key_view value.now) (node_view from.now) }
{
    let mut node = from;
    for tag in &path.tags {
        let Some(kid) = bare_kid(node.kids(), tag.as_str()) else {
            return false;
        };
        node = kid;
    }
    leads_here(&path.attr, value, node)
}

#[tactic(auto, using(archive_tree::proofs::NodeViews::nodes, crate::proofs::Nodes::sorted))]
fn leads_here(attr: &Option<String>, value: &KeyVal, node: &ANode) -> bool
    requires { IsTrue (is_sorted (node_view node.now)) }
    ensures { result ≡ node_leads_here (option_map string_bytes attr.now) (key_view value.now)
        (node_view node.now) }
{
    match node {
        ANode::Inner { kids, .. } => match attr {
            Some(name) => has_attr(kids, name.as_str(), value),
            None => false,
        },
        ANode::Leaf { alts, .. } => do_end(attr, value, alts),
    }
}

fn has_attr(kids: &[ANode], name: &str, value: &KeyVal) -> bool
    requires { IsTrue (rise (labels (nodes_view kids.now))) }
    ensures { result ≡ always (bodies_are (key_view value.now)) (node_with (attr_label name.now)
        (map node_view kids.now)) }
{
    match attr_kid(kids, name) {
        Some(kid) => are_bodies(value, kid),
        None => false,
    }
}

/// The kid that is an element of that tag without key values, where all versions of its parent have it.
fn bare_kid<'a>(kids: &'a [ANode], tag: &str) -> Option<&'a ANode>
    requires { IsTrue (rise (labels (nodes_view kids.now))) }
    ensures { option_map (λ k. node_view k.now) result
        ≡ lasting (node_with (bare_label tag.now) (map node_view kids.now)) }
{
    match kids.binary_search_by(|kid| order_bare(kid.label(), tag)) {
        Ok(at) => lasting(&kids[at]),
        Err(_) => None,
    }
}

/// The kid that is the attribute of that name, where all versions of its parent have it.
fn attr_kid<'a>(kids: &'a [ANode], name: &str) -> Option<&'a ANode>
    requires { IsTrue (rise (labels (nodes_view kids.now))) }
    ensures { option_map (λ k. node_view k.now) result
        ≡ lasting (node_with (attr_label name.now) (map node_view kids.now)) }
{
    match kids.binary_search_by(|kid| order_attr(kid.label(), name)) {
        Ok(at) => lasting(&kids[at]),
        Err(_) => None,
    }
}

fn lasting(node: &ANode) -> Option<&ANode>
    ensures { option_map (λ k. node_view k.now) result ≡ lasting (Some (node_view node.now)) }
{
    if node.stamp().is_none() {
        Some(node)
    } else {
        None
    }
}

fn order_bare(label: &Label, tag: &str) -> Ordering
    ensures { result ≡ label_cmp (label_view label.now) (bare_label tag.now) }
{
    match &label.name {
        Name::Attr(_) => Ordering::Less,
        Name::Tag(own) => own.as_str().cmp(tag).then(order_keys(&label.keys)),
    }
}

fn order_attr(label: &Label, name: &str) -> Ordering
    ensures { result ≡ label_cmp (label_view label.now) (attr_label name.now) }
{
    match &label.name {
        Name::Attr(own) => own.as_str().cmp(name).then(order_keys(&label.keys)),
        Name::Tag(_) => Ordering::Greater,
    }
}

// Key values against none.
#[tactic(auto, using(crate::proofs::Nodes::no_keys))]
fn order_keys(keys: &[KeyVal]) -> Ordering
    ensures { result ≡ slice_cmp key_cmp (map key_view keys.now) [] }
{
    if keys.is_empty() {
        Ordering::Equal
    } else {
        Ordering::Greater
    }
}

/// Whether the node is a leaf whose one body is the value.
fn are_bodies(value: &KeyVal, node: &ANode) -> bool
    ensures { result ≡ bodies_are (key_view value.now) (node_view node.now) }
{
    match node {
        ANode::Inner { .. } => false,
        ANode::Leaf { alts, .. } => are_alts(value, alts),
    }
}

fn are_alts(value: &KeyVal, alts: &[Alt]) -> bool
    ensures { result ≡ list_all (λ (x : PlainAlt). is_eq (key_cmp x.body (key_view value.now)))
        (map alt_view alts.now) }
{
    for alt in alts {
        if !alt.body.order(value).is_eq() {
            return false;
        }
    }
    true
}

// Each content has the value, or its attribute has it where one is named.
fn do_end(attr: &Option<String>, value: &KeyVal, alts: &[Alt]) -> bool
    ensures { result ≡ list_all (λ (x : PlainAlt). ends_in (option_map string_bytes attr.now)
        (key_view value.now) x.body) (map alt_view alts.now) }
{
    for alt in alts {
        if !ends_in(attr, value, &alt.body) {
            return false;
        }
    }
    true
}

fn ends_in(attr: &Option<String>, value: &KeyVal, body: &Body) -> bool
    ensures { result ≡ ends_in (option_map string_bytes attr.now) (key_view value.now)
        (key_view body.now) }
{
    match body {
        KeyVal::Scalar(_) => false,
        KeyVal::Content(content) => match attr {
            Some(name) => is_attr_value(content, name.as_str(), value),
            None => is_content(content, value),
        },
    }
}

fn is_content(content: &Content, value: &KeyVal) -> bool
    ensures { result ≡ is_eq (key_cmp (inside (content_view content.now)) (key_view value.now)) }
{
    match value {
        KeyVal::Scalar(_) => false,
        KeyVal::Content(other) => content.order(other).is_eq(),
    }
}

fn is_attr_value(content: &Content, name: &str, value: &KeyVal) -> bool
    ensures { result ≡ ends_in (Some name.now) (key_view value.now)
        (inside (content_view content.now)) }
{
    match attribute(&content.attrs, name) {
        Some(own) => is_scalar(own, value),
        None => false,
    }
}

fn is_scalar(own: &Scalar, value: &KeyVal) -> bool
    ensures { result ≡ is_eq (key_cmp (scalar (scalar_view own.now)) (key_view value.now)) }
{
    match value {
        KeyVal::Scalar(other) => own.order(other).is_eq(),
        KeyVal::Content(_) => false,
    }
}

fn attribute<'a>(attrs: &'a [Attr], name: &str) -> Option<&'a Scalar>
    ensures { option_map (λ s. scalar_view s.now) result
        ≡ scalar_named name.now (map attr_view attrs.now) }
{
    for attr in attrs {
        if attr.name.as_str() == name {
            return Some(&attr.value);
        }
    }
    None
}
