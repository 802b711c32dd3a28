// Which archives are keyed by a specification.
ghost use Rattle.std.specs.Prelude.{◌≡◌, ◌↔◌, IsTrue, IfOk, List, map};
ghost use Rattle.std.specs.List.{list_all};
ghost use Rattle.std.specs.Result.{IsOk};
ghost use Rattle.keyed_tree.specs.Data.{PlainKeyed};
ghost use Rattle.keyed_tree.specs.Proper.{is_content, is_scalar};
ghost use Rattle.key_spec.specs.ContextView.{context_path, context_rules};
ghost use Rattle.key_spec.specs.View.{spec_view};
ghost use Rattle.archive_tree.specs.ArchiveView.{archive_view};
ghost use Rattle.archive_tree.specs.Data.{PlainAlt};
ghost use Rattle.archive_tree.specs.Seek.{is_sorted, are_sorted};
ghost use Rattle.keyed_tree.specs.Alike.{AllAlike};
ghost use Rattle.archive_tree.specs.Stands.{ArchiveOf};
ghost use Rattle.archive_tree.specs.View.{alt_view, node_view, nodes_view};
ghost use Rattle.archive_file.specs.KeyedBy.{AreKeyedBy};
ghost use Rattle.archive_file.specs.NodeFits.{is_attr_node, inside_fits, is_archive_keyed, kid_fits, nodes_fit};

use crate::lead::has_keys;
use crate::level::are_shallow;
use archive_tree::{ANode, Alt, Archive};
use jsonml_tree::GREATEST_DEPTH;
use key_spec::{Context, Spec};
use keyed_tree::{KeyVal, Name};
use std::alloc::{AllocError, Global};

/// Whether every version of the archive is the keyed tree of a document that satisfies the keys, with elements at most
/// `GREATEST_DEPTH` deep.
///
/// It goes over the nodes and not over the versions: once for their levels, and then once for their labels, with one look
/// at the rules for each, and each key path by halving at each of its tags. It stops at the first node that does not fit.
/// Recursion is at most `GREATEST_DEPTH` levels deep. It takes no memory, and always answers.
pub fn is_keyed(_alloc: Global, spec: &Spec, archive: &Archive) -> Result<bool, AllocError>
    ensures keyed { (vs : List PlainKeyed) → ArchiveOf vs (archive_view archive.now)
        → IfOk result (λ b. IsTrue b ↔ AreKeyedBy (spec_view spec.now) vs) }
    ensures always { IsOk result }

    // A law: versions that are keyed by one specification are alike.
    ensures alike { (vs : List PlainKeyed) → AreKeyedBy (spec_view spec.now) vs → AllAlike vs }
{
    Ok(are_nodes_keyed(spec, archive))
}

fn are_nodes_keyed(spec: &Spec, archive: &Archive) -> bool
    ensures { result ≡ is_archive_keyed (spec_view spec.now) (archive_view archive.now) }
{
    are_shallow(archive.kids(), GREATEST_DEPTH) && nodes_fit(spec.root(), archive.kids())
}

// The kids of an element at this place among the rules.
#[cycle(fit)]
#[tactic(auto, using(archive_tree::proofs::NodeViews::nodes, crate::proofs::Nodes::nodes, crate::proofs::Nodes::sorted))]
fn nodes_fit(context: Context<'_>, nodes: &[ANode]) -> bool
    requires { IsTrue (are_sorted (nodes_view nodes.now)) }
    ensures { result ≡ nodes_fit (context_rules context.entry) (context_path context.entry)
        (nodes_view nodes.now) }
{
    for node in nodes {
        if !kid_fits(context, node) {
            return false;
        }
    }
    true
}

// An attribute's leaf, or an element's node with its key values.
#[cycle(fit)]
#[tactic(auto, using(archive_tree::proofs::NodeViews::nodes, crate::proofs::Nodes::nodes, crate::proofs::Nodes::sorted))]
fn kid_fits(context: Context<'_>, node: &ANode) -> bool
    requires { IsTrue (is_sorted (node_view node.now)) }
    ensures { result ≡ kid_fits (context_rules context.entry) (context_path context.entry)
        (node_view node.now) }
{
    let Name::Tag(tag) = &node.label().name else {
        return is_attr_node(node);
    };
    match context.rule(tag.as_str()) {
        Some((rule, inside)) => has_keys(rule, node) && inside_fits(inside, node),
        None => false,
    }
}

// What is inside an element's node: at the frontier contents, else kids.
#[cycle(fit)]
#[tactic(auto, using(archive_tree::proofs::NodeViews::nodes, crate::proofs::Nodes::nodes, crate::proofs::Nodes::sorted))]
fn inside_fits(context: Context<'_>, node: &ANode) -> bool
    requires { IsTrue (is_sorted (node_view node.now)) }
    ensures { result ≡ inside_fits (context_rules context.entry) (context_path context.entry)
        (node_view node.now) }
{
    match node {
        ANode::Inner { kids, .. } => !context.is_frontier() && nodes_fit(context, kids),
        ANode::Leaf { alts, .. } => context.is_frontier() && are_contents(alts),
    }
}

fn are_contents(alts: &[Alt]) -> bool
    ensures { result ≡ list_all (λ (x : PlainAlt). is_content x.body) (map alt_view alts.now) }
{
    for alt in alts {
        if let KeyVal::Scalar(_) = &alt.body {
            return false;
        }
    }
    true
}

// A leaf as an attribute has it.
fn is_attr_node(node: &ANode) -> bool
    ensures { result ≡ is_attr_node (node_view node.now) }
{
    match node {
        ANode::Inner { .. } => false,
        ANode::Leaf { label, alts, .. } => label.keys.is_empty() && are_scalars(alts),
    }
}

fn are_scalars(alts: &[Alt]) -> bool
    ensures { result ≡ list_all (λ (x : PlainAlt). is_scalar x.body) (map alt_view alts.now) }
{
    for alt in alts {
        if let KeyVal::Content(_) = &alt.body {
            return false;
        }
    }
    true
}
