// The file of an archive.
ghost use Rattle.std.specs.Prelude.{◌≡◌, ◌≤◌, ◌<◌, ◌^◌, ◌++◌, ℕ, List, length, map, OnOk, IfOk, IfErr};
ghost use Rattle.std.specs.List.{flat_map, AllByRecursion};
ghost use Rattle.version_set.specs.View.{pairs_of};
ghost use Rattle.keyed_tree.specs.Data.{PlainKeyed};
ghost use Rattle.key_spec.specs.Canonical.{canonical};
ghost use Rattle.key_spec.specs.View.{spec_view};
ghost use Rattle.archive_tree.specs.ArchiveView.{archive_view};
ghost use Rattle.archive_tree.specs.Data.{nodes_list};
ghost use Rattle.archive_tree.specs.Stands.{ArchiveOf};
ghost use Rattle.archive_tree.specs.View.{alt_view, node_view, nodes_view};
ghost use Rattle.record_parts.specs.declared.limits.TheConstants.{MOST_VERSIONS};
ghost use Rattle.record_format.specs.View.{entry_view};
ghost use Rattle.record_format.specs.Spelling.{rec_bytes, dir_bytes};
ghost use Rattle.record_format.specs.Nodes.{piece_bytes, entries_from, dir_of, closed_by_end, alt_of, node_piece, node_pieces};
ghost use Rattle.record_format.specs.Files.{file_bytes, FileOf};
ghost use Rattle.archive_file.specs.KeyedBy.{AreKeyedBy};
ghost use Rattle.archive_file.specs.Goes.{HasBody, HasParts, HaveParts};
ghost use Rattle.archive_file.specs.Faults.{IfTooLong};

use crate::ends::{entry_of, sets_of};
use crate::fault::EncodeFault;
use crate::goes::row_goes;
use archive_tree::{ANode, Alt, Archive, effective};
use key_spec::Spec;
use record_format::{
    Entry, FRAME, LONGEST, put_alt, put_end, put_header, put_inner, put_leaf, put_leaf_end,
};
use std::alloc::{AllocError, Global};
use version_set::VersionSet;
use xa_fields::append_u64;

/// The bytes of the archive file of an archive under a specification that keys its versions.
///
/// TooLong where a text or a list has 2^32 bytes or items or more, or the whole more than 274,877,906,944 bytes. Each byte
/// is written once; a directory of k children takes k log k steps.
pub fn encode_file(alloc: Global, spec: &Spec, archive: &Archive) -> Result<Vec<u8>, EncodeFault>
    requires few { (archive_view archive.now).n ≤ MOST_VERSIONS }
    requires keyed { (vs : List PlainKeyed)
        → ArchiveOf vs (archive_view archive.now) → AreKeyedBy (spec_view spec.now) vs }
    ensures file { IfOk result (λ v. (vs : List PlainKeyed)
        → ArchiveOf vs (archive_view archive.now) → FileOf (spec_view spec.now) vs v.items) }
    ensures too_long { IfErr result (λ e. IfTooLong e ((vs : List PlainKeyed) (bytes : List ℕ)
        → ArchiveOf vs (archive_view archive.now) → ¬ (FileOf (spec_view spec.now) vs bytes))) }
{
    if !row_goes(archive.kids()) {
        return Err(EncodeFault::TooLong);
    }
    let out = file_of(alloc, spec, archive)?;
    if out.len() as u64 > LONGEST {
        return Err(EncodeFault::TooLong);
    }
    Ok(out)
}

fn file_of(alloc: Global, spec: &Spec, archive: &Archive) -> Result<Vec<u8>, AllocError>
    requires few { length (nodes_list (archive_view archive.now).kids) < 2 ^ 32 }
    requires parts { HaveParts (archive_view archive.now).kids }
    ensures bytes { IfOk result (λ v. v.items
        ≡ file_bytes (spec_view spec.now) (archive_view archive.now)) }
    ensures short { IfOk result (λ v. length (canonical (spec_view spec.now)) ≤ 1048576) }
{
    let mut out = Vec::new(alloc);
    put_header(alloc, &mut out, spec, archive.n())?;
    let all = VersionSet::upto(alloc, archive.n());
    let dir = put_row(alloc, &mut out, &all, archive.kids())?;
    append_u64(&mut out, dir)?;
    Ok(out)
}

// The records of the kids of a node that has the set, and the END behind them. It answers the length of the END's body.
#[cycle(put)]
#[tactic(auto, using(archive_tree::proofs::NodeViews::nodes, jsonml_tree::proofs::Trees::trees))]
fn put_row(
    alloc: Global,
    out: &mut Vec<u8>,
    set: &VersionSet,
    nodes: &[ANode],
) -> Result<u64, AllocError>
    requires few { length nodes.now < 2 ^ 32 }
    requires parts { HaveParts (nodes_view nodes.now) }
    ensures bytes { OnOk result (out.new.items
        ≡ out.old.items ++ flat_map rec_bytes
        (closed_by_end (node_pieces (pairs_of set.now) (nodes_view nodes.now)))) }
    ensures dir { IfOk result (λ d. d
        ≡ length (dir_bytes (dir_of (node_pieces (pairs_of set.now) (nodes_view nodes.now))))) }
{
    let entries = put_nodes(alloc, out, set, nodes)?;
    let sets = sets_of(alloc, set, nodes)?;
    let at = out.len();
    put_end(out, &entries, &sets)?;
    Ok((out.len() - at - FRAME) as u64)
}

// The records of the nodes. It answers their entries in the directory of the node that has them as its kids.
#[cycle(put)]
#[tactic(auto, using(archive_tree::proofs::NodeViews::nodes))]
fn put_nodes(
    alloc: Global,
    out: &mut Vec<u8>,
    set: &VersionSet,
    nodes: &[ANode],
) -> Result<Vec<Entry>, AllocError>
    requires { HaveParts (nodes_view nodes.now) }
    ensures bytes { OnOk result (out.new.items
        ≡ out.old.items
        ++ flat_map piece_bytes (node_pieces (pairs_of set.now) (nodes_view nodes.now))) }
    ensures entries { IfOk result (λ es. map entry_view es.items
        ≡ entries_from 0 (node_pieces (pairs_of set.now) (nodes_view nodes.now))) }
    ensures each { IfOk result (λ es. length es.items ≡ length nodes.now) }
{
    let base = out.len();
    let mut entries = Vec::new(alloc);
    for node in nodes {
        let start = out.len();
        let dir = put_node(alloc, out, set, node)?;
        entries.push(entry_of(base, start, out.len(), dir))?;
    }
    Ok(entries)
}

// The records of a node under a parent that has the set. It answers the length of the body of its END, or 0 for a leaf.
#[cycle(put)]
#[tactic(auto, using(archive_tree::proofs::NodeViews::nodes))]
fn put_node(
    alloc: Global,
    out: &mut Vec<u8>,
    parent: &VersionSet,
    node: &ANode,
) -> Result<u64, AllocError>
    requires { HasParts (node_view node.now) }
    ensures bytes { OnOk result (out.new.items
        ≡ out.old.items ++ piece_bytes (node_piece (pairs_of parent.now) (node_view node.now))) }
    ensures dir { IfOk result (λ d. d
        ≡ (node_piece (pairs_of parent.now) (node_view node.now)).dir) }
{
    match node {
        ANode::Inner { label, stamp, kids } => {
            put_inner(out, label, stamp)?;
            put_row(alloc, out, effective(stamp, parent), kids)
        }
        ANode::Leaf { label, stamp, alts } => {
            put_leaf(out, label, stamp)?;
            put_alts(out, alts)?;
            put_leaf_end(out)?;
            Ok(0)
        }
    }
}

fn put_alts(out: &mut Vec<u8>, alts: &[Alt]) -> Result<(), AllocError>
    requires { AllByRecursion HasBody (map alt_view alts.now) }
    ensures { OnOk result (out.new.items ≡ out.old.items
        ++ flat_map rec_bytes (map alt_of (map alt_view alts.now))) }
{
    for alt in alts {
        put_alt(out, &alt.stamp, &alt.body)?;
    }
    Ok(())
}
