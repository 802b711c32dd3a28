// The file of an archive in memory, drafted record by record.
ghost use Rattle.std.specs.Prelude.{◌≡◌, ◌≢◌, ◌++◌, ◌∷◌, [], ℕ, List, None, map, IfErr};
ghost use Rattle.std.specs.List.{AllByRecursion};
ghost use Rattle.version_set.specs.View.{pairs_of};
ghost use Rattle.key_spec.specs.View.{spec_view};
ghost use Rattle.keyed_tree.specs.Data.{PlainKeyed};
ghost use Rattle.archive_tree.specs.Stands.{ArchiveOf};
ghost use Rattle.record_parts.specs.Shapes.{IsShapedValue};
ghost use Rattle.record_format.specs.Files.{FileOf};
ghost use Rattle.record_format.specs.Shapes.{AreShapedNodes, IsShaped, IsShapedAlt, IsShapedNode};
ghost use Rattle.record_writer.specs.Data.{call_end_leaf, call_finish};
ghost use Rattle.record_writer.specs.Given.{IsShapedBodyFrom, given_body};
ghost use Rattle.record_writer.specs.View.{writer_view};
ghost use Rattle.record_writer.specs.Walks.{alt_calls, node_calls, row_calls};
ghost use Rattle.record_writer.specs.Calls.{after_all};
ghost use Rattle.spelled_archive.specs.ArchiveView.{spelled_archive_view};
ghost use Rattle.spelled_archive.specs.View.{alt_view, kept_view, node_view, nodes_view};
ghost use Rattle.archive_rekey.specs.Drafted.{Called, Drafted, IfTooLong};

use archive_tree::effective;
use key_spec::Spec;
use record_writer::{BodyFrom, LabelFrom, WriteFault, Writer};
use spelled_archive::{Alt, KeptBody, SNode, SpelledArchive};
use std::alloc::Global;
use version_set::VersionSet;
use xa_outside::Folder;

/// Appends the file of an archive under a specification to the draft of a folder.
///
/// Each record is appended as the nodes are gone through, and beside the archive nothing is held but
/// what the writer holds. Bodies that are spelled already are copied. Recursion is as deep as nodes
/// nest.
pub fn write_spelled<F: Folder>(
    alloc: Global,
    folder: &mut F,
    spec: &Spec,
    archive: &SpelledArchive,
) -> Result<(), WriteFault>
    requires shaped { IsShaped (spelled_archive_view archive.now) }
    ensures drafted { Drafted F.files F.draft F.numbers F.faults folder.old folder.new
        (λ bytes. (vs : List PlainKeyed) → ArchiveOf vs (spelled_archive_view archive.now)
        → FileOf (spec_view spec.now) vs bytes) result }
    ensures too_long { IfErr result (λ e. IfTooLong e ((vs : List PlainKeyed) (bytes : List ℕ)
        → ArchiveOf vs (spelled_archive_view archive.now)
        → ¬ (FileOf (spec_view spec.now) vs bytes))) }
{
    let writer = Writer::start(alloc, folder, spec, archive.n())?;
    let all = VersionSet::upto(alloc, archive.n());
    write_root(folder, writer, &all, archive.kids())
}

// Writes the kids of the virtual root, which has the set, and closes it.
fn write_root<F: Folder>(
    folder: &mut F,
    writer: Writer,
    all: &VersionSet,
    kids: &[SNode],
) -> Result<(), WriteFault>
    requires no_leaf { (writer_view writer).leaf ≡ None }
    requires no_inner { (writer_view writer).inners ≡ [] }
    requires shaped { AreShapedNodes (nodes_view kids.now) }
    ensures { Called F.files F.draft F.numbers F.faults
        (row_calls (pairs_of all.now) (nodes_view kids.now) ++ call_finish ∷ [])
        folder.old folder.new (writer_view writer)
        (after_all (writer_view writer)
        (row_calls (pairs_of all.now) (nodes_view kids.now) ++ call_finish ∷ [])) result }
{
    let mut writer = writer;
    write_row(folder, &mut writer, all, kids)?;
    writer.finish(folder)
}

// Writes the kids of a node that has the set.
#[cycle(write)]
fn write_row<F: Folder>(
    folder: &mut F,
    writer: &mut Writer,
    set: &VersionSet,
    nodes: &[SNode],
) -> Result<(), WriteFault>
    requires no_leaf { (writer_view writer.old).leaf ≡ None }
    requires shaped { AreShapedNodes (nodes_view nodes.now) }
    ensures { Called F.files F.draft F.numbers F.faults
        (row_calls (pairs_of set.now) (nodes_view nodes.now))
        folder.old folder.new (writer_view writer.old) (writer_view writer.new) result }
{
    for node in nodes {
        write_node(folder, writer, set, node)?;
    }
    Ok(())
}

// Writes a node under a parent that has the set.
#[cycle(write)]
fn write_node<F: Folder>(
    folder: &mut F,
    writer: &mut Writer,
    parent: &VersionSet,
    node: &SNode,
) -> Result<(), WriteFault>
    requires no_leaf { (writer_view writer.old).leaf ≡ None }
    requires shaped { IsShapedNode (node_view node.now) }
    ensures { Called F.files F.draft F.numbers F.faults
        (node_calls (pairs_of parent.now) (node_view node.now))
        folder.old folder.new (writer_view writer.old) (writer_view writer.new) result }
{
    match node {
        SNode::Inner { label, stamp, kids } => {
            let set = effective(stamp, parent);
            writer.inner(folder, LabelFrom::New(label), stamp, set)?;
            write_row(folder, writer, set, kids)?;
            writer.end_inner(folder)
        }
        SNode::Leaf { label, stamp, alts } => {
            let set = effective(stamp, parent);
            writer.leaf(folder, LabelFrom::New(label), stamp, set)?;
            write_alts(folder, writer, alts)
        }
    }
}

// Writes the alternatives of a leaf that was begun, and closes it.
fn write_alts<F: Folder>(
    folder: &mut F,
    writer: &mut Writer,
    alts: &[Alt],
) -> Result<(), WriteFault>
    requires leaf { (writer_view writer.old).leaf ≢ None }
    requires shaped { AllByRecursion IsShapedAlt (map alt_view alts.now) }
    ensures { Called F.files F.draft F.numbers F.faults
        (alt_calls (map alt_view alts.now) ++ call_end_leaf ∷ [])
        folder.old folder.new (writer_view writer.old) (writer_view writer.new) result }
{
    for alt in alts {
        writer.alt(folder, &alt.stamp, given(&alt.body))?;
    }
    writer.end_leaf(folder)
}

// The body, as a writer takes it.
fn given(body: &KeptBody) -> BodyFrom<'_, '_>
    requires { IsShapedValue (kept_view body.now) }
    ensures is { given_body result ≡ kept_view body.now }
    ensures shaped { IsShapedBodyFrom result }
{
    match body {
        KeptBody::Own(body) => BodyFrom::New(body),
        KeptBody::Spelled(spelled) => BodyFrom::Old(spelled.lend()),
    }
}
