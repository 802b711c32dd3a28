// The record that closes an inner node, or the virtual root: first its length, then its bytes.
ghost use Rattle.std.specs.Prelude.{◌≡◌, ◌+◌, ◌≤◌, ◌<◌, ◌^◌, ◌++◌, length, map, IfOk, OnOk};
ghost use Rattle.std.specs.List.{flat_map};
ghost use Rattle.version_set.specs.View.{pairs_of};
ghost use Rattle.timestamp_tree.specs.Bytes.{stored};
ghost use Rattle.xa_fields.specs.Spelling.{u64_bytes};
ghost use Rattle.record_format.specs.Data.{end_rec};
ghost use Rattle.record_format.specs.Spelling.{dir_bytes, entry_bytes, rec_bytes, sets_bytes};
ghost use Rattle.record_format.specs.View.{entry_view};
ghost use Rattle.record_writer.specs.Faults.{Prepares};
ghost use Rattle.record_writer.specs.Ends.{Laid};
ghost use Rattle.record_writer.specs.Plans.{above_nodes, node_bytes, spelled};
ghost use Rattle.record_writer.specs.Rows.{row_view};

use crate::fault::WriteFault;
use crate::plan::{TreeNode, added, plan_tree};
use crate::rows::Row;
use crate::spell::body_length;
use record_format::{END, close, open, put_entries};
use std::alloc::AllocError;
use timestamp_tree::put_stored;
use version_set::VersionSet;
use xa_fields::{FIELD, append_u32, append_u64};

/// The length of the record that closes the node of this row. Its tree is planned.
pub fn plan_end(row: &mut Row, nodes: &mut Vec<TreeNode>) -> Result<u64, WriteFault>
    ensures planned { Prepares (length row.old.entries.items < 2 ^ 32)
        (λ size. Laid row.old row.new nodes.new.items
        × (size ≡ length (rec_bytes (end_rec (row_view row.old).dir)))) result }
    ensures start { row.new.start ≡ row.old.start }
    ensures more { length row.old.sets.items ≤ length row.new.sets.items }
{
    let count = row.entries.len();
    if count >= FIELD {
        return Err(WriteFault::TooLong);
    }
    let tree = plan_sets(row, nodes)?;
    let size = added(13 + 24 * count as u64, tree)?;
    Ok(size)
}

/// The size of the tree over the sets of the row's children, 0 where there are none.
fn plan_sets(row: &mut Row, nodes: &mut Vec<TreeNode>) -> Result<u64, AllocError>
    ensures planned { IfOk result (λ size. Laid row.old row.new nodes.new.items
        × (size ≡ length (sets_bytes (row_view row.old).dir.sets))) }
    ensures start { row.new.start ≡ row.old.start }
    ensures more { length row.old.sets.items ≤ length row.new.sets.items }
    ensures entries { row.new.entries.items ≡ row.old.entries.items }
{
    nodes.clear();
    if row.places.is_empty() {
        return Ok(0);
    }
    let plan = plan_tree(&row.places, &mut row.sets, nodes)?;
    Ok(plan.size)
}

/// Spells the record that closes the node of this row, whose tree was planned.
pub fn spell_end(out: &mut Vec<u8>, row: &Row, nodes: &mut Vec<TreeNode>) -> Result<(), AllocError>
    requires few { length row.now.entries.items < 2 ^ 32 }
    requires known { above_nodes nodes.old.items ≤ length row.now.sets.items }
    requires tree { spelled row.now.sets.items nodes.old.items
        ≡ sets_bytes (row_view row.now).dir.sets }
    ensures { OnOk result (out.new.items ≡ rec_bytes (end_rec (row_view row.now).dir)) }
{
    out.clear();
    let at = open(out, END)?;
    put_dir(out, row, nodes)?;
    close(out, at);
    Ok(())
}

/// Spells the record that closes the virtual root, and the length of its body behind it.
pub fn spell_tail(out: &mut Vec<u8>, row: &Row, nodes: &mut Vec<TreeNode>) -> Result<(), AllocError>
    requires few { length row.now.entries.items < 2 ^ 32 }
    requires known { above_nodes nodes.old.items ≤ length row.now.sets.items }
    requires tree { spelled row.now.sets.items nodes.old.items
        ≡ sets_bytes (row_view row.now).dir.sets }
    ensures { OnOk result (out.new.items ≡ rec_bytes (end_rec (row_view row.now).dir)
        ++ u64_bytes (length (dir_bytes (row_view row.now).dir))) }
{
    spell_end(out, row, nodes)?;
    let body = body_length(out);
    append_u64(out, body)
}

fn put_dir(out: &mut Vec<u8>, row: &Row, nodes: &mut Vec<TreeNode>) -> Result<(), AllocError>
    requires few { length row.now.entries.items < 2 ^ 32 }
    requires known { above_nodes nodes.old.items ≤ length row.now.sets.items }
    requires tree { spelled row.now.sets.items nodes.old.items
        ≡ sets_bytes (row_view row.now).dir.sets }
    ensures { OnOk result (out.new.items
        ≡ out.old.items ++ dir_bytes (row_view row.now).dir) }
{
    append_u32(out, row.entries.len() as u32)?;
    put_entries(out, &row.entries)?;
    put_nodes(out, &row.sets, nodes)
}

/// Appends the nodes, from the last to the first. None is left.
fn put_nodes(
    out: &mut Vec<u8>,
    sets: &[VersionSet],
    nodes: &mut Vec<TreeNode>,
) -> Result<(), AllocError>
    requires { above_nodes nodes.old.items ≤ length sets.now }
    ensures { OnOk result (out.new.items
        ≡ out.old.items ++ spelled sets.now nodes.old.items) }
{
    while let Some(node) = nodes.pop() {
        put_node(out, sets, &node)?;
    }
    Ok(())
}

fn put_node(out: &mut Vec<u8>, sets: &[VersionSet], node: &TreeNode) -> Result<(), AllocError>
    requires { node.now.set < length sets.now }
    ensures { OnOk result (out.new.items ≡ out.old.items ++ node_bytes sets.now node.now) }
{
    put_stored(out, &sets[node.set], node.left)
}
