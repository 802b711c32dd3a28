// The nodes that the lines of a text spell.
ghost use Rattle.std.specs.Prelude.{◌≡◌, ◌<◌, ◌≤◌, ◌∷◌, [], ◌++◌, List, length, drop, map, IfOk, IsTrue};
ghost use Rattle.std.specs.List.{AllByRecursion};
ghost use Rattle.keyed_tree.specs.Data.{PlainLabel};
ghost use Rattle.keyed_tree.specs.View.{key_view, label_view};
ghost use Rattle.keyed_tree.specs.WellFormed.{are_keys_well_formed, is_key_well_formed, is_label_well_formed};
ghost use Rattle.archive_tree.specs.Data.{PlainAlt, PlainNode, PlainNodes, Stamp};
ghost use Rattle.archive_tree.specs.View.{alt_view, node_view, nodes_view, stamp_view};
ghost use Rattle.archive_tree.specs.WellFormed.{are_alts_well_formed, is_node_well_formed, are_nodes_well_formed};
ghost use Rattle.record_parts.specs.Bounds.{IsStamp};
ghost use Rattle.record_format.specs.Shapes.{IsShapedAlt};
ghost use Rattle.jsonml_lines.specs.Lines.{PlainLine};
ghost use Rattle.jsonml_lines.specs.View.{line_view};
ghost use Rattle.archive_text.specs.Export.{alt_line, end_line, name_text, node_lines, nodes_lines, stamp_text, text_cell};
ghost use Rattle.archive_text.specs.Names.{IsNamed};
ghost use Rattle.archive_text.specs.Reading.{AreLines, AreReadable, Finds, IsReadable};

use crate::cells::{name_of, stamp_of, text_at};
use crate::fault::ReadFault;
use crate::lines::{has_word, read_line};
use archive_tree::{ANode, Alt};
use jsonml_lines::Line;
use keyed_tree::{KeyVal, Label};
use std::alloc::Global;
use version_set::VersionSet;

/// The label and the set that the cells of the first line of a node stand for.
fn begun_of(alloc: Global, cells: Vec<KeyVal>) -> Result<(Label, Option<VersionSet>), ReadFault>
    requires { IsTrue (are_keys_well_formed (map key_view cells.items)) }
    ensures found { (l : PlainLabel) (s : Stamp) → IsNamed l.name → IsStamp s
        → map key_view cells.items
        ≡ text_cell (stamp_text s) ∷ text_cell (name_text l.name) ∷ l.keys
        → Finds result (λ r. (label_view r.0 ≡ l) × (stamp_view r.1 ≡ s)) }
    ensures well_formed { IfOk result (λ r. IsTrue (is_label_well_formed (label_view r.0))) }
{
    let mut front = cells;
    if front.len() < 2 {
        return Err(ReadFault::Bad);
    }
    let keys = front.split_off(2)?;
    let name = name_of(alloc, text_at(&front, 1))?;
    let stamp = stamp_of(alloc, text_at(&front, 0))?;
    Ok((Label { name, keys }, stamp))
}

/// The alternative that the cells of its line stand for.
fn alt_of(alloc: Global, cells: Vec<KeyVal>) -> Result<Alt, ReadFault>
    requires { IsTrue (are_keys_well_formed (map key_view cells.items)) }
    ensures found { (x : PlainAlt) → IsShapedAlt x
        → map key_view cells.items ≡ text_cell (stamp_text x.stamp) ∷ x.body ∷ []
        → Finds result (λ r. alt_view r ≡ x) }
    ensures well_formed { IfOk result (λ r. IsTrue (is_key_well_formed (key_view r.body))) }
{
    let mut front = cells;
    let stamp = stamp_of(alloc, text_at(&front, 0))?;
    match front.pop() {
        Some(body) => Ok(Alt { stamp, body }),
        None => Err(ReadFault::Bad),
    }
}

/// The alternatives from the offset to the line that ends their leaf, and the offset behind that.
fn read_alts(alloc: Global, bytes: &[u8], start: usize) -> Result<(Vec<Alt>, usize), ReadFault>
    requires { start ≤ length bytes.now }
    ensures found { (xs : List PlainAlt) (rest : List PlainLine) → AllByRecursion IsShapedAlt xs
        → AreLines (map alt_line xs ++ end_line ∷ rest) (drop start bytes.now)
        → Finds result (λ r. (map alt_view r.0.items ≡ xs) × AreLines rest (drop r.1 bytes.now)) }
    ensures further { IfOk result (λ r. start < r.1) }
    ensures within { IfOk result (λ r. r.1 ≤ length bytes.now) }
    ensures well_formed { IfOk result
        (λ r. IsTrue (are_alts_well_formed (map alt_view r.0.items))) }
{
    let mut alts = Vec::new(alloc);
    let mut at = start;
    loop {
        let (line, next) = read_line(alloc, bytes, at)?;
        if !has_word(&line, "alt") {
            return Ok((alts, next));
        }
        let alt = alt_of(alloc, line.cells)?;
        alts.push(alt)?;
        at = next;
    }
}

/// The node that a line begins, read on from the offset, and the offset behind it. Inner nodes nest at most so deep.
#[cycle(read)]
fn read_node(
    alloc: Global,
    bytes: &[u8],
    line: Line,
    at: usize,
    depth: u32,
) -> Result<(ANode, usize), ReadFault>
    requires within { at ≤ length bytes.now }
    requires well_formed { IsTrue (are_keys_well_formed (map key_view line.cells.items)) }
    ensures found { (k : PlainNode) (ls rest : List PlainLine) → IsReadable depth k
        → line_view line ∷ ls ≡ node_lines k ++ rest → AreLines ls (drop at bytes.now)
        → Finds result (λ r. (node_view r.0 ≡ k) × AreLines rest (drop r.1 bytes.now)) }
    ensures further { IfOk result (λ r. at < r.1) }
    ensures within { IfOk result (λ r. r.1 ≤ length bytes.now) }
    ensures well_formed { IfOk result (λ r. IsTrue (is_node_well_formed (node_view r.0))) }
{
    let is_leaf = has_word(&line, "leaf");
    let (label, stamp) = begun_of(alloc, line.cells)?;
    if is_leaf {
        let (alts, end) = read_alts(alloc, bytes, at)?;
        return Ok((ANode::Leaf { label, stamp, alts }, end));
    }
    if depth == 0 {
        return Err(ReadFault::Bad);
    }
    let (kids, end) = read_row(alloc, bytes, at, depth - 1)?;
    Ok((ANode::Inner { label, stamp, kids }, end))
}

/// The nodes from the offset to the line that ends their row, and the offset behind that. Inner nodes nest at most so deep.
#[cycle(read)]
pub(crate) fn read_row(
    alloc: Global,
    bytes: &[u8],
    start: usize,
    depth: u32,
) -> Result<(Vec<ANode>, usize), ReadFault>
    requires { start ≤ length bytes.now }
    ensures found { (ks : PlainNodes) (rest : List PlainLine) → AreReadable depth ks
        → AreLines (nodes_lines ks ++ end_line ∷ rest) (drop start bytes.now)
        → Finds result (λ r. (nodes_view r.0.items ≡ ks) × AreLines rest (drop r.1 bytes.now)) }
    ensures further { IfOk result (λ r. start < r.1) }
    ensures within { IfOk result (λ r. r.1 ≤ length bytes.now) }
    ensures well_formed { IfOk result (λ r. IsTrue (are_nodes_well_formed (nodes_view r.0.items))) }
{
    let mut nodes = Vec::new(alloc);
    let mut at = start;
    loop {
        let (line, next) = read_line(alloc, bytes, at)?;
        if has_word(&line, "end") {
            return Ok((nodes, next));
        }
        let (node, end) = read_node(alloc, bytes, line, next, depth)?;
        nodes.push(node)?;
        at = end;
    }
}
