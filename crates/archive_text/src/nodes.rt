// The lines of nodes.
#![tactic(auto, using(crate::proofs::Chains::chains))]

ghost use Rattle.std.specs.Prelude.{◌≡◌, ◌++◌, ◌∷◌, [], map, codes, IfOk, string_bytes};
ghost use Rattle.std.specs.List.{flat_map};
ghost use Rattle.xa_outside.specs.Causes.{HasCause};
ghost use Rattle.xa_outside.specs.Taken.{Puts};
ghost use Rattle.keyed_tree.specs.View.{key_view, label_view};
ghost use Rattle.archive_tree.specs.View.{stamp_view, alt_view, node_view, nodes_view};
ghost use Rattle.jsonml_lines.specs.Lines.{cell_text, line_text};
ghost use Rattle.archive_text.specs.Export.{stamp_text, text_cell, alt_line, end_line, node_lines, nodes_lines, lines_text, node_begun};
ghost use Rattle.archive_text.specs.Faults.{HasSinkCause};

use crate::fault::TextFault;
use archive_tree::{ANode, Alt};
use jsonml_lines::{end_line, write_cell, write_text_cell, write_word};
use keyed_tree::{KeyVal, Label, Name};
use std::alloc::{AllocError, Global};
use version_set::VersionSet;
use xa_outside::{Failed, Sink, put_all};

/// The printed set, and the empty text where none is stored.
fn stamp_text(alloc: Global, stamp: &Option<VersionSet>) -> Result<String, AllocError>
    ensures { IfOk result (λ text. string_bytes text ≡ stamp_text (stamp_view stamp.now)) }
{
    match stamp {
        Some(set) => set.text(),
        None => Ok(String::new(alloc)),
    }
}

/// The attribute's name behind an `@`.
fn attribute_text(alloc: Global, attr: &str) -> Result<String, AllocError>
    ensures { IfOk result (λ text. string_bytes text ≡ 64 ∷ attr.now) }
{
    let mut text = String::from_str(alloc, "@")?;
    text.push_str(attr)?;
    Ok(text)
}

/// Cells, each behind a comma.
fn put_cells<K: Sink>(out: &mut K, cells: &[KeyVal]) -> Result<(), Failed>
    ensures bytes { Puts (K.taken out.old) (K.taken out.new) result
        (flat_map (λ k. 44 ∷ cell_text (key_view k)) cells.now) }
    ensures cause { HasCause (K.faults out.old) (K.faults out.new) result }
{
    for cell in cells {
        write_cell(cell, out)?;
    }
    Ok(())
}

/// The line that begins a node, of the texts of its versions and its name.
fn put_texts<K: Sink>(
    out: &mut K,
    word: &str,
    stamp: &str,
    name: &str,
    keys: &[KeyVal],
) -> Result<(), Failed>
    ensures bytes { Puts (K.taken out.old) (K.taken out.new) result
        (line_text (record {
          word = word.now;
          cells = text_cell stamp.now ∷ text_cell name.now ∷ map key_view keys.now;
        })) }
    ensures cause { HasCause (K.faults out.old) (K.faults out.new) result }
{
    write_word(word, out)?;
    write_text_cell(stamp, out)?;
    write_text_cell(name, out)?;
    put_cells(out, keys)?;
    end_line(out)
}

/// The line that begins a node.
fn put_begun<K: Sink>(
    alloc: Global,
    out: &mut K,
    word: &str,
    label: &Label,
    stamp: &Option<VersionSet>,
) -> Result<(), TextFault>
    ensures bytes { Puts (K.taken out.old) (K.taken out.new) result
        (line_text (node_begun word.now (label_view label.now) (stamp_view stamp.now))) }
    ensures cause { HasSinkCause (K.faults out.old) (K.faults out.new) result }
{
    let stamp = stamp_text(alloc, stamp)?;
    match &label.name {
        Name::Tag(tag) => put_texts(out, word, stamp.as_str(), tag.as_str(), &label.keys)?,
        Name::Attr(attr) => {
            let name = attribute_text(alloc, attr.as_str())?;
            put_texts(out, word, stamp.as_str(), name.as_str(), &label.keys)?;
        }
    }
    Ok(())
}

/// The line that ends a node.
#[tactic(auto, unfolding(json::specs::Print::escape_byte))]
fn put_node_end<K: Sink>(out: &mut K) -> Result<(), TextFault>
    ensures bytes { Puts (K.taken out.old) (K.taken out.new) result (line_text end_line) }
    ensures cause { HasSinkCause (K.faults out.old) (K.faults out.new) result }
{
    match put_all(out, b"[\"end\"]\n") {
        Ok(()) => Ok(()),
        Err(_) => Err(TextFault::Sink),
    }
}

/// The line of an alternative, of the text of its versions.
fn put_body<K: Sink>(out: &mut K, stamp: &str, body: &KeyVal) -> Result<(), Failed>
    ensures bytes { Puts (K.taken out.old) (K.taken out.new) result
        (line_text (record {
          word = codes "alt";
          cells = text_cell stamp.now ∷ key_view body.now ∷ [];
        })) }
    ensures cause { HasCause (K.faults out.old) (K.faults out.new) result }
{
    write_word("alt", out)?;
    write_text_cell(stamp, out)?;
    write_cell(body, out)?;
    end_line(out)
}

fn put_alt<K: Sink>(alloc: Global, out: &mut K, alt: &Alt) -> Result<(), TextFault>
    ensures bytes { Puts (K.taken out.old) (K.taken out.new) result
        (line_text (alt_line (alt_view alt.now))) }
    ensures cause { HasSinkCause (K.faults out.old) (K.faults out.new) result }
{
    let stamp = stamp_text(alloc, &alt.stamp)?;
    put_body(out, stamp.as_str(), &alt.body)?;
    Ok(())
}

fn put_alts<K: Sink>(alloc: Global, out: &mut K, alts: &[Alt]) -> Result<(), TextFault>
    ensures bytes { Puts (K.taken out.old) (K.taken out.new) result
        (flat_map (λ x. line_text (alt_line (alt_view x))) alts.now) }
    ensures cause { HasSinkCause (K.faults out.old) (K.faults out.new) result }
{
    for alt in alts {
        put_alt(alloc, out, alt)?;
    }
    Ok(())
}

/// The nodes in preorder.
#[cycle(put)]
fn put_nodes<K: Sink>(alloc: Global, out: &mut K, nodes: &[ANode]) -> Result<(), TextFault>
    ensures bytes { Puts (K.taken out.old) (K.taken out.new) result
        (flat_map (λ k. lines_text (node_lines (node_view k))) nodes.now) }
    ensures cause { HasSinkCause (K.faults out.old) (K.faults out.new) result }
{
    for node in nodes {
        put_node(alloc, out, node)?;
    }
    Ok(())
}

#[cycle(put)]
fn put_node<K: Sink>(alloc: Global, out: &mut K, node: &ANode) -> Result<(), TextFault>
    ensures bytes { Puts (K.taken out.old) (K.taken out.new) result
        (lines_text (node_lines (node_view node.now))) }
    ensures cause { HasSinkCause (K.faults out.old) (K.faults out.new) result }
{
    match node {
        ANode::Inner { label, stamp, kids } => {
            put_begun(alloc, out, "open", label, stamp)?;
            put_nodes(alloc, out, kids)?;
            put_node_end(out)
        }
        ANode::Leaf { label, stamp, alts } => {
            put_begun(alloc, out, "leaf", label, stamp)?;
            put_alts(alloc, out, alts)?;
            put_node_end(out)
        }
    }
}

/// The nodes below the virtual root, and its end.
pub(crate) fn put_kids<K: Sink>(
    alloc: Global,
    out: &mut K,
    nodes: &[ANode],
) -> Result<(), TextFault>
    ensures bytes { Puts (K.taken out.old) (K.taken out.new) result
        (lines_text (nodes_lines (nodes_view nodes.now)) ++ line_text end_line) }
    ensures cause { HasSinkCause (K.faults out.old) (K.faults out.new) result }
{
    put_nodes(alloc, out, nodes)?;
    put_node_end(out)
}
