// Appending records.
ghost use Rattle.std.specs.Prelude.{◌≡◌, ℕ, ◌+◌, ◌≤◌, ◌<◌, ◌^◌, List, ◌∷◌, ◌++◌, length, take, drop, map, OnOk, OnErr, IfOk};
ghost use Rattle.version_set.specs.View.{pairs_of};
ghost use Rattle.keyed_tree.specs.View.{key_view, label_view};
ghost use Rattle.archive_tree.specs.View.{stamp_view};
ghost use Rattle.xa_fields.specs.Spelling.{u64_bytes};
ghost use Rattle.xa_fields.specs.Laws.{Grows};
ghost use Rattle.record_format.specs.Data.{inner_rec, leaf_rec, alt_rec, end_rec, leaf_end};
ghost use Rattle.record_format.specs.View.{entry_view, rec_view};
ghost use Rattle.record_format.specs.Spelling.{framed, rec_bytes};
ghost use Rattle.record_parts.specs.Bounds.{IsLabel, IsValue};
ghost use Rattle.record_format.specs.Bounds.{IsRec};

use crate::put_directory::put_directory;
use crate::rec::{ALT, END, Entry, FRAME, INNER, LEAF, LEAF_END, Rec};
use keyed_tree::{Body, Label};
use record_parts::{parts_are_of_shape_and_fit, put_label, put_stamp, put_value};
use std::alloc::{AllocError, Global};
use timestamp_tree::lend_sets;
use version_set::VersionSet;

/// Appends the kind of a record, and eight bytes for the length of its body, and answers where the
/// body begins.
#[tactic(auto, using(xa_fields::proofs::Combinators::growth))]
pub fn open(out: &mut Vec<u8>, kind: u8) -> Result<usize, AllocError>
    ensures ok { OnOk result (out.new.items ≡ out.old.items ++ kind ∷ u64_bytes 0) }
    ensures at { IfOk result (λ at. at ≡ length out.old.items + 9) }
    ensures grows { Grows out.old.items out.new.items }
{
    let at = out.len() + FRAME;
    out.extend_from_slice(&[kind, 0, 0, 0, 0, 0, 0, 0, 0])?;
    Ok(at)
}

fn set_u64(out: &mut Vec<u8>, at: usize, n: u64)
    requires { at + 8 ≤ length out.old.items }
    ensures { out.new.items
        ≡ take at out.old.items ++ (u64_bytes n ++ drop (at + 8) out.old.items) }
{
    out[at..at + 8].copy_from_slice(&n.to_be_bytes());
}

/// Sets the length of the body that begins at this offset and goes to the end.
pub fn close(out: &mut Vec<u8>, at: usize)
    requires room { 9 ≤ at }
    requires within { at ≤ length out.old.items }
    ensures { (front body : List ℕ) (kind : ℕ)
        → out.old.items ≡ (front ++ kind ∷ u64_bytes 0) ++ body → at ≡ length front + 9
        → out.new.items ≡ front ++ framed kind body }
{
    let length = (out.len() - at) as u64;
    set_u64(out, at - 8, length);
}

/// Appends the record that opens an inner node. On a refusal what was there stays.
#[tactic(auto, using(xa_fields::proofs::Combinators::growth))]
pub fn put_inner(
    out: &mut Vec<u8>,
    label: &Label,
    stamp: &Option<VersionSet>,
) -> Result<(), AllocError>
    requires { IsLabel (label_view label.now) }
    ensures ok { OnOk result (out.new.items
        ≡ out.old.items ++ rec_bytes (inner_rec (label_view label.now) (stamp_view stamp.now))) }
    ensures grows { Grows out.old.items out.new.items }
{
    parts_are_of_shape_and_fit();
    let at = open(out, INNER)?;
    put_label(out, label)?;
    put_stamp(out, stamp)?;
    close(out, at);
    Ok(())
}

/// Appends the record that opens a leaf. On a refusal what was there stays.
#[tactic(auto, using(xa_fields::proofs::Combinators::growth))]
pub fn put_leaf(
    out: &mut Vec<u8>,
    label: &Label,
    stamp: &Option<VersionSet>,
) -> Result<(), AllocError>
    requires { IsLabel (label_view label.now) }
    ensures ok { OnOk result (out.new.items
        ≡ out.old.items ++ rec_bytes (leaf_rec (label_view label.now) (stamp_view stamp.now))) }
    ensures grows { Grows out.old.items out.new.items }
{
    parts_are_of_shape_and_fit();
    let at = open(out, LEAF)?;
    put_label(out, label)?;
    put_stamp(out, stamp)?;
    close(out, at);
    Ok(())
}

/// Appends the record of an alternative. On a refusal what was there stays.
#[tactic(auto, using(xa_fields::proofs::Combinators::growth))]
pub fn put_alt(out: &mut Vec<u8>, stamp: &Option<VersionSet>, body: &Body) -> Result<(), AllocError>
    requires { IsValue (key_view body.now) }
    ensures ok { OnOk result (out.new.items
        ≡ out.old.items ++ rec_bytes (alt_rec (stamp_view stamp.now) (key_view body.now))) }
    ensures grows { Grows out.old.items out.new.items }
{
    parts_are_of_shape_and_fit();
    let at = open(out, ALT)?;
    put_stamp(out, stamp)?;
    put_value(out, body)?;
    close(out, at);
    Ok(())
}

/// Appends the record that closes an inner node. On a refusal what was there stays.
#[tactic(auto, using(xa_fields::proofs::Combinators::growth))]
pub fn put_end(out: &mut Vec<u8>, entries: &[Entry], sets: &[&VersionSet]) -> Result<(), AllocError>
    requires few { length entries.now < 2 ^ 32 }
    requires paired { length sets.now ≡ length entries.now }
    ensures ok { OnOk result (out.new.items ≡ out.old.items ++ rec_bytes (end_rec (record {
      entries = map entry_view entries.now;
      sets = map (λ s. pairs_of s.now) sets.now;
    }))) }
    ensures grows { Grows out.old.items out.new.items }
{
    let at = open(out, END)?;
    put_directory(out, entries, sets)?;
    close(out, at);
    Ok(())
}

/// Appends the record that closes a leaf. On a refusal what was there stays.
#[tactic(auto, using(xa_fields::proofs::Combinators::growth))]
pub fn put_leaf_end(out: &mut Vec<u8>) -> Result<(), AllocError>
    ensures ok { OnOk result (out.new.items ≡ out.old.items ++ rec_bytes leaf_end) }
    ensures grows { Grows out.old.items out.new.items }
{
    open(out, LEAF_END)?;
    Ok(())
}

#[tactic(auto, using(xa_fields::proofs::Combinators::growth, jsonml_tree::proofs::Trees::trees))]
fn put_record(alloc: Global, rec: &Rec, out: &mut Vec<u8>) -> Result<(), AllocError>
    requires { IsRec (rec_view rec.now) }
    ensures ok { OnOk result (out.new.items ≡ out.old.items ++ rec_bytes (rec_view rec.now)) }
    ensures grows { Grows out.old.items out.new.items }
{
    match rec {
        Rec::Inner { label, stamp } => put_inner(out, label, stamp),
        Rec::Leaf { label, stamp } => put_leaf(out, label, stamp),
        Rec::Alt { stamp, body } => put_alt(out, stamp, body),
        Rec::End { dir } => {
            let sets = lend_sets(alloc, &dir.sets)?;
            put_end(out, &dir.entries, &sets)
        }
        Rec::LeafEnd => put_leaf_end(out),
    }
}

/// Appends the bytes of a record. On a refusal nothing changes.
#[tactic(auto, using(xa_fields::proofs::Combinators::growth))]
pub fn encode(alloc: Global, rec: &Rec, out: &mut Vec<u8>) -> Result<(), AllocError>
    requires { IsRec (rec_view rec.now) }
    ensures ok { OnOk result (out.new.items ≡ out.old.items ++ rec_bytes (rec_view rec.now)) }
    ensures err { OnErr result (out.new.items ≡ out.old.items) }
{
    let before = out.len();
    if put_record(alloc, rec, out).is_err() {
        out.truncate(before);
        return Err(AllocError);
    }
    Ok(())
}
