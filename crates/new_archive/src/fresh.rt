// The nodes that one version alone has.
ghost use Rattle.std.specs.Prelude.{◌≡◌, ◌≤◌, IfOk, [], ◌∷◌, map};
ghost use Rattle.keyed_tree.specs.Data.{label_of};
ghost use Rattle.keyed_tree.specs.LentView.{lent_val_view};
ghost use Rattle.keyed_tree.specs.View.{key_view, label_view};
ghost use Rattle.keyed_parts.specs.View.{kid_view, kids_view};
ghost use Rattle.new_archive.specs.Added.{alone, new_full};
ghost use Rattle.new_archive.specs.View.{alts_view, full_view, row_view};

use crate::bodies::Alts;
use crate::node::{NewAlt, NewNode};
use keyed_parts::{Inside, Kid, Kids};
use keyed_tree::{KeyVal, Label, LentVal};
use spelled_archive::KeptBody;
use std::alloc::{AllocError, Global};
use version_set::VersionSet;

// The node of a kid that begins with version n.
#[cycle(fresh)]
#[tactic(auto, using(crate::proofs::Views::fulls))]
pub fn node_of(alloc: Global, n: u32, new: Kid<'_, '_, '_>) -> Result<NewNode, AllocError>
    requires { 1 ≤ n }
    ensures { IfOk result (λ b. full_view b ≡ new_full n (kid_view new.entry)) }
{
    let label = own_label(alloc, new)?;
    let set = VersionSet::single(alloc, n);
    match new.inside() {
        Inside::Kids(kids) => {
            let kids = nodes_of(alloc, n, kids)?;
            Ok(NewNode::Inner { label, set, kids })
        }
        Inside::Body(body) => {
            let alts = only_alt(alloc, n, body)?;
            Ok(NewNode::Leaf { label, set, alts })
        }
    }
}

#[cycle(fresh)]
fn nodes_of(alloc: Global, n: u32, new: Kids<'_, '_, '_>) -> Result<Vec<NewNode>, AllocError>
    requires { 1 ≤ n }
    ensures { IfOk result (λ v. row_view v.items ≡ map (new_full n) (kids_view new.entry)) }
{
    let mut nodes = Vec::with_capacity(alloc, count_kids(new))?;
    let mut left = new;
    while let Some((kid, behind)) = left.split_first() {
        nodes.push(node_of(alloc, n, kid)?)?;
        left = behind;
    }
    Ok(nodes)
}

// How many there are.
fn count_kids(kids: Kids<'_, '_, '_>) -> usize {
    let mut count: usize = 0;
    let mut left = kids;
    while let Some((_, behind)) = left.split_first() {
        count = count.saturating_add(1);
        left = behind;
    }
    count
}

// The alternatives of a leaf that has one body alone.
fn only_alt(alloc: Global, n: u32, body: LentVal<'_, '_>) -> Result<Alts, AllocError>
    requires { 1 ≤ n }
    ensures { IfOk result (λ a. alts_view a
        ≡ record { numbers = alone n; body = lent_val_view body.entry } ∷ []) }
{
    let body = KeptBody::of(alloc, body)?;
    let set = VersionSet::single(alloc, n);
    Alts::one(alloc, NewAlt { set, body })
}

// The label of a kid, as one of its own.
fn own_label(alloc: Global, kid: Kid<'_, '_, '_>) -> Result<Label, AllocError>
    ensures { IfOk result (λ l. label_view l ≡ label_of (kid_view kid.entry)) }
{
    let keys = own_keys(alloc, kid.keys().as_slice())?;
    let name = kid.name().copy(alloc)?;
    Ok(Label { name, keys })
}

fn own_keys(alloc: Global, keys: &[LentVal<'_, '_>]) -> Result<Vec<KeyVal>, AllocError>
    ensures { IfOk result (λ v. map key_view v.items ≡ map lent_val_view keys.now) }
{
    let mut copies = Vec::with_capacity(alloc, keys.len())?;
    for key in keys {
        copies.push(key.own(alloc)?)?;
    }
    Ok(copies)
}
