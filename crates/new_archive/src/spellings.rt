// The places of bodies, by their encodings.
ghost use Rattle.std.specs.Prelude.{◌++◌, ◌∷◌, [], IfOk, IfSome, OnOk};
ghost use Rattle.keyed_tree.specs.View.{key_view};
ghost use Rattle.spelled_archive.specs.View.{kept_view};
ghost use Rattle.new_archive.specs.Covered.{AreCovered, IsAdded, IsSpelling, kept_bodies};

use crate::node::NewAlt;
use keyed_tree::Body;
use record_parts::{is_value, parts_are_of_shape_and_fit, put_value};
use spelled_archive::KeptBody;
use std::alloc::{AllocError, Global};
use std::collections::BTreeMap;

/// So many bodies are looked through, and more are looked up.
const FEW: usize = 32;

/// The places of these bodies and of one behind them, where these are not few.
pub fn places_with(
    alloc: Global,
    places: Option<Box<BTreeMap<Vec<u8>, usize>>>,
    alts: &[NewAlt],
    body: &KeptBody,
) -> Result<Option<Box<BTreeMap<Vec<u8>, usize>>>, AllocError>
    requires { IfSome places (λ b. AreCovered (kept_bodies alts.now) b.value.entries) }
    ensures { IfOk result (λ o. IfSome o (λ b.
        AreCovered (kept_bodies alts.now ++ kept_view body.now ∷ []) b.value.entries)) }
{
    if let Some(places) = places {
        let more = with_place(alloc, places, body, alts.len())?;
        return Ok(Some(more));
    }
    if alts.len() < FEW {
        return Ok(None);
    }
    let places = Box::new(alloc, places_of(alloc, alts)?)?;
    let more = with_place(alloc, places, body, alts.len())?;
    Ok(Some(more))
}

// The places with that of a body too, if it has an encoding.
fn with_place(
    alloc: Global,
    places: Box<BTreeMap<Vec<u8>, usize>>,
    body: &KeptBody,
    place: usize,
) -> Result<Box<BTreeMap<Vec<u8>, usize>>, AllocError>
    ensures { IfOk result (λ b.
        IsAdded (kept_view body.now) place places.value.entries b.value.entries) }
{
    let mut places = places;
    put_place(alloc, &mut places, body, place)?;
    Ok(places)
}

// The places of the bodies that have an encoding.
fn places_of(alloc: Global, alts: &[NewAlt]) -> Result<BTreeMap<Vec<u8>, usize>, AllocError>
    ensures { IfOk result (λ m. AreCovered (kept_bodies alts.now) m.entries) }
{
    let mut places = BTreeMap::new(alloc);
    let mut place = 0;
    for alt in alts {
        put_place(alloc, &mut places, &alt.body, place)?;
        place += 1;
    }
    Ok(places)
}

// The same, in place.
fn put_place(
    alloc: Global,
    places: &mut BTreeMap<Vec<u8>, usize>,
    body: &KeptBody,
    place: usize,
) -> Result<(), AllocError>
    ensures { OnOk result
        (IsAdded (kept_view body.now) place places.old.entries places.new.entries) }
{
    match spell_kept(alloc, body)? {
        Some(bytes) => {
            places.insert(bytes, place)?;
            Ok(())
        }
        None => Ok(()),
    }
}

// The encoding of a body, if it has one.
fn spell_kept(alloc: Global, body: &KeptBody) -> Result<Option<Vec<u8>>, AllocError>
    ensures { IfOk result (IsSpelling (kept_view body.now)) }
{
    match body {
        KeptBody::Own(own) => spell_own(alloc, own),
        KeptBody::Spelled(spelled) => Ok(Some(Vec::from_slice(alloc, spelled.lend().bytes())?)),
    }
}

fn spell_own(alloc: Global, body: &Body) -> Result<Option<Vec<u8>>, AllocError>
    ensures { IfOk result (IsSpelling (key_view body.now)) }
{
    if !is_value(body) {
        return Ok(None);
    }
    // A law, for what `put_value` requires.
    parts_are_of_shape_and_fit();
    let mut bytes = Vec::new(alloc);
    put_value(&mut bytes, body)?;
    Ok(Some(bytes))
}
