// What the cells of a line stand for.
//
// A cell that is not there or of another kind is taken for an empty one. What is read so is printed otherwise.
ghost use Rattle.std.specs.Prelude.{◌≡◌, ◌<◌, ◌≤◌, ◌^◌, ◌++◌, ◌∷◌, [], ℕ, ℤ, List, Some, IfOk, map, decimal, slice_get};
ghost use Rattle.version_set.specs.Pairs.{IsCanonical};
ghost use Rattle.version_set.specs.Text.{pair_text, set_text};
ghost use Rattle.version_set.specs.View.{pairs_of};
ghost use Rattle.jsonml_tree.specs.Data.{whole};
ghost use Rattle.keyed_tree.specs.Data.{PlainName, scalar};
ghost use Rattle.keyed_tree.specs.View.{key_view, name_view};
ghost use Rattle.archive_tree.specs.Data.{Stamp};
ghost use Rattle.archive_tree.specs.View.{stamp_view};
ghost use Rattle.record_parts.specs.Bounds.{IsSet, IsStamp};
ghost use Rattle.archive_text.specs.Export.{name_text, number_cell, stamp_text, text_cell};
ghost use Rattle.archive_text.specs.Names.{IsNamed};
ghost use Rattle.archive_text.specs.Reading.{Finds};

use crate::fault::ReadFault;
use jsonml_tree::Scalar;
use keyed_tree::{KeyVal, Name};
use std::alloc::{AllocError, Global};
use version_set::VersionSet;

pub(crate) fn text_at(cells: &[KeyVal], i: usize) -> &str
    ensures { (s : List ℕ) → slice_get (map key_view cells.now) i ≡ Some (text_cell s)
        → result.now ≡ s }
{
    match cells.get(i) {
        Some(KeyVal::Scalar(Scalar::Text(text))) => text.as_str(),
        _ => "",
    }
}

/// The number, where it is at most so much.
pub(crate) fn number_at(cells: &[KeyVal], i: usize, most: u32) -> u32
    ensures { (n : ℕ) → n ≤ most → slice_get (map key_view cells.now) i ≡ Some (number_cell n)
        → result ≡ n }
{
    let n = whole_at(cells, i);
    if 0 <= n && n <= most as i128 {
        n as u32
    } else {
        0
    }
}

fn whole_at(cells: &[KeyVal], i: usize) -> i128
    ensures { (n : ℤ) → slice_get (map key_view cells.now) i ≡ Some (scalar (whole n))
        → result ≡ n }
{
    match cells.get(i) {
        Some(KeyVal::Scalar(Scalar::Whole(n))) => *n,
        _ => 0,
    }
}

/// The name with that text.
pub(crate) fn name_of(alloc: Global, text: &str) -> Result<Name, AllocError>
    ensures { (n : PlainName) → IsNamed n → text.now ≡ name_text n
        → IfOk result (λ m. name_view m ≡ n) }
{
    match text.strip_prefix('@') {
        Some(attr) => Ok(Name::Attr(String::from_str(alloc, attr)?)),
        None => Ok(Name::Tag(String::from_str(alloc, text)?)),
    }
}

/// The set with that text, and none where it is empty.
pub(crate) fn stamp_of(alloc: Global, text: &str) -> Result<Option<VersionSet>, ReadFault>
    ensures { (s : Stamp) → IsStamp s → text.now ≡ stamp_text s
        → Finds result (λ o. stamp_view o ≡ s) }
{
    if text.is_empty() {
        return Ok(None);
    }
    let set = set_of(alloc, text)?;
    Ok(Some(set))
}

fn set_of(alloc: Global, text: &str) -> Result<VersionSet, ReadFault>
    ensures { (p : ℕ × ℕ) (ps : List (ℕ × ℕ)) → IsSet (p ∷ ps) → text.now ≡ set_text (p ∷ ps)
        → Finds result (λ s. pairs_of s ≡ p ∷ ps) }
{
    let mut set = VersionSet::empty(alloc);
    let mut left = text;
    while let Some((first, rest)) = left.split_once(',') {
        put_pair(&mut set, first)?;
        left = rest;
    }
    put_pair(&mut set, left)?;
    Ok(set)
}

/// Adds the interval with that text behind the others.
fn put_pair(set: &mut VersionSet, text: &str) -> Result<(), ReadFault>
    ensures { (p : ℕ × ℕ) → p.0 < 2 ^ 32 → p.1 < 2 ^ 32 → text.now ≡ pair_text p
        → IsCanonical (pairs_of set.old ++ p ∷ [])
        → Finds result (λ _. pairs_of set.new ≡ pairs_of set.old ++ p ∷ []) }
{
    if set.push_pair(pair_of(text))? {
        Ok(())
    } else {
        Err(ReadFault::Bad)
    }
}

fn pair_of(text: &str) -> (u32, u32)
    ensures { (p : ℕ × ℕ) → p.0 < 2 ^ 32 → p.1 < 2 ^ 32 → text.now ≡ pair_text p → result ≡ p }
{
    match text.split_once('-') {
        Some((from, to)) => both_of(from, to),
        None => both_of(text, text),
    }
}

fn both_of(from: &str, to: &str) -> (u32, u32)
    ensures { (m n : ℕ) → m < 2 ^ 32 → n < 2 ^ 32 → from.now ≡ decimal m → to.now ≡ decimal n
        → result ≡ (m, n) }
{
    (number_of(from), number_of(to))
}

fn number_of(text: &str) -> u32
    ensures { (n : ℕ) → n < 2 ^ 32 → text.now ≡ decimal n → result ≡ n }
{
    match text.parse::<u32>() {
        Ok(n) => n,
        Err(_) => 0,
    }
}
