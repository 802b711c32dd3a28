// The alternatives of a leaf, changed in place.
ghost use Rattle.std.specs.Prelude.{◌≡◌, ◌≤◌, ◌<◌, ◌++◌, ◌∷◌, [], IfOk, OnOk, length, map};
ghost use Rattle.std.specs.List.{AllByRecursion};
ghost use Rattle.std.specs.Ordering.{is_eq};
ghost use Rattle.version_set.specs.Members.{with_last};
ghost use Rattle.version_set.specs.Pairs.{last_of};
ghost use Rattle.version_set.specs.View.{pairs_of};
ghost use Rattle.jsonml_tree.specs.Lists.{AllDiffer};
ghost use Rattle.keyed_tree.specs.LentView.{lent_val_view};
ghost use Rattle.keyed_tree.specs.Order.{key_cmp};
ghost use Rattle.spelled_archive.specs.View.{kept_view};
ghost use Rattle.new_archive.specs.Added.{added_alts, alone};
ghost use Rattle.new_archive.specs.AltView.{alt_view};
ghost use Rattle.new_archive.specs.Covered.{AreCovered, kept_bodies};
ghost use Rattle.new_archive.specs.Full.{full_bodies};
ghost use Rattle.new_archive.specs.Place.{IsAltOf, IsChangedAt};
ghost use Rattle.new_archive.specs.Ready.{IsBelow};
ghost use Rattle.new_archive.specs.View.{alts_view};

use crate::bodies::Alts;
use crate::node::NewAlt;
use keyed_tree::LentVal;
use record_parts::{SpellFault, put_lent_value};
use spelled_archive::KeptBody;
use std::alloc::{AllocError, Global};
use std::collections::BTreeMap;
use version_set::VersionSet;

// The set with version n too.
pub fn add_number(n: u32, set: &mut VersionSet) -> Result<(), AllocError>
    requires { last_of (pairs_of set.old) < n }
    ensures { OnOk result (pairs_of set.new ≡ with_last (pairs_of set.old) n) }
{
    set.reserve_one()?;
    set.add_last(n);
    Ok(())
}

// The bodies with that of version n. Those that it has not are not changed.
pub fn merge_alts(
    alloc: Global,
    n: u32,
    body: LentVal<'_, '_>,
    alts: &mut Alts,
) -> Result<(), AllocError>
    requires from { 1 ≤ n }
    requires below { AllByRecursion (λ x. IsBelow n x.numbers) (alts_view alts.old) }
    requires differ { AllDiffer (full_bodies (alts_view alts.old)) }
    ensures { OnOk result (alts_view alts.new
        ≡ added_alts n (lent_val_view body.entry) (alts_view alts.old)) }
{
    match find_alt(alloc, body, alts)? {
        Some(at) => add_at(n, &mut alts.items, at),
        None => push_new(alloc, n, body, alts),
    }
}

// The alternatives, where the one at the place has version n too.
fn add_at(n: u32, alts: &mut [NewAlt], at: usize) -> Result<(), AllocError>
    requires place { at < length alts.old }
    requires below { AllByRecursion (λ x. IsBelow n x.numbers) (map alt_view alts.old) }
    ensures is { OnOk result (IsChangedAt n at (map alt_view alts.old) (map alt_view alts.new)) }
    ensures bodies { kept_bodies alts.new ≡ kept_bodies alts.old }
{
    add_number(n, &mut alts[at].set)
}

// The alternatives with the body of version n behind them.
fn push_new(alloc: Global, n: u32, body: LentVal<'_, '_>, alts: &mut Alts) -> Result<(), AllocError>
    requires from { 1 ≤ n }
    ensures { OnOk result (alts_view alts.new ≡ alts_view alts.old
        ++ record { numbers = alone n; body = lent_val_view body.entry } ∷ []) }
{
    let body = KeptBody::of(alloc, body)?;
    let set = VersionSet::single(alloc, n);
    alts.push(alloc, NewAlt { set, body })
}

// The place of the alternative that has the body.
fn find_alt(alloc: Global, body: LentVal<'_, '_>, alts: &Alts) -> Result<Option<usize>, AllocError>
    ensures { IfOk result (IsAltOf (lent_val_view body.entry) (alts_view alts.now)) }
{
    match &alts.places {
        Some(places) => look_up(alloc, body, &alts.items, places),
        None => Ok(scan(body, &alts.items)),
    }
}

// The same, by its encoding. What has none is looked for among all.
fn look_up(
    alloc: Global,
    body: LentVal<'_, '_>,
    alts: &[NewAlt],
    places: &BTreeMap<Vec<u8>, usize>,
) -> Result<Option<usize>, AllocError>
    requires { AreCovered (kept_bodies alts.now) places.now.entries }
    ensures { IfOk result (IsAltOf (lent_val_view body.entry) (map alt_view alts.now)) }
{
    let mut bytes = Vec::new(alloc);
    match put_lent_value(&mut bytes, body) {
        Ok(()) => match places.get(bytes.as_slice()) {
            Some(place) => Ok(Some(*place)),
            None => Ok(None),
        },
        Err(SpellFault::TooLong) => Ok(scan(body, alts)),
        Err(SpellFault::Memory) => Err(AllocError),
    }
}

// The same, where each is looked at.
fn scan(body: LentVal<'_, '_>, alts: &[NewAlt]) -> Option<usize>
    ensures { IsAltOf (lent_val_view body.entry) (map alt_view alts.now) result }
{
    let mut at = 0;
    for alt in alts {
        if is_same(body, &alt.body) {
            return Some(at);
        }
        at += 1;
    }
    None
}

// Whether an alternative has the body. It takes no memory.
fn is_same(body: LentVal<'_, '_>, kept: &KeptBody) -> bool
    ensures { result ≡ is_eq (key_cmp (kept_view kept.now) (lent_val_view body.entry)) }
{
    match kept {
        KeptBody::Own(own) => body.same(own),
        KeptBody::Spelled(old) => old.same_lent(body),
    }
}
