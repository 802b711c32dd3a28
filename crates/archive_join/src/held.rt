// The alternatives of a leaf of the second archive, held until those of the first were read.
ghost use Rattle.std.specs.Prelude.{◌≡◌, ◌≢◌, ◌<◌, ◌∷◌, ◌++◌, ℕ, None, not, filter, List, [], false, length, map, slice_index_or, IfSome, IfOk, OnOk};
ghost use Rattle.std.specs.List.{AllByRecursion, enumerate_from};
ghost use Rattle.std.specs.List.Sorted.{IsNonDecreasingBy, IsPermutation};
ghost use Rattle.archive_join.specs.Held.{Ascend, Holds, HoldsShort, left_over, placed, shown};
ghost use Rattle.archive_join.specs.Joined.{alt_of, stamp_with};
ghost use Rattle.archive_join.specs.Leaves.{alternatives_view};
ghost use Rattle.archive_join.specs.Short.{IsMadeOf};
ghost use Rattle.archive_tree.specs.Data.{PlainAlt};
ghost use Rattle.archive_tree.specs.Stands.{AllDiffer, bodies};
ghost use Rattle.archive_tree.specs.View.{stamp_view};
ghost use Rattle.keyed_tree.specs.Data.{PlainKey};
ghost use Rattle.record_copy.specs.Parts.{alternative_view};
ghost use Rattle.record_copy.specs.Reads.{IsShortAlternative};
ghost use Rattle.record_copy.specs.Short.{IfStored, IsRaisedOf};
ghost use Rattle.record_parts.specs.Reading.{value_at};
ghost use Rattle.record_parts.specs.ShownViews.{value_in};
ghost use Rattle.record_parts.specs.Spelling.{value_bytes};
ghost use Rattle.record_parts.specs.Whole.{IsValueBytes};
ghost use Rattle.version_set.specs.View.{pairs_of};
ghost use Rattle.xa_fields.specs.Reading.{whole};

use crate::sets::{Sets, alone_stamp, paired_stamp};
use record_copy::Alternative;
use std::alloc::AllocError;
use version_set::VersionSet;

/// An alternative that is held: how many came before it, and whether the first has its body too.
#[derive(Drop)]
struct Entry {
    at: usize,
    taken: bool,
    alternative: Alternative,
}

/// The alternatives of a leaf, in the order of the bytes of their bodies.
#[derive(Drop)]
pub(crate) struct Held {
    entries: Vec<Entry>,
}

impl Held {
    /// Holds these, the alternatives of a leaf in their order.
    pub(crate) fn of(alternatives: Vec<Alternative>) -> Result<Held, AllocError>
        ensures holds { IfOk result (λ h. Holds (alternatives_view alternatives.items) [] h) }
        ensures short { (b n : ℕ) → AllByRecursion (IsShortAlternative (IsRaisedOf b n) b)
            (alternatives_view alternatives.items) → IfOk result (HoldsShort b n) }
    {
        let entries = by_body(numbered(alternatives)?);
        Ok(Held { entries })
    }

    /// The timestamp that an alternative of the first gets, whose leaf has these sets, with the
    /// versions of that of the second that has its body, which is taken.
    pub(crate) fn stamp_with(
        &mut self,
        own: &Sets,
        alternative: &Alternative,
    ) -> Result<Option<VersionSet>, AllocError>
        ensures stamp { (ys : List PlainAlt) (taken : List PlainKey) → Holds ys taken self.old
            → AllDiffer (bodies ys) → IfOk result (λ s. stamp_view s
            ≡ stamp_with (pairs_of own.now.one) (pairs_of own.now.two)
            (alternative_view alternative.now).stamp
            (alt_of (alternative_view alternative.now).body ys)) }
        ensures taken { (ys : List PlainAlt) (taken : List PlainKey) → Holds ys taken self.old
            → AllDiffer (bodies ys)
            → OnOk result (Holds ys (taken ++ (alternative_view alternative.now).body ∷ [])
            self.new) }
        ensures short { (b n : ℕ) → IsRaisedOf b 0 (pairs_of own.now.one)
            → IsRaisedOf b n (pairs_of own.now.two) → HoldsShort b n self.old
            → IsShortAlternative (IsRaisedOf b 0) b (alternative_view alternative.now)
            → IfOk result (λ s. IfStored (IsMadeOf b n) (stamp_view s)) × HoldsShort b n self.new }
    {
        match place_of(&self.entries, alternative) {
            Some(at) => {
                let entry = &mut self.entries[at];
                entry.taken = true;
                paired_stamp(own, &alternative.stamp, &entry.alternative.stamp)
            }
            None => alone_stamp(&own.one, &own.two, &alternative.stamp),
        }
    }

    /// Those that were not taken, in their order.
    pub(crate) fn others(self) -> Result<Vec<Alternative>, AllocError>
        ensures others { (ys : List PlainAlt) (taken : List PlainKey) → Holds ys taken self
            → AllDiffer (bodies ys)
            → IfOk result (λ v. alternatives_view v.items ≡ left_over taken ys) }
        ensures short { (b n : ℕ) → HoldsShort b n self
            → IfOk result (λ v. AllByRecursion (IsShortAlternative (IsRaisedOf b n) b)
            (alternatives_view v.items)) }
    {
        not_taken(by_place(self.entries))
    }
}

// The alternatives, each with its place.
fn numbered(alternatives: Vec<Alternative>) -> Result<Vec<Entry>, AllocError>
    ensures placed { IfOk result (λ es. map placed es.items
        ≡ enumerate_from 0 (alternatives_view alternatives.items)) }
    ensures free { IfOk result (λ es. AllByRecursion (λ e. e.taken ≡ false) es.items) }
{
    let alloc = *alternatives.allocator();
    let mut entries = Vec::with_capacity(alloc, alternatives.len())?;
    for alternative in alternatives {
        let at = entries.len();
        entries.push_reserved(Entry {
            at,
            taken: false,
            alternative,
        });
    }
    Ok(entries)
}

// The bytes of the body, which spell it.
fn spelling(alternative: &Alternative) -> &[u8]
    ensures same { result.now ≡ alternative.now.body.items }
    ensures spelled { result.now ≡ value_bytes (alternative_view alternative.now).body }
{
    body_spelled(&alternative.body)
}

fn body_spelled(bytes: &[u8]) -> &[u8]
    requires { IsValueBytes bytes.now }
    ensures same { result.now ≡ bytes.now }
    ensures spelled { result.now ≡ value_bytes (value_in (whole value_at bytes.now)) }
{
    bytes
}

// Puts them into the order of the bytes of their bodies.
fn by_body(mut entries: Vec<Entry>) -> Vec<Entry>
    ensures same { IsPermutation entries.items result.items }
    ensures in_order { Ascend result.items }
{
    entries.sort_unstable_by(|one, two| {
        spelling(&one.alternative).cmp(spelling(&two.alternative))
    });
    entries
}

// Puts them back into the order in which they came.
fn by_place(mut entries: Vec<Entry>) -> Vec<Entry>
    ensures same { IsPermutation entries.items result.items }
    ensures in_order { IsNonDecreasingBy (λ e. e.at) result.items }
{
    entries.sort_unstable_by_key(|entry| entry.at);
    entries
}

// Where the one stands that has the body of this one, by halving.
fn place_of(entries: &[Entry], alternative: &Alternative) -> Option<usize>
    ensures found { IfSome result (λ at. (at < length entries.now) × ((d : Entry)
        → (shown (slice_index_or entries.now at d)).body
        ≡ (alternative_view alternative.now).body)) }
    ensures missing { Ascend entries.now → result ≡ None → AllByRecursion
        (λ e. (shown e).body ≢ (alternative_view alternative.now).body) entries.now }
{
    let body = spelling(alternative);
    match entries.binary_search_by(|entry| spelling(&entry.alternative).cmp(body)) {
        Ok(at) => Some(at),
        Err(_) => None,
    }
}

// The alternatives of those that are not marked.
fn not_taken(entries: Vec<Entry>) -> Result<Vec<Alternative>, AllocError>
    ensures { IfOk result (λ v. alternatives_view v.items
        ≡ map shown (filter (λ e. not e.taken) entries.items)) }
{
    let alloc = *entries.allocator();
    let mut others = Vec::new(alloc);
    for entry in entries {
        if !entry.taken {
            others.push(entry.alternative)?;
        }
    }
    Ok(others)
}
