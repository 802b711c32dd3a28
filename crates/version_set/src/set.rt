ghost use Rattle.std.specs.Prelude.{◌≡◌, ℕ, ◌+◌, ◌≤◌, ◌<◌, ◌++◌, ◌↔◌, [], ◌∷◌, length, map, filter, pos, ◌+ℤ◌, IsTrue, OnOk, OnErr, IfOk, SomeIff, option_map, if◌then◌else◌};
ghost use Rattle.std.specs.List.{range_with_len};
ghost use Rattle.std.specs.String.{string_bytes};
ghost use Rattle.version_set.specs.Pairs.{IsCanonical, IsFrom-prop, last_of};
ghost use Rattle.version_set.specs.Members.{members, has, greatest, intervals, either, united, common, upto_pairs, with_last, moved, moved_pair, IsVersion};
ghost use Rattle.version_set.specs.Text.{set_text};

use crate::pairs::{
    Pairs, count_of, holds, intersect, is_canonical, last_in, may_follow, put_last, shifted, unite,
};
use crate::text::text_of;
use smallvec::SmallVec;
use std::alloc::{AllocError, Global};

/// A set of version numbers from 1 to `GREATEST_NUMBER`. Two intervals need no memory of their own.
#[derive(Debug, Drop)]
pub struct VersionSet {
    pairs: Pairs,
    pub ghost canonical: { IsCanonical pairs.items } by { IsFrom-prop 1 pairs.items },
}

impl VersionSet {
    ghost use Rattle.version_set.specs.View.{pairs_of, spare_of};

    /// The set of no number.
    pub fn empty(alloc: Global) -> VersionSet
        ensures { pairs_of result ≡ [] }
    {
        VersionSet {
            pairs: SmallVec::new(alloc),
        }
    }

    /// The set of one number.
    pub fn single(alloc: Global, n: u32) -> VersionSet
        requires { 1 ≤ n }
        ensures pairs { pairs_of result ≡ (n, n) ∷ [] }
        ensures members { members (pairs_of result) ≡ n ∷ [] }
    {
        let mut pairs = SmallVec::new(alloc);
        pairs.push_reserved((n, n));
        VersionSet { pairs }
    }

    /// The set of the numbers from 1 to n, which is empty for 0.
    pub fn upto(alloc: Global, n: u32) -> VersionSet
        ensures pairs { pairs_of result ≡ upto_pairs n }
        ensures members { members (pairs_of result) ≡ range_with_len 1 n }
    {
        let mut pairs = SmallVec::new(alloc);
        if n > 0 {
            pairs.push_reserved((1, n));
        }
        VersionSet { pairs }
    }

    /// The set of these intervals. None where they do not ascend, touch one another or hold 0.
    pub fn from_pairs(alloc: Global, pairs: &[(u32, u32)]) -> Result<Option<VersionSet>, AllocError>
        ensures { IfOk result (λ set.
            SomeIff (option_map pairs_of set) (IsCanonical pairs.now) pairs.now) }
    {
        if !is_canonical(pairs) {
            return Ok(None);
        }
        let pairs = SmallVec::from_slice(alloc, pairs)?;
        Ok(Some(VersionSet { pairs }))
    }

    /// The intervals, each as its first and its last number.
    pub fn pairs(&self) -> &[(u32, u32)]
        ensures { result.now ≡ pairs_of self.now }
    {
        self.pairs.as_slice()
    }

    /// How many intervals there are.
    pub fn count(&self) -> u32
        ensures { result ≡ length (pairs_of self.now) }
    {
        count_of(self.pairs.as_slice())
    }

    /// Whether the number is in the set, by halving.
    pub fn contains(&self, i: u32) -> bool
        ensures { result ≡ has (members (pairs_of self.now)) i }
    {
        holds(self.pairs.as_slice(), i)
    }

    /// The greatest number, 0 where there is none.
    pub fn last(&self) -> u32
        ensures members { result ≡ greatest (members (pairs_of self.now)) }
        ensures pairs { result ≡ last_of (pairs_of self.now) }
    {
        last_in(self.pairs.as_slice())
    }

    /// Whether both sets have the same numbers.
    pub fn same(&self, other: &VersionSet) -> bool
        ensures members { IsTrue result
            ↔ (members (pairs_of self.now) ≡ members (pairs_of other.now)) }

        // Sets with the same numbers have the same intervals.
        ensures pairs { IsTrue result ↔ (pairs_of self.now ≡ pairs_of other.now) }
    {
        self.pairs() == other.pairs()
    }

    /// Makes room for one more interval.
    pub fn reserve_one(&mut self) -> Result<(), AllocError>
        ensures room { OnOk result (1 ≤ spare_of self.new) }
        ensures pairs { pairs_of self.new ≡ pairs_of self.old }
        ensures spare { spare_of self.old ≤ spare_of self.new }
    {
        self.pairs.reserve(1)
    }

    /// Adds a number past them all. It takes no memory.
    pub fn add_last(&mut self, n: u32)
        requires above { last_of (pairs_of self.old) < n }
        requires room { 1 ≤ spare_of self.old }
        ensures members { members (pairs_of self.new) ≡ members (pairs_of self.old) ++ n ∷ [] }
        ensures pairs { pairs_of self.new ≡ with_last (pairs_of self.old) n }
        ensures spare { spare_of self.old ≤ spare_of self.new + 1 }
    {
        match put_last(&mut self.pairs, (n, n)) {
            Ok(()) => {}
            Err(_) => unreachable!(),
        }
    }

    /// Adds an interval behind the others, and answers whether it may stand there: not where it
    /// touches them or begins before their end, begins at 0, or ends before it begins.
    pub fn push_pair(&mut self, pair: (u32, u32)) -> Result<bool, AllocError>
        ensures exact { IfOk result (λ may.
            IsTrue may ↔ IsCanonical (pairs_of self.old ++ pair ∷ [])) }
        ensures pairs { IfOk result (λ may. pairs_of self.new
            ≡ (if may then pairs_of self.old ++ pair ∷ [] else pairs_of self.old)) }
        ensures err { OnErr result (pairs_of self.new ≡ pairs_of self.old) }
    {
        if !may_follow(self.pairs.as_slice(), pair) {
            return Ok(false);
        }
        self.pairs.push(pair)?;
        Ok(true)
    }

    /// The numbers that are in one of the sets.
    pub fn union(&self, other: &VersionSet) -> Result<VersionSet, AllocError>
        ensures members { IfOk result (λ set. members (pairs_of set)
            ≡ either (members (pairs_of self.now)) (members (pairs_of other.now))) }
        ensures pairs { IfOk result (λ set.
            pairs_of set ≡ united (pairs_of self.now) (pairs_of other.now)) }
    {
        let alloc = *self.pairs.allocator();
        let pairs = unite(alloc, self.pairs(), other.pairs())?;
        Ok(VersionSet { pairs })
    }

    /// The numbers that are in both sets.
    pub fn meet(&self, other: &VersionSet) -> Result<VersionSet, AllocError>
        ensures members { IfOk result (λ set. members (pairs_of set)
            ≡ filter (has (members (pairs_of other.now))) (members (pairs_of self.now))) }
        ensures pairs { IfOk result (λ set.
            pairs_of set ≡ common (pairs_of self.now) (pairs_of other.now)) }
    {
        let alloc = *self.pairs.allocator();
        let pairs = intersect(alloc, self.pairs(), other.pairs())?;
        Ok(VersionSet { pairs })
    }

    /// The same set.
    pub fn copy(&self) -> Result<VersionSet, AllocError>
        ensures { IfOk result (λ set. pairs_of set ≡ pairs_of self.now) }
    {
        let alloc = *self.pairs.allocator();
        let pairs = SmallVec::from_slice(alloc, self.pairs())?;
        Ok(VersionSet { pairs })
    }

    /// The set with `by` added to each number.
    pub fn shift(&self, by: i64) -> Result<VersionSet, AllocError>
        requires { (n : ℕ) → IsTrue (has (members (pairs_of self.now)) n)
            → IsVersion (pos n +ℤ by) }
        ensures members { IfOk result (λ set.
            members (pairs_of set) ≡ map (moved by) (members (pairs_of self.now))) }
        ensures pairs { IfOk result (λ set.
            pairs_of set ≡ map (moved_pair by) (pairs_of self.now)) }
    {
        let alloc = *self.pairs.allocator();
        let pairs = shifted(alloc, self.pairs(), by)?;
        Ok(VersionSet { pairs })
    }

    /// The intervals with `,` between each two, as `1-2,4`, or `none`.
    pub fn text(&self) -> Result<String, AllocError>
        ensures pairs { IfOk result (λ text. string_bytes text ≡ set_text (pairs_of self.now)) }
        ensures members { IfOk result (λ text.
            string_bytes text ≡ set_text (intervals (members (pairs_of self.now)))) }
    {
        text_of(*self.pairs.allocator(), self.pairs())
    }
}
