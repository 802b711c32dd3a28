// What is kept of an open leaf.
ghost use Rattle.std.specs.Prelude.{◌≡◌, ◌∷◌, [], ◌++◌, false, true, List, IfOk, IsTrue, OnOk};
ghost use Rattle.archive_tree.specs.Data.{PlainAlt};
ghost use Rattle.archive_tree.specs.PartsTest.{are_alts_well};
ghost use Rattle.archive_tree.specs.View.{stamp_view};
ghost use Rattle.record_parts.specs.ShownViews.{shown_body};
ghost use Rattle.node_judge.specs.FrameView.{leaf_view};
ghost use Rattle.node_judge.specs.HeldView.{held_leaf, held_numbers, held_view};
ghost use Rattle.node_judge.specs.Holding.{Holds, held_with, may_follow, none_held};
ghost use Rattle.node_judge.specs.Rows.{is_body_of};

use crate::bodies::do_differ;
use crate::frame::Leaf;
use crate::stamp::{first_number, is_stamp_well};
use crate::tiles::divide;
use archive_tree::effective;
use record_parts::BodyView;
use std::alloc::{AllocError, Global};
use version_set::VersionSet;

/// What is kept of an open leaf: the intervals of the sets that its alternatives store, and the
/// bytes of their bodies. Of an alternative that inherits, which is alone, nothing is kept.
#[derive(Drop)]
pub struct Held<'a> {
    pub(crate) leaf: Leaf<'a>,
    whole: bool,
    low: u64,
    pairs: Vec<(u32, u32)>,
    bodies: Vec<Vec<u8>>,
}

impl<'a> Held<'a> {
    /// A leaf before its first alternative.
    pub fn of(alloc: Global, leaf: Leaf<'a>) -> Held<'a>
        ensures leaf { held_leaf result ≡ leaf_view leaf.entry }
        ensures holds { Holds (held_numbers result) [] (held_view result) }
    {
        Held {
            leaf,
            whole: false,
            low: 0,
            pairs: Vec::new(alloc),
            bodies: Vec::new(alloc),
        }
    }

    /// Whether a body is right in the leaf: a content that is not too deep, or an attribute's
    /// scalar; and it has what the leaf waits for. It takes memory only for a content so long that
    /// it might be too deep.
    pub fn is_body(&self, alloc: Global, body: &BodyView<'_>) -> Result<bool, AllocError>
        ensures { IfOk result (λ b. b ≡ is_body_of (held_leaf self.now) (shown_body body.now)) }
    {
        self.leaf.is_body(alloc, body)
    }

    /// Holds the alternative with this timestamp and this body, if it may come next. It takes memory
    /// for one that stores a set.
    pub fn add(
        &mut self,
        alloc: Global,
        stamp: &Option<VersionSet>,
        body: &BodyView<'_>,
    ) -> Result<bool, AllocError>
        ensures leaf { held_leaf self.new ≡ held_leaf self.old }
        ensures holds { (xs : List PlainAlt) → Holds (held_numbers self.old) xs (held_view self.old)
            → IfOk result (λ may. IsTrue may → Holds (held_numbers self.new)
            (xs ++ record { stamp = stamp_view stamp.now; body = shown_body body.now } ∷ [])
            (held_view self.new)) }
        ensures refused { (xs ys : List PlainAlt)
            → Holds (held_numbers self.old) xs (held_view self.old)
            → IfOk result (λ may. may ≡ false → are_alts_well (held_numbers self.old)
            (xs ++ record { stamp = stamp_view stamp.now; body = shown_body body.now } ∷ ys)
            ≡ false) }
    {
        if !self.may_follow(stamp) {
            return Ok(false);
        }
        self.put(alloc, stamp, body.bytes())?;
        Ok(true)
    }

    /// Whether the alternatives are right under their leaf's set: each stores some of it or the only
    /// one inherits it, first numbers rise, the sets divide it, and bodies differ.
    pub fn close(self) -> bool
        ensures { (xs : List PlainAlt) → Holds (held_numbers self.entry) xs (held_view self.entry)
            → result ≡ are_alts_well (held_numbers self.entry) xs }
    {
        if self.whole {
            return true;
        }
        divide(self.leaf.set, self.pairs) && do_differ(self.bodies)
    }

    fn may_follow(&self, stamp: &Option<VersionSet>) -> bool
        ensures { result
            ≡ may_follow (held_view self.now) (held_numbers self.now) (stamp_view stamp.now) }
    {
        !self.whole
            && (stamp.is_some() || self.low == 0)
            && is_stamp_well(stamp, self.leaf.set)
            && self.low <= u64::from(first_number(effective(stamp, self.leaf.set)))
    }

    fn put(
        &mut self,
        alloc: Global,
        stamp: &Option<VersionSet>,
        bytes: &[u8],
    ) -> Result<(), AllocError>
        ensures leaf { held_leaf self.new ≡ held_leaf self.old }
        ensures view { OnOk result (held_view self.new ≡ held_with (held_view self.old)
            (held_numbers self.old) (stamp_view stamp.now) bytes.now) }
    {
        self.low = u64::from(first_number(effective(stamp, self.leaf.set))) + 1;
        match stamp {
            None => {
                self.whole = true;
                Ok(())
            }
            Some(set) => {
                self.pairs.extend_from_slice(set.pairs())?;
                let body = Vec::from_slice(alloc, bytes)?;
                self.bodies.push(body)?;
                Ok(())
            }
        }
    }
}
