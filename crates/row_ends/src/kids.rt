// The finished kids of a node that stands open.
ghost use Rattle.std.specs.Prelude.{◌≡◌, ◌<◌, ◌+◌, ◌^◌, ◌++◌, ◌∷◌, [], map, replicate, IfOk, OnOk, OnErr, length as count};
ghost use Rattle.std.specs.List.{flat_map};
ghost use Rattle.archive_tree.specs.View.{stamp_view};
ghost use Rattle.xa_fields.specs.declared.limits.TheConstants.{FIELD};
ghost use Rattle.row_ends.specs.Kids.{row_length, stamps_in};
ghost use Rattle.row_ends.specs.KidViews.{kept, stored_view};

use crate::parts::{Size, Stored};
use crate::sets::Sets;
use std::alloc::{AllocError, Global};
use version_set::VersionSet;

/// The finished kids of a node that stands open, or of the virtual root: of each its length and
/// that of its END, sixteen bytes, and the sets of those that store one.
#[derive(Drop)]
pub struct Kids {
    sizes: Vec<Size>,
    stored: Vec<Stored>,
    /// So many kids behind the last one that stores its set inherit theirs.
    inheriting: u32,
    /// The bytes of all kids together.
    length: u64,
    ghost few: { count sizes.items < FIELD },
    ghost stamped: { count (kept sizes.items stored.items inheriting).stamps
        ≡ count sizes.items },
    ghost summed: { length ≡ row_length (kept sizes.items stored.items inheriting).sizes },
}

impl Kids {
    ghost use Rattle.version_set.specs.View.{pairs_of};
    ghost use Rattle.row_ends.specs.Kids.{no_kids, with_kid, sets_in};
    ghost use Rattle.row_ends.specs.KidViews.{size_view};
    ghost use Rattle.row_ends.specs.KidsView.{kids_view};
    ghost use Rattle.row_ends.specs.SetsView.{sets_view};

    /// No kids yet.
    pub fn new(alloc: Global) -> Kids
        ensures { kids_view result ≡ no_kids }
    {
        Kids {
            sizes: Vec::new(alloc),
            stored: Vec::new(alloc),
            inheriting: 0,
            length: 0,
        }
    }

    /// How many kids there are.
    pub fn count(&self) -> u32
        ensures sizes { result ≡ count (kids_view self.now).sizes }
        ensures stamps { result ≡ count (kids_view self.now).stamps }
    {
        self.sizes.len() as u32
    }

    /// The bytes of all kids together.
    pub fn length(&self) -> u64
        ensures { result ≡ row_length (kids_view self.now).sizes }
    {
        self.length
    }

    /// Adds a kid behind the others: its length, the length of the body of its END or 0 for a leaf,
    /// and its timestamp. On a refusal nothing changes.
    pub fn push(
        &mut self,
        length: u64,
        dir: u64,
        stamp: Option<VersionSet>,
    ) -> Result<(), AllocError>
        requires few { count (kids_view self.old).sizes + 1 < 2 ^ 32 }
        requires short { row_length (kids_view self.old).sizes + length < 2 ^ 64 }
        ensures ok { OnOk result (kids_view self.new
            ≡ with_kid (kids_view self.old) length dir (stamp_view stamp)) }
        ensures err { OnErr result (kids_view self.new ≡ kids_view self.old) }
    {
        self.sizes.reserve(1)?;
        self.inheriting = keep_stamp(&mut self.stored, self.inheriting, stamp)?;
        self.sizes.push_reserved(Size { length, dir });
        self.length += length;
        Ok(())
    }

    /// The intervals of the effective sets of all kids, one set behind another, where their parent
    /// has this set.
    pub fn pairs(&self, alloc: Global, set: &VersionSet) -> Result<Vec<(u32, u32)>, AllocError>
        ensures { IfOk result (λ v. v.items
            ≡ flat_map (λ s. s) (sets_in (pairs_of set.now) (kids_view self.now).stamps)) }
    {
        let mut pairs = Vec::new(alloc);
        for kid in &self.stored {
            add_times(&mut pairs, set.pairs(), kid.inheriting)?;
            pairs.extend_from_slice(kid.set.pairs())?;
        }
        add_times(&mut pairs, set.pairs(), self.inheriting)?;
        Ok(pairs)
    }

    /// The sizes of all kids.
    pub(crate) fn sizes(&self) -> &[Size]
        ensures { map size_view result.now ≡ (kids_view self.now).sizes }
    {
        &self.sizes
    }

    /// The effective sets of all kids, where their parent has this set.
    pub(crate) fn sets<'a>(&'a self, set: &'a VersionSet) -> Sets<'a>
        ensures { sets_view result ≡ sets_in (pairs_of set.now) (kids_view self.now).stamps }
    {
        Sets {
            row: set,
            stored: &self.stored,
            inheriting: self.inheriting,
        }
    }
}

/// Adds the intervals so many times.
#[tactic(auto, using(crate::proofs::Times::times_more))]
fn add_times(pairs: &mut Vec<(u32, u32)>, more: &[(u32, u32)], times: u32) -> Result<(), AllocError>
    ensures { OnOk result (pairs.new.items
        ≡ pairs.old.items ++ flat_map (λ s. s) (replicate times more.now)) }
{
    for _ in 0..times {
        pairs.extend_from_slice(more)?;
    }
    Ok(())
}

/// Keeps the timestamp of one more kid, and answers how many inherit behind the last stored set.
fn keep_stamp(
    stored: &mut Vec<Stored>,
    inheriting: u32,
    stamp: Option<VersionSet>,
) -> Result<u32, AllocError>
    requires { inheriting + 1 < 2 ^ 32 }
    ensures ok { IfOk result (λ n. stamps_in (map stored_view stored.new.items) n
        ≡ stamps_in (map stored_view stored.old.items) inheriting ++ stamp_view stamp ∷ []) }
    ensures err { OnErr result (stored.new.items ≡ stored.old.items) }
{
    match stamp {
        Some(set) => {
            stored.push(Stored { inheriting, set })?;
            Ok(0)
        }
        None => Ok(inheriting + 1),
    }
}
