// The bodies that a leaf has had.
ghost use Rattle.std.specs.Option.{ForSome};
ghost use Rattle.new_archive.specs.Covered.{AreCovered, kept_bodies};

use crate::node::NewAlt;
use crate::spellings::places_with;
use std::alloc::{AllocError, Global};
use std::collections::BTreeMap;
use std::mem;

/// The bodies that a leaf has had, in the order of their first versions.
#[derive(Drop)]
pub struct Alts {
    pub items: Vec<NewAlt>,
    /// Where there are many: their places, by the encodings of all that have one.
    pub places: Option<Box<BTreeMap<Vec<u8>, usize>>>,
    pub ghost covered: { ForSome places
        (λ b. AreCovered (kept_bodies items.items) b.value.entries) },
}

impl Alts {
    ghost use Rattle.std.specs.Prelude.{◌≡◌, ◌++◌, ◌∷◌, [], IfOk, OnOk, map};
    ghost use Rattle.new_archive.specs.AltView.{alt_view};
    ghost use Rattle.new_archive.specs.View.{alts_view};

    /// One body alone.
    pub fn one(alloc: Global, alt: NewAlt) -> Result<Alts, AllocError>
        ensures { IfOk result (λ a. alts_view a ≡ alt_view alt ∷ []) }
    {
        let mut items = Vec::with_capacity(alloc, 1)?;
        items.push_reserved(alt);
        Ok(Alts {
            items,
            places: None,
        })
    }

    /// The body behind the others.
    pub fn push(&mut self, alloc: Global, alt: NewAlt) -> Result<(), AllocError>
        ensures { OnOk result (alts_view self.new ≡ alts_view self.old ++ alt_view alt ∷ []) }
    {
        let places = mem::replace(&mut self.places, None);
        let places = places_with(alloc, places, &self.items, &alt.body)?;
        self.items.push(alt)?;
        self.places = places;
        Ok(())
    }
}
