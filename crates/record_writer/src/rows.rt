// The nodes that stand begun.
ghost use Rattle.std.specs.Prelude.{◌≡◌, ◌≤◌, ◌<◌, length};
ghost use Rattle.record_writer.specs.Places.{above};

use crate::places::find_set;
use record_format::Entry;
use std::alloc::{AllocError, Global};
use version_set::VersionSet;

/// A row of more children gives its memory back when it is closed.
const KEPT: usize = 1024;

/// The finished children of a node that stands begun, or of the virtual root.
#[derive(Drop)]
pub struct Row {
    /// The offset of the first child's first byte.
    pub start: u64,
    pub entries: Vec<Entry>,
    /// For each child the place of its effective set.
    pub places: Vec<usize>,
    /// The effective set of the node, and others that children have.
    pub sets: Vec<VersionSet>,
    pub ghost paired: { length places.items ≡ length entries.items },
    pub ghost known: { above places.items ≤ length sets.items },
}

/// An inner node that stands begun.
#[derive(Drop)]
pub struct Inner {
    /// The offset of its first byte.
    pub begin: u64,
    /// The place of its effective set in the row that it stands in.
    pub set: usize,
    /// The row that it stands in.
    pub row: Row,
    pub ghost placed: { set < length row.sets.items },
}

/// A leaf that stands begun.
#[derive(Drop)]
pub struct Leaf {
    /// The offset of its first byte.
    pub begin: u64,
    /// The place of its effective set in the row that it stands in.
    pub set: usize,
}

impl Row {
    ghost use Rattle.std.specs.Prelude.{IfOk, OnOk};
    ghost use Rattle.version_set.specs.View.{pairs_of};
    ghost use Rattle.record_writer.specs.Calls.{row_from, with_child};
    ghost use Rattle.record_writer.specs.Places.{IsAtEnd, set_at};
    ghost use Rattle.record_writer.specs.Rows.{row_view};

    /// A row without children.
    pub fn new(alloc: Global, start: u64) -> Row
        ensures { row_view result ≡ row_from start }
    {
        Row {
            start,
            entries: Vec::new(alloc),
            places: Vec::new(alloc),
            sets: Vec::new(alloc),
        }
    }

    /// A row without children that has the memory of this one.
    fn again(self, start: u64) -> Row
        ensures { row_view result ≡ row_from start }
    {
        let mut entries = self.entries;
        let mut places = self.places;
        let mut sets = self.sets;
        entries.clear();
        places.clear();
        sets.clear();
        Row {
            start,
            entries,
            places,
            sets,
        }
    }

    /// The place of this set. It is copied where it is neither the first nor the last.
    pub fn place(&mut self, set: &VersionSet) -> Result<usize, AllocError>
        ensures at { IfOk result (λ at. set_at self.new.sets.items at ≡ pairs_of set.now) }
        ensures known { IfOk result (λ at. at < length self.new.sets.items) }
        ensures more { length self.old.sets.items ≤ length self.new.sets.items }
        ensures row { row_view self.new ≡ row_view self.old }
        ensures kept { IsAtEnd self.old.sets.items (pairs_of set.now)
            → self.new.sets ≡ self.old.sets }
    {
        if let Some(at) = find_set(&self.sets, set) {
            return Ok(at);
        }
        let at = self.sets.len();
        let set = set.copy()?;
        self.sets.push(set)?;
        Ok(at)
    }

    /// Adds a child from one offset to another, with the length of the body of its END or 0, and
    /// the set at this place.
    pub fn add(&mut self, begin: u64, end: u64, dir: u64, place: usize) -> Result<(), AllocError>
        requires behind { self.old.start ≤ begin }
        requires within { begin ≤ end }
        requires known { place < length self.old.sets.items }
        ensures added { OnOk result (row_view self.new
            ≡ with_child (row_view self.old) begin end dir (set_at self.old.sets.items place)) }
        ensures start { self.new.start ≡ self.old.start }
    {
        self.entries.reserve(1)?;
        self.places.reserve(1)?;
        let entry = Entry {
            start: begin - self.start,
            length: end - begin,
            dir,
        };
        self.entries.push_reserved(entry);
        self.places.push_reserved(place);
        Ok(())
    }

    /// A row without children, in the memory of one that was kept where there is one.
    pub fn take(alloc: Global, kept: &mut Vec<Row>, start: u64) -> Row
        ensures { row_view result ≡ row_from start }
    {
        match kept.pop() {
            Some(row) => row.again(start),
            None => Row::new(alloc, start),
        }
    }

    /// Keeps the memory of a row that is closed. A row of more than `KEPT` children is dropped, and
    /// so is one for which the list has no room.
    pub fn keep(self, kept: &mut Vec<Row>) {
        if self.entries.len() <= KEPT && kept.reserve(1).is_ok() {
            kept.push_reserved(self.again(0));
        }
    }
}
