ghost use Rattle.std.specs.Prelude.{◌≡◌, ◌+◌, ◌-◌, ◌/◌, ◌%◌, ◌≤◌, ◌<◌, ◌↔◌, IfNone, IfSome, IsSomeAnd, IsTrue, None, Some, length, min, slice_get, slice_index, take};
ghost use Rattle.real_objects.specs.Pages.{held_from};

use crate::calls;
use crate::system::System;
use std::alloc::Global;

/// How much is read where a file is read here and there.
const SMALL: usize = 4096;

/// How many small pages are held. What a search of a long file reads first stays held from search to search.
const SMALL_PAGES: usize = 64;

/// How much is read where a file is read on.
const LARGE: usize = 65536;

/// How many large pages are held: so many places of a file are read on side by side.
const LARGE_PAGES: usize = 8;

/// How many pages are held.
const PAGES: usize = SMALL_PAGES + LARGE_PAGES;

/// How many hints are kept.
const HINTS: usize = 64;

/// Copies as much as there is, and as there is room for.
#[inline]
fn copy_front(from: &[u8], buf: &mut [u8]) -> usize
    ensures count { result ≡ min (length buf.new) (length from.now) }
    ensures front { take result buf.new ≡ take result from.now }
{
    let count = buf.len().min(from.len());
    buf[..count].copy_from_slice(&from[..count]);
    count
}

/// A piece of a file: its offset, and so many bytes in front of the room.
#[derive(Drop)]
pub struct Page {
    start: u64,
    size: usize,
    room: Vec<u8>,
    ghost fits: { size ≤ length room.items },
}

impl Page {
    fn new(alloc: Global) -> Page
        ensures { result.size ≡ 0 }
    {
        Page {
            start: 0,
            size: 0,
            room: Vec::new(alloc),
        }
    }

    /// Whether the page holds what stands at the offset.
    #[inline]
    fn holds(&self, at: u64) -> bool
        ensures { IsTrue result
            ↔ ((self.now.start ≤ at) × (at < self.now.start + self.now.size)) }
    {
        at >= self.start && at - self.start < self.size as u64
    }

    /// Puts what the page holds from the offset on at the front of the buffer.
    #[inline]
    pub fn copy(&self, at: u64, buf: &mut [u8]) -> usize
        ensures bound { result ≤ length buf.new }
        ensures inside { 0 < result → self.now.start ≤ at }
        ensures count { self.now.start ≤ at
            → result ≡ min (length buf.new) (self.now.size - (at - self.now.start)) }
        ensures bytes { take result buf.new ≡ take result
            (held_from self.now.start self.now.size self.now.room.items at) }
    {
        let held = &self.room[..self.size];
        if at < self.start || at - self.start >= held.len() as u64 {
            return 0;
        }
        copy_front(&held[(at - self.start) as usize..], buf)
    }

    /// Whether the page is full, by this size, and ends at the offset.
    fn is_full_to(&self, at: u64, size: usize) -> bool {
        self.size == size && at >= size as u64 && self.start == at - size as u64
    }

    /// Fills the page from the offset on, as far as one read goes. None on a failure: the page is empty then.
    fn fill<R: System>(&mut self, rt: &R, file: &R::File, at: u64, size: usize) -> Option<()>
        ensures failed { result ≡ None → self.new.size ≡ 0 }
    {
        self.size = 0;
        self.start = at;
        self.room.resize(size, 0).ok()?;
        self.size = calls::read_at(rt, file, at, &mut self.room).ok()?;
        Some(())
    }
}

/// What was read of one file. A small page begins at a multiple of its size and has one place; a large one begins where a read
/// went on. A hint is the index of the page that had what was read last of a piece of the file: pieces are as long as large pages,
/// and a hint serves each 64th. Room is taken when a page is first used: at most 768 KiB.
#[derive(Drop)]
pub struct Pages {
    alloc: Global,
    // The small pages, and the large ones behind them: none before the first read.
    held: Vec<Page>,
    hints: [usize; HINTS],
    // Which large page is the next to go.
    turn: usize,
}

/// The place of the small page that has what stands at the offset.
#[inline]
fn place_of(at: u64) -> usize
    ensures { result ≡ (at / 4096) % 64 }
{
    (at / SMALL as u64 % SMALL_PAGES as u64) as usize
}

/// The piece that has what stands at the offset.
#[inline]
fn piece_of(at: u64) -> usize
    ensures { result ≡ (at / 65536) % 64 }
{
    (at / LARGE as u64 % HINTS as u64) as usize
}

impl Pages {
    pub fn new(alloc: Global) -> Pages {
        Pages {
            alloc,
            held: Vec::new(alloc),
            hints: [0; HINTS],
            turn: 0,
        }
    }

    /// The page of the hint, where it holds what stands at the offset.
    #[inline]
    pub fn hinted(&self, at: u64) -> Option<&Page>
        ensures holds { IfSome result
            (λ p. (p.now.start ≤ at) × (at < p.now.start + p.now.size)) }
        ensures hint { IfSome result (λ p. slice_get self.now.held.items
            (slice_index self.now.hints ((at / 65536) % 64)) ≡ Some p.now) }
    {
        match self.held.get(self.hints[piece_of(at)]) {
            Some(page) if page.holds(at) => Some(page),
            _ => None,
        }
    }

    /// Puts what the page of the hint holds from the offset on at the front of the buffer.
    fn copy(&self, at: u64, buf: &mut [u8]) -> usize
        ensures bound { result ≤ length buf.new }
        ensures bytes { IfSome
            (slice_get self.now.held.items (slice_index self.now.hints ((at / 65536) % 64)))
            (λ p. take result buf.new ≡ take result (held_from p.start p.size p.room.items at)) }
        ensures none { IfNone
            (slice_get self.now.held.items (slice_index self.now.hints ((at / 65536) % 64)))
            (result ≡ 0) }
    {
        match self.held.get(self.hints[piece_of(at)]) {
            Some(page) => page.copy(at, buf),
            None => 0,
        }
    }

    /// The same of any page, which the hint names then.
    #[inline(never)]
    pub fn copy_any(&mut self, at: u64, buf: &mut [u8]) -> usize
        ensures bound { result ≤ length buf.new }
        ensures bytes { 0 < result → IfSome
            (slice_get self.new.held.items (slice_index self.new.hints ((at / 65536) % 64)))
            (λ p. take result buf.new ≡ take result (held_from p.start p.size p.room.items at)) }
        ensures held { self.new.held ≡ self.old.held }
    {
        let Some(index) = self.holding(at) else {
            return 0;
        };
        self.hints[piece_of(at)] = index;
        self.copy(at, buf)
    }

    /// The page that holds what stands at the offset: the small one that has its place there, or a large one.
    fn holding(&self, at: u64) -> Option<usize>
        ensures { IfSome result (λ i. IsSomeAnd (slice_get self.now.held.items i)
            (λ p. (p.start ≤ at) × (at < p.start + p.size))) }
    {
        let place = place_of(at);
        if let Some(page) = self.held.get(place) {
            if page.holds(at) {
                return Some(place);
            }
        }
        for index in SMALL_PAGES..self.held.len() {
            if self.held[index].holds(at) {
                return Some(index);
            }
        }
        None
    }

    /// Reads from an offset at which nothing is held: 0 only at the end of the file, or with an empty buffer. None on a failure.
    pub fn read<R: System>(
        &mut self,
        rt: &R,
        file: &R::File,
        at: u64,
        buf: &mut [u8],
    ) -> Option<usize>
        ensures { IfSome result (λ n. n ≤ length buf.new) }
    {
        if buf.is_empty() {
            return Some(0);
        }
        if buf.len() < LARGE {
            self.fill(rt, file, at)?;
            let held = self.copy_any(at, buf);
            if held > 0 {
                return Some(held);
            }
        }
        calls::read_at(rt, file, at, buf).ok()
    }

    /// Fills a large page from the offset on where the file is read on there, else the small page of the offset. None on a
    /// failure.
    fn fill<R: System>(&mut self, rt: &R, file: &R::File, at: u64) -> Option<()> {
        self.add_small_pages()?;
        if let Some(index) = self.ending_at(at) {
            return self.held.get_mut(index)?.fill(rt, file, at, LARGE);
        }
        if self.is_read_on(at) {
            let index = self.next_large()?;
            return self.held.get_mut(index)?.fill(rt, file, at, LARGE);
        }
        let start = at - at % SMALL as u64;
        self.held
            .get_mut(place_of(at))?
            .fill(rt, file, start, SMALL)
    }

    /// The full large page that ends at the offset: it is filled anew by the run that it is part of.
    fn ending_at(&self, at: u64) -> Option<usize> {
        for index in SMALL_PAGES..self.held.len() {
            if self.held[index].is_full_to(at, LARGE) {
                return Some(index);
            }
        }
        None
    }

    /// Whether the two small pages in front of the offset are held and full. One of them says less: a piece that is read here or
    /// there may lie on two pages.
    fn is_read_on(&self, at: u64) -> bool {
        self.is_small_to(at) && self.is_small_to(at.saturating_sub(SMALL as u64))
    }

    fn is_small_to(&self, at: u64) -> bool {
        match self.held.get(place_of(at.saturating_sub(1))) {
            Some(page) => page.is_full_to(at, SMALL),
            None => false,
        }
    }

    /// The large page that is the next to be filled from a new offset: a new one, or the next in turn.
    fn next_large(&mut self) -> Option<usize> {
        let index = self.turn;
        if self.held.len() < PAGES {
            self.held.push(Page::new(self.alloc)).ok()?;
        }
        self.turn = if index < LARGE_PAGES - 1 {
            index + 1
        } else {
            0
        };
        Some(SMALL_PAGES.saturating_add(index))
    }

    /// Makes the small pages, without room, unless they are there, with a place for the large ones.
    fn add_small_pages(&mut self) -> Option<()> {
        if !self.held.is_empty() {
            return Some(());
        }
        self.held.reserve(PAGES).ok()?;
        for _ in 0..SMALL_PAGES {
            self.held.push(Page::new(self.alloc)).ok()?;
        }
        Some(())
    }
}
