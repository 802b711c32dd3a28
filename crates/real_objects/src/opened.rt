ghost use Rattle.std.specs.Prelude.{◌≡◌, ◌≤◌, ◌<◌, ◌↔◌, ◌⊎◌, IfSome, IsFalse, IsSomeAnd, IsTrue, None, Some, length, string_bytes};
ghost use Rattle.real_objects.specs.Mark.{IsSame};

use crate::calls::{self, is_absent};
use crate::pages::{Page, Pages};
use crate::same_name::is_same;
use crate::system::{Kind, Mark, Seen, System};
use crate::target::is_draft;
use std::alloc::Global;
use std::mem;

/// How many seconds a file has to rest before its times tell each change: a file system counts time in ticks, of two seconds where
/// they are longest, and a second change in one tick shows in no time.
const TICK: i64 = 2;

/// A file that stays open between reads, with pages of its bytes.
#[derive(Drop)]
struct Opened<F: Drop> {
    name: String,
    file: F,
    // As it was when it was opened.
    mark: Mark,
    // Whether each change since then shows in the mark.
    is_settled: bool,
    pages: Pages,
}

/// What a name leads to.
#[derive(Drop)]
enum Found<F: Drop> {
    File(Opened<F>),
    Nothing,
    /// A file that can't be opened.
    Closed,
}

impl<F: Drop> Opened<F> {
    /// Whether it has this name.
    #[inline]
    fn is_named(&self, name: &str) -> bool
        ensures { IsTrue result ↔ (string_bytes self.now.name ≡ name.now) }
    {
        if self.name.len() < 8 {
            return self.name.as_str() == name;
        }
        is_same(self.name.as_bytes(), name.as_bytes())
    }

    /// Whether it is still the file of this mark, with the bytes that its pages hold.
    fn is_as_marked(&self, mark: &Mark) -> bool
        ensures { IsTrue result
            ↔ (IsTrue self.now.is_settled × IsSame self.now.mark mark.now) }
    {
        self.is_settled && self.mark.is_same(mark)
    }

    /// Whether this was found: the same file, of the same length, and written last at the same moment.
    fn is_found(&self, found: Option<Seen>) -> bool
        ensures { IsTrue result → IsSomeAnd found (λ f. (f.mark.device ≡ self.now.mark.device)
            × (f.mark.inode ≡ self.now.mark.inode) × (f.mark.length ≡ self.now.mark.length)) }
    {
        let Some(found) = found else {
            return false;
        };
        let (own, other) = (&self.mark, &found.mark);
        if own.device != other.device || own.inode != other.inode || own.length != other.length {
            return false;
        }
        own.modified.is_same(&other.modified)
    }

    /// Whether it may stay open where the file of this name has this mark.
    fn may_stay(&self, name: &str, mark: Option<Mark>) -> bool
        ensures fresh { IsTrue result → string_bytes self.now.name ≡ name.now
            → IsTrue self.now.is_settled × IsSomeAnd mark (λ m. IsSame self.now.mark m) }
        ensures other { IsFalse result → string_bytes self.now.name ≡ name.now }
    {
        if !self.is_named(name) {
            return true;
        }
        match mark {
            Some(mark) => self.is_as_marked(&mark),
            None => false,
        }
    }
}

/// The open file, unless it has this name and another mark: then it is let go.
fn kept<F: Drop>(opened: Option<Opened<F>>, name: &str, mark: Option<Mark>) -> Option<Opened<F>>
    ensures fresh { IfSome result (λ o. string_bytes o.name ≡ name.now
        → IsTrue o.is_settled × IsSomeAnd mark (λ m. IsSame o.mark m)) }
    ensures same { IfSome result (λ o. opened ≡ Some o) }
    ensures gone { result ≡ None → IfSome opened (λ o. string_bytes o.name ≡ name.now) }
{
    let file = opened?;
    if file.may_stay(name, mark) {
        Some(file)
    } else {
        None
    }
}

/// The mark of a file as it is now. Some of None where there is nothing, None on a failure or where the name is that of
/// anything else.
fn marked<R: System>(rt: &R, name: &str) -> Option<Option<Mark>> {
    match calls::seen(rt, name) {
        Ok(seen) if seen.kind == Kind::File => Some(Some(seen.mark)),
        Err(error) if is_absent(&error) => Some(None),
        _ => None,
    }
}

/// Opens what stands under a name that a file had when it was looked at: a pipe would have to be waited for. None on a failure.
#[inline(never)]
fn open<R: System>(rt: &R, alloc: Global, name: &str) -> Option<Found<R::File>> {
    match calls::open(rt, name) {
        Ok(file) => keep(rt, alloc, name, file),
        Err(error) if is_absent(&error) => Some(Found::Nothing),
        Err(_) => Some(Found::Closed),
    }
}

/// The open file, to be read under this name.
fn keep<R: System>(rt: &R, alloc: Global, name: &str, file: R::File) -> Option<Found<R::File>> {
    let name = String::from_str(alloc, name).ok()?;
    let file = rt.raised(file).ok()?;
    // (the clock is asked before the file is looked at: what changes after that look changes later than the clock said)
    let now = rt.now().ok()?;
    let seen = calls::seen_open(rt, &file).ok()?;
    if seen.kind != Kind::File {
        return None;
    }
    Some(Found::File(Opened {
        name,
        file,
        mark: seen.mark,
        is_settled: seen.mark.changed.seconds.saturating_add(TICK) < now,
        pages: Pages::new(alloc),
    }))
}

/// The two files that were read last, so that two are read side by side.
#[derive(Drop)]
pub struct OpenFiles<'a, R: System> {
    rt: &'a R,
    alloc: Global,
    // From `first` was read last, when pages had to be.
    first: Option<Opened<R::File>>,
    second: Option<Opened<R::File>>,
}

/// Whether the file is open under this name.
fn has_name<F: Drop>(opened: &Option<Opened<F>>, name: &str) -> bool
    ensures { IsTrue result ↔ IsSomeAnd opened.now (λ o. string_bytes o.name ≡ name.now) }
{
    match opened {
        Some(opened) => opened.is_named(name),
        None => false,
    }
}

/// Whether the file is open under another name, or is the one that was found.
fn is_in_place<F: Drop>(opened: &Option<Opened<F>>, name: &str, found: Option<Seen>) -> bool {
    match (opened, found) {
        (Some(opened), found) if opened.is_named(name) => opened.is_found(found),
        _ => true,
    }
}

impl<'a, R: System> OpenFiles<'a, R> {
    pub fn new(rt: &'a R, alloc: Global) -> OpenFiles<'a, R>
        ensures first { result.first ≡ None }
        ensures second { result.second ≡ None }
    {
        OpenFiles {
            rt,
            alloc,
            first: None,
            second: None,
        }
    }

    /// Lets all files go.
    pub fn clear(&mut self)
        ensures first { self.new.first ≡ None }
        ensures second { self.new.second ≡ None }
    {
        self.first = None;
        self.second = None;
    }

    /// The length of the named file as it is now. Some of None where there is no such file, None on a failure. An open file of that
    /// name goes, with its pages, if it is another file now, or may have been written. A file that is not open is opened, so that
    /// what is read then is of the file whose length this is; where it may not be read, its length is told all the same.
    pub fn length(&mut self, name: &str) -> Option<Option<u64>>
        ensures first { IfSome result (λ r. IfSome self.new.first
            (λ o. string_bytes o.name ≡ name.now → r ≡ Some o.mark.length)) }
        ensures second { IfSome result (λ r. IfSome self.new.second
            (λ o. string_bytes o.name ≡ name.now → r ≡ Some o.mark.length)) }
    {
        let found = marked(self.rt, name);
        self.keep_only(name, found.flatten());
        let Some(mark) = found? else {
            return Some(None);
        };
        if has_name(&self.first, name) || has_name(&self.second, name) {
            return Some(Some(mark.length));
        }
        match open(self.rt, self.alloc, name)? {
            Found::File(opened) => {
                let length = opened.mark.length;
                self.hold(opened);
                Some(Some(length))
            }
            Found::Nothing => Some(None),
            Found::Closed => Some(Some(mark.length)),
        }
    }

    /// Holds a file that was opened, in place of the one that was read before the last.
    fn hold(&mut self, opened: Opened<R::File>)
        ensures first { self.new.first ≡ Some opened }
        ensures second { self.new.second ≡ self.old.first }
    {
        self.second = self.first.take();
        self.first = Some(opened);
    }

    /// Whether the named file, if it is open, is the one that was found there now, unchanged but for who may use it.
    pub fn is_as_read(&self, name: &str, found: Option<Seen>) -> bool {
        is_in_place(&self.first, name, found) && is_in_place(&self.second, name, found)
    }

    /// Lets an open file of this name go, unless it has this mark.
    fn keep_only(&mut self, name: &str, mark: Option<Mark>)
        ensures first { IfSome self.new.first (λ o. string_bytes o.name ≡ name.now
            → IsTrue o.is_settled × IsSomeAnd mark (λ m. IsSame o.mark m)) }
        ensures second { IfSome self.new.second (λ o. string_bytes o.name ≡ name.now
            → IsTrue o.is_settled × IsSomeAnd mark (λ m. IsSame o.mark m)) }
    {
        self.first = kept(self.first.take(), name, mark);
        self.second = kept(self.second.take(), name, mark);
    }

    /// The open file of this name.
    #[inline]
    fn named(&self, name: &str) -> Option<&Opened<R::File>>
        ensures named { IfSome result (λ o. string_bytes o.now.name ≡ name.now) }
        ensures open { IfSome result (λ o.
            (self.now.first ≡ Some o.now) ⊎ (self.now.second ≡ Some o.now)) }
    {
        match &self.first {
            Some(opened) if opened.is_named(name) => return Some(opened),
            _ => {}
        }
        match &self.second {
            Some(opened) if opened.is_named(name) => Some(opened),
            _ => None,
        }
    }

    /// The page that was read last of the named file, where it holds what stands at the offset.
    #[inline]
    fn hinted(&self, name: &str, at: u64) -> Option<&Page>
        ensures named { IfSome result (λ p.
            IsSomeAnd self.now.first (λ o. string_bytes o.name ≡ name.now)
            ⊎ IsSomeAnd self.now.second (λ o. string_bytes o.name ≡ name.now)) }
    {
        match self.named(name) {
            Some(opened) => opened.pages.hinted(at),
            None => None,
        }
    }

    /// Puts what any page holds of the named file, from the offset on, at the front of the buffer.
    fn copy_any(&mut self, name: &str, at: u64, buf: &mut [u8]) -> usize
        ensures bound { result ≤ length buf.new }
        ensures named { 0 < result
            → IsSomeAnd self.old.first (λ o. string_bytes o.name ≡ name.now)
            ⊎ IsSomeAnd self.old.second (λ o. string_bytes o.name ≡ name.now) }
    {
        if let Some(opened) = &mut self.first {
            if opened.is_named(name) {
                return opened.pages.copy_any(at, buf);
            }
        }
        match &mut self.second {
            Some(opened) if opened.is_named(name) => opened.pages.copy_any(at, buf),
            _ => 0,
        }
    }

    /// Reads what is held of the named file from the offset on, or else what stands in the file. None on a failure.
    #[inline(never)]
    pub fn read(&mut self, name: &str, at: u64, buf: &mut [u8]) -> Option<usize>
        ensures { IfSome result (λ n. n ≤ length buf.new) }
    {
        if !buf.is_empty() {
            // No work is left behind the copy, so that nothing is kept over it.
            if let Some(page) = self.hinted(name, at) {
                return Some(page.copy(at, buf));
            }
        }
        self.read_on(name, at, buf)
    }

    /// The same where the page that was read last holds nothing there.
    #[inline(never)]
    fn read_on(&mut self, name: &str, at: u64, buf: &mut [u8]) -> Option<usize>
        ensures { IfSome result (λ n. n ≤ length buf.new) }
    {
        let held = self.copy_any(name, at, buf);
        if held > 0 {
            return Some(held);
        }
        if is_draft(name) {
            return None;
        }
        self.read_new(name, at, buf)
    }

    /// Reads from an offset of the named file at which nothing is held. A file that is not open is opened, in place of the one
    /// that was read before the last. None on a failure.
    #[cold]
    #[inline(never)]
    fn read_new(&mut self, name: &str, at: u64, buf: &mut [u8]) -> Option<usize>
        ensures { IfSome result (λ n. n ≤ length buf.new) }
    {
        if has_name(&self.second, name) {
            mem::swap(&mut self.first, &mut self.second);
        } else if !has_name(&self.first, name) {
            if marked(self.rt, name)?.is_none() {
                return Some(0);
            }
            match open(self.rt, self.alloc, name)? {
                Found::File(opened) => self.hold(opened),
                Found::Nothing => return Some(0),
                Found::Closed => return None,
            }
        }
        let opened = self.first.as_mut()?;
        opened.pages.read(self.rt, &opened.file, at, buf)
    }
}
