ghost use Rattle.std.specs.Prelude.{◌≡◌, ◌≤◌, IfSome, None};
ghost use Rattle.xa_outside.specs.Causes.{Rose};
ghost use Rattle.xa_outside.specs.Meter.{numbers};
ghost use Rattle.xa_outside.specs.Numbers.{numbers_none};

use crate::draft::Draft;
use crate::opened::OpenFiles;
use crate::system::System;
use crate::target::{followed, is_draft};
use std::alloc::Global;
use xa_outside::{Failed, Folder, Meter};

/// The files of the folder that the program runs in.
///
/// It keeps the two files that were asked for last open, with pages of what it read, so that two are read side by side. What is read
/// of a file is of the one whose length was told last, unless a third was asked for in between. What is appended is gathered,
/// 64 KiB at most, and written to a draft that `commit` renames: a file is replaced whole or not at all. The names of drafts are
/// refused, and want of memory is a failure as any other. It tells no files: what the system holds is trusted.
#[derive(Drop)]
pub struct DiskFolder<'a, R: System> {
    rt: &'a R,
    alloc: Global,
    files: OpenFiles<'a, R>,
    draft: Option<Draft<'a, R>>,
    meter: Meter,
    faults: u64,
}

fn remove<R: System>(draft: &mut Option<Draft<'_, R>>)
    ensures { draft.new ≡ None }
{
    if let Some(draft) = draft.take() {
        draft.remove();
    }
}

impl<'a, R: System> DiskFolder<'a, R> {
    /// The folder, of which nothing is read or drafted yet.
    pub fn new(rt: &'a R, alloc: Global) -> DiskFolder<'a, R>
        ensures counts { ⟦<DiskFolder<'a, R> as Folder>⟧.numbers result ≡ numbers_none }
        ensures faults { ⟦<DiskFolder<'a, R> as Folder>⟧.faults result ≡ 0 }
    {
        DiskFolder {
            rt,
            alloc,
            files: OpenFiles::new(rt, alloc),
            draft: None,
            meter: Meter::new(),
            faults: 0,
        }
    }

    /// Removes a draft that was not committed.
    pub fn discard(&mut self)
        ensures counts { ⟦<DiskFolder<'a, R> as Folder>⟧.numbers self.new
            ≡ ⟦<DiskFolder<'a, R> as Folder>⟧.numbers self.old }
        ensures faults { ⟦<DiskFolder<'a, R> as Folder>⟧.faults self.new
            ≡ ⟦<DiskFolder<'a, R> as Folder>⟧.faults self.old }
    {
        remove(&mut self.draft);
    }

    /// Makes a draft in place of the one before, which is removed. None on a failure.
    fn start(&mut self) -> Option<()>
        ensures none { result ≡ None → self.new.draft ≡ None }
        ensures meter { self.new.meter ≡ self.old.meter }
        ensures faults { self.new.faults ≡ self.old.faults }
    {
        remove(&mut self.draft);
        self.draft = Some(Draft::make(self.rt, self.alloc, "")?);
        Some(())
    }

    /// Makes the draft a file of this name. None on a failure, and where the file that was read under this name has been replaced or
    /// written since then.
    fn finish(&mut self, name: &str) -> Option<()>
        ensures none { IfSome result (λ done. self.new.draft ≡ None) }
        ensures meter { self.new.meter ≡ self.old.meter }
        ensures faults { self.new.faults ≡ self.old.faults }
    {
        let draft = self.draft.as_mut()?;
        let target = followed(self.rt, self.alloc, name)?;
        if !self.files.is_as_read(name, target.replaced) {
            return None;
        }
        draft.put(&target)?;
        self.draft = None;
        self.files.clear();
        Some(())
    }

    fn fail(&mut self) -> Failed
        ensures meter { self.new.meter ≡ self.old.meter }
        ensures later { self.old.faults ≤ self.new.faults }
        ensures rose { Rose self.old.faults self.new.faults }
    {
        self.faults = self.faults.saturating_add(1);
        Failed
    }
}

impl<R: System> Folder for DiskFolder<'_, R> {
    ghost use Rattle.xa_outside.specs.Meter.{meter_law};

    ghost files = { λ _. None };

    ghost draft = { λ _. None };

    ghost numbers = { λ f. numbers f.meter };

    ghost faults = { λ f. f.faults };

    ghost metered = { λ f. meter_law f.meter };

    fn length(&mut self, name: &str) -> Result<Option<u64>, Failed> {
        if is_draft(name) {
            return Err(self.fail());
        }
        match self.files.length(name) {
            Some(length) => Ok(length),
            None => Err(self.fail()),
        }
    }

    fn read_at(&mut self, name: &str, at: u64, buf: &mut [u8]) -> Result<usize, Failed> {
        match self.files.read(name, at, buf) {
            Some(count) => {
                self.meter.pull(count);
                Ok(count)
            }
            None => Err(self.fail()),
        }
    }

    fn begin(&mut self) -> Result<(), Failed> {
        match self.start() {
            Some(()) => {
                self.meter.begin();
                Ok(())
            }
            None => Err(self.fail()),
        }
    }

    fn append(&mut self, piece: &[u8]) -> Result<(), Failed> {
        let added = match &mut self.draft {
            Some(draft) => draft.append(piece),
            None => None,
        };
        match added {
            Some(()) => {
                self.meter.draft(piece.len());
                Ok(())
            }
            None => Err(self.fail()),
        }
    }

    fn commit(&mut self, name: &str) -> Result<(), Failed> {
        match self.finish(name) {
            Some(()) => Ok(()),
            None => Err(self.fail()),
        }
    }
}
