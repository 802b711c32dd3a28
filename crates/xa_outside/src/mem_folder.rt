ghost use Rattle.std.specs.Prelude.{◌≡◌, ◌+◌, ◌-◌, ◌^◌, ◌≤◌, ◌↔◌, ◌⊎◌, ◌<◌, IsTrue, [], Some, IfOk, OnOk, OnErr, length, option_map, take};
ghost use Rattle.std.specs.FinMap as map;
ghost use Rattle.std.specs.Io.{ReadsAtMost};
ghost use Rattle.std.specs.Bool.{OnTrue};
ghost use Rattle.xa_outside.specs.Causes.{HasCause, Rose};
ghost use Rattle.xa_outside.specs.Folder.{Drafts, DraftsPrefix, Gives, TellsLength, committed, emptied};
ghost use Rattle.xa_outside.specs.FolderPlan.{IsNextListed, after_call, made_none};
ghost use Rattle.xa_outside.specs.Numbers.{after_begin, after_pull, numbers_none};

use crate::copy::copy_at;
use crate::folder_script::FolderScript;
use crate::named_files::NamedFiles;
use crate::{Failed, Folder, FolderCall, FolderFail, Meter};
use std::alloc::{AllocError, Global};

/// Files in memory; listed calls fail.
#[derive(Drop)]
pub struct MemFolder {
    alloc: Global,
    files: NamedFiles,
    draft: Vec<u8>,
    meter: Meter,
    script: FolderScript,
    starved: u64,
}

impl MemFolder {
    ghost use Rattle.xa_outside.specs.InMemory.{folder_faults, folder_state};

    pub fn new(alloc: Global, fails: Vec<FolderFail>) -> MemFolder
        ensures { folder_state result
            ≡ record {
              files = map.empty;
              draft = [];
              numbers = numbers_none;
              plan = record { fails = fails.items; made = made_none };
              starved = 0;
            } }
    {
        MemFolder {
            alloc,
            files: NamedFiles::new(alloc),
            draft: Vec::new(alloc),
            meter: Meter::new(),
            script: FolderScript::new(fails),
            starved: 0,
        }
    }

    /// Makes these bytes the file of this name.
    pub fn put(&mut self, name: &str, bytes: Vec<u8>) -> Result<(), AllocError>
        ensures ok { OnOk result (folder_state self.new
            ≡ record (folder_state self.old) {
              files = map.insert (folder_state self.old).files name.now bytes.items;
            }) }
        ensures err { OnErr result (folder_state self.new ≡ folder_state self.old) }
    {
        match self.files.insert(name, bytes) {
            Ok(()) => Ok(()),
            Err(_) => Err(AllocError),
        }
    }

    /// The bytes of the file of this name.
    pub fn file(&self, name: &str) -> Option<&[u8]>
        ensures { option_map (λ s. s.now) result ≡ map.get (folder_state self.now).files name.now }
    {
        self.files.get(name)
    }

    /// The bytes that `read_at` gave.
    pub fn pulled(&self) -> u64
        ensures { result ≡ (folder_state self.now).numbers.pulled }
    {
        self.meter.pulled()
    }

    /// The bytes that `read_at` gave since the last `begin`.
    pub fn since(&self) -> u64
        ensures { result ≡ (folder_state self.now).numbers.since }
    {
        self.meter.since()
    }

    /// The most bytes by which what was given was ahead of what was appended, at any moment since
    /// the last `begin`.
    pub fn gap(&self) -> u64
        ensures { result ≡ (folder_state self.now).numbers.gap }
    {
        self.meter.gap()
    }

    /// How many growths were refused.
    pub fn starved(&self) -> u64
        ensures { result ≡ (folder_state self.now).starved }
    {
        self.starved
    }

    /// Whether this call of its kind fails at once.
    fn refuses(&mut self, call: FolderCall) -> bool
        ensures exact { IsTrue result ↔ (IsNextListed (folder_state self.old).plan call
            ⊎ (2 ^ 64 - 1 ≤ (folder_state self.old).starved)) }
        ensures plan { folder_state self.new
            ≡ record (folder_state self.old) {
              plan = after_call (folder_state self.old).plan call;
            } }
        ensures rose { OnTrue result (Rose (folder_faults self.old) (folder_faults self.new)) }
        ensures later { folder_faults self.old ≤ folder_faults self.new }
    {
        let listed = self.script.next_fails(call);
        listed || self.starved == u64::MAX
    }

    /// Counts a growth that was refused.
    fn starve(&mut self) -> Failed
        requires { (folder_state self.old).starved < 2 ^ 64 - 1 }
        ensures starved { folder_state self.new
            ≡ record (folder_state self.old) { starved = (folder_state self.old).starved + 1 } }
        ensures rose { Rose (folder_faults self.old) (folder_faults self.new) }
    {
        self.starved += 1;
        Failed
    }
}

impl Folder for MemFolder {
    ghost use Rattle.xa_outside.specs.InMemory.{CallsByPlan, folder_faults, folder_state};
    ghost use Rattle.xa_outside.specs.Meter.{meter_law};

    ghost files = { λ f. Some (folder_state f).files };

    ghost draft = { λ f. Some (folder_state f).draft };

    ghost numbers = { λ f. (folder_state f).numbers };

    ghost faults = { folder_faults };

    ghost metered = { λ f. meter_law f.meter };

    fn length(&mut self, name: &str) -> Result<Option<u64>, Failed>
        ensures told { IfOk result (λ r.
            TellsLength (Some (folder_state self.old).files) name.now r) }
        ensures files { Some (folder_state self.new).files ≡ Some (folder_state self.old).files }
        ensures draft { Some (folder_state self.new).draft ≡ Some (folder_state self.old).draft }
        ensures numbers { (folder_state self.new).numbers ≡ (folder_state self.old).numbers }
        ensures cause { HasCause (folder_faults self.old) (folder_faults self.new) result }
        ensures by_plan { CallsByPlan FolderCall.Length
            (folder_state self.old) (folder_state self.new) result }
    {
        if self.refuses(FolderCall::Length) {
            return Err(Failed);
        }
        match self.files.get(name) {
            Some(bytes) => Ok(Some(bytes.len() as u64)),
            None => Ok(None),
        }
    }

    /// Gives as much as there is, and as there is room for.
    fn read_at(&mut self, name: &str, at: u64, buf: &mut [u8]) -> Result<usize, Failed>
        ensures bound { ReadsAtMost result buf.new }
        ensures bytes { IfOk result (λ n. Gives (Some (folder_state self.old).files) name.now at
            (take n buf.new) (length buf.new)) }
        ensures files { Some (folder_state self.new).files ≡ Some (folder_state self.old).files }
        ensures draft { Some (folder_state self.new).draft ≡ Some (folder_state self.old).draft }
        ensures numbers { IfOk result (λ n. (folder_state self.new).numbers
            ≡ after_pull (folder_state self.old).numbers n) }
        ensures numbers_err { OnErr result ((folder_state self.new).numbers
            ≡ (folder_state self.old).numbers) }
        ensures cause { HasCause (folder_faults self.old) (folder_faults self.new) result }
        ensures by_plan { CallsByPlan FolderCall.ReadAt
            (folder_state self.old) (folder_state self.new) result }
    {
        if self.refuses(FolderCall::ReadAt) {
            return Err(Failed);
        }
        let count = match self.files.get(name) {
            Some(bytes) => copy_at(bytes, at, buf),
            None => 0,
        };
        self.meter.pull(count);
        Ok(count)
    }

    fn begin(&mut self) -> Result<(), Failed>
        ensures files { Some (folder_state self.new).files ≡ Some (folder_state self.old).files }
        ensures draft { OnOk result (Some (folder_state self.new).draft
            ≡ emptied (Some (folder_state self.old).draft)) }
        ensures draft_err { OnErr result (Some (folder_state self.new).draft
            ≡ Some (folder_state self.old).draft) }
        ensures numbers { OnOk result ((folder_state self.new).numbers
            ≡ after_begin (folder_state self.old).numbers) }
        ensures numbers_err { OnErr result ((folder_state self.new).numbers
            ≡ (folder_state self.old).numbers) }
        ensures cause { HasCause (folder_faults self.old) (folder_faults self.new) result }
        ensures by_plan { CallsByPlan FolderCall.Begin
            (folder_state self.old) (folder_state self.new) result }
    {
        if self.refuses(FolderCall::Begin) {
            return Err(Failed);
        }
        self.draft.clear();
        self.meter.begin();
        Ok(())
    }

    fn append(&mut self, piece: &[u8]) -> Result<(), Failed>
        ensures files { Some (folder_state self.new).files ≡ Some (folder_state self.old).files }
        ensures ok { OnOk result (Drafts (Some (folder_state self.old).draft)
            (Some (folder_state self.new).draft)
            (folder_state self.old).numbers (folder_state self.new).numbers piece.now) }
        ensures err { OnErr result (DraftsPrefix (Some (folder_state self.old).draft)
            (Some (folder_state self.new).draft)
            (folder_state self.old).numbers (folder_state self.new).numbers piece.now) }
        ensures cause { HasCause (folder_faults self.old) (folder_faults self.new) result }
        ensures by_plan { CallsByPlan FolderCall.Append
            (folder_state self.old) (folder_state self.new) result }
    {
        if self.refuses(FolderCall::Append) {
            return Err(Failed);
        }
        if self.draft.extend_from_slice(piece).is_err() {
            return Err(self.starve());
        }
        self.meter.draft(piece.len());
        Ok(())
    }

    fn commit(&mut self, name: &str) -> Result<(), Failed>
        ensures files { OnOk result (Some (folder_state self.new).files
            ≡ committed (Some (folder_state self.old).files)
            (Some (folder_state self.old).draft) name.now) }
        ensures draft { OnOk result (Some (folder_state self.new).draft
            ≡ emptied (Some (folder_state self.old).draft)) }
        ensures err { OnErr result ((Some (folder_state self.new).files
            ≡ Some (folder_state self.old).files)
            × (Some (folder_state self.new).draft ≡ Some (folder_state self.old).draft)) }
        ensures numbers { (folder_state self.new).numbers ≡ (folder_state self.old).numbers }
        ensures cause { HasCause (folder_faults self.old) (folder_faults self.new) result }
        ensures by_plan { CallsByPlan FolderCall.Commit
            (folder_state self.old) (folder_state self.new) result }
    {
        if self.refuses(FolderCall::Commit) {
            return Err(Failed);
        }
        let draft = std::mem::replace(&mut self.draft, Vec::new(self.alloc));
        match self.files.insert(name, draft) {
            Ok(()) => Ok(()),
            Err(draft) => {
                self.draft = draft;
                Err(self.starve())
            }
        }
    }
}
