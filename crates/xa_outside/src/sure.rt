ghost use Rattle.std.specs.Prelude.{◌≡◌, ◌≤◌, Some, None, OnOk, OnErr, option_map, vec_len};
ghost use Rattle.std.specs.FinMap as map;
ghost use Rattle.xa_outside.specs.Numbers.{numbers_none};
ghost use Rattle.xa_outside.specs.Taken.{plainly};

use crate::copy::{copy_at, copy_front};
use crate::named_files::NamedFiles;
use crate::{Failed, Folder, Meter, Sink, Source};
use std::alloc::{AllocError, Global};

/// A source that never fails.
#[derive(Drop)]
pub struct SureSource {
    bytes: Vec<u8>,
    at: usize,
    ghost in_range: { at ≤ vec_len bytes },
}

impl SureSource {
    ghost use Rattle.xa_outside.specs.InMemory.{sure_rest};

    pub fn new(bytes: Vec<u8>) -> SureSource
        ensures rest { sure_rest result ≡ bytes.items }
    {
        SureSource { bytes, at: 0 }
    }
}

impl Source for SureSource {
    ghost use Rattle.xa_outside.specs.InMemory.{sure_rest};

    ghost rest = { λ s. Some (sure_rest s) };

    ghost faults = { λ _. 0 };

    fn read(&mut self, buf: &mut [u8]) -> Result<usize, Failed> {
        let count = copy_front(&self.bytes[self.at..], buf);
        self.at += count;
        Ok(count)
    }
}

/// A sink that never fails, and drops what it takes.
#[derive(Drop)]
pub struct SureSink {}

impl SureSink {
    pub fn new() -> SureSink {
        SureSink {}
    }
}

impl Sink for SureSink {
    ghost taken = { λ _. plainly None };

    ghost faults = { λ _. 0 };

    fn write(&mut self, piece: &[u8]) -> Result<usize, Failed> {
        Ok(piece.len())
    }
}

/// Files that never fail. It drops what is appended, and tells nothing after a `commit`.
#[derive(Drop)]
pub struct SureFolder {
    files: NamedFiles,
    told: bool,
    meter: Meter,
}

impl SureFolder {
    ghost use Rattle.xa_outside.specs.InMemory.{sure_state};

    pub fn new(alloc: Global) -> SureFolder
        ensures { sure_state result ≡ record { files = Some map.empty; numbers = numbers_none } }
    {
        SureFolder {
            files: NamedFiles::new(alloc),
            told: true,
            meter: Meter::new(),
        }
    }

    /// Makes these bytes the file of this name.
    pub fn put(&mut self, name: &str, bytes: Vec<u8>) -> Result<(), AllocError>
        ensures ok { OnOk result (sure_state self.new ≡ record (sure_state self.old) {
          files = option_map (λ fs. map.insert fs name.now bytes.items) (sure_state self.old).files;
        }) }
        ensures err { OnErr result (sure_state self.new ≡ sure_state self.old) }
    {
        match self.files.insert(name, bytes) {
            Ok(()) => Ok(()),
            Err(_) => Err(AllocError),
        }
    }
}

impl Folder for SureFolder {
    ghost use Rattle.xa_outside.specs.InMemory.{sure_state};
    ghost use Rattle.xa_outside.specs.Meter.{meter_law};

    ghost files = { λ f. (sure_state f).files };

    ghost draft = { λ _. None };

    ghost numbers = { λ f. (sure_state f).numbers };

    ghost faults = { λ _. 0 };

    ghost metered = { λ f. meter_law f.meter };

    fn length(&mut self, name: &str) -> Result<Option<u64>, Failed> {
        match self.files.get(name) {
            Some(bytes) => Ok(Some(bytes.len() as u64)),
            None => Ok(None),
        }
    }

    fn read_at(&mut self, name: &str, at: u64, buf: &mut [u8]) -> Result<usize, Failed> {
        let count = match self.files.get(name) {
            Some(bytes) => copy_at(bytes, at, buf),
            None => 0,
        };
        self.meter.pull(count);
        Ok(count)
    }

    fn begin(&mut self) -> Result<(), Failed> {
        self.meter.begin();
        Ok(())
    }

    fn append(&mut self, piece: &[u8]) -> Result<(), Failed> {
        self.meter.draft(piece.len());
        Ok(())
    }

    fn commit(&mut self, _name: &str) -> Result<(), Failed> {
        self.told = false;
        Ok(())
    }
}
