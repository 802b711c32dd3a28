ghost use Rattle.std.specs.Prelude.{◌≡◌, OnOk, OnErr, IfErr, option_map};
ghost use Rattle.std.specs.FinMap as map;
ghost use Rattle.xa_outside.specs.NamedFiles.{stored_files};

use std::alloc::Global;
use std::collections::BTreeMap;

/// Files in memory, by their names.
#[derive(Drop)]
pub(crate) struct NamedFiles {
    alloc: Global,
    files: BTreeMap<String, Vec<u8>>,
}

impl NamedFiles {
    pub(crate) fn new(alloc: Global) -> NamedFiles
        ensures { stored_files result ≡ map.empty }
    {
        NamedFiles {
            alloc,
            files: BTreeMap::new(alloc),
        }
    }

    pub(crate) fn get(&self, name: &str) -> Option<&[u8]>
        ensures { option_map (λ s. s.now) result ≡ map.get (stored_files self.now) name.now }
    {
        match self.files.get(name) {
            Some(bytes) => Some(bytes),
            None => None,
        }
    }

    /// Gives these bytes to the name, in place of older ones. On refusal the bytes come back.
    pub(crate) fn insert(&mut self, name: &str, bytes: Vec<u8>) -> Result<(), Vec<u8>>
        ensures ok { OnOk result (stored_files self.new
            ≡ map.insert (stored_files self.old) name.now bytes.items) }
        ensures err { OnErr result (stored_files self.new ≡ stored_files self.old) }
        ensures back { IfErr result (λ back. back ≡ bytes) }
    {
        let Ok(name) = String::from_str(self.alloc, name) else {
            return Err(bytes);
        };
        match self.files.insert(name, bytes) {
            Ok(_older) => Ok(()),
            Err(refused) => Err(refused.value.1),
        }
    }
}
