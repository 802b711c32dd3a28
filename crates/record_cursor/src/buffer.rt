// The bytes that were read.
ghost use Rattle.std.specs.Prelude.{◌≡◌, ◌+◌, ◌≤◌, ◌<◌, ◌^◌, ℕ, List, [], length, take, drop, OnOk};
ghost use Rattle.xa_outside.specs.Numbers.{PullsAtMost, after_pull};
ghost use Rattle.record_cursor.specs.Moves.{TellsFront};
ghost use Rattle.record_cursor.specs.Steps.{OnlyReads, fault_of, Filled};

use crate::fault::CursorFault;
use crate::fill::{fill_first, fill_part};
use std::alloc::Global;
use std::marker::Model;
use xa_outside::Folder;

/// So many bytes take no memory.
const SHORT: usize = 256;

/// More room than this is not kept where less is read.
const GREAT: usize = 1_048_576;

/// The bytes that were read last: few of them in the value itself, more in memory of their own.
///
/// Up to 256 bytes take no memory. The room of more is used again; of more than 1 MiB the rest is
/// given back when less is read.
#[derive(Drop)]
pub struct Buffer {
    short: [u8; SHORT],
    long: Vec<u8>,
    size: usize,
}

impl Model for Buffer {
    ghost use Rattle.std.specs.Prelude.{ℕ, List, take, nat_le, if◌then◌else◌};

    ghost Value = { List ℕ };

    ghost view = { λ b. if nat_le b.size 256 then take b.size b.short else b.long.items };
}

impl Buffer {
    /// No bytes.
    pub fn new(alloc: Global) -> Buffer
        ensures { result ≡ [] }
    {
        Buffer {
            short: [0; SHORT],
            long: Vec::new(alloc),
            size: 0,
        }
    }

    /// The bytes.
    #[inline]
    pub fn as_slice(&self) -> &[u8]
        ensures value { result.now ≡ self.now }
    {
        if self.size <= SHORT {
            &self.short[..self.size]
        } else {
            &self.long
        }
    }

    /// Takes so many bytes of a file from the offset on.
    #[inline]
    pub fn fill<F: Folder>(
        &mut self,
        folder: &mut F,
        name: &str,
        at: u64,
        size: usize,
    ) -> Result<(), CursorFault>
        requires { at + size < 2 ^ 64 }
        ensures reads { OnlyReads F.files F.draft F.faults folder.old folder.new (fault_of result) }
        ensures numbers { OnOk result
            (F.numbers folder.new ≡ after_pull (F.numbers folder.old) size) }
        ensures pulls { PullsAtMost size (F.numbers folder.old) (F.numbers folder.new) }
        ensures size { OnOk result (length self.new ≡ size) }
        ensures told { (end : ℕ) (bytes : List ℕ)
            → TellsFront (F.files folder.old) name.now end bytes → at + size ≤ end
            → Filled result (λ _. self.new ≡ take size (drop at bytes)) }
    {
        self.size = size;
        give_back(&mut self.long, size);
        if size <= SHORT {
            fill_first(folder, name, at, size, &mut self.short)
        } else {
            fill_long(folder, name, at, size, &mut self.long)
        }
    }
}

/// Gives back what is great of the room, where less is read.
#[inline]
fn give_back(room: &mut Vec<u8>, size: usize) {
    if room.len() > GREAT && size < GREAT {
        room.truncate(GREAT);
        room.shrink_to_fit();
    }
}

/// Fills the room, which takes this size, with the bytes of a file from the offset on.
#[inline(never)]
fn fill_long<F: Folder>(
    folder: &mut F,
    name: &str,
    at: u64,
    size: usize,
    room: &mut Vec<u8>,
) -> Result<(), CursorFault>
    requires { at + size < 2 ^ 64 }
    ensures reads { OnlyReads F.files F.draft F.faults folder.old folder.new (fault_of result) }
    ensures numbers { OnOk result
        (F.numbers folder.new ≡ after_pull (F.numbers folder.old) size) }
    ensures pulls { PullsAtMost size (F.numbers folder.old) (F.numbers folder.new) }
    ensures size { OnOk result (length room.new.items ≡ size) }
    ensures told { (end : ℕ) (bytes : List ℕ) → TellsFront (F.files folder.old) name.now end bytes
        → at + size ≤ end → Filled result (λ _. room.new.items ≡ take size (drop at bytes)) }
{
    if room.resize(size, 0).is_err() {
        return Err(CursorFault::Memory);
    }
    match fill_part(folder, name, at, room) {
        Ok(()) => Ok(()),
        Err(fault) => Err(fault),
    }
}
