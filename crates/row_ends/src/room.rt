// Bytes that are compared with those of a file, from the last to the first.
ghost use Rattle.std.specs.Prelude.{◌≡◌, ℕ, List, ◌+◌, ◌≤◌, ◌<◌, ◌^◌, ◌++◌, [], length, take, drop, None, IfOk, OnOk};
ghost use Rattle.xa_outside.specs.Numbers.{PullsAtMost};
ghost use Rattle.record_cursor.specs.Moves.{TellsFront};
ghost use Rattle.record_cursor.specs.Steps.{OnlyReads};
ghost use Rattle.row_ends.specs.Rooms.{place};
ghost use Rattle.row_ends.specs.declared.room.TheConstants.{PIECE};
ghost use Rattle.row_ends.specs.Expected.{Expected, Compared, IsFound, stop_fault};

use crate::stop::Stop;
use record_cursor::fill_first;
use std::alloc::{AllocError, Global};
use std::marker::Model;
use xa_outside::Folder;

/// So many bytes are read at once, at most.
const PIECE: usize = 65_536;

/// The memory in which bytes are compared with those of a file, twice 64 KiB. It is used again for
/// the next ones.
#[derive(Drop)]
pub struct Room {
    /// Where the bytes of the file begin.
    low: u64,
    /// Where those begin that were compared.
    at: u64,
    /// Where the bytes begin that are expected in front of those.
    from: usize,
    expected: Vec<u8>,
    read: Vec<u8>,
}

impl Model for Room {
    ghost use Rattle.std.specs.Prelude.{◌≡◌, ◌+◌, ◌≤◌, length, drop};
    ghost use Rattle.row_ends.specs.Rooms.{PlainRoom};
    ghost use Rattle.row_ends.specs.declared.room.TheConstants.{PIECE};

    ghost Value = { PlainRoom };

    ghost view = { λ r. record { low = r.low; at = r.at; pending = drop r.from r.expected.items } };

    ghost invariant = { λ r. (r.from ≤ PIECE) × (length r.expected.items ≡ PIECE)
        × (length r.read.items ≡ PIECE)
        × (r.low + length (drop r.from r.expected.items) ≤ r.at) };
}

impl Room {
    /// Takes the memory.
    pub fn new(alloc: Global) -> Result<Room, AllocError> {
        let expected = blank(alloc)?;
        let read = blank(alloc)?;
        Ok(Room {
            low: 0,
            at: 0,
            from: PIECE,
            expected,
            read,
        })
    }

    /// Begins with the bytes of a file from one offset to another.
    pub(crate) fn begin(&mut self, low: u64, at: u64)
        requires { low ≤ at }
        ensures { self.new ≡ record { low = low; at = at; pending = [] } }
    {
        self.low = low;
        self.at = at;
        self.from = PIECE;
    }

    /// Where the bytes end that are not yet expected.
    pub(crate) fn place(&self) -> u64
        ensures is { result ≡ place self.now }
        ensures within { self.now.low ≤ result }
    {
        self.at - (PIECE - self.from) as u64
    }

    /// Expects these bytes in front of those that were.
    pub(crate) fn expect<F: Folder>(
        &mut self,
        folder: &mut F,
        name: &str,
        text: &[u8],
    ) -> Result<(), Stop>
        requires { length text.now ≤ 8 }
        ensures { Expected F.files F.draft F.numbers F.faults name.now text.now
            folder.old folder.new self.old self.new result }
    {
        if self.place() - self.low < text.len() as u64 {
            return Err(Stop::Differs);
        }
        self.make_room(folder, name, text.len())?;
        self.put(text);
        Ok(())
    }

    /// Makes room for so many bytes in front of those that are pending.
    fn make_room<F: Folder>(&mut self, folder: &mut F, name: &str, size: usize) -> Result<(), Stop>
        requires { size ≤ 8 }
        ensures expected { Expected F.files F.draft F.numbers F.faults name.now []
            folder.old folder.new self.old self.new result }
        ensures room { OnOk result (size + length self.new.pending ≤ PIECE) }
    {
        if self.from >= size {
            return Ok(());
        }
        self.compare(folder, name)
    }

    /// Puts bytes in front of those that are pending.
    fn put(&mut self, text: &[u8])
        requires room { length text.now + length self.old.pending ≤ PIECE }
        requires within { self.old.low + length text.now ≤ place self.old }
        ensures { self.new ≡ record {
          low = self.old.low;
          at = self.old.at;
          pending = text.now ++ self.old.pending;
        } }
    {
        let end = self.from;
        self.from = end - text.len();
        self.expected[self.from..end].copy_from_slice(text);
    }

    /// Compares the bytes that are pending.
    fn compare<F: Folder>(&mut self, folder: &mut F, name: &str) -> Result<(), Stop>
        ensures expected { Expected F.files F.draft F.numbers F.faults name.now []
            folder.old folder.new self.old self.new result }
        ensures none { self.new.pending ≡ [] }
    {
        let from = self.from;
        self.at -= (PIECE - from) as u64;
        self.from = PIECE;
        find(
            folder,
            name,
            self.at,
            &self.expected[from..],
            &mut self.read,
        )
    }

    /// Compares the bytes that are pending, where no others are left.
    pub(crate) fn finish<F: Folder>(&mut self, folder: &mut F, name: &str) -> Result<(), Stop>
        ensures { Compared F.files F.draft F.numbers F.faults name.now []
            folder.old folder.new self.old result }
    {
        if self.place() > self.low {
            return Err(Stop::Differs);
        }
        self.compare(folder, name)
    }
}

/// Room for a piece.
fn blank(alloc: Global) -> Result<Vec<u8>, AllocError>
    ensures { IfOk result (λ room. length room.items ≡ PIECE) }
{
    let mut room = Vec::new(alloc);
    room.resize(PIECE, 0)?;
    Ok(room)
}

/// Looks whether these bytes stand at an offset of a file. They are read into the room.
fn find<F: Folder>(
    folder: &mut F,
    name: &str,
    at: u64,
    expected: &[u8],
    room: &mut Vec<u8>,
) -> Result<(), Stop>
    requires fits { at + length expected.now < 2 ^ 64 }
    requires within { length expected.now ≤ length room.old.items }
    ensures reads { OnlyReads F.files F.draft F.faults
        folder.old folder.new (stop_fault result) }
    ensures pulls { PullsAtMost (length expected.now)
        (F.numbers folder.old) (F.numbers folder.new) }
    ensures told { (end : ℕ) (bytes : List ℕ) → TellsFront (F.files folder.old) name.now end bytes
        → at + length expected.now ≤ end
        → IsFound expected.now (take (length expected.now) (drop at bytes)) result }
    ensures room { length room.new.items ≡ length room.old.items }
{
    let size = expected.len();
    match fill_first(folder, name, at, size, room) {
        Ok(()) => compared(expected, &room[..size]),
        Err(fault) => Err(Stop::Fault(fault)),
    }
}

fn compared(expected: &[u8], found: &[u8]) -> Result<(), Stop>
    ensures found { IsFound expected.now found.now result }
    ensures fault { stop_fault result ≡ None }
{
    if expected == found {
        Ok(())
    } else {
        Err(Stop::Differs)
    }
}
