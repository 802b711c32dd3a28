// Reading so many bytes of a file.
ghost use Rattle.std.specs.Prelude.{◌≡◌, ◌+◌, ◌<◌, ◌≤◌, ◌^◌, ℕ, List, length, take, drop, Some, OnOk, IfErr};
ghost use Rattle.std.specs.FinMap as map;
ghost use Rattle.xa_outside.specs.Folder.{Files, bytes_or_none};
ghost use Rattle.xa_outside.specs.Numbers.{PullsAtMost, after_pull};
ghost use Rattle.record_cursor.specs.Faults.{IfDamage};
ghost use Rattle.record_cursor.specs.Moves.{TellsFront};
ghost use Rattle.record_cursor.specs.Steps.{OnlyReads, fault_of, Filled};

use crate::fault::CursorFault;
use xa_outside::{Folder, fill_at};

/// Fills the buffer with the bytes of a file from the offset on. It is damaged where it has fewer.
pub fn fill_part<F: Folder>(
    folder: &mut F,
    name: &str,
    at: u64,
    out: &mut [u8],
) -> Result<(), CursorFault>
    requires { at + length out.old < 2 ^ 64 }
    ensures reads { OnlyReads F.files F.draft F.faults folder.old folder.new (fault_of result) }
    ensures numbers { OnOk result
        (F.numbers folder.new ≡ after_pull (F.numbers folder.old) (length out.old)) }
    ensures pulls { PullsAtMost (length out.old) (F.numbers folder.old) (F.numbers folder.new) }

    // Where the file is told, these are its bytes, and it is damaged only where it has fewer.
    ensures told { (files : Files) → F.files folder.old ≡ Some files → OnOk result
        (out.new ≡ take (length out.old) (drop at (bytes_or_none (map.get files name.now)))) }
    ensures damage { (files : Files) → F.files folder.old ≡ Some files → IfErr result (λ e.
        IfDamage e (length (bytes_or_none (map.get files name.now)) < at + length out.old)) }
{
    match fill_at(folder, name, at, out) {
        Ok(count) if count < out.len() => Err(CursorFault::Damage),
        Ok(_) => Ok(()),
        Err(_) => Err(CursorFault::Folder),
    }
}

/// Fills the front of the room with so many bytes of a file from the offset on. It is damaged where it has fewer.
pub fn fill_first<F: Folder>(
    folder: &mut F,
    name: &str,
    at: u64,
    size: usize,
    room: &mut [u8],
) -> Result<(), CursorFault>
    requires fits { at + size < 2 ^ 64 }
    requires within { size ≤ length room.old }
    ensures reads { OnlyReads F.files F.draft F.faults folder.old folder.new (fault_of result) }
    ensures numbers { OnOk result
        (F.numbers folder.new ≡ after_pull (F.numbers folder.old) size) }
    ensures pulls { PullsAtMost size (F.numbers folder.old) (F.numbers folder.new) }
    ensures told { (end : ℕ) (bytes : List ℕ) → TellsFront (F.files folder.old) name.now end bytes
        → at + size ≤ end
        → Filled result (λ _. take size room.new ≡ take size (drop at bytes)) }
    ensures damage { (files : Files) → F.files folder.old ≡ Some files → IfErr result (λ e.
        IfDamage e (length (bytes_or_none (map.get files name.now)) < at + size)) }
{
    fill_part(folder, name, at, &mut room[..size])
}
