// Judging a version that the header of a file does not count.
ghost use Rattle.std.specs.Prelude.{◌≡◌, ◌-◌, ◌<◌, ◌≤◌, ⊤, ℕ, List, length, None, Some, IfOk, IfErr, OnOk};
ghost use Rattle.std.specs.FinMap as map;
ghost use Rattle.xa_outside.specs.Folder.{Files, bytes_or_none, front_of};
ghost use Rattle.xa_outside.specs.Numbers.{PullsAtMost};
ghost use Rattle.record_cursor.specs.Faults.{IfDamage};
ghost use Rattle.record_cursor.specs.Moves.{TellsFront};
ghost use Rattle.record_cursor.specs.Steps.{OnlyReads, fault_of, Filled};

use record_cursor::{CursorFault, fill_part};
use xa_outside::Folder;

/// Nothing, where a file has so many bytes, and damage where it has fewer: only of a file that has
/// them all it may be said that it has no such version.
///
/// The last of them is read. Where the header, whose fixed fields have been read, is all of them, the
/// file's length is asked for.
pub(crate) fn judge_missing<F: Folder>(
    folder: &mut F,
    name: &str,
    first: u64,
    size: u64,
) -> Result<(), CursorFault>
    requires some { 1 ≤ first }
    requires within { first ≤ size }
    ensures reads { OnlyReads F.files F.draft F.faults folder.old folder.new (fault_of result) }
    ensures pulls { PullsAtMost 1 (F.numbers folder.old) (F.numbers folder.new) }
    ensures inside { PullsAtMost (size - first) (F.numbers folder.old) (F.numbers folder.new) }
    ensures short { (files : Files) → F.files folder.old ≡ Some files
        → front_of files name.now size ≡ None → IfOk result (λ _. ⊥) }
    ensures whole { (bytes : List ℕ) → TellsFront (F.files folder.old) name.now size bytes
        → Filled result (λ _. ⊤) }
{
    if first == size {
        return ask_length(folder, name, size);
    }
    let mut last = [0];
    match fill_part(folder, name, size - 1, &mut last) {
        Ok(()) => Ok(()),
        Err(fault) => Err(fault),
    }
}

// Nothing, where the file is told to have so many bytes by its length.
fn ask_length<F: Folder>(folder: &mut F, name: &str, size: u64) -> Result<(), CursorFault>
    requires { 1 ≤ size }
    ensures reads { OnlyReads F.files F.draft F.faults folder.old folder.new (fault_of result) }
    ensures numbers { F.numbers folder.new ≡ F.numbers folder.old }
    ensures told { (files : Files) → F.files folder.old ≡ Some files
        → OnOk result (size ≤ length (bytes_or_none (map.get files name.now))) }
    ensures damage { (files : Files) → F.files folder.old ≡ Some files → IfErr result (λ e.
        IfDamage e (length (bytes_or_none (map.get files name.now)) < size)) }
{
    match folder.length(name) {
        Ok(Some(length)) if size <= length => Ok(()),
        Ok(_) => Err(CursorFault::Damage),
        Err(_) => Err(CursorFault::Folder),
    }
}
