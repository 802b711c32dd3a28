// Reading a record that opens a node, wherever it stands.
ghost use Rattle.std.specs.Prelude.{◌≡◌, ◌+◌, ◌-◌, ◌≤◌, ℕ, List, drop, Some, IfOk};
ghost use Rattle.xa_outside.specs.Numbers.{PullsAtMost, after_pull};
ghost use Rattle.record_cursor.specs.Items.{PlainItem};
ghost use Rattle.record_cursor.specs.Moves.{TellsFront};
ghost use Rattle.record_cursor.specs.Next.{opening_at, size_of, read_for};
ghost use Rattle.record_cursor.specs.Places.{among_nodes};
ghost use Rattle.record_cursor.specs.Steps.{OnlyReads, fault_of, Finds};
ghost use Rattle.record_cursor.specs.View.{shown_item};

use crate::buffer::Buffer;
use crate::fault::CursorFault;
use crate::item::{Item, lend};
use crate::place::Place;
use crate::step::read_step;
use xa_outside::Folder;

/// The record at the offset, which opens a node or is an END, in the part of the file that ends
/// here, and the offset behind it.
///
/// It is read as a cursor among nodes reads it, into a buffer of the caller's: its kind is judged
/// before its body is read, and the body of an END is not read.
pub fn read_opening<'a, F: Folder>(
    folder: &mut F,
    name: &str,
    at: u64,
    end: u64,
    buffer: &'a mut Buffer,
) -> Result<(Item<'a>, u64), CursorFault>
    requires { at ≤ end }
    ensures reads { OnlyReads F.files F.draft F.faults folder.old folder.new (fault_of result) }
    ensures behind { IfOk result (λ o. o.1 ≡ at + size_of (among_nodes 0) (shown_item o.0)) }
    ensures within { IfOk result (λ o. o.1 ≤ end) }
    ensures numbers { IfOk result (λ o. F.numbers folder.new
        ≡ after_pull (F.numbers folder.old) (read_for (among_nodes 0) (shown_item o.0))) }
    ensures pulls { PullsAtMost (end - at) (F.numbers folder.old) (F.numbers folder.new) }
    ensures told { (bytes : List ℕ) → TellsFront (F.files folder.old) name.now end bytes
        → Finds (λ o. Some (shown_item o.0, drop o.1 bytes)) result
        (opening_at (drop at bytes)) }

    // Where such a record stands there, no more is pulled than is read for it, whatever is answered.
    ensures only { (bytes rest : List ℕ) (i : PlainItem)
        → TellsFront (F.files folder.old) name.now end bytes
        → opening_at (drop at bytes) ≡ Some (i, rest)
        → PullsAtMost (read_for (among_nodes 0) i)
        (F.numbers folder.old) (F.numbers folder.new) }
{
    let step = match read_step(folder, name, end, at, Place::Nodes { depth: 0 }, buffer) {
        Ok(step) => step,
        Err(fault) => return Err(fault),
    };
    match lend(step.read, buffer.as_slice()) {
        Some(item) => Ok((item, step.at)),
        None => Err(CursorFault::Damage),
    }
}
