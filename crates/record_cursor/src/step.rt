// Reading one record, and judging whether it may come. A cursor and `read_opening` call it, and each is faster with a copy of its own.
ghost use Rattle.std.specs.Prelude.{◌≡◌, ◌≢◌, ◌+◌, ◌-◌, ◌<◌, ◌≤◌, ◌^◌, ℕ, List, [], ◌∷◌, ◌++◌, drop, take, Some, IfOk, OnOk, IsOkAnd, IsSomeAnd, bytes_eq, length as held};
ghost use Rattle.xa_fields.specs.Spelling.{u64_bytes};
ghost use Rattle.std.specs.FinMap as map;
ghost use Rattle.xa_outside.specs.Folder.{Files, bytes_or_none};
ghost use Rattle.xa_outside.specs.Numbers.{PullsAtMost, after_pull};
ghost use Rattle.record_cursor.specs.Items.{PlainItem, finish};
ghost use Rattle.record_cursor.specs.Moves.{TellsFront};
ghost use Rattle.record_cursor.specs.Next.{item_in, next_of, read_for, tail_at};
ghost use Rattle.record_cursor.specs.Places.{Standing, finished};
ghost use Rattle.record_cursor.specs.Steps.{OnlyReads, fault_of, Filled, Finds, IsFrame, IsInside, MayCome, IsRead, IsReadOf, IsReadAt, HasBody, read_item, body_size, body_read, Leads, step_view};
ghost use Rattle.record_cursor.specs.View.{place_view};
ghost use Rattle.record_cursor.specs.declared.item.Read.TheVariants.{Finish};

use crate::buffer::Buffer;
use crate::fault::CursorFault;
use crate::fill::fill_part;
use crate::item::Read;
use crate::place::{Place, behind};
use record_format::{END, FRAME, LEAF_END};
use xa_fields::take_u64;
use xa_outside::Folder;

/// The END's length once more, behind it.
const TAIL: u64 = 8;

/// What was read, and where the cursor stands behind it.
#[derive(Clone, Copy)]
pub(crate) struct Step {
    pub(crate) read: Read,
    pub(crate) place: Place,
    pub(crate) at: u64,
}

/// What comes next where the cursor stands, with the parts to lend in the buffer.
#[inline(always)]
pub(crate) fn read_step<F: Folder>(
    folder: &mut F,
    name: &str,
    length: u64,
    at: u64,
    place: Place,
    buffer: &mut Buffer,
) -> Result<Step, CursorFault>
    requires { at ≤ length }
    ensures reads { OnlyReads F.files F.draft F.faults folder.old folder.new (fault_of result) }
    ensures pulls { PullsAtMost (length - at) (F.numbers folder.old) (F.numbers folder.new) }
    ensures leads { IfOk result (λ step. (i : PlainItem) → IsRead step.read (held buffer.new) i
        → Leads (place_view place) at (F.numbers folder.old) (F.numbers folder.new) step i) }
    ensures within { IfOk result (λ step. step.at ≤ length) }
    ensures told { (bytes : List ℕ) → TellsFront (F.files folder.old) name.now length bytes
        → Finds (step_view bytes buffer.new) result
        (next_of (place_view place) (drop at bytes)) }

    // Where an item comes, no more is pulled than is read for it, whatever is answered.
    ensures only { (bytes rest : List ℕ) (i : PlainItem) (t : Standing)
        → TellsFront (F.files folder.old) name.now length bytes
        → next_of (place_view place) (drop at bytes) ≡ Some (i, (t, rest))
        → PullsAtMost (read_for (place_view place) i)
        (F.numbers folder.old) (F.numbers folder.new) }

    // Where the file is told, what was read is what its bytes spell.
    ensures spelled { (bytes : List ℕ) → TellsFront (F.files folder.old) name.now length bytes
        → IfOk result
        (λ step. IsReadAt step.read buffer.new (drop at bytes) (drop step.at bytes)) }
    ensures again { place_view place ≡ finished
        → IsOkAnd result (λ step. step.read ≡ Finish) }

    // That a file ends is found only where it has so many bytes.
    ensures whole { (files : Files) → F.files folder.old ≡ Some files → place_view place ≢ finished
        → IfOk result (λ step. step.read ≡ Finish
        → length ≤ held (bytes_or_none (map.get files name.now))) }
{
    match place {
        Place::Nodes { .. } | Place::Leaf { .. } => {
            read_record(folder, name, length, at, place, buffer)
        }
        Place::Tail { length: size } => match read_tail(folder, name, length, at, size) {
            Ok(()) => Ok(Step {
                read: Read::Finish,
                place: Place::Finished,
                at: length,
            }),
            Err(fault) => Err(fault),
        },
        Place::Finished => Ok(Step {
            read: Read::Finish,
            place,
            at,
        }),
    }
}

/// A record that may come where the cursor stands.
#[inline(always)]
fn read_record<F: Folder>(
    folder: &mut F,
    name: &str,
    length: u64,
    at: u64,
    place: Place,
    buffer: &mut Buffer,
) -> Result<Step, CursorFault>
    requires within { at ≤ length }
    requires inside { IsInside (place_view place) }
    ensures reads { OnlyReads F.files F.draft F.faults folder.old folder.new (fault_of result) }
    ensures pulls { PullsAtMost (length - at) (F.numbers folder.old) (F.numbers folder.new) }
    ensures leads { IfOk result (λ step. (i : PlainItem) → IsRead step.read (held buffer.new) i
        → Leads (place_view place) at (F.numbers folder.old) (F.numbers folder.new) step i) }
    ensures within { IfOk result (λ step. step.at ≤ length) }
    ensures told { (bytes : List ℕ) → TellsFront (F.files folder.old) name.now length bytes
        → Finds (step_view bytes buffer.new) result
        (next_of (place_view place) (drop at bytes)) }

    // Where an item comes, no more is pulled than is read for it, whatever is answered.
    ensures only { (bytes rest : List ℕ) (i : PlainItem) (t : Standing)
        → TellsFront (F.files folder.old) name.now length bytes
        → next_of (place_view place) (drop at bytes) ≡ Some (i, (t, rest))
        → PullsAtMost (read_for (place_view place) i)
        (F.numbers folder.old) (F.numbers folder.new) }

    // Where the file is told, what was read is what its bytes spell.
    ensures spelled { (bytes : List ℕ) → TellsFront (F.files folder.old) name.now length bytes
        → IfOk result
        (λ step. IsReadAt step.read buffer.new (drop at bytes) (drop step.at bytes)) }
    ensures record { IfOk result (λ step. step.read ≢ Finish) }
{
    if length - at < FRAME as u64 {
        return Err(CursorFault::Damage);
    }
    let (kind, size) = match read_frame(folder, name, at) {
        Ok(frame) => frame,
        Err(fault) => return Err(fault),
    };
    let body = at + FRAME as u64;
    if length - body < size {
        return Err(CursorFault::Damage);
    }
    let Some(place) = behind(place, kind, size) else {
        return Err(CursorFault::Damage);
    };
    match read_body(folder, name, body, kind, size, buffer) {
        Ok(read) => Ok(Step {
            read,
            place,
            at: body + size,
        }),
        Err(fault) => Err(fault),
    }
}

/// The kind of the record at the offset, and the length of its body.
#[inline(always)]
fn read_frame<F: Folder>(folder: &mut F, name: &str, at: u64) -> Result<(u8, u64), CursorFault>
    requires { at + 9 < 2 ^ 64 }
    ensures reads { OnlyReads F.files F.draft F.faults folder.old folder.new (fault_of result) }
    ensures numbers { OnOk result
        (F.numbers folder.new ≡ after_pull (F.numbers folder.old) 9) }
    ensures pulls { PullsAtMost 9 (F.numbers folder.old) (F.numbers folder.new) }
    ensures told { (end : ℕ) (bytes : List ℕ) → TellsFront (F.files folder.old) name.now end bytes
        → at + 9 ≤ end → Filled result (IsFrame (drop at bytes)) }
    ensures spelled { (end : ℕ) (bytes : List ℕ)
        → TellsFront (F.files folder.old) name.now end bytes → at + 9 ≤ end → IfOk result
        (λ f. drop at bytes ≡ f.0 ∷ (u64_bytes f.1 ++ drop (at + 9) bytes)) }
{
    let mut frame = [0; FRAME];
    match fill_part(folder, name, at, &mut frame) {
        Ok(()) => match frame_of(&frame) {
            Some(frame) => Ok(frame),
            None => Err(CursorFault::Damage),
        },
        Err(fault) => Err(fault),
    }
}

/// The kind and the length that these nine bytes are.
#[inline(always)]
fn frame_of(frame: &[u8]) -> Option<(u8, u64)>
    requires { held frame.now ≡ 9 }
    ensures { IsSomeAnd result (λ f. (frame.now ≡ f.0 ∷ u64_bytes f.1) × (f.1 < 2 ^ 64)) }
{
    let (size, _) = take_u64(frame, 1)?;
    Some((frame[0], size))
}

/// The body of the record of this kind, where it has parts to lend. That of an END is passed over.
#[inline(always)]
fn read_body<F: Folder>(
    folder: &mut F,
    name: &str,
    at: u64,
    kind: u8,
    size: u64,
    buffer: &mut Buffer,
) -> Result<Read, CursorFault>
    requires fits { at + size < 2 ^ 64 }
    requires comes { MayCome kind size }
    ensures reads { OnlyReads F.files F.draft F.faults folder.old folder.new (fault_of result) }
    ensures numbers { IfOk result (λ read.
        F.numbers folder.new
        ≡ after_pull (F.numbers folder.old) (body_read read (held buffer.new))) }
    ensures pulls { PullsAtMost (body_size kind size)
        (F.numbers folder.old) (F.numbers folder.new) }
    ensures is { IfOk result (λ read. IsReadOf kind size read (held buffer.new)) }
    ensures told { (end : ℕ) (bytes : List ℕ) → TellsFront (F.files folder.old) name.now end bytes
        → at + size ≤ end → Filled result (λ read. item_in kind (take size (drop at bytes))
        ≡ read_item read buffer.new) }
    ensures body { (end : ℕ) (bytes : List ℕ) → TellsFront (F.files folder.old) name.now end bytes
        → at + size ≤ end
        → IfOk result (λ read. HasBody read buffer.new (take size (drop at bytes))) }
{
    match kind {
        END => Ok(Read::End { length: size }),
        LEAF_END => Ok(Read::LeafEnd),
        _ => match buffer.fill(folder, name, at, size as usize) {
            Ok(()) => Ok(Read::Parts { kind }),
            Err(fault) => Err(fault),
        },
    }
}

/// Whether the file ends here as it should, behind the END of the root, whose body has this size.
fn read_tail<F: Folder>(
    folder: &mut F,
    name: &str,
    length: u64,
    at: u64,
    size: u64,
) -> Result<(), CursorFault>
    requires { at ≤ length }
    ensures reads { OnlyReads F.files F.draft F.faults folder.old folder.new (fault_of result) }
    ensures numbers { OnOk result
        (F.numbers folder.new ≡ after_pull (F.numbers folder.old) 8) }
    ensures pulls { PullsAtMost (length - at) (F.numbers folder.old) (F.numbers folder.new) }
    ensures few { PullsAtMost 8 (F.numbers folder.old) (F.numbers folder.new) }
    ensures end { OnOk result (length ≡ at + 8) }
    ensures whole { (files : Files) → F.files folder.old ≡ Some files
        → OnOk result (length ≤ held (bytes_or_none (map.get files name.now))) }
    ensures told { (bytes : List ℕ) → TellsFront (F.files folder.old) name.now length bytes
        → Finds (λ _. Some (finish, [])) result (tail_at size (drop at bytes)) }
{
    if length - at != TAIL {
        return Err(CursorFault::Damage);
    }
    let mut tail = [0; 8];
    match fill_part(folder, name, at, &mut tail) {
        Ok(()) if is_tail(&tail, size) => Ok(()),
        Ok(()) => Err(CursorFault::Damage),
        Err(fault) => Err(fault),
    }
}

fn is_tail(tail: &[u8], size: u64) -> bool
    ensures { result ≡ bytes_eq tail.now (u64_bytes size) }
{
    tail == size.to_be_bytes().as_slice()
}
