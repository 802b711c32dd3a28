// Reading the header of a file.
ghost use Rattle.std.specs.Prelude.{◌≡◌, ◌+◌, ◌-◌, ◌≤◌, ◌++◌, ℕ, List, length, take, drop, Some, IfOk, OnOk, IfErr};
ghost use Rattle.std.specs.FinMap as map;
ghost use Rattle.key_spec.specs.Data.{PlainRule};
ghost use Rattle.key_spec.specs.View.{spec_view};
ghost use Rattle.xa_fields.specs.Laws.{IsBytes};
ghost use Rattle.record_format.specs.Fronts.{header, header_at};
ghost use Rattle.record_parts.specs.declared.limits.TheConstants.{MOST_VERSIONS};
ghost use Rattle.xa_outside.specs.Causes.{Rose};
ghost use Rattle.xa_outside.specs.Folder.{Files, bytes_or_none, front_of};
ghost use Rattle.xa_outside.specs.Numbers.{PullsAtMost, after_pull};
ghost use Rattle.record_cursor.specs.Faults.{IfFolder};
ghost use Rattle.record_cursor.specs.Moves.{TellsFront, TellsHeader};
ghost use Rattle.record_cursor.specs.Spelled.{IsHeaderAt};
ghost use Rattle.record_cursor.specs.Steps.{OnlyReads, fault_of, Filled, Finds, FrontIs};
ghost use Rattle.record_cursor.specs.View.{header_view, IsHeader};

use crate::buffer::Buffer;
use crate::fault::CursorFault;
use crate::fill::fill_part;
use crate::header::Header;
use key_spec::{Spec, may_be_canonical};
use record_format::{RecFault, take_header};
use std::alloc::{AllocError, Global};
use xa_fields::take_u32;
use xa_outside::Folder;

/// The length of a header's text stands behind six bytes of magic.
pub(crate) const TEXT_LENGTH: usize = 6;

/// The magic, and the four bytes of the text's length.
pub(crate) const FRONT: usize = 10;

/// A header without its text: the front, and the four bytes of the number of versions.
pub(crate) const FIELDS: u64 = 14;

/// The header of the first `length` bytes of a file. A file with fewer bytes has none.
///
/// It asks for the file's length once, and reads no byte behind the header of an archive. Memory is
/// taken only for a specification's text that ends within the file.
pub fn read_header<F: Folder>(
    alloc: Global,
    folder: &mut F,
    name: &str,
    length: u64,
) -> Result<Header, CursorFault>
    ensures header { IfOk result (λ h. IsHeader (header_view h)) }
    ensures length { IfOk result (λ h. (header_view h).length ≡ length) }
    ensures files { F.files folder.new ≡ F.files folder.old }
    ensures draft { F.draft folder.new ≡ F.draft folder.old }
    ensures numbers { IfOk result (λ h.
        F.numbers folder.new ≡ after_pull (F.numbers folder.old) (header_view h).first) }
    ensures pulls { PullsAtMost length (F.numbers folder.old) (F.numbers folder.new) }
    ensures later { F.faults folder.old ≤ F.faults folder.new }
    ensures cause { IfErr result (λ e.
        IfFolder e (Rose (F.faults folder.old) (F.faults folder.new))) }

    // Where files are told, it is the header that stands there, and damage where there is none.
    ensures told { (files : Files) → F.files folder.old ≡ Some files
        → TellsHeader result (front_of files name.now length) }

    // Where a header stands there, no byte behind it is pulled, whatever is answered.
    ensures only { (bytes : List ℕ) (rules : List PlainRule) (n first : ℕ)
        → TellsFront (F.files folder.old) name.now length bytes
        → header_at bytes ≡ Some ((rules, n), drop first bytes) → first ≤ length
        → PullsAtMost first (F.numbers folder.old) (F.numbers folder.new) }

    // Where the file is told, the header was given for what its bytes spell.
    ensures spelled { (bytes : List ℕ) → TellsFront (F.files folder.old) name.now length bytes
        → IfOk result (λ h. IsHeaderAt (header_view h) bytes) }
{
    match check_length(folder, name, length) {
        Ok(()) => read_header_in(alloc, folder, name, length),
        Err(fault) => Err(fault),
    }
}

/// The same of a file that its caller knows to have so many bytes: its length is not asked for.
///
/// So what is read is of the file whose length the folder told last. That it has fewer bytes is
/// found where one of its header is missing.
pub fn read_header_in<F: Folder>(
    alloc: Global,
    folder: &mut F,
    name: &str,
    length: u64,
) -> Result<Header, CursorFault>
    ensures reads { OnlyReads F.files F.draft F.faults folder.old folder.new (fault_of result) }
    ensures header { IfOk result (λ h. IsHeader (header_view h)) }
    ensures length { IfOk result (λ h. (header_view h).length ≡ length) }
    ensures numbers { IfOk result (λ h.
        F.numbers folder.new ≡ after_pull (F.numbers folder.old) (header_view h).first) }
    ensures pulls { PullsAtMost length (F.numbers folder.old) (F.numbers folder.new) }
    ensures told { (bytes : List ℕ) → TellsFront (F.files folder.old) name.now length bytes
        → TellsHeader result (Some bytes) }
    ensures only { (bytes : List ℕ) (rules : List PlainRule) (n first : ℕ)
        → TellsFront (F.files folder.old) name.now length bytes
        → header_at bytes ≡ Some ((rules, n), drop first bytes) → first ≤ length
        → PullsAtMost first (F.numbers folder.old) (F.numbers folder.new) }

    // Where the file is told, the header was given for what its bytes spell.
    ensures spelled { (bytes : List ℕ) → TellsFront (F.files folder.old) name.now length bytes
        → IfOk result (λ h. IsHeaderAt (header_view h) bytes) }
{
    let mut front = [0; FRONT];
    let first = match read_front(folder, name, length, &mut front) {
        Ok(first) => first,
        Err(fault) => return Err(fault),
    };
    let bytes = match read_rest(alloc, folder, name, &front, first) {
        Ok(bytes) => bytes,
        Err(fault) => return Err(fault),
    };
    match decode(alloc, &bytes) {
        Ok((spec, versions)) => Ok(Header {
            spec,
            versions,
            first,
            length,
        }),
        Err(fault) => Err(fault),
    }
}

/// Nothing, where the file has so many bytes.
fn check_length<F: Folder>(folder: &mut F, name: &str, length: u64) -> Result<(), CursorFault>
    ensures reads { OnlyReads F.files F.draft F.faults folder.old folder.new (fault_of result) }
    ensures numbers { F.numbers folder.new ≡ F.numbers folder.old }
    ensures told { (files : Files) → F.files folder.old ≡ Some files
        → Finds (λ _. Some (take length (bytes_or_none (map.get files name.now)))) result
        (front_of files name.now length) }
{
    match file_length(folder, name) {
        Ok(size) if size < length => Err(CursorFault::Damage),
        Ok(_) => Ok(()),
        Err(fault) => Err(fault),
    }
}

/// How many bytes the file of this name has, none where there is no such file.
fn file_length<F: Folder>(folder: &mut F, name: &str) -> Result<u64, CursorFault>
    ensures reads { OnlyReads F.files F.draft F.faults folder.old folder.new (fault_of result) }
    ensures numbers { F.numbers folder.new ≡ F.numbers folder.old }
    ensures told { (files : Files) → F.files folder.old ≡ Some files
        → Filled result (λ size. size ≡ length (bytes_or_none (map.get files name.now))) }
{
    match folder.length(name) {
        Ok(Some(size)) => Ok(size),
        Ok(None) => Ok(0),
        Err(_) => Err(CursorFault::Folder),
    }
}

/// Reads the first bytes of a header, as far as the length of its text, and gives the header's
/// length, which is within the file.
fn read_front<F: Folder>(
    folder: &mut F,
    name: &str,
    end: u64,
    front: &mut [u8],
) -> Result<u64, CursorFault>
    requires { length front.old ≡ 10 }
    ensures reads { OnlyReads F.files F.draft F.faults folder.old folder.new (fault_of result) }
    ensures numbers { OnOk result
        (F.numbers folder.new ≡ after_pull (F.numbers folder.old) 10) }
    ensures pulls { PullsAtMost 10 (F.numbers folder.old) (F.numbers folder.new) }
    ensures inside { PullsAtMost end (F.numbers folder.old) (F.numbers folder.new) }
    ensures within { IfOk result (λ first. (14 ≤ first) × (first ≤ end)) }
    ensures told { (bytes : List ℕ) → TellsFront (F.files folder.old) name.now end bytes
        → FrontIs result front.new bytes }
{
    if end < FIELDS {
        return Err(CursorFault::Damage);
    }
    match fill_part(folder, name, 0, front) {
        Ok(()) => header_length(front, end),
        Err(fault) => Err(fault),
    }
}

/// The length of a header of which this is the front, where it ends within the file.
fn header_length(front: &[u8], end: u64) -> Result<u64, CursorFault>
    requires { length front.now ≡ 10 }
    ensures within { IfOk result (λ first. (14 ≤ first) × (first ≤ end)) }
    ensures cause { IfErr result (λ e. IfFolder e ⊥) }
    ensures told { (bytes : List ℕ) → length bytes ≡ end → front.now ≡ take 10 bytes
        → FrontIs result front.now bytes }
{
    let Some((text, _)) = take_u32(front, TEXT_LENGTH) else {
        return Err(CursorFault::Damage);
    };
    let first = FIELDS + text as u64;
    if end < first {
        return Err(CursorFault::Damage);
    }
    if !may_be_canonical(text as usize) {
        return Err(CursorFault::Damage);
    }
    Ok(first)
}

/// The bytes of a header of this length, of which the front was read.
fn read_rest<F: Folder>(
    alloc: Global,
    folder: &mut F,
    name: &str,
    front: &[u8],
    first: u64,
) -> Result<Vec<u8>, CursorFault>
    requires front { length front.now ≡ 10 }
    requires first { 14 ≤ first }
    ensures reads { OnlyReads F.files F.draft F.faults folder.old folder.new (fault_of result) }
    ensures numbers { OnOk result
        (F.numbers folder.new ≡ after_pull (F.numbers folder.old) (first - 10)) }
    ensures pulls { PullsAtMost (first - 10) (F.numbers folder.old) (F.numbers folder.new) }
    ensures told { (end : ℕ) (bytes : List ℕ) → TellsFront (F.files folder.old) name.now end bytes
        → first ≤ end → front.now ≡ take 10 bytes
        → Filled result (λ v. v.items ≡ take first bytes) }
{
    let mut rest = Buffer::new(alloc);
    let size = (first - FRONT as u64) as usize;
    match rest.fill(folder, name, FRONT as u64, size) {
        Ok(()) => match join(alloc, front, rest.as_slice()) {
            Ok(bytes) => Ok(bytes),
            Err(_) => Err(CursorFault::Memory),
        },
        Err(fault) => Err(fault),
    }
}

fn join(alloc: Global, front: &[u8], rest: &[u8]) -> Result<Vec<u8>, AllocError>
    ensures { IfOk result (λ v. v.items ≡ front.now ++ rest.now) }
{
    let mut bytes = Vec::from_slice(alloc, front)?;
    bytes.extend_from_slice(rest)?;
    Ok(bytes)
}

/// The specification and the number of versions of the header that the bytes are.
fn decode(alloc: Global, bytes: &[u8]) -> Result<(Spec, u32), CursorFault>
    ensures found { Finds (λ r. Some (spec_view r.0, r.1)) result (header bytes.now) }
    ensures few { IfOk result (λ r. r.1 ≤ MOST_VERSIONS) }
    ensures cause { IfErr result (λ e. IfFolder e ⊥) }
    ensures bytes { OnOk result (IsBytes bytes.now) }
{
    match take_header(alloc, bytes) {
        Ok((spec, versions, _)) => Ok((spec, versions)),
        Err(RecFault::Damage) => Err(CursorFault::Damage),
        Err(RecFault::Memory) => Err(CursorFault::Memory),
    }
}
