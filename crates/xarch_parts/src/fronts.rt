#![tactic(auto, using(crate::specs::EndLaws::endings), unfolding(crate::specs::Ends::IsInside, crate::specs::Ends::IsOfFolder, crate::specs::Ends::IsDefined))]

ghost use Rattle.std.specs.Prelude.{◌≡◌, ◌+◌, ℕ, List, length, Some, Ok, IfOk};
ghost use Rattle.xa_outside.specs.Folder.{Files};
ghost use Rattle.xa_outside.specs.Numbers.{PullsAtMost};
ghost use Rattle.key_spec.specs.Data.{PlainRule};
ghost use Rattle.keyed_tree.specs.Data.{PlainKeyed};
ghost use Rattle.archive_file.specs.Sound.{SoundAs};
ghost use Rattle.record_cursor.specs.View.{header_view, IsHeader};
ghost use Rattle.record_format.specs.Files.{header_bytes};
ghost use Rattle.noted_file.specs.Contents.{Contents};
ghost use Rattle.xarch_parts.specs.Archives.{ArchiveIs, CoreIs, IsFrontOf, PartsAre};
ghost use Rattle.xarch_parts.specs.Ends.{Matches, fault_of};
ghost use Rattle.xarch_parts.specs.Folders.{ReadsOnly};
ghost use Rattle.xarch_parts.specs.Inputs.{file_length, read_in};
ghost use Rattle.xarch_parts.specs.Noted.{AreWithin};
ghost use Rattle.xarch_parts.specs.Readings;
ghost use Rattle.xarch_parts.specs.Readings.{front_in, front_of_core};

use crate::front::Front;
use crate::names::damaged;
use noted_file::full_files_have_parts;
use record_cursor::{CursorFault, Header, files_give_their_items, read_header_in};
use std::alloc::Global;
use version_notes::{Parts, PartsFault, parts_of};
use xa_outside::Folder;
use xarch_words::Fault;

/// The parts of the archive of this name, whose file has this size. Sixteen bytes are read at most.
pub fn read_parts<F: Folder>(
    alloc: Global,
    folder: &mut F,
    name: &str,
    size: u64,
) -> Result<Parts, Fault>
    ensures within { IfOk result (λ parts. AreWithin size parts) }
    ensures reads { ReadsOnly F.files F.draft F.numbers F.faults 16 folder.old folder.new
        (fault_of result) }
    ensures told { (files : Files) → F.files folder.old ≡ Some files
        → file_length files name.now ≡ Ok size
        → Matches (λ parts. parts) (read_in files name.now (Readings.parts_of name.now)) result }
    ensures are { (files : Files) → F.files folder.old ≡ Some files
        → file_length files name.now ≡ Ok size
        → IfOk result (λ parts. PartsAre files name.now parts) }
{
    match parts_of(folder, name, size) {
        Ok(parts) => Ok(parts),
        Err(PartsFault::Damage) => Err(damaged(alloc, name)),
        Err(PartsFault::Folder) => Err(Fault::FolderFault),
    }
}

/// What stands in front of the archive of this name, whose file has this size. No byte behind the
/// header is read, but for sixteen at the end.
pub fn read_front<F: Folder>(
    alloc: Global,
    folder: &mut F,
    name: &str,
    size: u64,
) -> Result<Front, Fault>
    ensures within { IfOk result (λ f. AreWithin size f.parts) }
    ensures reads { ReadsOnly F.files F.draft F.numbers F.faults (16 + size)
        folder.old folder.new (fault_of result) }
    ensures told { (files : Files) → F.files folder.old ≡ Some files
        → file_length files name.now ≡ Ok size
        → Matches (λ f. ((header_view f.header).rules, (header_view f.header).versions))
        (read_in files name.now (front_in name.now)) result }
    ensures front { (files : Files) → F.files folder.old ≡ Some files
        → file_length files name.now ≡ Ok size
        → IfOk result (λ f. PartsAre files name.now f.parts
        × IsFrontOf files name.now (header_view f.header)) }

    ensures once { IfOk result (λ f. PullsAtMost (16 + (header_view f.header).first)
        (F.numbers folder.old) (F.numbers folder.new)) }

    // Over a sound archive no more is pulled than its header and these bytes, whatever is answered.
    ensures few { (files : Files) (c : Contents)
        → F.files folder.old ≡ Some files → file_length files name.now ≡ Ok size
        → ArchiveIs files name.now c
        → PullsAtMost (16 + length (header_bytes c.rules (length c.versions)))
        (F.numbers folder.old) (F.numbers folder.new) }
{
    // A law, for the proof of `few`.
    full_files_have_parts();
    let parts = read_parts(alloc, folder, name, size)?;
    match header_before(alloc, folder, name, parts.core) {
        Ok(header) => Ok(Front { parts, header }),
        Err(fault) => Err(fault),
    }
}

/// The header of the archive of this name, of which so many bytes stand before its notes.
fn header_before<F: Folder>(
    alloc: Global,
    folder: &mut F,
    name: &str,
    core: u64,
) -> Result<Header, Fault>
    ensures header { IfOk result (λ h. IsHeader (header_view h)) }
    ensures reads { ReadsOnly F.files F.draft F.numbers F.faults core folder.old folder.new
        (fault_of result) }
    ensures told { (files : Files) (bytes : List ℕ) → F.files folder.old ≡ Some files
        → CoreIs files name.now core bytes
        → Matches (λ h. ((header_view h).rules, (header_view h).versions))
        (front_of_core name.now bytes) result }
    ensures front { (files : Files) (bytes : List ℕ) → F.files folder.old ≡ Some files
        → CoreIs files name.now core bytes
        → IfOk result (λ h. IsFrontOf files name.now (header_view h)) }
    ensures once { IfOk result (λ h. ((header_view h).length ≡ core)
        × PullsAtMost (header_view h).first (F.numbers folder.old) (F.numbers folder.new)) }
    ensures few { (files : Files) (bytes : List ℕ) (rules : List PlainRule)
        (vs : List PlainKeyed) → F.files folder.old ≡ Some files
        → CoreIs files name.now core bytes → SoundAs rules vs bytes
        → PullsAtMost (length (header_bytes rules (length vs)))
        (F.numbers folder.old) (F.numbers folder.new) }
{
    // A law, for the proof of `few`.
    files_give_their_items();
    match read_header_in(alloc, folder, name, core) {
        Ok(header) => Ok(header),
        Err(CursorFault::Damage) => Err(damaged(alloc, name)),
        Err(CursorFault::Folder) => Err(Fault::FolderFault),
        Err(CursorFault::Memory) => Err(Fault::Memory),
    }
}
