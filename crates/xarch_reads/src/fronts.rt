#![tactic(auto, using(xarch_parts::specs::EndLaws::endings))]

ghost use Rattle.std.specs.Prelude.{◌≡◌, ◌+◌, Some, IfOk};
ghost use Rattle.xa_outside.specs.Folder.{Files};
ghost use Rattle.xa_outside.specs.Numbers.{PullsAtMost};
ghost use Rattle.record_cursor.specs.View.{header_view};
ghost use Rattle.noted_file.specs.Contents.{Contents};
ghost use Rattle.xarch_parts.specs.Archives.{ArchiveIs, IsFrontOf, PartsAre};
ghost use Rattle.xarch_parts.specs.Ends.{Matches, fault_of};
ghost use Rattle.xarch_parts.specs.Folders.{ReadsOnly};
ghost use Rattle.xarch_parts.specs.Inputs.{read_in, size_in};
ghost use Rattle.xarch_parts.specs.Noted.{AreWithin};
ghost use Rattle.xarch_parts.specs.Readings.{front_in, parts_of};
ghost use Rattle.xarch_meanings.specs.History.{front_size};

use std::alloc::Global;
use version_notes::Parts;
use xa_outside::Folder;
use xarch_parts::{Front, length_of, read_front, read_parts};
use xarch_words::Fault;

/// The parts of the archive of this name. Sixteen bytes are read at most.
pub(crate) fn parts_in<F: Folder>(
    alloc: Global,
    archive: &str,
    folder: &mut F,
) -> Result<Parts, Fault>
    ensures within { IfOk result (λ parts.
        AreWithin (size_in (F.files folder.old) archive.now) parts) }
    ensures reads { ReadsOnly F.files F.draft F.numbers F.faults 16 folder.old folder.new
        (fault_of result) }
    ensures told { (files : Files) → F.files folder.old ≡ Some files
        → Matches (λ parts. parts) (read_in files archive.now (parts_of archive.now)) result }
    ensures are { (files : Files) → F.files folder.old ≡ Some files
        → IfOk result (λ parts. PartsAre files archive.now parts) }
{
    let size = length_of(alloc, folder, archive)?;
    read_parts(alloc, folder, archive, size)
}

/// What stands in front of the archive of this name. No byte behind its header is read, but for
/// sixteen at the end.
pub(crate) fn front_of<F: Folder>(
    alloc: Global,
    archive: &str,
    folder: &mut F,
) -> Result<Front, Fault>
    ensures within { IfOk result (λ f.
        AreWithin (size_in (F.files folder.old) archive.now) f.parts) }
    ensures reads { ReadsOnly F.files F.draft F.numbers F.faults
        (16 + size_in (F.files folder.old) archive.now) folder.old folder.new (fault_of result) }
    ensures told { (files : Files) → F.files folder.old ≡ Some files
        → Matches (λ f. ((header_view f.header).rules, (header_view f.header).versions))
        (read_in files archive.now (front_in archive.now)) result }
    ensures front { (files : Files) → F.files folder.old ≡ Some files
        → IfOk result (λ f. PartsAre files archive.now f.parts
        × IsFrontOf files archive.now (header_view f.header)) }
    ensures once { IfOk result (λ f. PullsAtMost (16 + (header_view f.header).first)
        (F.numbers folder.old) (F.numbers folder.new)) }
    ensures few { (files : Files) (c : Contents)
        → F.files folder.old ≡ Some files → ArchiveIs files archive.now c
        → PullsAtMost (16 + front_size c.rules c.versions)
        (F.numbers folder.old) (F.numbers folder.new) }
{
    let size = length_of(alloc, folder, archive)?;
    read_front(alloc, folder, archive, size)
}
