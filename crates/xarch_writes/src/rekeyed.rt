//! An archive under other keys, and how it is stored.
#![tactic(auto, using(xarch_parts::specs::EndLaws::endings))]

ghost use Rattle.std.specs.Prelude.{◌≡◌, ℕ, Some, map, string_bytes};
ghost use Rattle.xa_outside.specs.Folder.{Files, IsBlank};
ghost use Rattle.key_spec.specs.View.{spec_view};
ghost use Rattle.spelled_archive.specs.ArchiveView.{spelled_archive_view};
ghost use Rattle.xarch_parts.specs.Ends.{IsCaused, fault_of};
ghost use Rattle.xarch_parts.specs.Folders.{WritesOnly};
ghost use Rattle.xarch_parts.specs.Noted.{CanFollow};
ghost use Rattle.xarch_writes.specs.Rekeyed.{CanBeWritten, DraftsArchive, StoreEnds};

use archive_rekey::write_spelled;
use key_spec::Spec;
use record_format::LONGEST;
use record_writer::WriteFault;
use spelled_archive::SpelledArchive;
use std::alloc::Global;
use xa_outside::Folder;
use xarch_parts::{commit, push_notes};
use xarch_words::{Fault, Quantity};

/// The new keys, the archive under them, and the notes that come behind it: whether some is not
/// empty, and all of them.
#[derive(Drop)]
pub(crate) struct Rekeyed {
    pub spec: Spec,
    pub archive: SpelledArchive,
    pub noted: bool,
    pub notes: Vec<String>,
}

/// Makes the archive and its notes the file of this name, by a draft that is empty so far. Each
/// record and each note is appended as it is come to.
pub(crate) fn store_rekeyed<F: Folder>(
    alloc: Global,
    name: &str,
    new: &Rekeyed,
    folder: &mut F,
) -> Result<(), Fault>
    requires blank { IsBlank (F.draft folder.old) }
    requires follow { CanFollow new.now.noted (map string_bytes new.now.notes.items) }
    requires written { CanBeWritten (spec_view new.now.spec)
        (spelled_archive_view new.now.archive) }
    ensures writes { WritesOnly F.files F.draft F.numbers folder.old folder.new (fault_of result) }
    ensures caused { (out : ℕ)
        → IsCaused (F.faults folder.old) (F.faults folder.new) out out (fault_of result) }
    ensures ends { (files : Files) → F.files folder.old ≡ Some files
        → StoreEnds files name.now (spec_view new.now.spec) (spelled_archive_view new.now.archive)
        (map string_bytes new.now.notes.items) (F.files folder.new) (fault_of result) }
{
    draft_archive(alloc, &new.spec, &new.archive, folder)?;
    match push_notes(&new.notes, new.noted, folder) {
        Ok(()) => commit(folder, name),
        Err(_) => Err(Fault::FolderFault),
    }
}

// Drafts the file of the archive.
fn draft_archive<F: Folder>(
    alloc: Global,
    spec: &Spec,
    archive: &SpelledArchive,
    folder: &mut F,
) -> Result<(), Fault>
    requires blank { IsBlank (F.draft folder.old) }
    requires written { CanBeWritten (spec_view spec.now) (spelled_archive_view archive.now) }
    ensures { DraftsArchive F.files F.draft F.numbers F.faults (spec_view spec.now)
        (spelled_archive_view archive.now) folder.old folder.new (fault_of result) }
{
    // The rules are closed.
    let _ = spec.rules();
    match write_spelled(alloc, folder, spec, archive) {
        Ok(()) => Ok(()),
        Err(WriteFault::TooLong) => Err(Fault::Limit {
            quantity: Quantity::Archive,
            number: LONGEST,
        }),
        Err(WriteFault::Folder) => Err(Fault::FolderFault),
        Err(WriteFault::Memory) => Err(Fault::Memory),
    }
}
