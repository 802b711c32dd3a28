#![tactic(auto, using(xarch_parts::specs::EndLaws::endings), unfolding(xarch_parts::specs::Ends::IsInside, xarch_parts::specs::Ends::IsOfFolder))]

ghost use Rattle.std.specs.Prelude.{◌≡◌, ◌+◌, ◌-◌, ◌<◌, ◌^◌, ℕ, List, length, Ok, Err, Some, None, IsSome, IfOk, IfErr, IfSome};
ghost use Rattle.xa_outside.specs.Folder.{Files};
ghost use Rattle.archive_file.specs.Sound.{Sound};
ghost use Rattle.version_notes.specs.Reader.{at_first, file_of};
ghost use Rattle.version_notes.specs.Reading.{notes_from};
ghost use Rattle.xarch_words.specs.Commands as commands;
ghost use Rattle.xarch_words.specs.Refusal as refusal;
ghost use Rattle.xarch_words.specs.Refusal.{Refusal, refused};
ghost use Rattle.xarch_words.specs.View.{fault_view};
ghost use Rattle.xarch_parts.specs.Archives.{CoreIs};
ghost use Rattle.xarch_parts.specs.Ends.{fault_of};
ghost use Rattle.xarch_parts.specs.Folders.{ReadsOnly};
ghost use Rattle.xarch_parts.specs.Inputs.{size_in};
ghost use Rattle.xarch_parts.specs.Noted.{notes_bytes};
ghost use Rattle.xarch_meanings.specs.Check.{check_text};
ghost use Rattle.xarch_meanings.specs.Meanings.{MayBe};
ghost use Rattle.xarch_meanings.specs.Performs.{Performs};

use crate::fronts::parts_in;
use archive_check::{CheckFault, check};
use noted_file::{full_files_are_read_note_by_note, full_files_have_parts};
use std::alloc::Global;
use version_notes::{NoteReader, Parts, check_notes};
use xa_outside::{Folder, Sink};
use xarch_parts::{damaged, notes_fault, write_count};
use xarch_words::Fault;

/// Tells whether a file is a sound archive with its notes, and writes how many versions it has.
pub fn run_check<F: Folder, O: Sink>(
    alloc: Global,
    archive: &str,
    folder: &mut F,
    out: &mut O,
) -> Result<(), Fault>
    ensures { Performs F.files F.draft F.numbers F.faults (commands.check archive.now)
        folder.old folder.new (O.taken out.old) (O.taken out.new)
        (O.faults out.old) (O.faults out.new) (fault_of result) }
{
    let versions = versions_in(alloc, archive, folder)?;
    write_count(out, b"ok ", versions)
}

// The number of versions of the archive, which is sound.
fn versions_in<F: Folder>(alloc: Global, archive: &str, folder: &mut F) -> Result<u32, Fault>
    ensures reads { ReadsOnly F.files F.draft F.numbers F.faults
        (size_in (F.files folder.old) archive.now + 16)
        folder.old folder.new (fault_of result) }
    ensures versions { (files : Files) → F.files folder.old ≡ Some files
        → IfOk result (λ n. MayBe files (commands.check archive.now)
        (Ok (record { files = files; output = check_text n }))) }
    ensures refused { (files : Files) (q : Refusal) → F.files folder.old ≡ Some files
        → IfErr result (λ f. fault_view f ≡ refused q
        → MayBe files (commands.check archive.now) (Err q)) }
{
    // Laws, for the proofs of `versions` and `refused`.
    full_files_have_parts();
    full_files_are_read_note_by_note();
    let parts = parts_in(alloc, archive, folder)?;
    let versions = versions_before(alloc, archive, parts.core, folder)?;
    match check_notes_of(alloc, archive, &parts, versions, folder) {
        Ok(()) => Ok(versions),
        Err(fault) => Err(fault),
    }
}

// The number of versions of the sound archive that so many bytes of the file are.
fn versions_before<F: Folder>(
    alloc: Global,
    archive: &str,
    core: u64,
    folder: &mut F,
) -> Result<u32, Fault>
    ensures reads { ReadsOnly F.files F.draft F.numbers F.faults core folder.old folder.new
        (fault_of result) }
    ensures sound { (files : Files) (bytes : List ℕ) → F.files folder.old ≡ Some files
        → CoreIs files archive.now core bytes
        → IfOk result (λ n. (s : Sound bytes) × (length s.versions ≡ n)) }
    ensures refused { (files : Files) (bytes : List ℕ) (q : Refusal)
        → F.files folder.old ≡ Some files → CoreIs files archive.now core bytes
        → IfErr result (λ f. fault_view f ≡ refused q
        → (q ≡ refusal.damaged archive.now) × ¬ Sound bytes) }
{
    match check(alloc, folder, archive, core) {
        Ok(versions) => Ok(versions),
        Err(CheckFault::Damage) => Err(damaged(alloc, archive)),
        Err(CheckFault::Folder) => Err(Fault::FolderFault),
        Err(CheckFault::Memory) => Err(Fault::Memory),
    }
}

// Reads the notes of so many versions, which stand behind the archive.
fn check_notes_of<F: Folder>(
    alloc: Global,
    archive: &str,
    parts: &Parts,
    versions: u32,
    folder: &mut F,
) -> Result<(), Fault>
    requires { IfSome parts.now.notes (λ n. parts.now.core + n < 2 ^ 64 - 16) }
    ensures reads { ReadsOnly F.files F.draft F.numbers F.faults (notes_bytes parts.now.notes)
        folder.old folder.new (fault_of result) }
    ensures stand { (files : Files) → F.files folder.old ≡ Some files
        → IfOk result (λ _. IsSome (notes_from (at_first archive.now parts.now versions)
        (file_of files archive.now))) }
    ensures refused { (files : Files) (q : Refusal) → F.files folder.old ≡ Some files
        → IfErr result (λ f. fault_view f ≡ refused q → (q ≡ refusal.damaged archive.now)
        × (notes_from (at_first archive.now parts.now versions) (file_of files archive.now)
        ≡ None)) }
{
    let reader = NoteReader::start(alloc, archive, parts, versions)?;
    match check_notes(folder, reader) {
        Ok(()) => Ok(()),
        Err(fault) => Err(notes_fault(alloc, archive, fault)),
    }
}
