#![tactic(auto)]

ghost use Rattle.std.specs.Prelude.{◌≡◌, ◌≤◌, ◌+◌, ◌-◌, ◌<◌, ◌^◌, ℕ, take, map, Some, None, Err, IfOk, IfErr, IfSome, string_bytes};
ghost use Rattle.xa_outside.specs.Folder.{Files};
ghost use Rattle.key_spec.specs.View.{spec_view};
ghost use Rattle.archive_tree.specs.ArchiveView.{archive_view};
ghost use Rattle.archive_file.specs.Sound.{Sound};
ghost use Rattle.version_notes.specs.Reader.{at_first, file_of};
ghost use Rattle.version_notes.specs.Reading.{notes_from};
ghost use Rattle.xarch_words.specs.Commands.{export};
ghost use Rattle.xarch_words.specs.Refusal as refusal;
ghost use Rattle.xarch_words.specs.Refusal.{Refusal, refused};
ghost use Rattle.xarch_words.specs.View.{fault_view};
ghost use Rattle.xarch_parts.specs.Allowed.{MayEnd};
ghost use Rattle.xarch_parts.specs.Archives.{PartsAre};
ghost use Rattle.xarch_parts.specs.Ends.{IsCaused, IsInside, fault_of};
ghost use Rattle.xarch_parts.specs.Inputs.{size_in};
ghost use Rattle.xarch_parts.specs.Noted.{notes_bytes};
ghost use Rattle.xarch_meanings.specs.Performs.{Performs};
ghost use Rattle.xarch_meanings.specs.Meanings.{MayBe};
ghost use Rattle.xarch_texts.specs.Giving.{Gives};
ghost use Rattle.xarch_texts.specs.Kept.{IsReadOf, exported};

use archive_file::{FileFault, decode_file};
use archive_text::{TextFault, write_text};
use archive_tree::{Archive, archives_stand_for_one_list};
use key_spec::Spec;
use noted_file::{
    full_files_are_read_note_by_note, full_files_have_one_reading, full_files_have_parts,
};
use std::alloc::Global;
use version_notes::{NoteReader, Parts, read_notes};
use xa_outside::{Folder, ReadFault, Sink, read_front};
use xarch_parts::{damaged, length_of, notes_fault, read_parts};
use xarch_words::Fault;

/// Writes an archive and its notes as text.
///
/// No byte of the file is read twice, but for sixteen at its end. The archive and its notes are held
/// whole, and the text is written in pieces of kilobytes.
pub fn run_export<F: Folder, O: Sink>(
    alloc: Global,
    archive: &str,
    folder: &mut F,
    out: &mut O,
) -> Result<(), Fault>
    ensures { Performs F.files F.draft F.numbers F.faults (export archive.now)
        folder.old folder.new (O.taken out.old) (O.taken out.new)
        (O.faults out.old) (O.faults out.new) (fault_of result) }
{
    let kept = read_kept(alloc, archive, folder)?;
    write_kept(alloc, &kept, out)
}

// An archive that a file keeps: its specification, its versions and their notes.
#[derive(Drop)]
struct Kept {
    spec: Spec,
    archive: Archive,
    notes: Vec<String>,
}

// What the file of this name keeps, which is an archive with notes.
fn read_kept<F: Folder>(alloc: Global, name: &str, folder: &mut F) -> Result<Kept, Fault>
    ensures { Gives F.files F.draft F.numbers F.faults
        (size_in (F.files folder.old) name.now + 16) folder.old folder.new result
        (λ files k. MayBe files (export name.now) (exported files k))
        (λ files q. MayBe files (export name.now) (Err q)) }
{
    // A law, for what is refused before the records are read.
    full_files_have_parts();
    let size = length_of(alloc, folder, name)?;
    let parts = read_parts(alloc, folder, name, size)?;
    kept_in(alloc, name, &parts, folder)
}

// What the file of this name keeps, which has these parts.
fn kept_in<F: Folder>(
    alloc: Global,
    name: &str,
    parts: &Parts,
    folder: &mut F,
) -> Result<Kept, Fault>
    requires { IfSome parts.now.notes (λ n. parts.now.core + n < 2 ^ 64 - 16) }
    ensures { Gives F.files F.draft F.numbers F.faults
        (parts.now.core + notes_bytes parts.now.notes) folder.old folder.new result
        (λ files k. PartsAre files name.now parts.now
        → MayBe files (export name.now) (exported files k))
        (λ files q. PartsAre files name.now parts.now
        → MayBe files (export name.now) (Err q)) }
{
    // Laws: where the core and the notes are read the archive is sound, and it has one reading.
    full_files_have_parts();
    full_files_are_read_note_by_note();
    full_files_have_one_reading();
    let (spec, archive) = read_core(alloc, name, parts.core, folder)?;
    match notes_of(alloc, name, parts, archive.n(), folder) {
        Ok(notes) => Ok(Kept {
            spec,
            archive,
            notes,
        }),
        Err(fault) => Err(fault),
    }
}

// The specification and the archive in the first bytes of a file, so many.
fn read_core<F: Folder>(
    alloc: Global,
    name: &str,
    core: u64,
    folder: &mut F,
) -> Result<(Spec, Archive), Fault>
    ensures { Gives F.files F.draft F.numbers F.faults core folder.old folder.new result
        (λ files r. IsReadOf (take core (file_of files name.now))
        (spec_view r.0) (archive_view r.1))
        (λ files q. (q ≡ refusal.damaged name.now)
        × ¬ Sound (take core (file_of files name.now))) }
{
    match read_front(alloc, folder, name, core) {
        Ok(bytes) => archive_from(alloc, name, &bytes),
        Err(ReadFault::Folder) => Err(Fault::FolderFault),
        Err(ReadFault::Memory) => Err(Fault::Memory),
    }
}

// The specification and the archive that some bytes are.
fn archive_from(alloc: Global, name: &str, bytes: &[u8]) -> Result<(Spec, Archive), Fault>
    ensures cause { IsInside (fault_of result) }
    ensures read { IfOk result (λ r. IsReadOf bytes.now (spec_view r.0) (archive_view r.1)) }
    ensures damage { (q : Refusal) → IfErr result (λ f. fault_view f ≡ refused q
        → (q ≡ refusal.damaged name.now) × ¬ Sound bytes.now) }
{
    // A law: an archive is that of some versions.
    archives_stand_for_one_list();
    match decode_file(alloc, bytes) {
        Ok(read) => Ok(read),
        Err(FileFault::Damage) => Err(damaged(alloc, name)),
        Err(FileFault::Memory) => Err(Fault::Memory),
    }
}

// The notes behind the archive of this name, which has so many versions.
fn notes_of<F: Folder>(
    alloc: Global,
    name: &str,
    parts: &Parts,
    versions: u32,
    folder: &mut F,
) -> Result<Vec<String>, Fault>
    requires { IfSome parts.now.notes (λ n. parts.now.core + n < 2 ^ 64 - 16) }
    ensures { Gives F.files F.draft F.numbers F.faults (notes_bytes parts.now.notes)
        folder.old folder.new result
        (λ files notes. notes_from (at_first name.now parts.now versions)
        (file_of files name.now) ≡ Some (map string_bytes notes.items))
        (λ files q. (q ≡ refusal.damaged name.now)
        × (notes_from (at_first name.now parts.now versions) (file_of files name.now) ≡ None)) }
{
    match NoteReader::start(alloc, name, parts, versions) {
        Ok(reader) => match read_notes(alloc, folder, reader) {
            Ok(notes) => Ok(notes),
            Err(fault) => Err(notes_fault(alloc, name, fault)),
        },
        Err(_) => Err(Fault::Memory),
    }
}

// Writes the text of what is kept.
fn write_kept<O: Sink>(alloc: Global, kept: &Kept, out: &mut O) -> Result<(), Fault>
    ensures caused { (before now : ℕ) → before ≤ now
        → IsCaused before now (O.faults out.old) (O.faults out.new) (fault_of result) }
    ensures may { (files : Files) → MayEnd (λ r. r ≡ exported files kept.now)
        (fault_of result) (Some files) (O.taken out.old) (O.taken out.new) }
{
    match write_text(alloc, &kept.spec, &kept.archive, &kept.notes, out) {
        Ok(()) => Ok(()),
        Err(TextFault::Sink) => Err(Fault::OutFault),
        Err(TextFault::Memory) => Err(Fault::Memory),
    }
}
