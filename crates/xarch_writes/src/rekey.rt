#![tactic(auto, using(xarch_parts::specs::EndLaws::endings))]

ghost use Rattle.std.specs.Prelude.{◌≡◌, ◌+◌, ◌-◌, ◌^◌, ◌<◌, ◌≤◌, ◌++◌, ℕ, List, [], length, map, Some, Ok, Err, IfOk, IfErr, IfSome, IsSome, Bool, true, string_bytes};
ghost use Rattle.xa_outside.specs.Folder.{Files};
ghost use Rattle.xa_outside.specs.Taken.{Taken};
ghost use Rattle.key_spec.specs.View.{spec_view};
ghost use Rattle.keyed_tree.specs.Data.{PlainKeyed};
ghost use Rattle.archive_tree.specs.ArchiveView.{archive_view};
ghost use Rattle.archive_tree.specs.Stands.{ArchiveOf};
ghost use Rattle.record_parts.specs.declared.limits.TheConstants.{MOST_VERSIONS};
ghost use Rattle.spelled_archive.specs.ArchiveView.{spelled_archive_view};
ghost use Rattle.archive_rekey.specs.Rekeyed.{IsArchiveUnder};
ghost use Rattle.xarch_words.specs.Commands.{rekey};
ghost use Rattle.xarch_words.specs.Refusal.{Refusal, refused};
ghost use Rattle.xarch_words.specs.View.{fault_view};
ghost use Rattle.xarch_words.specs.declared.limits.TheConstants.{SPECIFICATION};
ghost use Rattle.xarch_parts.specs.Archives.{CoreIs, PartsAre};
ghost use Rattle.xarch_parts.specs.Ends.{IsInside, Matches, fault_of};
ghost use Rattle.xarch_parts.specs.Folders.{ReadsOnly};
ghost use Rattle.xarch_parts.specs.Inputs.{file_length, read_in, size_in};
ghost use Rattle.xarch_parts.specs.Noted.{AreWithin, CanFollow, notes_bytes};
ghost use Rattle.xarch_parts.specs.Outcome.{and_then};
ghost use Rattle.xarch_parts.specs.Readings.{front_in, rules_of};
ghost use Rattle.xarch_meanings.specs.Performs.{Performs};
ghost use Rattle.xarch_meanings.specs.Meanings.{MayBe};
ghost use Rattle.xarch_meanings.specs.Rekey.{rekey_rules};
ghost use Rattle.xarch_writes.specs.Added.{IsDamaged};
ghost use Rattle.xarch_writes.specs.Rekeyed.{AreRead, CanBeWritten, IsBadTold, IsNoArchive, IsOpened, IsSoundOf, MayStore};

use crate::notes::notes_of;
use crate::rekeyed::{Rekeyed, store_rekeyed};
use archive_file::{FileFault, decode_file, sound_archives_have_one_reading};
use archive_rekey::{RekeyFault, rekey_spelled, rekeyed_archives_are_shaped};
use archive_tree::{Archive, archives_stand_for_one_list};
use key_spec::Spec;
use noted_file::{
    full_files_are_read_note_by_note, full_files_have_one_reading, full_files_have_parts,
};
use spelled_archive::SpelledArchive;
use std::alloc::Global;
use version_notes::Parts;
use xa_outside::{Folder, ReadFault, read_front as read_bytes};
use xarch_parts::{begin, damaged, length_of, limited_length, read_front, read_spec};
use xarch_words::{Fault, Quantity, limits};

/// Gives the versions of an archive the keys of another specification. Its notes stay.
///
/// The archive is read whole, with its notes. Beside it the new one grows, and one version at a time
/// is held. The old one is given up before the new one is written, record by record.
pub fn run_rekey<F: Folder>(
    alloc: Global,
    archive: &str,
    spec: &str,
    folder: &mut F,
) -> Result<(), Fault>
    ensures { (t : Taken) (n : ℕ) → Performs F.files F.draft F.numbers F.faults
        (rekey archive.now spec.now) folder.old folder.new t t n n (fault_of result) }
{
    begin(folder)?;
    let new = new_archive(alloc, archive, spec, folder)?;
    store_rekeyed(alloc, archive, &new, folder)
}

// The archive's versions under the keys of the specification, and their notes.
fn new_archive<F: Folder>(
    alloc: Global,
    archive: &str,
    spec: &str,
    folder: &mut F,
) -> Result<Rekeyed, Fault>
    ensures reads { ReadsOnly F.files F.draft F.numbers F.faults
        (size_in (F.files folder.old) archive.now
        + (16 + SPECIFICATION + size_in (F.files folder.old) archive.now))
        folder.old folder.new (fault_of result) }
    ensures stored { (files : Files) → F.files folder.old ≡ Some files
        → IfOk result (λ r. MayStore files archive.now spec.now (spec_view r.spec)
        (spelled_archive_view r.archive) (map string_bytes r.notes.items)) }
    ensures written { IfOk result (λ r.
        CanBeWritten (spec_view r.spec) (spelled_archive_view r.archive)) }
    ensures follow { IfOk result (λ r. CanFollow r.noted (map string_bytes r.notes.items)) }
    ensures refused { (files : Files) (q : Refusal) → F.files folder.old ≡ Some files
        → IfErr result (λ f. fault_view f ≡ refused q
        → MayBe files (rekey archive.now spec.now) (Err q)) }
{
    // Laws, for the proofs of `stored` and `refused`.
    archives_stand_for_one_list();
    full_files_have_one_reading();
    let (parts, spec) = new_keys(alloc, archive, spec, folder)?;
    let (old, notes) = read_archive(alloc, archive, &parts, folder)?;
    let archive = archive_under(alloc, old, &spec)?;
    Ok(Rekeyed {
        spec,
        archive,
        noted: parts.notes.is_some(),
        notes,
    })
}

// Where the notes of the archive are, and the new keys.
fn new_keys<F: Folder>(
    alloc: Global,
    archive: &str,
    spec: &str,
    folder: &mut F,
) -> Result<(Parts, Spec), Fault>
    ensures reads { ReadsOnly F.files F.draft F.numbers F.faults
        (size_in (F.files folder.old) archive.now + (16 + SPECIFICATION))
        folder.old folder.new (fault_of result) }
    ensures told { (files : Files) → F.files folder.old ≡ Some files
        → Matches (λ r. spec_view r.1) (rekey_rules files archive.now spec.now) result }
    ensures are { (files : Files) → F.files folder.old ≡ Some files
        → IfOk result (λ r. PartsAre files archive.now r.0) }
    ensures within { IfOk result
        (λ r. AreWithin (size_in (F.files folder.old) archive.now) r.0) }
{
    let size = length_of(alloc, folder, archive)?;
    let length = limited_length(
        alloc,
        folder,
        spec,
        Quantity::Specification,
        limits::SPECIFICATION,
    )?;
    keys_behind(alloc, archive, size, spec, length, folder)
}

// Where the notes of the archive are, and the new keys, where a header stands in front of it.
fn keys_behind<F: Folder>(
    alloc: Global,
    archive: &str,
    size: u64,
    spec: &str,
    length: u64,
    folder: &mut F,
) -> Result<(Parts, Spec), Fault>
    requires { length ≤ SPECIFICATION }
    ensures reads { ReadsOnly F.files F.draft F.numbers F.faults (16 + size + SPECIFICATION)
        folder.old folder.new (fault_of result) }
    ensures told { (files : Files) → F.files folder.old ≡ Some files
        → file_length files archive.now ≡ Ok size → file_length files spec.now ≡ Ok length
        → Matches (λ r. spec_view r.1)
        (and_then (read_in files archive.now (front_in archive.now))
        (λ _. read_in files spec.now rules_of)) result }
    ensures are { (files : Files) → F.files folder.old ≡ Some files
        → file_length files archive.now ≡ Ok size
        → IfOk result (λ r. PartsAre files archive.now r.0) }
    ensures within { IfOk result (λ r. AreWithin size r.0) }
{
    let front = read_front(alloc, folder, archive, size)?;
    let keys = read_spec(alloc, folder, spec, length)?;
    Ok((front.parts, keys))
}

// The archive of this name and its notes, which have these parts.
fn read_archive<F: Folder>(
    alloc: Global,
    archive: &str,
    parts: &Parts,
    folder: &mut F,
) -> Result<(Archive, Vec<String>), Fault>
    requires { IfSome parts.now.notes (λ n. parts.now.core + n < 2 ^ 64 - 16) }
    ensures reads { ReadsOnly F.files F.draft F.numbers F.faults
        (parts.now.core + notes_bytes parts.now.notes) folder.old folder.new (fault_of result) }
    ensures opened { (files : Files) → F.files folder.old ≡ Some files
        → PartsAre files archive.now parts.now → IfOk result (λ r. (vs : List PlainKeyed)
        → ArchiveOf vs (archive_view r.0)
        → IsOpened files archive.now vs (map string_bytes r.1.items)) }
    ensures damage { (files : Files) (q : Refusal) → F.files folder.old ≡ Some files
        → PartsAre files archive.now parts.now
        → IfErr result (λ f. fault_view f ≡ refused q → IsDamaged files archive.now q) }
    ensures few { IfOk result (λ r. (archive_view r.0).n ≤ MOST_VERSIONS) }
    ensures documents { IfOk result (λ r. (vs : List PlainKeyed)
        → ArchiveOf vs (archive_view r.0) → AreRead vs) }
    ensures follow { IfOk result (λ r. (noted : Bool)
        → (noted ≡ true → IsSome parts.now.notes)
        → CanFollow noted (map string_bytes r.1.items)) }
{
    // Laws, for the proofs of `opened` and `damage`.
    archives_stand_for_one_list();
    sound_archives_have_one_reading();
    full_files_have_parts();
    full_files_are_read_note_by_note();
    let old = read_records(alloc, archive, parts.core, folder)?;
    let notes = notes_of(alloc, archive, parts, old.n(), folder)?;
    Ok((old, notes))
}

// The archive in the first bytes of a file, so many.
fn read_records<F: Folder>(
    alloc: Global,
    archive: &str,
    core: u64,
    folder: &mut F,
) -> Result<Archive, Fault>
    ensures reads { ReadsOnly F.files F.draft F.numbers F.faults core
        folder.old folder.new (fault_of result) }
    ensures sound { (files : Files) (bytes : List ℕ) → F.files folder.old ≡ Some files
        → CoreIs files archive.now core bytes → IfOk result (λ a. (vs : List PlainKeyed)
        → ArchiveOf vs (archive_view a) → IsSoundOf vs bytes) }
    ensures damage { (files : Files) (bytes : List ℕ) (q : Refusal)
        → F.files folder.old ≡ Some files → CoreIs files archive.now core bytes
        → IfErr result (λ f. fault_view f ≡ refused q → IsNoArchive archive.now bytes q) }
    ensures few { IfOk result (λ a. (archive_view a).n ≤ MOST_VERSIONS) }
    ensures documents { IfOk result (λ a. (vs : List PlainKeyed)
        → ArchiveOf vs (archive_view a) → AreRead vs) }
{
    match read_bytes(alloc, folder, archive, core) {
        Ok(bytes) => archive_from(alloc, archive, &bytes),
        Err(ReadFault::Folder) => Err(Fault::FolderFault),
        Err(ReadFault::Memory) => Err(Fault::Memory),
    }
}

// The archive that some bytes are.
fn archive_from(alloc: Global, name: &str, bytes: &[u8]) -> Result<Archive, Fault>
    ensures cause { IsInside (fault_of result) }
    ensures sound { IfOk result (λ a. (vs : List PlainKeyed)
        → ArchiveOf vs (archive_view a) → IsSoundOf vs bytes.now) }
    ensures damage { (q : Refusal) → IfErr result (λ f. fault_view f ≡ refused q
        → IsNoArchive name.now bytes.now q) }
    ensures few { IfOk result (λ a. (archive_view a).n ≤ MOST_VERSIONS) }
    ensures documents { IfOk result (λ a. (vs : List PlainKeyed)
        → ArchiveOf vs (archive_view a) → AreRead vs) }
{
    match decode_file(alloc, bytes) {
        Ok((_, old)) => Ok(old),
        Err(FileFault::Damage) => Err(damaged(alloc, name)),
        Err(FileFault::Memory) => Err(Fault::Memory),
    }
}

// The archive under other keys. The old one is given up.
fn archive_under(alloc: Global, old: Archive, spec: &Spec) -> Result<SpelledArchive, Fault>
    requires few { (archive_view old).n ≤ MOST_VERSIONS }
    requires documents { (vs : List PlainKeyed) → ArchiveOf vs (archive_view old) → AreRead vs }
    ensures cause { IsInside (fault_of result) }
    ensures under { (vs : List PlainKeyed) → ArchiveOf vs (archive_view old)
        → IfOk result (λ a. IsArchiveUnder (spec_view spec.now) vs (spelled_archive_view a)) }
    ensures written { IfOk result (λ a. CanBeWritten (spec_view spec.now)
        (spelled_archive_view a)) }
    ensures refused { (vs : List PlainKeyed) (q : Refusal) → ArchiveOf vs (archive_view old)
        → IfErr result (λ f. fault_view f ≡ refused q → IsBadTold (spec_view spec.now) vs q) }
{
    // For the proof of `written`: the rules are closed, and laws.
    let _ = spec.rules();
    archives_stand_for_one_list();
    rekeyed_archives_are_shaped();
    match rekey_spelled(alloc, &old, spec) {
        Ok(archive) => Ok(archive),
        Err(RekeyFault::Key { version, fault }) => Err(Fault::KeyFaultIn { version, fault }),
        Err(RekeyFault::Memory) => Err(Fault::Memory),
    }
}
