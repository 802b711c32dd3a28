#![tactic(auto, using(crate::specs::EndLaws::endings), unfolding(crate::specs::Ends::IsInside, crate::specs::Ends::IsOfFolder, crate::specs::Ends::IsDefined))]

ghost use Rattle.std.specs.Prelude.{◌≡◌, ◌≤◌, ℕ, List, Some, IfOk, IfErr, OnOk};
ghost use Rattle.std.specs.FinMap as map;
ghost use Rattle.xa_outside.specs.Folder.{Files, committed, IsBlank};
ghost use Rattle.key_spec.specs.View.{spec_view};
ghost use Rattle.keyed_tree.specs.Data.{PlainKeyed};
ghost use Rattle.archive_tree.specs.ArchiveView.{archive_view};
ghost use Rattle.archive_tree.specs.Stands.{ArchiveOf};
ghost use Rattle.record_parts.specs.declared.limits.TheConstants.{MOST_VERSIONS};
ghost use Rattle.record_format.specs.Files.{FileOf};
ghost use Rattle.record_format.specs.declared.limits.TheConstants.{LONGEST};
ghost use Rattle.archive_file.specs.KeyedBy.{AreKeyedBy};
ghost use Rattle.archive_file.specs.Sound.{SoundAs};
ghost use Rattle.xarch_words.specs.Refusal as refusal;
ghost use Rattle.xarch_words.specs.Refusal.{folder_fault};
ghost use Rattle.xarch_words.specs.View.{fault_view};
ghost use Rattle.xarch_parts.specs.Archives.{IsDrafted, IsRefusal, NoRefusal, free_in};
ghost use Rattle.xarch_parts.specs.Ends.{IsCaused, IsInside, Matches, TellsOnly, fault_of};
ghost use Rattle.xarch_parts.specs.Folders.{Begins, ReadsOnly, WritesOnly};

use crate::names::exists;
use archive_file::{EncodeFault, encode_file};
use archive_tree::Archive;
use key_spec::Spec;
use record_format::LONGEST;
use std::alloc::Global;
use xa_outside::Folder;
use xarch_words::{Fault, Quantity};

/// Empties the draft, as each command does first that makes a file.
pub fn begin<F: Folder>(folder: &mut F) -> Result<(), Fault>
    ensures begins { Begins F.files F.draft F.numbers F.faults folder.old folder.new
        (fault_of result) }
    ensures fault { IfErr result (λ f. fault_view f ≡ folder_fault) }
{
    match folder.begin() {
        Ok(()) => Ok(()),
        Err(_) => Err(Fault::FolderFault),
    }
}

/// Nothing, where the name has no file yet.
pub fn check_free<F: Folder>(alloc: Global, folder: &mut F, name: &str) -> Result<(), Fault>
    ensures reads { ReadsOnly F.files F.draft F.numbers F.faults 0 folder.old folder.new
        (fault_of result) }
    ensures told { (files : Files) → F.files folder.old ≡ Some files
        → Matches (λ _. tt) (free_in files name.now) result }
{
    match folder.length(name) {
        Ok(None) => Ok(()),
        Ok(Some(_)) => Err(exists(alloc, name)),
        Err(_) => Err(Fault::FolderFault),
    }
}

/// Makes the bytes the file of this name, by a draft that is empty so far.
pub fn store<F: Folder>(folder: &mut F, name: &str, bytes: &[u8]) -> Result<(), Fault>
    requires blank { IsBlank (F.draft folder.old) }
    ensures writes { WritesOnly F.files F.draft F.numbers folder.old folder.new (fault_of result) }
    ensures caused { (out : ℕ)
        → IsCaused (F.faults folder.old) (F.faults folder.new) out out (fault_of result) }
    ensures stored { (files : Files) → F.files folder.old ≡ Some files
        → OnOk result (TellsOnly (F.files folder.new) (map.insert files name.now bytes.now)) }
    ensures fault { IfErr result (λ f. fault_view f ≡ folder_fault) }
{
    draft(folder, bytes)?;
    commit(folder, name)
}

/// Adds the bytes to a draft that is empty.
pub fn draft<F: Folder>(folder: &mut F, bytes: &[u8]) -> Result<(), Fault>
    requires blank { IsBlank (F.draft folder.old) }
    ensures writes { WritesOnly F.files F.draft F.numbers folder.old folder.new (fault_of result) }
    ensures caused { (out : ℕ)
        → IsCaused (F.faults folder.old) (F.faults folder.new) out out (fault_of result) }
    ensures drafted { OnOk result (IsDrafted (F.draft folder.new) bytes.now) }
    ensures files { F.files folder.new ≡ F.files folder.old }
    ensures fault { IfErr result (λ f. fault_view f ≡ folder_fault) }
{
    match folder.append(bytes) {
        Ok(()) => Ok(()),
        Err(_) => Err(Fault::FolderFault),
    }
}

/// Makes the draft the file of this name.
pub fn commit<F: Folder>(folder: &mut F, name: &str) -> Result<(), Fault>
    ensures writes { WritesOnly F.files F.draft F.numbers folder.old folder.new (fault_of result) }
    ensures caused { (out : ℕ)
        → IsCaused (F.faults folder.old) (F.faults folder.new) out out (fault_of result) }
    ensures committed { OnOk result
        (F.files folder.new ≡ committed (F.files folder.old) (F.draft folder.old) name.now) }
    ensures fault { IfErr result (λ f. fault_view f ≡ folder_fault) }
{
    match folder.commit(name) {
        Ok(()) => Ok(()),
        Err(_) => Err(Fault::FolderFault),
    }
}

/// The bytes of the file of an archive, or that they are more than a file may have.
pub fn file_from(alloc: Global, spec: &Spec, archive: &Archive) -> Result<Vec<u8>, Fault>
    requires few { (archive_view archive.now).n ≤ MOST_VERSIONS }
    requires keyed { (vs : List PlainKeyed) → ArchiveOf vs (archive_view archive.now)
        → AreKeyedBy (spec_view spec.now) vs }
    ensures cause { IsInside (fault_of result) }
    ensures sound { IfOk result (λ v. (vs : List PlainKeyed)
        → ArchiveOf vs (archive_view archive.now) → SoundAs (spec_view spec.now) vs v.items) }
    ensures limit { IfErr result
        (λ f. IsRefusal (refusal.limit refusal.archive LONGEST) (fault_view f)) }
    ensures too_long { (vs : List PlainKeyed) (bytes : List ℕ)
        → ArchiveOf vs (archive_view archive.now) → FileOf (spec_view spec.now) vs bytes
        → IfErr result (λ f. NoRefusal (fault_view f)) }
{
    // The rules are closed.
    let _ = spec.rules();
    match encode_file(alloc, spec, archive) {
        Ok(bytes) => Ok(bytes),
        Err(EncodeFault::TooLong) => Err(Fault::Limit {
            quantity: Quantity::Archive,
            number: LONGEST,
        }),
        Err(EncodeFault::Memory) => Err(Fault::Memory),
    }
}
