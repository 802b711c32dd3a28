// The counts of an archive in memory.
ghost use Rattle.std.specs.Prelude.{◌≡◌, ◌≤◌, ℕ, List, IfOk};
ghost use Rattle.keyed_tree.specs.Data.{PlainKeyed};
ghost use Rattle.key_spec.specs.Data.{PlainRule};
ghost use Rattle.key_spec.specs.View.{spec_view};
ghost use Rattle.archive_tree.specs.ArchiveView.{archive_view};
ghost use Rattle.archive_tree.specs.Data.{PlainArchive};
ghost use Rattle.archive_tree.specs.Stands.{ArchiveOf};
ghost use Rattle.record_parts.specs.declared.limits.TheConstants.{MOST_VERSIONS};
ghost use Rattle.record_format.specs.Files.{FileOf};
ghost use Rattle.archive_file.specs.KeyedBy.{AreKeyedBy};
ghost use Rattle.archive_stats.specs.Counted.{IsFileOf};
ghost use Rattle.archive_stats.specs.Counts.{counts};
ghost use Rattle.archive_stats.specs.View.{counts_view};

use crate::counts::Counts;
use crate::file::count_file;
use archive_file::{EncodeFault, encode_file};
use archive_tree::Archive;
use key_spec::Spec;
use std::alloc::{AllocError, Global};
use xa_outside::SureFolder;

/// The name of a file that is in memory alone.
const NAME: &str = "archive";

/// What is counted of an archive under a specification that keys its versions, where it has a file.
///
/// It encodes the file once, and goes over its records.
pub fn counts_of(alloc: Global, spec: &Spec, archive: &Archive) -> Result<Counts, AllocError>
    requires few { (archive_view archive.now).n ≤ MOST_VERSIONS }
    requires keyed { (vs : List PlainKeyed)
        → ArchiveOf vs (archive_view archive.now) → AreKeyedBy (spec_view spec.now) vs }
    requires file { (vs : List PlainKeyed)
        → ArchiveOf vs (archive_view archive.now)
        → (bytes : List ℕ) × FileOf (spec_view spec.now) vs bytes }
    ensures { IfOk result (λ c. counts_view c
        ≡ counts (spec_view spec.now) (archive_view archive.now)) }
{
    match encode_file(alloc, spec, archive) {
        Ok(bytes) => count_bytes(alloc, bytes),
        Err(EncodeFault::TooLong) => unreachable!(),
        Err(EncodeFault::Memory) => Err(AllocError),
    }
}

// The counts of the archive that the bytes are the file of. That is read in a folder that never
// fails, so only memory may not suffice.
fn count_bytes(alloc: Global, bytes: Vec<u8>) -> Result<Counts, AllocError>
    ensures { (rules : List PlainRule) (a : PlainArchive) → IsFileOf rules a bytes.items
        → IfOk result (λ c. counts_view c ≡ counts rules a) }
{
    let length = bytes.len() as u64;
    let mut folder = SureFolder::new(alloc);
    folder.put(NAME, bytes)?;
    match count_file(alloc, &mut folder, NAME, length) {
        Ok(counts) => Ok(counts),
        Err(_) => Err(AllocError),
    }
}
