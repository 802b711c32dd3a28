// The archive of a file.
ghost use Rattle.std.specs.Prelude.{◌≡◌, ◌≤◌, ◌&&◌, List, length, drop, Ok, IsTrue, nat_le, bytes_eq, IfOk, IfErr};
ghost use Rattle.std.specs.List.{AllByRecursion};
ghost use Rattle.jsonml_tree.specs.Data.{tree_depth};
ghost use Rattle.jsonml_tree.specs.Fits.{ItemsFit};
ghost use Rattle.jsonml_tree.specs.declared.limits.TheConstants.{GREATEST_DEPTH};
ghost use Rattle.key_spec.specs.Canonical.{canonical};
ghost use Rattle.key_spec.specs.Closed.{closed};
ghost use Rattle.key_spec.specs.Data.{PlainRule};
ghost use Rattle.key_spec.specs.View.{spec_view};
ghost use Rattle.keyed_tree.specs.Data.{PlainKeyed};
ghost use Rattle.keyed_tree.specs.Plain.{plain};
ghost use Rattle.keyed_tree.specs.Proper.{IsProper};
ghost use Rattle.archive_tree.specs.ArchiveView.{archive_view};
ghost use Rattle.keyed_tree.specs.Alike.{AllAlike};
ghost use Rattle.archive_tree.specs.Stands.{ArchiveOf};
ghost use Rattle.xa_fields.specs.Spelling.{u64_bytes};
ghost use Rattle.record_parts.specs.declared.limits.TheConstants.{MOST_VERSIONS};
ghost use Rattle.record_format.specs.Files.{longest, FileOf};
ghost use Rattle.archive_file.specs.Faults.{IfDamage};
ghost use Rattle.archive_file.specs.KeyedBy.{AreKeyedBy};
ghost use Rattle.archive_file.specs.Laid.{are_nested, Finds};
ghost use Rattle.archive_file.specs.Sound.{SoundAs};

use crate::fault::FileFault;
use crate::front::read_header;
use crate::keyedness::is_keyed;
use crate::reading::read_row;
use archive_tree::Archive;
use jsonml_tree::GREATEST_DEPTH;
use key_spec::Spec;
use record_format::LONGEST;
use std::alloc::Global;
use version_set::VersionSet;

/// The specification and the archive of a file, or Damage where the bytes are no sound archive.
///
/// It reads the nodes, compares each END with the one that the nodes before it make, and judges the archive of the nodes. So it
/// goes over the bytes once, and stops at the first that can stand in no sound archive; of a second file, no more than one END
/// is in memory.
pub fn decode_file(alloc: Global, bytes: &[u8]) -> Result<(Spec, Archive), FileFault>
    ensures sound { IfOk result (λ r. (vs : List PlainKeyed)
        → ArchiveOf vs (archive_view r.1) → SoundAs (spec_view r.0) vs bytes.now) }
    ensures damage { IfErr result (λ e. IfDamage e ((rules : List PlainRule) (vs : List PlainKeyed)
        → ¬ (SoundAs rules vs bytes.now))) }

    // A sound archive has one reading.
    ensures only { (rules : List PlainRule) (vs : List PlainKeyed) → SoundAs rules vs bytes.now
        → IfOk result (λ r. (spec_view r.0 ≡ rules) × ArchiveOf vs (archive_view r.1)) }

    ensures one { (rules others : List PlainRule) (vs us : List PlainKeyed)
        → SoundAs rules vs bytes.now → SoundAs others us bytes.now → (rules ≡ others) × (vs ≡ us) }

    // No element of a version has more than 4,294,967,295 items.
    ensures items { (rules : List PlainRule) (vs : List PlainKeyed)
        → SoundAs rules vs bytes.now → AllByRecursion (λ v. ItemsFit (plain v)) vs }

    // Each version is proper, and as a document no deeper than others.
    ensures plain { (rules : List PlainRule) (vs : List PlainKeyed) → SoundAs rules vs bytes.now
        → AllByRecursion (λ v. IsProper v × (tree_depth (plain v) ≤ GREATEST_DEPTH)) vs }

    // It can be written again.
    ensures few { IfOk result (λ r. (archive_view r.1).n ≤ MOST_VERSIONS) }
    ensures keyed { IfOk result (λ r. (vs : List PlainKeyed)
        → ArchiveOf vs (archive_view r.1) → AreKeyedBy (spec_view r.0) vs) }

    // Versions that are keyed by its specification are alike.
    ensures alike { IfOk result (λ r. (vs : List PlainKeyed)
        → AreKeyedBy (spec_view r.0) vs → AllAlike vs) }
{
    let (spec, archive) = read_archive(alloc, bytes)?;
    if !is_keyed(alloc, &spec, &archive)? {
        return Err(FileFault::Damage);
    }
    Ok((spec, archive))
}

// What the bytes are the file of, if they are a sound archive. Whether its versions are keyed is left to be seen.
fn read_archive(alloc: Global, bytes: &[u8]) -> Result<(Spec, Archive), FileFault>
    ensures found { (rules : List PlainRule) (vs : List PlainKeyed) → SoundAs rules vs bytes.now
        → Finds result (λ r. (spec_view r.0 ≡ rules) × ArchiveOf vs (archive_view r.1)) }
    ensures specification { IfOk result (λ r. closed (canonical (spec_view r.0))
        ≡ Ok (spec_view r.0)) }
    ensures file { IfOk result (λ r. (vs : List PlainKeyed)
        → ArchiveOf vs (archive_view r.1) → FileOf (spec_view r.0) vs bytes.now) }
    ensures few { IfOk result (λ r. (archive_view r.1).n ≤ MOST_VERSIONS) }
    ensures nested { IfOk result (λ r. IsTrue (are_nested GREATEST_DEPTH (archive_view r.1).kids)) }
{
    let (spec, n, at) = read_header(alloc, bytes)?;
    let all = VersionSet::upto(alloc, n);
    let (kids, end, dir) = read_row(alloc, bytes, at, GREATEST_DEPTH, &all)?;
    if !is_closed(bytes, end, dir) {
        return Err(FileFault::Damage);
    }
    match Archive::of_parts(alloc, n, kids)? {
        Some(archive) => Ok((spec, archive)),
        None => Err(FileFault::Damage),
    }
}

// Whether a file may have so many bytes, and those from the offset on are the length of the body of the root's END.
fn is_closed(bytes: &[u8], at: usize, dir: u64) -> bool
    requires { at ≤ length bytes.now }
    ensures { result ≡ (nat_le (length bytes.now) longest
        && bytes_eq (drop at bytes.now) (u64_bytes dir)) }
{
    bytes.len() as u64 <= LONGEST && is_tail(&bytes[at..], dir)
}

fn is_tail(bytes: &[u8], dir: u64) -> bool
    ensures { result ≡ bytes_eq bytes.now (u64_bytes dir) }
{
    bytes == dir.to_be_bytes().as_slice()
}
