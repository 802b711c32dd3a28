// The file of versions that are merged in memory.
ghost use Rattle.std.specs.Prelude.{◌≡◌, ◌≢◌, ◌≤◌, ◌++◌, ℕ, List, Some, IfOk, IfErr, map, length};
ghost use Rattle.std.specs.FinMap as finite;
ghost use Rattle.xa_outside.specs.Folder.{Files};
ghost use Rattle.key_spec.specs.View.{spec_view};
ghost use Rattle.keyed_tree.specs.View.{keyed_view};
ghost use Rattle.record_format.specs.Files.{FileOf};
ghost use Rattle.archive_file.specs.Faults.{IfTooLong};
ghost use Rattle.archive_file.specs.KeyedBy.{AreKeyedBy};
ghost use Rattle.archive_file.specs.declared.fault.EncodeFault.TheVariants.{TooLong};
ghost use Rattle.version_notes.specs.Notes.{notes_part};
ghost use Rattle.xarch_parts.specs.Archives.{ArchiveIs};
ghost use Rattle.record_parts.specs.declared.limits.TheConstants.{MOST_VERSIONS};

use archive_file::{EncodeFault, encode_file, keyed_versions_can_be_merged};
use archive_tree::archives_stand_for_one_list;
use key_spec::Spec;
use keyed_tree::Keyed;
use nested_merge::merge_all;
use record_format::versions_have_one_file;
use std::alloc::Global;

/// The archive file of some versions under the specification that keys them. All of them are
/// merged, one after another from the empty archive, and what this gives is encoded.
///
/// The commands never call it: they go from file to file, a version at a time. Clause `held` says
/// that what they leave has these bytes all the same. It holds the whole archive and its file in
/// memory.
pub fn file_of_versions(
    alloc: Global,
    spec: &Spec,
    versions: &[Keyed],
) -> Result<Vec<u8>, EncodeFault>
    requires few { length versions.now ≤ MOST_VERSIONS }
    requires keyed { AreKeyedBy (spec_view spec.now) (map keyed_view versions.now) }
    ensures file { IfOk result
        (λ v. FileOf (spec_view spec.now) (map keyed_view versions.now) v.items) }
    ensures too_long { IfErr result
        (λ e. IfTooLong e ((bytes : List ℕ)
        → ¬ FileOf (spec_view spec.now) (map keyed_view versions.now) bytes)) }

    // In any folder, the file of an archive of these versions and some notes has exactly these bytes,
    // and behind them those of the notes.
    ensures held { (files : Files) (name : List ℕ) (notes : List (List ℕ))
        → ArchiveIs files name (record {
          rules = spec_view spec.now;
          versions = map keyed_view versions.now;
          notes = notes;
        })
        → IfOk result (λ v. finite.get files name ≡ Some (v.items ++ notes_part notes)) }

    // Where a folder has such an archive, the answer is never TooLong.
    ensures fits { (files : Files) (name : List ℕ) (notes : List (List ℕ))
        → ArchiveIs files name (record {
          rules = spec_view spec.now;
          versions = map keyed_view versions.now;
          notes = notes;
        })
        → IfErr result (λ e. e ≢ TooLong) }
{
    // Laws: for the proof of `held`, and for what the two calls require.
    versions_have_one_file();
    archives_stand_for_one_list();
    keyed_versions_can_be_merged();
    let archive = merge_all(alloc, versions)?;
    encode_file(alloc, spec, &archive)
}
