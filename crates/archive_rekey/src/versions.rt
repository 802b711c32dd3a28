// The versions of an archive under other keys, one of each run after another.
ghost use Rattle.std.specs.Prelude.{◌≡◌, ◌+◌, ◌<◌, List, IfOk, IfErr, IfSome, length};
ghost use Rattle.std.specs.Option.{option_map};
ghost use Rattle.jsonml_tree.specs.LentView.{lent_tree_view};
ghost use Rattle.keyed_tree.specs.Data.{PlainKeyed};
ghost use Rattle.key_spec.specs.View.{spec_view};
ghost use Rattle.key_annotate.specs.LentView.{lent_view};
ghost use Rattle.key_annotate.specs.Stands.{Stands};
ghost use Rattle.archive_tree.specs.ArchiveView.{archive_view};
ghost use Rattle.archive_tree.specs.Data.{nodes_list};
ghost use Rattle.new_archive.specs.ArchiveView.{new_archive_view};
ghost use Rattle.spelled_archive.specs.ArchiveView.{spelled_archive_view};
ghost use Rattle.archive_tree.specs.Stands.{ArchiveOf};
ghost use Rattle.version_runs.specs.Runs.{starts_of, versions_at};
ghost use Rattle.archive_file.specs.KeyedBy.{AreKeyedBy, IsKeyedBy};
ghost use Rattle.archive_rekey.specs.Index.{IsRowIndex, index_view};
ghost use Rattle.archive_rekey.specs.Progress.{IsBehind, IsDocument, IsFaultOf, Reaches};
ghost use Rattle.archive_rekey.specs.Rekeyed.{IsArchiveUnder, IsFirstBad, SpellDocuments};
ghost use Rattle.archive_rekey.specs.View.{bad_version};

use crate::fault::RekeyFault;
use crate::index::{Index, index_of};
use crate::lend::lend_document;
use crate::spread::spread_archive;
use archive_file::keyed_versions_can_be_merged;
use archive_tree::{Archive, archives_stand_for_one_list};
use jsonml_tree::LentTree;
use key_annotate::{AnnotateFault, LentKeyed, lent_keyed};
use key_spec::Spec;
use new_archive::{NewArchive, merge_lent, seal_archive};
use spelled_archive::SpelledArchive;
use std::alloc::{AllocError, Global};
use version_runs::starts_of;

/// The archive of the same versions under the keys of the specification, in their order, or the
/// first version that does not satisfy them.
///
/// Between two numbers at which no stored set begins or ends all versions are equal: the first of
/// each such run is lent by the old archive as a document, keyed as it is lent, and merged as it is
/// lent, before the next is. At the end each set of runs is spread to their numbers. So the steps
/// do not grow with the number of versions, but with that of runs, of which there are at most two
/// for each interval that is stored, and one. Beside the old archive it holds the new one and the
/// rows of one version. Of a version it copies what is new in the new archive, and key values that
/// are more than one text. Recursion is as deep as nodes and elements nest.
pub fn rekey_spelled(
    alloc: Global,
    old: &Archive,
    spec: &Spec,
) -> Result<SpelledArchive, RekeyFault>
    requires documents { (vs : List PlainKeyed) → ArchiveOf vs (archive_view old.now)
        → SpellDocuments vs }
    ensures archive { IfOk result (λ a. (vs : List PlainKeyed) → ArchiveOf vs (archive_view old.now)
        → IsArchiveUnder (spec_view spec.now) vs (spelled_archive_view a)) }
    ensures key { IfErr result (λ e. IfSome (bad_version e) (λ b. (vs : List PlainKeyed)
        → ArchiveOf vs (archive_view old.now) → IsFirstBad (spec_view spec.now) vs b.0 b.1)) }

    // It can be written.
    ensures count { IfOk result (λ a. (spelled_archive_view a).n ≡ (archive_view old.now).n) }
    ensures keyed { IfOk result (λ a. (us : List PlainKeyed) → ArchiveOf us (spelled_archive_view a)
        → AreKeyedBy (spec_view spec.now) us) }
{
    // A law, for the proofs of what `spread_archive` requires, of `count` and of `keyed`.
    archives_stand_for_one_list();
    let last = old.n();
    let starts = starts_of(alloc, old)?;
    let archive = archive_of_runs(alloc, spec, old, last, &starts)?;
    match spread_archive(alloc, &starts, last, archive) {
        Ok(archive) => Ok(archive),
        Err(AllocError) => Err(RekeyFault::Memory),
    }
}

/// The archive of the first version of each run.
fn archive_of_runs(
    alloc: Global,
    spec: &Spec,
    old: &Archive,
    last: u32,
    starts: &[u32],
) -> Result<SpelledArchive, RekeyFault>
    requires documents { (vs : List PlainKeyed) → ArchiveOf vs (archive_view old.now)
        → SpellDocuments vs }
    requires last { last ≡ (archive_view old.now).n }
    requires starts { starts.now ≡ starts_of (archive_view old.now) }
    ensures archive { IfOk result (λ a. (vs : List PlainKeyed) → ArchiveOf vs (archive_view old.now)
        → Reaches (spec_view spec.now) (versions_at starts.now vs) (length starts.now)
        (spelled_archive_view a)) }
    ensures key { IfErr result (λ e. IfSome (bad_version e) (λ b. (vs : List PlainKeyed)
        → ArchiveOf vs (archive_view old.now) → IsFirstBad (spec_view spec.now) vs b.0 b.1)) }
{
    let index = index_of(alloc, old.kids())?;
    let beside = index.as_ref();
    let mut archive = NewArchive::empty(alloc);
    for before in 0..starts.len() {
        archive = with_next(alloc, spec, old, beside, starts, archive, before)?;
    }
    let sealed = seal_archive(alloc, archive)?;
    Ok(sealed)
}

/// The archive with the first version of the run behind those that are in it.
fn with_next(
    alloc: Global,
    spec: &Spec,
    old: &Archive,
    index: Option<&Index>,
    starts: &[u32],
    archive: NewArchive,
    before: usize,
) -> Result<NewArchive, RekeyFault>
    requires documents { (vs : List PlainKeyed) → ArchiveOf vs (archive_view old.now)
        → SpellDocuments vs }
    requires index { IsRowIndex (option_map (λ x. index_view x.now) index)
        (nodes_list (archive_view old.now).kids) }
    requires starts { starts.now ≡ starts_of (archive_view old.now) }
    requires more { before < length starts.now }
    requires room { before < 4294967295 }
    requires so_far { (vs : List PlainKeyed) → ArchiveOf vs (archive_view old.now)
        → Reaches (spec_view spec.now) (versions_at starts.now vs) before
        (new_archive_view archive) }
    ensures next { IfOk result (λ a. (vs : List PlainKeyed) → ArchiveOf vs (archive_view old.now)
        → Reaches (spec_view spec.now) (versions_at starts.now vs) (before + 1)
        (new_archive_view a)) }
    ensures key { IfErr result (λ e. IfSome (bad_version e) (λ b. (vs : List PlainKeyed)
        → ArchiveOf vs (archive_view old.now) → IsFirstBad (spec_view spec.now) vs b.0 b.1)) }
{
    // A law, for the proofs of what `with_document` requires.
    archives_stand_for_one_list();
    let number = starts[before];
    let document = lend_document(alloc, old, index, number)?;
    with_document(alloc, spec, archive, number, &document)
}

/// The archive with the keyed tree of the document behind its versions, as the version of that
/// number.
fn with_document(
    alloc: Global,
    spec: &Spec,
    archive: NewArchive,
    number: u32,
    document: &LentTree<'_>,
) -> Result<NewArchive, RekeyFault>
    requires document { IsDocument (lent_tree_view document.now) }
    requires room { (new_archive_view archive).n < 4294967295 }
    requires keyed { (us : List PlainKeyed) → ArchiveOf us (new_archive_view archive)
        → AreKeyedBy (spec_view spec.now) us }
    ensures next { IfOk result (λ a. IsBehind (spec_view spec.now) (lent_tree_view document.now)
        (new_archive_view archive) (new_archive_view a)) }
    ensures key { IfErr result (λ e. IfSome (bad_version e)
        (IsFaultOf (spec_view spec.now) number (lent_tree_view document.now))) }
{
    // Laws, for what `merge_lent` requires.
    keyed_versions_can_be_merged();
    let version = version_under(alloc, spec, number, document)?;
    match merge_lent(alloc, archive, &version) {
        Ok(archive) => Ok(archive),
        Err(AllocError) => Err(RekeyFault::Memory),
    }
}

/// The keyed tree of the document that the version of that number spells, under the specification.
pub(crate) fn version_under<'a, 't>(
    alloc: Global,
    spec: &'a Spec,
    number: u32,
    document: &'a LentTree<'t>,
) -> Result<LentKeyed<'a, 't>, RekeyFault>
    requires document { IsDocument (lent_tree_view document.now) }
    ensures version { IfOk result
        (λ k. Stands (spec_view spec.now) (lent_tree_view document.now) (lent_view k)) }
    ensures keyed { IfOk result (λ k. IsKeyedBy (spec_view spec.now) (lent_view k)) }
    ensures key { IfErr result (λ e. IfSome (bad_version e)
        (IsFaultOf (spec_view spec.now) number (lent_tree_view document.now))) }
{
    match lent_keyed(alloc, spec, document) {
        Ok(tree) => Ok(tree),
        Err(AnnotateFault::Key(fault)) => Err(RekeyFault::Key {
            version: number,
            fault,
        }),
        Err(AnnotateFault::Memory) => Err(RekeyFault::Memory),
    }
}
