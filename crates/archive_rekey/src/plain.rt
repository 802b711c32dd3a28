// The versions of an archive under other keys, one after another.
ghost use Rattle.std.specs.Prelude.{◌≡◌, ◌+◌, ◌<◌, List, IfOk, IfErr, IfSome};
ghost use Rattle.jsonml_tree.specs.LentView.{lent_tree_view};
ghost use Rattle.keyed_tree.specs.Data.{PlainKeyed};
ghost use Rattle.key_spec.specs.View.{spec_view};
ghost use Rattle.archive_tree.specs.ArchiveView.{archive_view};
ghost use Rattle.archive_tree.specs.Stands.{ArchiveOf};
ghost use Rattle.archive_file.specs.KeyedBy.{AreKeyedBy};
ghost use Rattle.archive_rekey.specs.Progress.{IsBehind, IsDocument, IsFaultOf, Reaches};
ghost use Rattle.archive_rekey.specs.Rekeyed.{IsArchiveUnder, IsFirstBad, SpellDocuments};
ghost use Rattle.archive_rekey.specs.View.{bad_version};

use crate::fault::RekeyFault;
use crate::lend::lend_document;
use crate::versions::version_under;
use archive_file::keyed_versions_can_be_merged;
use archive_tree::{Archive, archives_stand_for_one_list};
use jsonml_tree::LentTree;
use key_spec::Spec;
use nested_merge::merge;
use std::alloc::{AllocError, Global};

/// The archive of the same versions under the keys of the specification, in their order, or the
/// first version that does not satisfy them.
///
/// Version by version, the old archive lends a document, which is keyed, copied and merged. So the
/// steps grow with the number of versions, equal or not: `rekey_spelled` keys equal ones once.
/// Beside the old archive it holds the new one and one version. Recursion is as deep as nodes and
/// elements nest.
pub fn rekey(alloc: Global, old: &Archive, spec: &Spec) -> Result<Archive, RekeyFault>
    requires documents { (vs : List PlainKeyed) → ArchiveOf vs (archive_view old.now)
        → SpellDocuments vs }
    ensures archive { IfOk result (λ a. (vs : List PlainKeyed) → ArchiveOf vs (archive_view old.now)
        → IsArchiveUnder (spec_view spec.now) vs (archive_view a)) }
    ensures key { IfErr result (λ e. IfSome (bad_version e) (λ b. (vs : List PlainKeyed)
        → ArchiveOf vs (archive_view old.now) → IsFirstBad (spec_view spec.now) vs b.0 b.1)) }

    // It can be written.
    ensures count { IfOk result (λ a. (archive_view a).n ≡ (archive_view old.now).n) }
    ensures keyed { IfOk result (λ a. (us : List PlainKeyed) → ArchiveOf us (archive_view a)
        → AreKeyedBy (spec_view spec.now) us) }
{
    // A law, for the proofs of `count` and `keyed`.
    archives_stand_for_one_list();
    let count = old.n();
    let mut archive = Archive::empty(alloc);
    for before in 0..count {
        archive = with_version(alloc, spec, old, archive, before)?;
    }
    Ok(archive)
}

/// The archive with the version behind those that are in it.
fn with_version(
    alloc: Global,
    spec: &Spec,
    old: &Archive,
    archive: Archive,
    before: u32,
) -> Result<Archive, RekeyFault>
    requires documents { (vs : List PlainKeyed) → ArchiveOf vs (archive_view old.now)
        → SpellDocuments vs }
    requires more { before < (archive_view old.now).n }
    requires room { before < 4294967295 }
    requires so_far { (vs : List PlainKeyed) → ArchiveOf vs (archive_view old.now)
        → Reaches (spec_view spec.now) vs before (archive_view archive) }
    ensures next { IfOk result (λ a. (vs : List PlainKeyed) → ArchiveOf vs (archive_view old.now)
        → Reaches (spec_view spec.now) vs (before + 1) (archive_view a)) }
    ensures key { IfErr result (λ e. IfSome (bad_version e) (λ b. (vs : List PlainKeyed)
        → ArchiveOf vs (archive_view old.now) → IsFirstBad (spec_view spec.now) vs b.0 b.1)) }
{
    // A law, for the proofs of what `with_document` requires.
    archives_stand_for_one_list();
    let document = lend_document(alloc, old, None, before + 1)?;
    with_document(alloc, spec, archive, before + 1, &document)
}

/// The archive with the keyed tree of the document behind its versions, as the version of that
/// number.
fn with_document(
    alloc: Global,
    spec: &Spec,
    archive: Archive,
    number: u32,
    document: &LentTree<'_>,
) -> Result<Archive, RekeyFault>
    requires document { IsDocument (lent_tree_view document.now) }
    requires room { (archive_view archive).n < 4294967295 }
    requires keyed { (us : List PlainKeyed) → ArchiveOf us (archive_view archive)
        → AreKeyedBy (spec_view spec.now) us }
    ensures next { IfOk result (λ a. IsBehind (spec_view spec.now) (lent_tree_view document.now)
        (archive_view archive) (archive_view a)) }
    ensures key { IfErr result (λ e. IfSome (bad_version e)
        (IsFaultOf (spec_view spec.now) number (lent_tree_view document.now))) }
{
    // Laws, for what `merge` requires.
    keyed_versions_can_be_merged();
    let lent = version_under(alloc, spec, number, document)?;
    let version = lent.own(alloc)?;
    match merge(alloc, archive, &version) {
        Ok(archive) => Ok(archive),
        Err((AllocError, _)) => Err(RekeyFault::Memory),
    }
}
