#![tactic(auto, using(xarch_parts::specs::EndLaws::endings), unfolding(xarch_parts::specs::Ends::IsInside, xarch_parts::specs::Ends::IsOfFolder, xarch_parts::specs::Ends::IsDefined))]

ghost use Rattle.std.specs.Prelude.{◌≡◌, ◌≤◌, ◌<◌, ◌+◌, ℕ, List, Some, Ok, IfOk, IfErr, OnOk};
ghost use Rattle.xa_outside.specs.Folder.{Files, IsBlank};
ghost use Rattle.jsonml_tree.specs.View.{tree_view};
ghost use Rattle.key_spec.specs.View.{spec_view};
ghost use Rattle.keyed_tree.specs.View.{keyed_view};
ghost use Rattle.jsonml_tree.specs.Fits.{IsElement, ItemsFit};
ghost use Rattle.jsonml_tree.specs.WellFormed.{IsWellFormed};
ghost use Rattle.key_annotate.specs.Stands.{Stands};
ghost use Rattle.key_rules.specs.Satisfies.{Satisfies};
ghost use Rattle.archive_tree.specs.ArchiveView.{archive_view};
ghost use Rattle.archive_file.specs.KeyedBy.{IsKeyedBy};
ghost use Rattle.record_format.specs.Files.{FileOf};
ghost use Rattle.record_format.specs.declared.limits.TheConstants.{LONGEST};
ghost use Rattle.archive_stats.specs.View.{counts_view};
ghost use Rattle.xarch_gen.specs.Company.{company_rules};
ghost use Rattle.xarch_words.specs.Commands as commands;
ghost use Rattle.xarch_words.specs.Refusal as refusal;
ghost use Rattle.xarch_words.specs.Refusal.{Refusal, refused};
ghost use Rattle.xarch_words.specs.View.{fault_view};
ghost use Rattle.xarch_words.specs.declared.limits.TheConstants.{DEMO};
ghost use Rattle.xarch_parts.specs.Archives.{IsRefusal};
ghost use Rattle.xarch_meanings.specs.Demo.{IsSampleArchive, IsSampleFile, MakesOrNone, sample_tree, samples, told_and_stored};
ghost use Rattle.xarch_parts.specs.Ends.{EndsGained, IsCaused, IsInside, Matches, fault_of};
ghost use Rattle.xarch_parts.specs.Folders.{WritesOnly};
ghost use Rattle.xarch_meanings.specs.Performs.{Performs};
ghost use Rattle.xarch_parts.specs.Inputs;
ghost use Rattle.xarch_parts.specs.Allowed.{MayEnd};

use archive_file::keyed_versions_can_be_merged;
use archive_stats::{Counts, counts_of};
use archive_tree::{Archive, archives_stand_for_one_list};
use jsonml_tree::Tree;
use key_annotate::{AnnotateFault, keyed};
use key_spec::Spec;
use keyed_tree::Keyed;
use nested_merge::merge;
use std::alloc::{AllocError, Global};
use xa_outside::{Folder, Sink};
use xarch_gen::{company_spec, sample};
use xarch_parts::{at_most, begin, check_free, commit, draft, file_from, write_counts};
use xarch_words::{Fault, Quantity, limits};

/// Makes an archive of the first documents of a seed, and writes how much it holds before it is
/// there.
pub fn run_demo<F: Folder, O: Sink>(
    alloc: Global,
    seed: u32,
    count: u32,
    archive: &str,
    folder: &mut F,
    out: &mut O,
) -> Result<(), Fault>
    ensures { Performs F.files F.draft F.numbers F.faults (commands.demo seed count archive.now)
        folder.old folder.new (O.taken out.old) (O.taken out.new)
        (O.faults out.old) (O.faults out.new) (fault_of result) }
{
    check_few(count)?;
    begin(folder)?;
    check_free(alloc, folder, archive)?;
    make_sample(alloc, seed, count, archive, folder, out)
}

// Writes the counts of the archive of these documents, and then makes it.
fn make_sample<F: Folder, O: Sink>(
    alloc: Global,
    seed: u32,
    count: u32,
    archive: &str,
    folder: &mut F,
    out: &mut O,
) -> Result<(), Fault>
    requires few { count ≤ DEMO }
    requires blank { IsBlank (F.draft folder.old) }
    ensures writes { WritesOnly F.files F.draft F.numbers folder.old folder.new (fault_of result) }
    ensures caused { IsCaused (F.faults folder.old) (F.faults folder.new) (O.faults out.old)
        (O.faults out.new) (fault_of result) }
    ensures may { (files : Files) → F.files folder.old ≡ Some files
        → MayEnd (MakesOrNone files archive.now seed count) (fault_of result) (F.files folder.new)
        (O.taken out.old) (O.taken out.new) }
    ensures gained { EndsGained (fault_of result) (O.taken out.old) (O.taken out.new) }
{
    let (bytes, counts) = sample_file(alloc, seed, count)?;
    tell_then_store(archive, &bytes, &counts, folder, out)
}

// Drafts the bytes, writes the counts, and makes the draft the file of this name.
fn tell_then_store<F: Folder, O: Sink>(
    name: &str,
    bytes: &[u8],
    counts: &Counts,
    folder: &mut F,
    out: &mut O,
) -> Result<(), Fault>
    requires blank { IsBlank (F.draft folder.old) }
    ensures writes { WritesOnly F.files F.draft F.numbers folder.old folder.new (fault_of result) }
    ensures caused { IsCaused (F.faults folder.old) (F.faults folder.new) (O.faults out.old)
        (O.faults out.new) (fault_of result) }
    ensures may { (files : Files) → F.files folder.old ≡ Some files
        → MayEnd (λ r. r ≡ Ok (told_and_stored files name.now bytes.now (counts_view counts.now)))
        (fault_of result) (F.files folder.new) (O.taken out.old) (O.taken out.new) }
    ensures gained { EndsGained (fault_of result) (O.taken out.old) (O.taken out.new) }
{
    draft(folder, bytes)?;
    write_counts(counts, out)?;
    commit(folder, name)
}

/// Nothing, where there are not too many documents. It takes no memory.
fn check_few(count: u32) -> Result<(), Fault>
    ensures cause { IsInside (fault_of result) }
    ensures told { Matches (λ _. count) (Inputs.at_most refusal.demo DEMO count) result }
    ensures bound { OnOk result (count ≤ DEMO) }
    ensures refused { IfErr result (λ f. fault_view f ≡ refused (refusal.limit refusal.demo DEMO)) }
{
    at_most(u64::from(count), Quantity::Demo, limits::DEMO)?;
    Ok(())
}

/// The file of the first documents of a seed, and what is counted of it.
fn sample_file(alloc: Global, seed: u32, count: u32) -> Result<(Vec<u8>, Counts), Fault>
    requires { count ≤ DEMO }
    ensures cause { IsInside (fault_of result) }
    ensures made { IfOk result (λ r. IsSampleFile seed count r.0.items (counts_view r.1)) }
    ensures limit { IfErr result
        (λ f. IsRefusal (refusal.limit refusal.archive LONGEST) (fault_view f)) }
    ensures too_long { (q : Refusal) (bytes : List ℕ)
        → IfErr result (λ f. fault_view f ≡ refused q
        → ¬ FileOf company_rules (samples seed count) bytes) }
{
    // A law, for what `file_from` and `counts_of` require.
    archives_stand_for_one_list();
    let spec = company_spec(alloc)?;
    let archive = sample_archive(alloc, &spec, seed, count)?;
    let bytes = file_from(alloc, &spec, &archive)?;
    let counts = counts_of(alloc, &spec, &archive)?;
    Ok((bytes, counts))
}

/// The archive of the first documents of a seed.
fn sample_archive(alloc: Global, spec: &Spec, seed: u32, count: u32) -> Result<Archive, AllocError>
    requires rules { spec_view spec.now ≡ company_rules }
    requires few { count ≤ DEMO }
    ensures { IfOk result (λ a. IsSampleArchive seed count (archive_view a)) }
{
    let mut archive = Archive::empty(alloc);
    for before in 0..count {
        archive = with_sample(alloc, spec, archive, seed, before)?;
    }
    Ok(archive)
}

/// The archive with the document behind those that are in it.
fn with_sample(
    alloc: Global,
    spec: &Spec,
    archive: Archive,
    seed: u32,
    before: u32,
) -> Result<Archive, AllocError>
    requires rules { spec_view spec.now ≡ company_rules }
    requires few { before < DEMO }
    requires documents { IsSampleArchive seed before (archive_view archive) }
    ensures { IfOk result (λ a. IsSampleArchive seed (before + 1) (archive_view a)) }
{
    // Laws, for what `merge` requires.
    archives_stand_for_one_list();
    keyed_versions_can_be_merged();
    let keyed = sample_keyed(alloc, spec, seed, before + 1)?;
    match merge(alloc, archive, &keyed) {
        Ok(archive) => Ok(archive),
        Err((error, _)) => Err(error),
    }
}

/// The keyed tree of the document of this number.
fn sample_keyed(alloc: Global, spec: &Spec, seed: u32, document: u32) -> Result<Keyed, AllocError>
    requires rules { spec_view spec.now ≡ company_rules }
    requires first { 1 ≤ document }
    requires last { document ≤ DEMO }
    ensures tree { IfOk result (λ k. keyed_view k ≡ sample_tree seed document) }
    ensures keyed { IfOk result (λ k. IsKeyedBy company_rules (keyed_view k)) }
{
    let tree = sample(alloc, seed, document)?;
    tree_of(alloc, spec, &tree)
}

/// The keyed tree of a document that satisfies the keys.
fn tree_of(alloc: Global, spec: &Spec, document: &Tree) -> Result<Keyed, AllocError>
    requires element { IsElement (tree_view document.now) }
    requires items_fit { ItemsFit (tree_view document.now) }
    requires well_formed { IsWellFormed (tree_view document.now) }
    requires satisfies { Satisfies (spec_view spec.now) (tree_view document.now) }
    ensures { IfOk result
        (λ k. Stands (spec_view spec.now) (tree_view document.now) (keyed_view k)) }
{
    match keyed(alloc, spec, document) {
        Ok(keyed) => Ok(keyed),
        Err(AnnotateFault::Memory) => Err(AllocError),
        Err(AnnotateFault::Key(_)) => unreachable!(),
    }
}
