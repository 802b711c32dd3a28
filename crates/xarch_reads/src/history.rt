#![tactic(auto, using(xarch_parts::specs::EndLaws::endings), unfolding(xarch_parts::specs::Ends::IsInside, xarch_parts::specs::Ends::IsDefined))]

ghost use Rattle.std.specs.Prelude.{◌≡◌, ◌<◌, ◌+◌, ◌-◌, Some, IfOk, IfErr, map, string_bytes};
ghost use Rattle.version_set.specs.Members.{members};
ghost use Rattle.version_set.specs.View.{pairs_of};
ghost use Rattle.xa_outside.specs.Folder.{Files};
ghost use Rattle.xa_outside.specs.Numbers.{PullsAtMost};
ghost use Rattle.keyed_tree.specs.View.{label_view};
ghost use Rattle.archive_tree.specs.Data.{PlainArchive};
ghost use Rattle.archive_tree.specs.History.{hist};
ghost use Rattle.archive_tree.specs.Stands.{ArchiveOf};
ghost use Rattle.record_cursor.specs.View.{header_view, IsHeader};
ghost use Rattle.record_format.specs.Probed.{probed};
ghost use Rattle.noted_file.specs.Contents.{Contents};
ghost use Rattle.xarch_words.specs.Commands.{history};
ghost use Rattle.xarch_words.specs.Refusal as refusal;
ghost use Rattle.xarch_words.specs.View.{fault_view};
ghost use Rattle.xarch_parts.specs.Archives.{ArchiveIs, IsFrontOf, IsRefusal, NoRefusal};
ghost use Rattle.xarch_parts.specs.Ends.{IsInside, fault_of};
ghost use Rattle.xarch_parts.specs.Folders.{ReadsOnly};
ghost use Rattle.xarch_meanings.specs.History.{numbers_text};
ghost use Rattle.xarch_meanings.specs.Performs.{Performs};
ghost use Rattle.xarch_reads.specs.Searched.{IsShownAs};

use crate::asked::{Search, read_asked};
use file_history::HistFault;
use noted_file::full_files_have_parts;
use record_format::versions_have_one_file;
use std::alloc::Global;
use std::marker::Brand;
use std::sync::ledger::{Blank, Ledger};
use timestamp_tree::Steps;
use version_set::VersionSet;
use xa_outside::{Folder, Sink};
use xarch_parts::{damaged, write_bytes};
use xarch_words::Fault;

/// Writes the versions of an archive that hold the element at a path.
pub fn run_history<F: Folder, O: Sink>(
    alloc: Global,
    archive: &str,
    path: &str,
    folder: &mut F,
    out: &mut O,
) -> Result<(), Fault>
    ensures { Performs F.files F.draft F.numbers F.faults (history archive.now path.now)
        folder.old folder.new (O.taken out.old) (O.taken out.new)
        (O.faults out.old) (O.faults out.new) (fault_of result) }
{
    // Laws, for the proof of what may come of it and of how little it reads.
    versions_have_one_file();
    full_files_have_parts();
    let (header, labels) = read_asked(alloc, archive, path, folder)?;
    let search = Search {
        archive,
        header: &header,
        path: &labels,
    };
    let versions = versions_by::<F, Brand>(Blank::new(1), alloc, &search, folder)?;
    let line = line_of(&versions)?;
    write_bytes(line.as_bytes(), out)
}

// The versions that hold the path.
fn versions_by<F: Folder, L: Ledger>(
    blank: Blank,
    alloc: Global,
    search: &Search<'_>,
    folder: &mut F,
) -> Result<VersionSet, Fault>
    requires name { blank.name ≡ L.name }
    requires parts { blank.parts ≡ L.parts }
    requires some { 0 < blank.parts }
    requires header { IsHeader (header_view search.now.header.now) }
    ensures reads { ReadsOnly F.files F.draft F.numbers F.faults
        ((header_view search.now.header.now).length - (header_view search.now.header.now).first)
        folder.old folder.new (fault_of result) }
    ensures damaged { IfErr result
        (λ f. IsRefusal (refusal.damaged search.now.archive.now) (fault_view f)) }
    ensures members { (files : Files) (c : Contents) → F.files folder.old ≡ Some files
        → IsFrontOf files search.now.archive.now (header_view search.now.header.now)
        → ArchiveIs files search.now.archive.now c
        → IfOk result (λ s. members (pairs_of s)
        ≡ hist c.versions (map label_view search.now.path.now)) }
    ensures undamaged { (files : Files) (c : Contents) → F.files folder.old ≡ Some files
        → IsFrontOf files search.now.archive.now (header_view search.now.header.now)
        → ArchiveIs files search.now.archive.now c
        → IfErr result (λ f. NoRefusal (fault_view f)) }
    ensures few { (files : Files) (c : Contents) (a : PlainArchive)
        → F.files folder.old ≡ Some files
        → IsFrontOf files search.now.archive.now (header_view search.now.header.now)
        → ArchiveIs files search.now.archive.now c → ArchiveOf c.versions a
        → PullsAtMost (8 + probed a (map label_view search.now.path.now))
        (F.numbers folder.old) (F.numbers folder.new) }
{
    // A law, for the proofs of what comes of a sound archive.
    full_files_have_parts();
    let mut steps: Steps<L> = Steps::new(blank);
    let Search {
        archive,
        header,
        path,
    } = search;
    match file_history::history(alloc, folder, archive, header, path, &mut steps) {
        Ok(versions) => Ok(versions),
        Err(fault) => Err(shown_fault(alloc, archive, fault)),
    }
}

// What is said of the fault, where it befell the archive of this name.
fn shown_fault(alloc: Global, archive: &str, fault: HistFault) -> Fault
    ensures { IsShownAs archive.now fault (fault_view result) }
{
    match fault {
        HistFault::Damage => damaged(alloc, archive),
        HistFault::Folder => Fault::FolderFault,
        HistFault::Memory => Fault::Memory,
    }
}

/// The printed set, and a line feed.
fn line_of(versions: &VersionSet) -> Result<String, Fault>
    ensures cause { IsInside (fault_of result) }
    ensures text { IfOk result
        (λ s. string_bytes s ≡ numbers_text (members (pairs_of versions.now))) }
    ensures memory { IfErr result (λ f. fault_view f ≡ refusal.memory) }
{
    let mut line = versions.text()?;
    line.push_str("\n")?;
    Ok(line)
}
