#![tactic(auto, using(xarch_parts::specs::EndLaws::endings), unfolding(xarch_parts::specs::Ends::IsInside, xarch_parts::specs::Ends::IsDefined))]

ghost use Rattle.std.specs.Prelude.{◌≤◌, ℕ, Some, MatchResult, OnOk};
ghost use Rattle.xa_outside.specs.Taken.{Taken};
ghost use Rattle.record_cursor.specs.View.{header_view, IsHeader};
ghost use Rattle.xarch_words.specs.Commands as command;
ghost use Rattle.xarch_words.specs.View.{fault_view};
ghost use Rattle.xa_outside.specs.Folder.{IsBlank};
ghost use Rattle.xarch_parts.specs.Ends.{IsInside, Matches, fault_of};
ghost use Rattle.xarch_meanings.specs.Cut.{are_versions};
ghost use Rattle.xarch_meanings.specs.Meanings.{FillsUp, IsLimited};
ghost use Rattle.xarch_meanings.specs.Performs.{Performs};
ghost use Rattle.xarch_copies.specs.Cutting.{Cuts, Fronts, IsToldAs, Makes, Uncut};

use crate::notes::append_notes;
use archive_cut::CutFault;
use noted_file::{full_files_are_read_note_by_note, full_files_have_parts};
use record_cursor::{Cursor, Header};
use record_format::{LONGEST, versions_have_one_file};
use std::alloc::Global;
use xa_outside::Folder;
use xarch_parts::{Front, begin, check_free, commit, damaged, length_of, read_front};
use xarch_words::{Fault, Quantity};

/// Makes an archive of the versions from the first to the last of another one, with their notes.
///
/// The other archive is read once, and what is left of each record is written before the next is
/// read, but for the alternatives of one leaf.
pub fn run_cut<F: Folder>(
    alloc: Global,
    archive: &str,
    new: &str,
    first: u32,
    last: u32,
    folder: &mut F,
) -> Result<(), Fault>
    requires { first ≤ last }
    ensures performs { (t : Taken) (n : ℕ) → Performs F.files F.draft F.numbers F.faults
        (command.cut archive.now new.now first last)
        folder.old folder.new t t n n (fault_of result) }
    ensures fills { FillsUp (Some (command.cut archive.now new.now first last))
        (F.files folder.old) (F.draft folder.new) (IsLimited (fault_of result)) }
{
    // Laws, for the proof of what may come of it.
    versions_have_one_file();
    full_files_have_parts();
    full_files_are_read_note_by_note();
    begin(folder)?;
    let front = find_versions(alloc, archive, new, first, last, folder)?;
    make_archive(alloc, archive, new, &front, first, last, folder)
}

// What stands in front of the archive, where the new name is free and there are these versions.
fn find_versions<F: Folder>(
    alloc: Global,
    archive: &str,
    new: &str,
    first: u32,
    last: u32,
    folder: &mut F,
) -> Result<Front, Fault>
    ensures { Fronts F.files F.draft F.numbers F.faults archive.now new.now first last
        folder.old folder.new result }
{
    let size = length_of(alloc, folder, archive)?;
    check_free(alloc, folder, new)?;
    let front = read_front(alloc, folder, archive, size)?;
    match check_versions(first, last, front.header.versions) {
        Ok(()) => Ok(front),
        Err(fault) => Err(fault),
    }
}

// Nothing, where so many versions have those from the first to the last. It takes no memory.
fn check_versions(first: u32, last: u32, versions: u32) -> Result<(), Fault>
    ensures cause { IsInside (fault_of result) }
    ensures told { Matches (λ _. tt) (are_versions first last versions) result }
    ensures within { OnOk result ((1 ≤ first) × (last ≤ versions)) }
{
    if first == 0 {
        return Err(Fault::NoVersion { i: 0, n: versions });
    }
    if last > versions {
        return Err(Fault::NoVersion {
            i: last,
            n: versions,
        });
    }
    Ok(())
}

// Makes the new archive: its records, its notes, and then the file is there.
fn make_archive<F: Folder>(
    alloc: Global,
    archive: &str,
    new: &str,
    front: &Front,
    first: u32,
    last: u32,
    folder: &mut F,
) -> Result<(), Fault>
    requires blank { IsBlank (F.draft folder.old) }
    requires from { 1 ≤ first }
    requires order { first ≤ last }
    requires there { last ≤ (header_view front.now.header).versions }
    ensures { Makes F.files F.draft F.numbers F.faults archive.now new.now front.now first last
        folder.old folder.new (fault_of result) }
{
    append_records(alloc, archive, &front.header, first, last, folder)?;
    append_notes(
        alloc,
        archive,
        &front.parts,
        front.header.versions,
        first,
        last,
        folder,
    )?;
    commit(folder, new)
}

// Appends what is left of the records of the archive of this name.
fn append_records<F: Folder>(
    alloc: Global,
    archive: &str,
    header: &Header,
    first: u32,
    last: u32,
    folder: &mut F,
) -> Result<(), Fault>
    requires header { IsHeader (header_view header.now) }
    requires blank { IsBlank (F.draft folder.old) }
    requires from { 1 ≤ first }
    requires order { first ≤ last }
    requires there { last ≤ (header_view header.now).versions }
    ensures { MatchResult result
        (λ _. Cuts F.files F.draft F.numbers F.faults archive.now (header_view header.now)
        first last folder.old folder.new)
        (λ f. Uncut F.files F.draft F.numbers F.faults archive.now (header_view header.now)
        first last folder.old folder.new (fault_view f)) }
{
    match Cursor::start(alloc, archive, header) {
        Ok(cursor) => match archive_cut::cut(alloc, folder, header, cursor, first, last) {
            Ok(()) => Ok(()),
            Err(fault) => Err(told_fault(alloc, archive, fault)),
        },
        Err(_) => Err(Fault::Memory),
    }
}

// What is said of the fault, where it befell the archive of this name.
fn told_fault(alloc: Global, archive: &str, fault: CutFault) -> Fault
    ensures { IsToldAs archive.now fault (fault_view result) }
{
    match fault {
        CutFault::Damage => damaged(alloc, archive),
        CutFault::TooLong => Fault::Limit {
            quantity: Quantity::Archive,
            number: LONGEST,
        },
        CutFault::Folder => Fault::FolderFault,
        CutFault::Memory => Fault::Memory,
    }
}
