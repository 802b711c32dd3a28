#![tactic(auto, using(xarch_parts::specs::EndLaws::endings), unfolding(xarch_parts::specs::Ends::IsInside, xarch_parts::specs::Ends::IsDefined))]

ghost use Rattle.std.specs.Prelude.{◌≡◌, ◌<◌, map};
ghost use Rattle.keyed_tree.specs.View.{label_view};
ghost use Rattle.record_cursor.specs.View.{header_view, IsHeader};
ghost use Rattle.xarch_words.specs.Commands as commands;
ghost use Rattle.xarch_words.specs.View.{fault_view};
ghost use Rattle.xarch_parts.specs.Ends.{IsInside, Matches, fault_of};
ghost use Rattle.xarch_meanings.specs.Log.{ending_at_frontier};
ghost use Rattle.xarch_meanings.specs.Performs.{Performs};
ghost use Rattle.xarch_reads.specs.Logged.{IsLoggedAs, Logs};
ghost use Rattle.xarch_reads.specs.Written.{written_state};

use crate::asked::{Search, read_asked};
use content_log::{LogFault, at_frontier};
use noted_file::full_files_have_parts;
use record_format::versions_have_one_file;
use std::alloc::Global;
use std::marker::Brand;
use std::sync::ledger::{Blank, Ledger};
use timestamp_tree::Steps;
use xa_outside::{Folder, Sink};
use xarch_meanings::archives_tell_their_versions;
use xarch_parts::damaged;
use xarch_words::Fault;

/// Writes each content that the element or the attribute at a path has had, with its versions.
///
/// Once the path is known to end at the frontier, nothing is refused but damage, which may be met
/// behind output.
pub fn run_log<F: Folder, O: Sink>(
    alloc: Global,
    archive: &str,
    path: &str,
    folder: &mut F,
    out: &mut O,
) -> Result<(), Fault>
    ensures { Performs F.files F.draft F.numbers F.faults (commands.log archive.now path.now)
        folder.old folder.new (O.taken out.old) (O.taken out.new)
        (O.faults out.old) (O.faults out.new) (fault_of result) }
{
    // Laws, for the proof of what may come of it and of how little it reads.
    versions_have_one_file();
    full_files_have_parts();
    let (header, labels) = read_asked(alloc, archive, path, folder)?;
    let search = Search {
        archive,
        header: &header,
        path: &labels,
    };
    end_at_frontier(alloc, &search)?;
    write_log::<F, O, Brand>(Blank::new(1), alloc, &search, folder, out)
}

// Refuses a path that ends neither in an attribute nor in an element at the frontier.
fn end_at_frontier(alloc: Global, search: &Search<'_>) -> Result<(), Fault>
    ensures cause { IsInside (fault_of result) }
    ensures told { Matches (λ _. map label_view search.now.path.now)
        (ending_at_frontier (header_view search.now.header.now).rules
        (map label_view search.now.path.now)) result }
{
    match at_frontier(alloc, &search.header.spec, search.path) {
        Ok(true) => Ok(()),
        Ok(false) => Err(Fault::NotFrontier),
        Err(_) => Err(Fault::Memory),
    }
}

// Writes the log of the path as it is read.
fn write_log<F: Folder, O: Sink, L: Ledger>(
    blank: Blank,
    alloc: Global,
    search: &Search<'_>,
    folder: &mut F,
    out: &mut O,
) -> Result<(), Fault>
    requires name { blank.name ≡ L.name }
    requires parts { blank.parts ≡ L.parts }
    requires some { 0 < blank.parts }
    requires header { IsHeader (header_view search.now.header.now) }
    ensures { Logs search.now.archive.now (header_view search.now.header.now)
        (map label_view search.now.path.now)
        (written_state F.files F.draft F.numbers F.faults O.taken O.faults folder.old out.old)
        (written_state F.files F.draft F.numbers F.faults O.taken O.faults folder.new out.new)
        (fault_of result) }
{
    // Laws, for the proof of what may be written.
    archives_tell_their_versions();
    versions_have_one_file();
    full_files_have_parts();
    let mut steps: Steps<L> = Steps::new(blank);
    let Search {
        archive,
        header,
        path,
    } = search;
    match content_log::log(alloc, folder, archive, header, path, out, &mut steps) {
        Ok(()) => Ok(()),
        Err(fault) => Err(shown_fault(alloc, archive, fault)),
    }
}

// What is said of the fault, where it befell the archive of this name.
fn shown_fault(alloc: Global, archive: &str, fault: LogFault) -> Fault
    ensures { IsLoggedAs archive.now fault (fault_view result) }
{
    match fault {
        LogFault::Damage => damaged(alloc, archive),
        LogFault::Folder => Fault::FolderFault,
        LogFault::Out => Fault::OutFault,
        LogFault::Memory => Fault::Memory,
    }
}
