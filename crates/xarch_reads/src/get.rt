#![tactic(auto, using(xarch_parts::specs::EndLaws::endings), unfolding(xarch_parts::specs::Ends::IsInside, xarch_parts::specs::Ends::IsDefined))]

ghost use Rattle.std.specs.Prelude.{◌≡◌, ◌<◌};
ghost use Rattle.xarch_words.specs.Commands.{get};
ghost use Rattle.xarch_words.specs.View.{fault_view};
ghost use Rattle.xarch_parts.specs.Ends.{fault_of};
ghost use Rattle.xarch_meanings.specs.Performs.{Performs};
ghost use Rattle.xarch_reads.specs.Written.{IsWrittenAs, Writes, written_state};

use crate::fronts::parts_in;
use file_get::GetFault;
use noted_file::full_files_have_parts;
use record_format::versions_have_one_file;
use std::alloc::Global;
use std::marker::Brand;
use std::sync::ledger::{Blank, Ledger};
use timestamp_tree::Steps;
use xa_outside::{Folder, Sink};
use xarch_meanings::archives_tell_their_texts;
use xarch_parts::damaged;
use xarch_words::Fault;

/// Writes a version of an archive in key order.
pub fn run_get<F: Folder, O: Sink>(
    alloc: Global,
    archive: &str,
    version: u32,
    folder: &mut F,
    out: &mut O,
) -> Result<(), Fault>
    ensures { Performs F.files F.draft F.numbers F.faults (get archive.now version)
        folder.old folder.new (O.taken out.old) (O.taken out.new)
        (O.faults out.old) (O.faults out.new) (fault_of result) }
{
    // A law, for the proof of what may come of it.
    full_files_have_parts();
    let parts = parts_in(alloc, archive, folder)?;
    let asked = Asked {
        archive,
        size: parts.core,
        version,
    };
    write_version::<F, O, Brand>(Blank::new(1), alloc, &asked, folder, out)
}

/// A version, by its number, that is asked for of the archive of this name, of which so many bytes
/// stand before its notes.
#[derive(Clone, Copy)]
struct Asked<'a> {
    archive: &'a str,
    size: u64,
    version: u32,
}

// Writes the version as it is read.
fn write_version<F: Folder, O: Sink, L: Ledger>(
    blank: Blank,
    alloc: Global,
    asked: &Asked<'_>,
    folder: &mut F,
    out: &mut O,
) -> Result<(), Fault>
    requires name { blank.name ≡ L.name }
    requires parts { blank.parts ≡ L.parts }
    requires some { 0 < blank.parts }
    ensures { Writes asked.now.archive.now asked.now.size asked.now.version
        (written_state F.files F.draft F.numbers F.faults O.taken O.faults folder.old out.old)
        (written_state F.files F.draft F.numbers F.faults O.taken O.faults folder.new out.new)
        (fault_of result) }
{
    // Laws, for the proof of what may be written.
    versions_have_one_file();
    archives_tell_their_texts();
    full_files_have_parts();
    let mut steps: Steps<L> = Steps::new(blank);
    let Asked {
        archive,
        size,
        version,
    } = *asked;
    match file_get::get(alloc, folder, archive, size, version, out, &mut steps) {
        Ok(()) => Ok(()),
        Err(fault) => Err(shown_fault(alloc, archive, version, fault)),
    }
}

// What is said of the fault, where it befell the version of the archive of this name.
fn shown_fault(alloc: Global, archive: &str, version: u32, fault: GetFault) -> Fault
    ensures { IsWrittenAs archive.now version fault (fault_view result) }
{
    match fault {
        GetFault::NoVersion { n } => Fault::NoVersion { i: version, n },
        GetFault::Damage => damaged(alloc, archive),
        GetFault::Folder => Fault::FolderFault,
        GetFault::Out => Fault::OutFault,
        GetFault::Memory => Fault::Memory,
    }
}
