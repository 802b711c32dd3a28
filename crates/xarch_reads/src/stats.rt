#![tactic(auto, using(xarch_parts::specs::EndLaws::endings), unfolding(xarch_parts::specs::Ends::IsInside, xarch_parts::specs::Ends::IsOfFolder))]

ghost use Rattle.std.specs.Prelude.{◌≡◌, ◌+◌, Ok, Err, Some, IfOk, IfErr};
ghost use Rattle.xa_outside.specs.Folder.{Files};
ghost use Rattle.archive_stats.specs.View.{counts_view};
ghost use Rattle.xarch_words.specs.Commands as commands;
ghost use Rattle.xarch_words.specs.Refusal.{Refusal, refused};
ghost use Rattle.xarch_words.specs.View.{fault_view};
ghost use Rattle.xarch_parts.specs.Ends.{fault_of};
ghost use Rattle.xarch_parts.specs.Folders.{ReadsOnly};
ghost use Rattle.xarch_parts.specs.Inputs.{size_in};
ghost use Rattle.xarch_meanings.specs.Meanings.{MayBe};
ghost use Rattle.xarch_meanings.specs.Performs.{Performs};
ghost use Rattle.xarch_parts.specs.Counts.{counts_text};

use archive_stats::{Counts, StatsFault, stats};
use noted_file::full_files_have_parts;
use std::alloc::Global;
use xa_outside::{Folder, Sink};
use xarch_parts::{damaged, length_of, read_parts, write_counts};
use xarch_words::Fault;

/// Writes how much an archive holds.
pub fn run_stats<F: Folder, O: Sink>(
    alloc: Global,
    archive: &str,
    folder: &mut F,
    out: &mut O,
) -> Result<(), Fault>
    ensures { Performs F.files F.draft F.numbers F.faults (commands.stats archive.now)
        folder.old folder.new (O.taken out.old) (O.taken out.new)
        (O.faults out.old) (O.faults out.new) (fault_of result) }
{
    let counts = counts_in(alloc, archive, folder)?;
    write_counts(&counts, out)
}

// The counts of the archive.
fn counts_in<F: Folder>(alloc: Global, archive: &str, folder: &mut F) -> Result<Counts, Fault>
    ensures reads { ReadsOnly F.files F.draft F.numbers F.faults
        (size_in (F.files folder.old) archive.now + 16)
        folder.old folder.new (fault_of result) }
    ensures counts { (files : Files) → F.files folder.old ≡ Some files
        → IfOk result (λ c. MayBe files (commands.stats archive.now)
        (Ok (record { files = files; output = counts_text (counts_view c) }))) }
    ensures refused { (files : Files) (q : Refusal) → F.files folder.old ≡ Some files
        → IfErr result (λ f. fault_view f ≡ refused q
        → MayBe files (commands.stats archive.now) (Err q)) }
{
    // A law, for the proofs of what comes of a sound archive.
    full_files_have_parts();
    let size = length_of(alloc, folder, archive)?;
    let parts = read_parts(alloc, folder, archive, size)?;
    match stats(alloc, folder, archive, parts.core) {
        Ok(counts) => Ok(Counts {
            bytes: size,
            ..counts
        }),
        Err(StatsFault::Damage) => Err(damaged(alloc, archive)),
        Err(StatsFault::Folder) => Err(Fault::FolderFault),
        Err(StatsFault::Memory) => Err(Fault::Memory),
    }
}
