#![tactic(auto, using(xarch_parts::specs::EndLaws::endings))]

ghost use Rattle.std.specs.Prelude.{◌≡◌, ℕ, Some};
ghost use Rattle.xa_outside.specs.Folder.{Files};
ghost use Rattle.xa_outside.specs.Taken.{Taken};
ghost use Rattle.key_spec.specs.View.{spec_view};
ghost use Rattle.xarch_words.specs.Commands.{init};
ghost use Rattle.xarch_words.specs.declared.limits.TheConstants.{SPECIFICATION};
ghost use Rattle.xarch_parts.specs.Ends.{Matches, fault_of};
ghost use Rattle.xarch_parts.specs.Folders.{ReadsOnly};
ghost use Rattle.xarch_meanings.specs.Init.{init_rules};
ghost use Rattle.xarch_meanings.specs.Performs.{Performs};

use archive_tree::Archive;
use key_spec::Spec;
use noted_file::sound_files_are_full;
use std::alloc::Global;
use xa_outside::Folder;
use xarch_parts::{begin, check_free, file_from, limited_length, read_spec, store};
use xarch_words::{Fault, Quantity, limits};

/// Makes an archive of no versions.
pub fn run_init<F: Folder>(
    alloc: Global,
    archive: &str,
    spec: &str,
    folder: &mut F,
) -> Result<(), Fault>
    ensures { (t : Taken) (n : ℕ) → Performs F.files F.draft F.numbers F.faults
        (init archive.now spec.now) folder.old folder.new t t n n (fault_of result) }
{
    // A law, for the proof of what may come of it.
    sound_files_are_full();
    begin(folder)?;
    let spec = new_rules(alloc, archive, spec, folder)?;
    let bytes = file_from(alloc, &spec, &Archive::empty(alloc))?;
    store(folder, archive, &bytes)
}

// The rules of the new archive.
fn new_rules<F: Folder>(
    alloc: Global,
    archive: &str,
    spec: &str,
    folder: &mut F,
) -> Result<Spec, Fault>
    ensures reads { ReadsOnly F.files F.draft F.numbers F.faults SPECIFICATION folder.old folder.new
        (fault_of result) }
    ensures told { (files : Files) → F.files folder.old ≡ Some files
        → Matches spec_view (init_rules files archive.now spec.now) result }
{
    check_free(alloc, folder, archive)?;
    let length = limited_length(
        alloc,
        folder,
        spec,
        Quantity::Specification,
        limits::SPECIFICATION,
    )?;
    read_spec(alloc, folder, spec, length)
}
