#![tactic(auto)]

ghost use Rattle.std.specs.Prelude.{◌≡◌, ◌≤◌, ℕ, length, map, Some, IfOk, IfErr, string_bytes};
ghost use Rattle.xa_outside.specs.Folder.{Files};
ghost use Rattle.xa_outside.specs.Taken.{Taken};
ghost use Rattle.version_notes.specs.Notes.{AreNotes};
ghost use Rattle.xarch_words.specs.Commands.{import};
ghost use Rattle.xarch_words.specs.Refusal.{Refusal, refused};
ghost use Rattle.xarch_words.specs.View.{fault_view};
ghost use Rattle.xarch_words.specs.declared.limits.TheConstants.{TEXT};
ghost use Rattle.xarch_parts.specs.Ends.{IsInside, Matches, fault_of};
ghost use Rattle.xarch_parts.specs.Folders.{ReadsOnly};
ghost use Rattle.xarch_meanings.specs.Import.{IsNoText, import_text};
ghost use Rattle.xarch_meanings.specs.Performs.{Performs};
ghost use Rattle.xarch_texts.specs.Spelled.{IsFileOf};

use archive_text::{ReadFault, read_with_file};
use archive_tree::archives_stand_for_one_list;
use std::alloc::Global;
use xa_outside::Folder;
use xarch_parts::{begin, check_free, limited_length, read_whole, store_noted};
use xarch_words::{Fault, Quantity, limits};

/// Makes the archive of a text, with its notes.
///
/// The text is read whole. It, the archive, its notes and its file are held.
pub fn run_import<F: Folder>(
    alloc: Global,
    text: &str,
    new: &str,
    folder: &mut F,
) -> Result<(), Fault>
    ensures { (t : Taken) (n : ℕ) → Performs F.files F.draft F.numbers F.faults
        (import text.now new.now) folder.old folder.new t t n n (fault_of result) }
{
    begin(folder)?;
    let bytes = read_input(alloc, text, new, folder)?;
    let (core, notes) = file_of(alloc, &bytes)?;
    store_noted(new, &core, &notes, false, folder)
}

// The bytes of the text, where the new name is free.
fn read_input<F: Folder>(
    alloc: Global,
    text: &str,
    new: &str,
    folder: &mut F,
) -> Result<Vec<u8>, Fault>
    ensures reads { ReadsOnly F.files F.draft F.numbers F.faults TEXT folder.old folder.new
        (fault_of result) }
    ensures told { (files : Files) → F.files folder.old ≡ Some files
        → Matches (λ v. v.items) (import_text files text.now new.now) result }
    ensures short { IfOk result (λ v. length v.items ≤ TEXT) }
{
    let length = limited_length(alloc, folder, text, Quantity::Text, limits::TEXT)?;
    check_free(alloc, folder, new)?;
    read_whole(alloc, folder, text, length)
}

// The file of the archive whose text the bytes are, and the notes that come behind it.
fn file_of(alloc: Global, bytes: &[u8]) -> Result<(Vec<u8>, Vec<String>), Fault>
    requires { length bytes.now ≤ TEXT }
    ensures cause { IsInside (fault_of result) }
    ensures file { IfOk result
        (λ r. IsFileOf bytes.now r.0.items (map string_bytes r.1.items)) }
    ensures notes { IfOk result (λ r. AreNotes (map string_bytes r.1.items)) }
    ensures refused { (q : Refusal)
        → IfErr result (λ f. fault_view f ≡ refused q → IsNoText bytes.now (Err q)) }
{
    // A law, for the proof of `file`.
    archives_stand_for_one_list();
    match read_with_file(alloc, bytes) {
        Ok((kept, core)) => Ok((core, kept.notes)),
        Err(ReadFault::Bad) => Err(Fault::BadText),
        Err(ReadFault::Memory) => Err(Fault::Memory),
    }
}
