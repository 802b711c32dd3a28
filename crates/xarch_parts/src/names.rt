//! Faults that name a file.
#![tactic(auto, using(crate::specs::EndLaws::endings), unfolding(crate::specs::Ends::IsInside))]

ghost use Rattle.std.specs.Prelude.{Some};
ghost use Rattle.xarch_words.specs.Refusal as refusal;
ghost use Rattle.xarch_words.specs.View.{fault_view};
ghost use Rattle.xarch_parts.specs.Archives.{IsRefusal};
ghost use Rattle.xarch_parts.specs.Ends.{IsInside};
ghost use Rattle.xarch_parts.specs.Noted.{IsOfNotes};

use std::alloc::Global;
use version_notes::NotesFault;
use xarch_words::Fault;

/// The fault that a file of this name is not there.
pub(crate) fn no_file(alloc: Global, name: &str) -> Fault
    ensures inside { IsInside (Some (fault_view result)) }
    ensures only { IsRefusal (refusal.no_file name.now) (fault_view result) }
{
    match String::from_str(alloc, name) {
        Ok(name) => Fault::NoFile { name },
        Err(_) => Fault::Memory,
    }
}

/// The fault that a file of this name is there.
pub(crate) fn exists(alloc: Global, name: &str) -> Fault
    ensures inside { IsInside (Some (fault_view result)) }
    ensures only { IsRefusal (refusal.exists name.now) (fault_view result) }
{
    match String::from_str(alloc, name) {
        Ok(name) => Fault::Exists { name },
        Err(_) => Fault::Memory,
    }
}

/// The fault that the archive of this name is damaged.
pub fn damaged(alloc: Global, name: &str) -> Fault
    ensures inside { IsInside (Some (fault_view result)) }
    ensures only { IsRefusal (refusal.damaged name.now) (fault_view result) }
{
    match String::from_str(alloc, name) {
        Ok(name) => Fault::Damaged { name },
        Err(_) => Fault::Memory,
    }
}

/// The fault that befell the notes of the archive of this name.
pub fn notes_fault(alloc: Global, name: &str, fault: NotesFault) -> Fault
    ensures { IsOfNotes name.now fault (fault_view result) }
{
    match fault {
        NotesFault::Damage => damaged(alloc, name),
        NotesFault::Folder => Fault::FolderFault,
        NotesFault::Memory => Fault::Memory,
    }
}
