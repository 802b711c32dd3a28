// Why nothing was read.
ghost use Rattle.std.specs.Prelude.{◌≡◌};
ghost use Rattle.version_notes.specs.declared.fault.NotesFault.TheVariants.{Folder, Memory};

use std::alloc::AllocError;
use xa_outside::Failed;

/// Why the parts of a file are not known: it is damaged, or the folder failed.
#[derive(Clone, Copy, Debug, PartialEq, Eq)]
pub enum PartsFault {
    Damage,
    Folder,
}

/// Why no note was read: the file is damaged, the folder failed, or there is no memory.
#[derive(Clone, Copy, Debug, PartialEq, Eq)]
pub enum NotesFault {
    Damage,
    Folder,
    Memory,
}

impl From<AllocError> for NotesFault {
    ghost from_gives = { λ _ e. e ≡ Memory };

    fn from(_e: AllocError) -> NotesFault {
        NotesFault::Memory
    }
}

impl From<Failed> for NotesFault {
    ghost from_gives = { λ _ e. e ≡ Folder };

    fn from(_e: Failed) -> NotesFault {
        NotesFault::Folder
    }
}
