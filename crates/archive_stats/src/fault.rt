use record_cursor::CursorFault;

/// Why a file gives no counts: its bytes are no sound archive, the folder failed, or there is no memory.
#[derive(Clone, Copy, Debug, PartialEq, Eq)]
pub enum StatsFault {
    Damage,
    Folder,
    Memory,
}

impl From<CursorFault> for StatsFault {
    ghost use Rattle.std.specs.Prelude.{◌≡◌};
    ghost use Rattle.archive_stats.specs.View.{of_cursor};

    ghost from_gives = { λ fault e. e ≡ of_cursor fault };

    fn from(fault: CursorFault) -> StatsFault {
        match fault {
            CursorFault::Damage => StatsFault::Damage,
            CursorFault::Folder => StatsFault::Folder,
            CursorFault::Memory => StatsFault::Memory,
        }
    }
}
