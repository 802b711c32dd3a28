use std::alloc::{AllocError, AllocFailed};

/// Why some bytes are no table.
#[derive(Debug, Drop, PartialEq, Eq)]
pub enum TableFault {
    /// The number of the bad record, the heading being 1, and the kind of the fault: 1 there is no record, whose number is
    /// then 0; 2 another number of fields than the heading has; 3 a field that is not UTF-8; 4 two fields of the heading
    /// are equal.
    Bad { row: u64, why: u8 },
    /// There was not enough memory.
    Memory,
}

impl From<AllocError> for TableFault {
    ghost use Rattle.std.specs.Prelude.{◌≡◌};
    ghost use Rattle.csv_tables.specs.declared.fault.TableFault.TheVariants.{Memory};

    ghost from_gives = { λ _ fault. fault ≡ Memory };

    fn from(_error: AllocError) -> TableFault {
        TableFault::Memory
    }
}

impl<T: Drop> From<AllocFailed<T>> for TableFault {
    ghost use Rattle.std.specs.Prelude.{◌≡◌};
    ghost use Rattle.csv_tables.specs.declared.fault.TableFault.TheVariants.{Memory};

    ghost from_gives = { λ _ fault. fault ≡ Memory };

    fn from(_error: AllocFailed<T>) -> TableFault {
        TableFault::Memory
    }
}
