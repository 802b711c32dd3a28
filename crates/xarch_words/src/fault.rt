ghost use Rattle.std.specs.Prelude.{◌≡◌};
ghost use Rattle.xarch_words.specs.Lines;
ghost use Rattle.xarch_words.specs.View.{fault_view};
ghost use Rattle.xarch_words.specs.declared.fault.Fault.TheVariants.{Memory};

use jsonml_tree::Place;
use key_rules::KeyFault;
use std::alloc::{AllocError, AllocFailed};

/// What has a limit.
#[derive(Clone, Copy, Debug, PartialEq, Eq)]
pub enum Quantity {
    /// The bytes of a document.
    Document,
    /// The levels on which the elements of a document stand; the root is on the first.
    Depth,
    /// The versions of an archive.
    Versions,
    /// The bytes of a specification.
    Specification,
    /// The bytes of an archive's file.
    Archive,
    /// The bytes of a line of a batch.
    Line,
    /// The bytes of a batch.
    Batch,
    /// The versions that a demonstration makes.
    Demo,
    /// The bytes of a note.
    Note,
    /// The bytes of an archive's text.
    Text,
}

/// Why a command ends without its answer.
///
/// All but the last four are refusals, which the words and the files alone decide. The last four
/// come from the outside: a call on the folder, on the output or on the input failed, or memory ran
/// out.
#[derive(Debug, Drop)]
pub enum Fault {
    /// The words are no command.
    Usage,
    /// A named input file is not there.
    NoFile { name: String },
    /// A file that is to be made is there.
    Exists { name: String },
    /// The specification has no closed reading. Lines count from 1; line 0 stands for the
    /// specification as a whole.
    BadSpec { line: u32, why: u8 },
    /// The bytes of a document are no JSON.
    BadJson,
    /// The JSON value of a document is no tree.
    BadShape { place: Place, why: u8 },
    /// The document does not satisfy the keys.
    KeyFault(KeyFault),
    /// The version of an archive does not satisfy other keys, and those before it do. Versions
    /// count from 1.
    KeyFaultIn { version: u32, fault: KeyFault },
    /// The archive has n versions, and none of the number i.
    NoVersion { i: u32, n: u32 },
    /// A step of a path is bad. Steps count from 1; step 0 stands for the path as a whole.
    BadPath { step: u32 },
    /// The file of this name is no archive as this program writes it.
    Damaged { name: String },
    /// A quantity is above this number.
    Limit { quantity: Quantity, number: u64 },
    /// The path ends in no attribute and in no element at the frontier.
    NotFrontier,
    /// The archives of these names have different specifications.
    SpecDiffers { one: String, two: String },
    /// The record of a table is bad. Records count from 1, the heading being the first; record 0
    /// stands for the table as a whole.
    BadCsv { row: u64, why: u8 },
    /// The bytes are the text of no archive.
    BadText,
    FolderFault,
    OutFault,
    InFault,
    Memory,
}

impl From<AllocError> for Fault {
    ghost from_gives = { λ _ e. e ≡ Memory };

    fn from(_: AllocError) -> Fault {
        Fault::Memory
    }
}

impl<T: Drop> From<AllocFailed<T>> for Fault {
    ghost from_gives = { λ _ e. e ≡ Memory };

    fn from(_: AllocFailed<T>) -> Fault {
        Fault::Memory
    }
}

/// The status with which the program ends at a fault. It takes no memory.
pub fn status(fault: &Fault) -> u8
    ensures { result ≡ Lines.fault_status (fault_view fault.now) }
{
    match fault {
        Fault::Usage => 2,
        Fault::NoFile { .. } => 3,
        Fault::Exists { .. } => 4,
        Fault::BadSpec { .. } => 5,
        Fault::BadJson => 6,
        Fault::BadShape { .. } => 7,
        Fault::KeyFault(_) => 8,
        Fault::KeyFaultIn { .. } => 8,
        Fault::NoVersion { .. } => 9,
        Fault::BadPath { .. } => 10,
        Fault::Damaged { .. } => 11,
        Fault::Limit { .. } => 12,
        Fault::NotFrontier => 17,
        Fault::SpecDiffers { .. } => 18,
        Fault::BadCsv { .. } => 19,
        Fault::BadText => 20,
        Fault::FolderFault => 13,
        Fault::OutFault => 14,
        Fault::InFault => 15,
        Fault::Memory => 16,
    }
}
