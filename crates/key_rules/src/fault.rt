ghost use Rattle.std.specs.Prelude.{◌≡◌};
ghost use Rattle.key_rules.specs.declared.fault.LabelFault.TheVariants.{Memory};

use jsonml_tree::Place;
use key_spec::KeyPath;
use std::alloc::{AllocError, AllocFailed};

/// Why an element has no label. Key paths are numbered from 1, in the order of the rule.
#[derive(Debug, Drop, PartialEq, Eq)]
pub enum LabelFault {
    /// No rule has the context and the element's tag.
    Unkeyed,
    /// The key path has no node.
    Missing { path: u32 },
    /// The key path has several nodes.
    Twice { path: u32 },
    Memory,
}

impl From<AllocError> for LabelFault {
    ghost from_gives = { λ _ e. e ≡ Memory };

    fn from(_: AllocError) -> LabelFault {
        LabelFault::Memory
    }
}

impl<T: Drop> From<AllocFailed<T>> for LabelFault {
    ghost from_gives = { λ _ e. e ≡ Memory };

    fn from(_: AllocFailed<T>) -> LabelFault {
        LabelFault::Memory
    }
}

/// Why a user's path names nothing.
#[derive(Debug, Drop, PartialEq, Eq)]
pub enum PathFault {
    /// The first step that is bad, counted from 1, or 0 where the text is no JSON array.
    Bad { step: u32 },
    Memory,
}

impl From<AllocError> for PathFault {
    ghost use Rattle.key_rules.specs.declared.fault.PathFault.TheVariants.{Memory as path_memory};

    ghost from_gives = { λ _ e. e ≡ path_memory };

    fn from(_: AllocError) -> PathFault {
        PathFault::Memory
    }
}

impl<T: Drop> From<AllocFailed<T>> for PathFault {
    ghost use Rattle.key_rules.specs.declared.fault.PathFault.TheVariants.{Memory as path_memory};

    ghost from_gives = { λ _ e. e ≡ path_memory };

    fn from(_: AllocFailed<T>) -> PathFault {
        PathFault::Memory
    }
}

/// Where a document does not satisfy the keys, and why.
///
/// The place is that of an item: 1, an element without a rule; 2, a string that is not blank; 3, an element at which a
/// key path has no node; 4, several; 5, an element whose label an earlier item has. The key path stands beside 3 and 4.
#[derive(Debug, Drop)]
pub struct KeyFault {
    pub place: Place,
    pub why: u8,
    pub key_path: Option<KeyPath>,
}
