ghost use Rattle.std.specs.Prelude.{◌≡◌};
ghost use Rattle.jsonml_text.specs.declared.fault.DocFault.TheVariants.{Memory};

use jsonml_tree::Place;
use std::alloc::{AllocError, AllocFailed};

/// Why some bytes are no document.
///
/// A shape fault is where an array or an object does not spell an element: an array is empty (1), its first value is
/// no string (2), a value is neither an array nor a string (3), an attribute is an array or an object (4) or a number
/// that is not whole or too large (5), or the whole document is a string (6). An element stands too deep where more than
/// 119 others are around it.
#[derive(Debug, Drop)]
pub enum DocFault {
    BadJson,
    BadShape { place: Place, why: u8 },
    TooDeep { place: Place },
    Memory,
}

impl From<AllocError> for DocFault {
    ghost from_gives = { λ _ f. f ≡ Memory };

    fn from(_: AllocError) -> DocFault {
        DocFault::Memory
    }
}
