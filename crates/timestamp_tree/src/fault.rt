// Why no node was read.
ghost use Rattle.std.specs.Prelude.{◌≡◌};
ghost use Rattle.timestamp_tree.specs.declared.fault.NodeFault.TheVariants.{Memory};

use std::alloc::AllocError;
use thiserror::Error;

/// Why a file gave no node of a tree: none stands there, the folder failed, or there is no memory.
#[derive(Clone, Copy, Debug, Drop, PartialEq, Eq, Error)]
pub enum NodeFault {
    #[error("Damage")]
    Damage,
    #[error("Folder")]
    Folder,
    #[error("Memory")]
    Memory,
}

impl From<AllocError> for NodeFault {
    ghost from_gives = { λ _ e. e ≡ Memory };

    fn from(_e: AllocError) -> NodeFault {
        NodeFault::Memory
    }
}
