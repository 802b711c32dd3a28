// What is read of records, owned.
ghost use Rattle.record_parts.specs.Whole.{IsLabelBytes, IsValueBytes};

use crate::kind::Kind;
use version_set::VersionSet;

/// A node that opens: the bytes of its label, and its timestamp with its numbers raised.
#[derive(Drop)]
pub struct Head {
    pub kind: Kind,
    pub label: Vec<u8>,
    pub stamp: Option<VersionSet>,
    pub ghost valid: { IsLabelBytes label.items },
}

/// An alternative of a leaf: its timestamp with its numbers raised, and the bytes of its body.
#[derive(Drop)]
pub struct Alternative {
    pub stamp: Option<VersionSet>,
    pub body: Vec<u8>,
    pub ghost valid: { IsValueBytes body.items },
}
