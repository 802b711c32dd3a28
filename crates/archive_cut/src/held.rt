// An alternative of a leaf that is held.
ghost use Rattle.record_parts.specs.Whole.{IsValueBytes};

use version_set::VersionSet;

/// An alternative: its first version, its stamp, and the bytes of its body.
#[derive(Drop)]
pub(crate) struct Held {
    pub first: u32,
    pub stamp: Option<VersionSet>,
    pub body: Vec<u8>,
    pub ghost valid: { IsValueBytes body.items },
}
