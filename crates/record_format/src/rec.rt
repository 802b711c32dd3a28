// Records.
use keyed_tree::{Body, Label};
use version_set::VersionSet;

/// A record has so many bytes before its body: one of its kind, and eight of the body's length.
pub const FRAME: usize = 9;

/// The kind of the record that opens an inner node.
pub const INNER: u8 = 1;

/// The kind of the record that opens a leaf.
pub const LEAF: u8 = 2;

/// The kind of the record of an alternative.
pub const ALT: u8 = 3;

/// The kind of the record that closes an inner node.
pub const END: u8 = 4;

/// The kind of the record that closes a leaf.
pub const LEAF_END: u8 = 5;

/// Where a child stands: the offset of its first byte from that of the first child, its length, and
/// the length of the body of its END, or 0 for a leaf.
#[derive(Clone, Copy)]
pub struct Entry {
    pub start: u64,
    pub length: u64,
    pub dir: u64,
}

/// The directory of a node: an entry and the effective set of each child.
#[derive(Drop)]
pub struct Dir {
    pub entries: Vec<Entry>,
    pub sets: Vec<VersionSet>,
}

/// A record of an archive file.
#[derive(Drop)]
pub enum Rec {
    Inner {
        label: Label,
        stamp: Option<VersionSet>,
    },
    Leaf {
        label: Label,
        stamp: Option<VersionSet>,
    },
    Alt {
        stamp: Option<VersionSet>,
        body: Body,
    },
    End {
        dir: Dir,
    },
    LeafEnd,
}
