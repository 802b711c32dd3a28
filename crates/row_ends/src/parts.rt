// What is kept of a finished kid.
use version_set::VersionSet;

/// How many bytes a kid has, and how many the body of its END, or 0 for a leaf.
#[derive(Clone, Copy)]
pub struct Size {
    pub length: u64,
    pub dir: u64,
}

/// The set of a kid that stores one. So many kids in front of it, behind the last one that stores
/// its set, inherit theirs.
#[derive(Drop)]
pub struct Stored {
    pub inheriting: u32,
    pub set: VersionSet,
}
