// Where rows and children stand.
ghost use Rattle.std.specs.Prelude.{◌+◌, ◌<◌, ◌≤◌, ◌^◌};

/// The children of a node, or of the virtual root, in a file.
///
/// They stand one behind another from the offset `first` to `end`, where the END begins, whose body
/// has `dir` bytes.
#[derive(Clone, Copy)]
pub struct Row {
    pub first: u64,
    pub end: u64,
    pub dir: u64,
    pub ghost ordered: { first ≤ end },
    pub ghost short: { end + (9 + dir) < 2 ^ 64 },
}

/// A child of a node in a file: where its bytes begin and end, and the length of the body of its
/// END, or 0 for a leaf.
#[derive(Clone, Copy)]
pub struct Child {
    pub first: u64,
    pub end: u64,
    pub dir: u64,
    pub ghost ordered: { first ≤ end },
}
