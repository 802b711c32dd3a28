/// What a node is.
#[derive(Clone, Copy, PartialEq, Eq)]
pub enum Kind {
    Inner,
    Leaf,
}
