/// Where the walk stands: among nodes, in a leaf, or behind the END of the virtual root.
#[derive(Clone, Copy, Drop)]
pub enum Stand {
    Nodes,
    Leaf,
    Closed,
}
