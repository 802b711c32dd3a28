//! Binary trees over lists of version sets, which find the sets that hold a version.
#![tactic(auto)]

mod build;
mod encode;
mod fault;
mod laws;
mod lend;
mod node;
mod part;
mod probe;
mod put;
mod select;
mod steps;
mod take;
mod tree;

pub use encode::{put_set, put_stored};
pub use fault::NodeFault;
pub use laws::trees_stand_part_by_part;
pub use lend::lend_sets;
pub use node::{Node, node_at};
pub use probe::{Probe, probe_at};
pub use put::{put_tree, union_of};
pub use steps::Steps;
pub use take::{lend_pair, pairs_contain, take_pairs};
pub use tree::TsTree;
