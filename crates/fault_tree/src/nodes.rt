//! Fault trees as lists of nodes, and what an expansion answers. Touches nothing.

use port_types::ListOf;

/// The numbers of the members of a cut.
pub type Cut = ListOf<u32>;

/// The cuts of a node.
pub type NodeCuts = ListOf<Cut>;

/// A node: a leaf, or one that fails where all members of some cut fail.
#[derive(Debug, Drop)]
pub enum TreeNode {
    Leaf,
    Cuts(NodeCuts),
}

/// Nodes, numbered from 0.
pub type Nodes = ListOf<TreeNode>;

/// A set of leaves: their numbers, rising.
pub type LeafSet = ListOf<u32>;

/// Sets of leaves.
pub type LeafSets = ListOf<LeafSet>;

/// What an expansion gives: the sets of leaves, or the least node with too many unions.
#[derive(Debug, Drop)]
pub enum Expansion {
    Sets(LeafSets),
    Wide { node: u32 },
}

/// The sets of the nodes so far.
pub(crate) type Tables = ListOf<LeafSets>;
