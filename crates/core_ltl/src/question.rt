//! Questions: lists of nodes of a closure, each with a sign. May touch the allocator.

use crate::node::NodeId;
use port_types::ListOf;

/// A node and whether it is to hold.
#[derive(Clone, Copy, Debug, PartialEq, Eq)]
pub struct SignedNode {
    pub node: NodeId,
    pub positive: bool,
}

/// Nodes with signs, claimed to have no common trace at position 0.
pub type Question = ListOf<SignedNode>;
