//! The expansion of a fault tree into its minimal sets of leaves. Main function: `expand`. Allocates its answer, and
//! touches nothing else.
#![tactic(auto)]

mod expanding;
mod minimal;
mod nodes;
mod reaching;
mod unions;
mod widths;

pub use expanding::expand;
pub use nodes::{Cut, Expansion, LeafSet, LeafSets, NodeCuts, Nodes, TreeNode};
