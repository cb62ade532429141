//! Strongly connected components of a graph, told by ranks. Main function: `ranks_of`. It touches memory alone.
#![tactic(auto)]

mod strong;

pub use strong::ranks_of;
