//! The order in which a solver looks for its next decision: a list of all variables, doubly linked by
//! index, in which a variable moves to the front without memory.
//!
//! Its main calls are `next`, which goes along the list, and `to_front`.
#![tactic(auto)]

mod neighbours;
mod queue;

pub use queue::DecisionQueue;
