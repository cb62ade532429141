//! Core formulas as shared nodes: a `Closure` is the list of nodes and atoms of the formulas that were added
//! to it, each node once.
//!
//! The main function is `Closure::desugar`: it adds the core form of a formula and answers its node. What
//! a node stands for, and the order of nodes, stand in `specs/`. The crate may touch the allocator.
#![tactic(auto)]

mod closure;
mod laws;
mod node;
mod question;
mod stop;
mod table;
mod walk;

pub use closure::Closure;
pub use laws::{closure_laws, core_forms_keep_truth};
pub use node::{AtomId, Node, NodeId};
pub use question::{Question, SignedNode};
pub use stop::ClosureStop;
