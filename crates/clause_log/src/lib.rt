//! Derivations of the empty clause by resolution, and their check.
//!
//! A log is a list of chains over the clauses of a `Cnf`. Each chain tells how its clause follows from
//! clauses before it. A log that derives the empty clause shows that no model exists. The main function is
//! `check`; it may touch the bench that it is lent, and takes no memory.
#![tactic(auto)]

mod chain;
mod checking;
mod lit_set;

pub use chain::{Chain, ChainLog, Pivot, Pivots};
pub use checking::{Marks, check, derivations_refute};
