//! Clauses over propositional variables, and the gates that are coded in them.
//!
//! A base is a number of variables and a list of clauses. A gate adds variables and clauses to a base
//! so that a new literal has the value of a function in every model, and loses no older model.
#![tactic(auto)]

mod arithmetic;
mod base;
mod bits;
mod bounds;
mod clause;
mod formula;
mod gates;
mod laws;
mod lists;
mod lit;
mod valuation;

pub use arithmetic::{adder, gate_le};
pub use base::ClauseBase;
pub use bits::Bits;
pub use bounds::{add_limit, constant_bits, gate_at_most_const, has_places};
pub use clause::Clause;
pub use formula::Cnf;
pub use gates::{gate_and, gate_majority, gate_xor};
pub use laws::{extensions_compose, gates_are_right};
pub use lists::{gate_all, gate_any};
pub use lit::Lit;
pub use valuation::Model01;
