//! States in clauses: how valuations are coded as bits, and atoms as literals.
//!
//! The definitions in `specs/` are part of the certificate format: the variables, clauses and literals of
//! states (`States`, `Codes`), of terms (`Numbers`) and of atoms (`Atoms`). Main functions: `code_state`,
//! `decode`, `code_atom`. They touch the base of clauses that they are lent, and memory.
#![tactic(auto)]

mod atoms;
mod codes;
mod compare;
mod laws;
mod lists;
mod names;
mod states;
mod sums;
mod terms;

pub use atoms::code_atom;
pub use laws::{atoms_are_right, codes_are_in_value_order, states_stay};
pub use lists::StateBits;
pub use states::{code_state, decode};
