//! The tableau of a closure in clauses: copies of its states, which are layers, and steps between them.
//!
//! The definitions in `specs/` say what a state of the tableau, a step and a fairness condition are
//! (`TableauStates`), and are part of the certificate format: the variables, clauses and literals of a
//! layer (`Copies`) and of a step (`Steps`). Main functions: `Tableau::new`, `Tableau::code_copy`,
//! `Tableau::code_step`. They touch the base of clauses that they are lent, and memory.
#![tactic(auto)]

mod clauses;
mod construction;
mod laws;
mod layers;
mod members;
mod steps;
mod untils;

pub use construction::Tableau;
pub use laws::layers_stay;
pub use layers::Layer;
