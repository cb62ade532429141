//! Formulas of linear temporal logic over typed ports, their truth on infinite traces, and lassos.
//!
//! A formula is data that a copy equals. What it means stands in `specs/`: the meaning of a term, a
//! pick, an atom or a formula is a plain inductive type, and its truth at a position of a trace is a
//! definition by cases on that type. The main function is `holds_on`: the truth of a formula on the word of
//! a lasso. The crate may touch the allocator and nothing else.
#![tactic(auto)]

mod atom;
mod equality;
mod formula;
mod lasso;
mod laws;
mod ports;
mod rows;
mod term;
mod truth;
mod values;

pub use atom::Atom;
pub use formula::Formula;
pub use lasso::{Lasso, Valuation, Valuations, Verdict};
pub use laws::{derived_forms, truth_is_stable, truth_recurs};
pub use ports::Ports;
pub use term::{Pick, Term};
pub use truth::{Bench, holds_on};
