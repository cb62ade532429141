//! The search for the first lasso that breaks a question.
//!
//! The definitions in `specs/` say which lassos break a question and what a lasso of tableau states is
//! (`TableauLassos`), and that these agree (`Laws`). May touch nothing but the solver that it is lent, and memory.
#![tactic(auto)]

mod clauses;
mod laws;
mod least;
mod paths;
mod search;
mod signs;

pub use laws::{answers_are_one, breaking_lassos};
pub use search::shortest;
