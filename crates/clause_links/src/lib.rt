//! Clauses that watch two of their literals, in lists that are linked by index.
//!
//! Each clause has a record with two next-links, one for each literal that it watches, so that a watch
//! moves from one literal's list to another's without memory. Only `lits` reads the literals of a
//! clause, and each call counts as a step.
#![tactic(auto)]

mod clause_links;
mod records;

pub use clause_links::ClauseLinks;
