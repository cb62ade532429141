//! What `solve` answers.

use clause_log::ChainLog;
use cnf::Model01;

/// What `solve` answers.
#[derive(Debug, Drop)]
pub enum Outcome {
    /// A model of the clauses and the assumptions.
    Sat(Model01),
    /// A log that derives the empty clause.
    Unsat(ChainLog),
}
