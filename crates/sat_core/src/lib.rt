//! A propositional solver that learns clauses and answers a model or a log of its reasons.
//!
//! The search keeps a trail: the literals made true, in order, each with the clause that forced it.
//! Where a clause has all its literals false, a clause is learnt by resolution back to the first
//! unique implication point, and the trail is cut back so that the learnt clause forces a literal.
#![tactic(auto)]

mod analyse;
mod chain;
mod clause_ref;
mod decide;
mod decisions;
mod distinct;
mod engine;
mod learn;
mod learnt;
mod log;
mod meet;
mod opposites;
mod order;
mod outcome;
mod propagator;
mod room;
mod search;
mod solver;
mod trail;
mod units;

pub use outcome::Outcome;
pub use propagator::Propagation;
pub use solver::Solver;
