//! Lists of clauses with known answers, and literals made true one at a time: tests of the solver, and nothing else. They
//! may touch memory.
#![tactic(auto)]

#[cfg(test)]
mod clause_bases;
#[cfg(test)]
mod propagating;
#[cfg(test)]
mod solving;
