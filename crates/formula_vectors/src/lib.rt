//! First lassos, nodes of formulas, and states and atoms in clauses, worked by hand: tests of the crates on formulas, and
//! nothing else. They may touch memory.
#![tactic(auto)]

#[cfg(test)]
mod coded_states;
#[cfg(test)]
mod core_nodes;
#[cfg(test)]
mod lasso_order;
