//! Clauses, watch lists, orders of variables, logs and clause files, worked by hand: tests of the crates on clauses, and
//! nothing else. They may touch memory.
#![tactic(auto)]

#[cfg(test)]
mod clause_files;
#[cfg(test)]
mod decision_orders;
#[cfg(test)]
mod gates;
#[cfg(test)]
mod known_variables;
#[cfg(test)]
mod resolutions;
#[cfg(test)]
mod watch_lists;
