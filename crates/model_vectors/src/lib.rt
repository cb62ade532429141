//! The level of a small specification, worked by hand: tests of the crates on levels, and nothing else. They may touch
//! memory.
#![tactic(auto)]

#[cfg(test)]
mod small_level;
#[cfg(test)]
mod small_specification;
