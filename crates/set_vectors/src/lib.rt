//! Minimal members of families of sets and expansions of fault trees, worked by hand: tests of the crates on sets, and
//! nothing else. They may touch memory.
#![tactic(auto)]

#[cfg(test)]
mod expansions;
#[cfg(test)]
mod minimal_members;
