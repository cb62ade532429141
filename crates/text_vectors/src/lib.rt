//! Places, faults, tokens, trees and texts, worked by hand: tests of the crates on texts, and nothing else. They may touch
//! memory.
#![tactic(auto)]

#[cfg(test)]
mod canonical_text;
#[cfg(test)]
mod fault_places;
#[cfg(test)]
mod reading;
#[cfg(test)]
mod sample_text;
#[cfg(test)]
mod small_tokens;
#[cfg(test)]
mod small_trees;
#[cfg(test)]
mod syntax_faults;
