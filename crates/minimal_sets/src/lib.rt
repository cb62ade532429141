//! The minimal sets of a test that is closed upwards, found by few calls of the test. Main function: `minimal`.
//! Allocates its answer, and touches the test and the counter of steps that it is lent.
#![tactic(auto)]

mod blocks;
mod narrowing;
mod orders;
mod search;
mod test;

pub use search::minimal;
pub use test::Test;
