//! The verdicts of the questions of levels, by searches for lassos, and what they say of every infinite trace and of
//! the whole system. The main function is `verdicts`; the crate may touch the allocator and nothing else.
#![tactic(auto)]

mod deciding;
mod laws;
mod states;

pub use deciding::verdicts;
pub use laws::{proved_is_valid, proved_systems_are_safe, verdicts_are_unique};
