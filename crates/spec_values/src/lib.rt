//! Which values the ports and terms of a specification have: definitions that the crates above share, and the law that
//! short terms have moderate values. It has no code and touches nothing.
#![tactic(auto)]

mod laws;

pub use laws::short_terms_are_moderate;
