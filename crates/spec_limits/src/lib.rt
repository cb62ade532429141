//! The limits of a specification: how many components, instances of components and listed parts it may have. Main
//! function: `first_past_limit`. It touches memory alone.
#![tactic(auto)]

mod instances;
mod limits;

pub use limits::first_past_limit;
