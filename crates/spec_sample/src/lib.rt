//! The sample text of a size, a specification that grows: a chain of components that hand a request on to stages. Main
//! function: `sample`. Allocates the text, and touches nothing else.
#![tactic(auto)]

mod chain;
mod sampling;

pub use sampling::sample;
