//! The types of expressions: what the expressions of a text stand for, what they use, and where their types
//! do not fit. Its main function is `typed_components`. It touches nothing outside.
#![tactic(auto)]

mod components;
mod connections;
mod contracts;
mod counts;
mod declarations;
mod enumerations;
mod fits;
mod intervals;
mod known_fits;
mod laws;
mod operators;
mod port_places;
mod ports;
mod scope;
mod typed;
mod walk;

pub use components::{TypedComponents, Types, typed_components};
pub use counts::Counts;
pub use enumerations::{NameSet, Sightings};
pub use laws::typing_is_unique;
pub use ports::PortRead;
pub use scope::{PortScope, RefinementScope, Scope};
pub use typed::Typed;
pub use walk::typed_expression;
