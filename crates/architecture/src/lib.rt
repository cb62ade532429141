//! From the tree of a text to the specification that it stands for, or to the first fault of its names, types and
//! limits: `resolve`. The types of a specification are those of `spec_model`, and are named here too. It touches
//! memory alone.
#![tactic(auto)]

mod components;
mod items;
mod laws;
mod numbers;
mod resolving;
mod text_places;

pub use laws::{
    resolved_has_values, resolved_is_well_formed, stands_is_unique, texts_have_state_sources,
};
pub use resolving::resolve;
pub use spec_model::{
    Component, Components, Contract, Contracts, FreePort, FreePorts, Item, ItemParts, Items,
    OwnPort, OwnPorts, PortUses, Source, Spec, Sub, Subs, Target, Uses, Wire, Wires,
};
