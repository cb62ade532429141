//! The architecture that a specification describes: components with typed ports, contracts,
//! subcomponents and connections. Its types are `Spec` and the lists below it; `Spec::free_ports` gives
//! the free ports of a component. It touches nothing outside.
//!
//! Lists are seen by contracts as plain lists, and everything is named by its place in a list.
#![tactic(auto)]

mod contract;
mod free_order;
mod free_ports;
mod item;
mod laws;
mod lists;
mod lookup;
mod port;
mod spec;
mod sub;
mod undriven;
mod wire;

pub use contract::{Contract, Uses};
pub use free_order::FreeOrder;
pub use item::Item;
pub use laws::{free_rows_are_free, meanings_are_distinct};
pub use lists::{
    Components, Contracts, FreePorts, ItemParts, Items, OwnPorts, PortUses, Subs, Wires,
};
pub use port::{FreePort, OwnPort};
pub use spec::{Component, Spec};
pub use sub::Sub;
pub use undriven::undriven_targets;
pub use wire::{Source, Target, Wire};
