//! A specification and its components. It touches nothing outside.

use crate::lists::{Components, Contracts, Items, OwnPorts, Subs, Wires};
use oss_base::ComponentId;
use port_types::Name;

/// A component: its interface, and the subcomponents and connections of its refinement.
#[derive(Debug, Drop)]
pub struct Component {
    pub name: Name,
    pub ports: OwnPorts,
    pub contracts: Contracts,
    pub subs: Subs,
    pub wires: Wires,
}

/// A specification: its components, the refined contracts of all of them, and the component that is
/// the system.
#[derive(Debug, Drop)]
pub struct Spec {
    pub components: Components,
    pub items: Items,
    pub system: ComponentId,
}
