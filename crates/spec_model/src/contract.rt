//! The contracts of a component, and what their expressions use. It touches nothing outside.

use crate::lists::PortUses;
use port_types::Name;
use typed_ltl::Formula;

/// How large an expression is, and how often it reads each port.
#[derive(Debug, Drop)]
pub struct Uses {
    pub size: u32,
    pub ports: PortUses,
}

/// A contract of a component: what it asks of its environment, and what it gives where that is met.
#[derive(Debug, Drop)]
pub struct Contract {
    pub name: Name,
    pub assume: Formula,
    pub assume_uses: Uses,
    pub guarantee: Formula,
    pub guarantee_uses: Uses,
}
