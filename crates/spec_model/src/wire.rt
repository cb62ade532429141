//! The connections of a component. It touches nothing outside.

use crate::contract::Uses;
use oss_base::SubId;
use port_types::PortId;
use typed_ltl::{Formula, Pick, Term};

/// What a connection drives: an own output, or an input of a subcomponent. The port is a place among
/// the own ports of its component.
#[derive(Clone, Copy, Debug, PartialEq, Eq)]
pub struct Target {
    pub sub: Option<SubId>,
    pub port: PortId,
}

/// What a connection's target stands for, by the type of the target. Its ports are places in the free
/// order.
#[derive(Debug, Drop)]
pub enum Source {
    Truth(Formula),
    Number(Term),
    Choice(Pick),
}

/// A connection.
#[derive(Debug, Drop)]
pub struct Wire {
    pub target: Target,
    pub source: Source,
    pub uses: Uses,
}
