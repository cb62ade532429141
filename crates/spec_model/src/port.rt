//! The ports of a component's interface, and its free ports. It touches nothing outside.

use oss_base::SubId;
use port_types::{Name, PortType};

/// A port of a component's own interface.
#[derive(Debug, Drop)]
pub struct OwnPort {
    pub name: Name,
    pub input: bool,
    pub kind: PortType,
}

/// A free port of a component: one of its own ports or one of a subcomponent, that no connection
/// drives.
#[derive(Debug, Drop)]
pub struct FreePort {
    pub sub: Option<SubId>,
    pub name: Name,
    pub kind: PortType,
}
