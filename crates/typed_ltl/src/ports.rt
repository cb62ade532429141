//! Lists of port types. They touch memory alone.

use port_types::{ListOf, PortType};

/// The types of ports, by place.
pub type Ports = ListOf<PortType>;
