//! The subcomponents of a component. It touches nothing outside.

use oss_base::ComponentId;
use port_types::Name;

/// A subcomponent: its name, and the component that it is an instance of.
#[derive(Debug, Drop)]
pub struct Sub {
    pub name: Name,
    pub component: ComponentId,
}
