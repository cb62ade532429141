//! What all levels of one component share: what drives each port, and the free ports. May touch the allocator.

ghost use Rattle.std.specs.Prelude.{◌≡◌, ℕ, IfOk, OnOk, map, slice_index_or};
ghost use Rattle.port_types.specs.declared.types.PortType.TheVariants as kind;
ghost use Rattle.first_lasso.specs.UsedPorts.{types_at as types_by};
ghost use Rattle.levels.specs.Steps.{IsScope, shown_type};

use connections::{Drivers, port_drivers};
use oss_base::ComponentId;
use port_types::{NoMemory, PortType};
use spec_model::{FreePort, FreePorts, Spec};
use sqlite_items::at;
use std::alloc::Global;
use typed_ltl::Ports;

/// A component with what drives the ports of its refinement, and its free ports.
#[derive(Drop)]
pub(crate) struct Scope {
    pub component: ComponentId,
    pub drivers: Drivers,
    pub free: FreePorts,
}

pub(crate) fn scope_of(
    alloc: Global,
    spec: &Spec,
    component: ComponentId,
) -> Result<Scope, NoMemory>
    ensures tables { IfOk result (IsScope spec.now) }
    ensures component { IfOk result (λ scope. scope.component ≡ component) }
{
    let drivers = port_drivers(alloc, spec, component)?;
    let free = spec.free_ports(component)?;
    Ok(Scope {
        component,
        drivers,
        free,
    })
}

/// Makes the tables of another component, where it is another.
pub(crate) fn turn_to(
    scope: &mut Scope,
    alloc: Global,
    spec: &Spec,
    component: ComponentId,
) -> Result<(), NoMemory>
    requires { IsScope spec.now scope.old }
    ensures tables { OnOk result (IsScope spec.now scope.new) }
    ensures component { OnOk result (scope.new.component ≡ component) }
{
    if scope.component != component {
        *scope = scope_of(alloc, spec, component)?;
    }
    Ok(())
}

/// The type of a free port. A port that does not exist counts as boolean.
pub(crate) fn type_at(free: &[FreePort], place: usize) -> Result<PortType, NoMemory>
    ensures { IfOk result (λ made. made ≡ slice_index_or (map shown_type free.now) place kind.Bool) }
{
    match at(free, place) {
        Some(port) => port.kind.copy(),
        None => Ok(PortType::Bool),
    }
}

/// The types of the free ports at these places.
pub(crate) fn types_at(alloc: Global, free: &[FreePort], places: &[u32]) -> Result<Ports, NoMemory>
    ensures { IfOk result (λ made. made ≡ types_by (map shown_type free.now) places.now) }
{
    let mut types = Ports::new(alloc);
    for place in places {
        let made = type_at(free, *place as usize)?;
        types.push(made)?;
    }
    Ok(types)
}
