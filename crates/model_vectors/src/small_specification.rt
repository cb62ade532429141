//! A small specification: a component whose contract that of its subcomponent refines. Main function: `small`. Touches
//! memory.

use oss_base::{ComponentId, ContractId, Place, SubId};
use port_types::{Name, NoMemory, PortId, PortType};
use spec_model::{
    Component, Components, Contract, Contracts, Item, ItemParts, Items, OwnPort, OwnPorts,
    PortUses, Source, Spec, Sub, Subs, Target, Uses, Wire, Wires,
};
use std::alloc::Global;
use typed_ltl::{Atom, Formula};

fn read(port: u32) -> Formula {
    Formula::Atom(Atom::Port {
        port: PortId(port),
        next: false,
    })
}

fn put_port(alloc: Global, ports: &mut OwnPorts, kind: PortType) -> Result<(), NoMemory> {
    let name = Name::new(alloc, "p")?;
    ports.push(OwnPort {
        name,
        input: false,
        kind,
    })
}

fn uses(alloc: Global) -> Uses {
    Uses {
        size: 1,
        ports: PortUses::new(alloc),
    }
}

fn contract(alloc: Global, assume: Formula, guarantee: Formula) -> Result<Contracts, NoMemory> {
    let name = Name::new(alloc, "c")?;
    let mut contracts = Contracts::new(alloc);
    contracts.push(Contract {
        name,
        assume,
        assume_uses: uses(alloc),
        guarantee,
        guarantee_uses: uses(alloc),
    })?;
    Ok(contracts)
}

fn wire(alloc: Global, sub: Option<SubId>, port: u32, source: u32) -> Wire {
    Wire {
        target: Target {
            sub,
            port: PortId(port),
        },
        source: Source::Truth(read(source)),
        uses: uses(alloc),
    }
}

/// A boolean port, a number from 1 to 3, and a boolean port that the subcomponent's output drives.
fn system_ports(alloc: Global) -> Result<OwnPorts, NoMemory> {
    let mut ports = OwnPorts::new(alloc);
    put_port(alloc, &mut ports, PortType::Bool)?;
    put_port(alloc, &mut ports, PortType::Range { lo: 1, hi: 3 })?;
    put_port(alloc, &mut ports, PortType::Bool)?;
    Ok(ports)
}

fn system_wires(alloc: Global) -> Result<Wires, NoMemory> {
    let mut wires = Wires::new(alloc);
    wires.push(wire(alloc, None, 2, 2))?;
    wires.push(wire(alloc, Some(SubId(0)), 0, 0))?;
    Ok(wires)
}

fn one_sub(alloc: Global) -> Result<Subs, NoMemory> {
    let name = Name::new(alloc, "k")?;
    let mut subs = Subs::new(alloc);
    subs.push(Sub {
        name,
        component: ComponentId(1),
    })?;
    Ok(subs)
}

fn component(
    alloc: Global,
    ports: OwnPorts,
    contracts: Contracts,
    subs: Subs,
    wires: Wires,
) -> Result<Component, NoMemory> {
    let name = Name::new(alloc, "C")?;
    Ok(Component {
        name,
        ports,
        contracts,
        subs,
        wires,
    })
}

fn items(alloc: Global) -> Result<Items, NoMemory> {
    let mut parts = ItemParts::new(alloc);
    parts.push((SubId(0), ContractId(0)))?;
    let mut items = Items::new(alloc);
    items.push(Item {
        component: ComponentId(0),
        contract: ContractId(0),
        place: Place { line: 7, column: 3 },
        parts,
    })?;
    Ok(items)
}

fn leaf(alloc: Global) -> Result<Component, NoMemory> {
    let mut ports = OwnPorts::new(alloc);
    put_port(alloc, &mut ports, PortType::Bool)?;
    put_port(alloc, &mut ports, PortType::Bool)?;
    let contracts = contract(alloc, read(0), read(1))?;
    component(alloc, ports, contracts, Subs::new(alloc), Wires::new(alloc))
}

fn system(alloc: Global) -> Result<Component, NoMemory> {
    let ports = system_ports(alloc)?;
    let contracts = contract(alloc, Formula::True, read(2))?;
    let subs = one_sub(alloc)?;
    let wires = system_wires(alloc)?;
    component(alloc, ports, contracts, subs, wires)
}

fn of_components(alloc: Global, first: Component, second: Component) -> Result<Spec, NoMemory> {
    let mut components = Components::new(alloc);
    components.push(first)?;
    components.push(second)?;
    let items = items(alloc)?;
    Ok(Spec {
        components,
        items,
        system: ComponentId(0),
    })
}

/// A system of three ports and a component of two. The system's third port has the value of its subcomponent's second, and
/// the subcomponent's first that of the system's first.
pub(crate) fn small(alloc: Global) -> Result<Spec, NoMemory> {
    let system = system(alloc)?;
    let leaf = leaf(alloc)?;
    of_components(alloc, system, leaf)
}
