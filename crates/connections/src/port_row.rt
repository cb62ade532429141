//! What drives one port of a component or of a subcomponent, by a row of the table of drivers: `wire_at`,
//! `place_at`. They touch nothing outside.

ghost use Rattle.std.specs.Prelude.{◌≡◌};
ghost use Rattle.std.specs.Option.{option_copied};
ghost use Rattle.spec_model.specs.Architecture.{same_sub as same_sub_by, same_target as same_target_by};
ghost use Rattle.connections.specs.PortTables.{port_table, table_at, table_wire, table_place, wire_of_driver, row_in};
ghost use Rattle.connections.specs.PortTables.{first_with_target, place_of_driver};

use crate::driving::{Driver, row_of};
use oss_base::{ComponentId, SubId};
use port_types::PortId;
use spec_model::{Spec, Target, Wire};
use sqlite_items::{Items, at};

/// The ports of a component, or of one of its subcomponents: the connections of the component, what drives
/// each of the ports, and the number of the component's free ports.
#[derive(Clone, Copy)]
pub(crate) struct PortRow<'a> {
    pub wires: &'a [Wire],
    pub drivers: &'a [Driver],
    pub sub: Option<SubId>,
    pub free: usize,
}

fn row_at<'a>(rows: &'a [Items<Driver>], sub: Option<SubId>) -> &'a [Driver]
    ensures { result.now ≡ row_in rows.now sub }
{
    match at(rows, row_of(sub)) {
        Some(row) => row.as_slice(),
        None => &[],
    }
}

/// The row of the component itself, or of one of its subcomponents.
pub(crate) fn port_row<'a>(
    spec: &'a Spec,
    rows: &'a [Items<Driver>],
    free: usize,
    c: ComponentId,
    sub: Option<SubId>,
) -> PortRow<'a>
    ensures { port_table result ≡ table_at spec.now rows.now free c sub }
{
    PortRow {
        wires: spec.wires_of(c),
        drivers: row_at(rows, sub),
        sub,
        free,
    }
}

fn same_sub(a: Option<SubId>, b: Option<SubId>) -> bool
    ensures { result ≡ same_sub_by a b }
{
    match a {
        None => b.is_none(),
        Some(a) => match b {
            None => false,
            Some(b) => a.0 == b.0,
        },
    }
}

fn same_target(a: &Target, b: &Target) -> bool
    ensures { result ≡ same_target_by a.now b.now }
{
    same_sub(a.sub, b.sub) && a.port.0 == b.port.0
}

/// The first connection that drives this port.
fn first_wire<'a>(wires: &'a [Wire], target: &Target) -> Option<&'a Wire>
    ensures { option_copied result ≡ first_with_target wires.now target.now }
{
    wires.iter().find(|wire| same_target(&wire.target, target))
}

fn driver_wire<'a>(wires: &'a [Wire], driver: Driver) -> Option<&'a Wire>
    ensures { option_copied result ≡ wire_of_driver wires.now driver }
{
    match driver {
        Driver::Free(_) => None,
        Driver::Wired(place) => at(wires, place),
    }
}

fn driver_place(free: usize, driver: Driver) -> usize
    ensures { result ≡ place_of_driver free driver }
{
    match driver {
        Driver::Free(place) => place,
        Driver::Wired(_) => free,
    }
}

/// The connection that drives a port.
pub(crate) fn wire_at<'a>(row: &PortRow<'a>, port: PortId) -> Option<&'a Wire>
    ensures { option_copied result ≡ table_wire (port_table row.now) port.0 }
{
    match at(row.drivers, port.0 as usize) {
        Some(driver) => driver_wire(row.wires, *driver),
        None => first_wire(row.wires, &Target { sub: row.sub, port }),
    }
}

/// The place of a port in the free order, where no connection drives it.
pub(crate) fn place_at(row: &PortRow<'_>, port: PortId) -> usize
    ensures { result ≡ table_place (port_table row.now) port.0 }
{
    match at(row.drivers, port.0 as usize) {
        Some(driver) => driver_place(row.free, *driver),
        None => row.free,
    }
}
