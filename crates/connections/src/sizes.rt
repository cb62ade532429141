//! The size of a level after substitution, from how often its formulas read each port: `size`. Nothing is written
//! out, and nothing outside is touched.

ghost use Rattle.std.specs.Prelude.{◌≡◌, ◌+◌, ◌*◌, min};
ghost use Rattle.connections.specs.Drivers.{driver_rows};
ghost use Rattle.connections.specs.Sizes.{largest_level, growth, growth_of_use, substituted_size, pair_size};
ghost use Rattle.connections.specs.Sizes.{contract_size, part_size, level_size, item_size};
ghost use Rattle.connections.specs.PortTables.{port_table, table_wire, TellConnections};

use crate::contracts::contract_at;
use crate::driving::{Driver, Drivers};
use crate::port_row::{PortRow, port_row, wire_at};
use oss_base::{ComponentId, ContractId, ItemId, SubId};
use port_types::PortId;
use spec_model::{Contract, Item, Spec, Uses};
use sqlite_items::{Items, at};

/// Sizes are counted up to one more than the greatest that a level may have.
const TOO_LARGE: u32 = 16385;

fn capped_sum(a: u32, b: u32) -> u32
    ensures { result ≡ min (a + b) (largest_level + 1) }
{
    a.saturating_add(b).min(TOO_LARGE)
}

fn capped_product(a: u32, b: u32) -> u32
    ensures { result ≡ min (a * b) (largest_level + 1) }
{
    a.saturating_mul(b).min(TOO_LARGE)
}

fn growth_at(row: &PortRow<'_>, port: PortId) -> u32
    ensures { result ≡ growth (table_wire (port_table row.now) port.0) }
{
    match wire_at(row, port) {
        Some(wire) => wire.uses.size.saturating_sub(1),
        None => 0,
    }
}

fn use_growth(row: &PortRow<'_>, count: (PortId, u32)) -> u32
    ensures { result ≡ min (growth_of_use (table_wire (port_table row.now)) count) (largest_level + 1) }
{
    let (port, times) = count;
    capped_product(times, growth_at(row, port))
}

fn expression_size(row: &PortRow<'_>, uses: &Uses) -> u32
    ensures { result ≡ min (substituted_size (table_wire (port_table row.now)) uses.now) (largest_level + 1) }
{
    let mut size = uses.size.min(TOO_LARGE);
    for count in uses.ports.as_slice() {
        size = capped_sum(size, use_growth(row, *count));
    }
    size
}

fn size_of_pair(row: &PortRow<'_>, contract: &Contract) -> u32
    ensures { result ≡ min (pair_size (table_wire (port_table row.now)) contract.now) (largest_level + 1) }
{
    let assume = expression_size(row, &contract.assume_uses);
    let guarantee = expression_size(row, &contract.guarantee_uses);
    capped_sum(assume, guarantee)
}

fn size_of_contract(
    spec: &Spec,
    rows: &[Items<Driver>],
    c: ComponentId,
    sub: Option<SubId>,
    contract: ContractId,
) -> u32
    requires { TellConnections spec.now c rows.now }
    ensures { result ≡ min (contract_size spec.now c sub contract) (largest_level + 1) }
{
    match contract_at(spec, c, sub, contract) {
        Some(contract) => size_of_pair(&port_row(spec, rows, 0, c, sub), contract),
        None => 0,
    }
}

fn size_of_part(
    spec: &Spec,
    rows: &[Items<Driver>],
    c: ComponentId,
    part: (SubId, ContractId),
) -> u32
    requires { TellConnections spec.now c rows.now }
    ensures { result ≡ min (part_size spec.now c part) (largest_level + 1) }
{
    let (sub, contract) = part;
    size_of_contract(spec, rows, c, Some(sub), contract)
}

fn size_of_level(spec: &Spec, rows: &[Items<Driver>], item: &Item) -> u32
    requires { TellConnections spec.now item.now.component rows.now }
    ensures { result ≡ min (level_size spec.now item.now) (largest_level + 1) }
{
    let c = item.component;
    let mut size = size_of_contract(spec, rows, c, None, item.contract);
    for part in item.parts.as_slice() {
        size = capped_sum(size, size_of_part(spec, rows, c, *part));
    }
    size
}

/// The size of the level of an item, counted up to 16,385, where the drivers are those of its component. The time is
/// linear in how many ports the formulas read.
pub fn size_by(spec: &Spec, drivers: &Drivers, item: &Item) -> u32
    requires { drivers.now.rows ≡ driver_rows spec.now item.now.component }
    ensures { result ≡ min (level_size spec.now item.now) (largest_level + 1) }
{
    size_of_level(spec, drivers.rows.as_slice(), item)
}

/// The size of the level of an item, counted up to 16,385. Without a table of drivers each port that the formulas
/// read is looked for among all connections.
pub fn size(spec: &Spec, item: ItemId) -> u32
    ensures { result ≡ min (item_size spec.now item) (largest_level + 1) }
{
    match at(spec.items.as_slice(), item.0 as usize) {
        Some(item) => size_of_level(spec, &[], item),
        None => 0,
    }
}
