//! The formulas of a level over the free ports: `substitute`. May touch the allocator.

ghost use Rattle.std.specs.Prelude.{◌≡◌, IfOk, IfSome, slice_get, length, map};
ghost use Rattle.std.specs.Option.{option_copied};
ghost use Rattle.typed_ltl.specs.Formulas.{meaning};
ghost use Rattle.spec_model.specs.Architecture.{free_targets};
ghost use Rattle.connections.specs.Drivers.{driver_rows};
ghost use Rattle.connections.specs.Substitution.{substituted, readings};
ghost use Rattle.connections.specs.LevelFormulas.{AreLevelFormulas, what_it_asks, what_it_gives, part_over_free};
ghost use Rattle.connections.specs.LevelFormulas.{formulas_of_part, asked_over_free, given_over_free};
ghost use Rattle.connections.specs.PortTables.{port_table, table_reading};

use crate::contracts::contract_at;
use crate::driving::{Drivers, port_drivers};
use crate::over_free::formula_over_free;
use crate::port_row::{PortRow, port_row};
use oss_base::{ComponentId, ContractId, ItemId, SubId};
use port_types::{ListOf, NoMemory};
use spec_model::{Contract, Item, Spec};
use sqlite_items::at;
use std::alloc::Global;
use typed_ltl::Formula;

/// The two formulas of a listed contract, over the free ports.
#[derive(Debug, Drop)]
pub struct Part {
    pub sub: SubId,
    pub assume: Formula,
    pub guarantee: Formula,
}

/// The listed contracts of a level, in the order of the list.
pub type Parts = ListOf<Part>;

/// The formulas of a level, over the free ports: those of the refined contract, and those of each listed one.
#[derive(Debug, Drop)]
pub struct LevelFormulas {
    pub assume: Formula,
    pub guarantee: Formula,
    pub parts: Parts,
}

fn assume_over_free(
    alloc: Global,
    row: &PortRow<'_>,
    contract: Option<&Contract>,
) -> Result<Formula, NoMemory>
    ensures { IfOk result (λ made. meaning made
        ≡ substituted (table_reading (port_table row.now)) (what_it_asks (option_copied contract.entry))) }
{
    match contract {
        Some(contract) => formula_over_free(alloc, row, &contract.assume),
        None => Ok(Formula::True),
    }
}

fn guarantee_over_free(
    alloc: Global,
    row: &PortRow<'_>,
    contract: Option<&Contract>,
) -> Result<Formula, NoMemory>
    ensures { IfOk result (λ made. meaning made
        ≡ substituted (table_reading (port_table row.now)) (what_it_gives (option_copied contract.entry))) }
{
    match contract {
        Some(contract) => formula_over_free(alloc, row, &contract.guarantee),
        None => Ok(Formula::True),
    }
}

/// The two formulas of a contract of the component itself, or of one of its subcomponents.
fn pair_over_free(
    alloc: Global,
    spec: &Spec,
    drivers: &Drivers,
    c: ComponentId,
    sub: Option<SubId>,
    contract: ContractId,
) -> Result<(Formula, Formula), NoMemory>
    requires rows { drivers.now.rows ≡ driver_rows spec.now c }
    requires free { drivers.now.free ≡ length (free_targets spec.now c) }
    ensures asked { IfOk result (λ pair. meaning pair.0 ≡ asked_over_free spec.now c sub contract) }
    ensures given { IfOk result (λ pair. meaning pair.1 ≡ given_over_free spec.now c sub contract) }
{
    let row = port_row(spec, drivers.rows.as_slice(), drivers.free, c, sub);
    let contract = contract_at(spec, c, sub, contract);
    let assume = assume_over_free(alloc, &row, contract)?;
    let guarantee = guarantee_over_free(alloc, &row, contract)?;
    Ok((assume, guarantee))
}

fn part_formulas(
    alloc: Global,
    spec: &Spec,
    drivers: &Drivers,
    c: ComponentId,
    part: (SubId, ContractId),
) -> Result<Part, NoMemory>
    requires rows { drivers.now.rows ≡ driver_rows spec.now c }
    requires free { drivers.now.free ≡ length (free_targets spec.now c) }
    ensures { IfOk result (λ made. formulas_of_part made ≡ part_over_free spec.now c part) }
{
    let (sub, contract) = part;
    let (assume, guarantee) = pair_over_free(alloc, spec, drivers, c, Some(sub), contract)?;
    Ok(Part {
        sub,
        assume,
        guarantee,
    })
}

fn listed_parts(
    alloc: Global,
    spec: &Spec,
    drivers: &Drivers,
    c: ComponentId,
    parts: &[(SubId, ContractId)],
) -> Result<Vec<Part>, NoMemory>
    requires rows { drivers.now.rows ≡ driver_rows spec.now c }
    requires free { drivers.now.free ≡ length (free_targets spec.now c) }
    ensures { IfOk result (λ made. map formulas_of_part made.items ≡ map (part_over_free spec.now c) parts.now) }
{
    let mut made = Vec::new(alloc);
    for part in parts {
        let part = part_formulas(alloc, spec, drivers, c, *part)?;
        made.push(part)?;
    }
    Ok(made)
}

/// The formulas of the level of an item, where the drivers are those of its component.
pub fn substitute_by(
    alloc: Global,
    spec: &Spec,
    drivers: &Drivers,
    item: &Item,
) -> Result<LevelFormulas, NoMemory>
    requires rows { drivers.now.rows ≡ driver_rows spec.now item.now.component }
    requires free { drivers.now.free ≡ length (free_targets spec.now item.now.component) }
    ensures { IfOk result (λ formulas. AreLevelFormulas spec.now item.now formulas) }
{
    let c = item.component;
    let (assume, guarantee) = pair_over_free(alloc, spec, drivers, c, None, item.contract)?;
    let parts = listed_parts(alloc, spec, drivers, c, item.parts.as_slice())?;
    Ok(LevelFormulas {
        assume,
        guarantee,
        parts: Parts::from_vec(parts),
    })
}

/// The formulas of the level of an item: each connected port of a contract's formula is replaced by the expression
/// of its connection, under `next` with each of its ports read in the next valuation. Nothing is simplified.
pub fn substitute(alloc: Global, spec: &Spec, item: ItemId) -> Result<LevelFormulas, NoMemory>
    ensures { IfOk result (λ formulas. IfSome (slice_get spec.now.items item.0)
        (λ the_item. AreLevelFormulas spec.now the_item formulas)) }
{
    match at(spec.items.as_slice(), item.0 as usize) {
        Some(item) => {
            let drivers = port_drivers(alloc, spec, item.component)?;
            substitute_by(alloc, spec, &drivers, item)
        }
        None => Ok(LevelFormulas {
            assume: Formula::True,
            guarantee: Formula::True,
            parts: Parts::new(alloc),
        }),
    }
}
