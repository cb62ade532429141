//! What drives each port that a refinement speaks of: its first connection, or nothing. `port_drivers` notes all
//! connections in one table of cells.

ghost use Rattle.std.specs.Prelude.{◌≡◌, ◌+◌, map, length, IfOk};
ghost use Rattle.spec_model.specs.Architecture.{free_targets};
ghost use Rattle.connections.specs.Drivers.{driver_rows};
ghost use Rattle.connections.specs.Tables.{port_counts, blank, row_of as row_number, row_with_wire, rows_with_wire};
ghost use Rattle.connections.specs.Tables.{rows_with_wires, vacant, vacant_rows, drivers_of_row, drivers_of_rows};

use oss_base::{ComponentId, SubId};
use port_types::NoMemory;
use spec_model::{Spec, Wire};
use sqlite_items::Items;
use std::alloc::Global;

/// What a port gets its values from: itself, at this place in the free order, or the connection with
/// this number.
#[derive(Clone, Copy, Debug, PartialEq, Eq)]
pub enum Driver {
    Free(usize),
    Wired(usize),
}

/// The drivers of all ports that a component's refinement speaks of: of its own ports, then of those of
/// each subcomponent; and the number of free ports.
#[derive(Debug, Drop)]
pub struct Drivers {
    pub rows: Items<Items<Driver>>,
    pub free: usize,
}

/// What drives the ports of a component and its subcomponents, in one pass over the connections and one
/// over the ports.
pub fn port_drivers(alloc: Global, spec: &Spec, c: ComponentId) -> Result<Drivers, NoMemory>
    ensures rows { IfOk result (λ d. d.rows ≡ driver_rows spec.now c) }
    ensures free { IfOk result (λ d. d.free ≡ length (free_targets spec.now c)) }
{
    let mut rows = blank_rows(alloc, spec, c)?;
    note_wires(&mut rows, spec.wires_of(c));
    let (rows, free) = number_rows(alloc, rows.as_slice())?;
    Ok(Drivers {
        rows: Items::from_vec(rows),
        free,
    })
}

fn blank_row(alloc: Global, ports: usize) -> Result<Items<Option<usize>>, NoMemory>
    ensures { IfOk result (λ row. row ≡ blank ports) }
{
    Ok(Items::from_vec(vec![in alloc; None; ports]?))
}

fn blank_rows(
    alloc: Global,
    spec: &Spec,
    c: ComponentId,
) -> Result<Vec<Items<Option<usize>>>, NoMemory>
    ensures { IfOk result (λ rows. rows.items ≡ map blank (port_counts spec.now c)) }
{
    let mut rows = Vec::new(alloc);
    let own = blank_row(alloc, spec.ports_of(c).len())?;
    rows.push(own)?;
    for sub in spec.subs_of(c) {
        let row = blank_row(alloc, spec.ports_of(sub.component).len())?;
        rows.push(row)?;
    }
    Ok(rows)
}

/// The row of the component itself, or of one of its subcomponents.
pub(crate) fn row_of(sub: Option<SubId>) -> usize
    ensures { result ≡ row_number sub }
{
    match sub {
        None => 0,
        Some(sub) => sub.0 as usize + 1,
    }
}

#[tactic(auto, using(crate::proofs::Rows::noted_vacant, crate::proofs::Rows::noted_taken, crate::proofs::Rows::noted_past))]
fn note(row: &mut Items<Option<usize>>, port: usize, wire: usize)
    ensures { row.new ≡ row_with_wire row.old port wire }
{
    match row.get(port) {
        Some(None) => row.set(port, Some(wire)),
        Some(Some(_)) | None => {}
    }
}

#[tactic(auto, using(crate::proofs::Rows::noted_rows_within, crate::proofs::Rows::noted_rows_past))]
fn note_in(rows: &mut Vec<Items<Option<usize>>>, row: usize, port: usize, wire: usize)
    ensures { rows.new.items ≡ rows_with_wire rows.old.items row port wire }
{
    if row < rows.len() {
        note(&mut rows[row], port, wire);
    }
}

#[tactic(auto, using(crate::proofs::Rows::noted_wires_push))]
fn note_wires(rows: &mut Vec<Items<Option<usize>>>, wires: &[Wire])
    ensures { rows.new.items ≡ rows_with_wires rows.old.items 0 wires.now }
{
    for (i, wire) in wires.iter().enumerate() {
        note_in(
            rows,
            row_of(wire.target.sub),
            wire.target.port.0 as usize,
            i,
        );
    }
}

/// The drivers of a row, and the place of the next free port.
#[tactic(auto, using(crate::proofs::Rows::numbered_push_some, crate::proofs::Rows::numbered_push_none, crate::proofs::Rows::vacant_push_some, crate::proofs::Rows::vacant_push_none,))]
fn number_row(
    alloc: Global,
    row: &[Option<usize>],
    first: usize,
) -> Result<(Items<Driver>, usize), NoMemory>
    ensures drivers { IfOk result (λ r. r.0 ≡ drivers_of_row first row.now) }
    ensures next { IfOk result (λ r. r.1 ≡ first + vacant row.now) }
{
    let mut drivers = Vec::new(alloc);
    let mut next = first;
    for cell in row {
        match cell {
            Some(wire) => drivers.push(Driver::Wired(*wire))?,
            None => {
                drivers.push(Driver::Free(next))?;
                next = next.checked_add(1).ok_or(NoMemory)?;
            }
        }
    }
    Ok((Items::from_vec(drivers), next))
}

#[tactic(auto, using(crate::proofs::Rows::numbered_rows_push, crate::proofs::Rows::vacant_rows_push))]
fn number_rows(
    alloc: Global,
    rows: &[Items<Option<usize>>],
) -> Result<(Vec<Items<Driver>>, usize), NoMemory>
    ensures drivers { IfOk result (λ r. r.0.items ≡ drivers_of_rows 0 rows.now) }
    ensures next { IfOk result (λ r. r.1 ≡ vacant_rows rows.now) }
{
    let mut numbered = Vec::new(alloc);
    let mut next = 0;
    for row in rows {
        let (drivers, after) = number_row(alloc, row.as_slice(), next)?;
        numbered.push(drivers)?;
        next = after;
    }
    Ok((numbered, next))
}
