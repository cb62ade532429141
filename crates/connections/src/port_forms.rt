//! What stands for a port in an expression: itself, at its place in the free order, or a copy of the expression of
//! its connection: `truth_of_port`, `number_of_port`, `choice_of_port`. May touch the allocator.

ghost use Rattle.std.specs.Prelude.{◌≡◌, IfOk, []};
ghost use Rattle.typed_ltl.specs.Formulas.{meaning, number_of, choice_of, proposition_of};
ghost use Rattle.typed_ltl.specs.Formulas as form;
ghost use Rattle.connections.specs.Substitution.{source_reading, truth_for, number_for, choice_for};
ghost use Rattle.connections.specs.PortTables.{port_table, table_reading};

use crate::in_next::{formula_in_next, pick_in_next, term_in_next};
use crate::port_row::{PortRow, place_at, wire_at};
use port_types::{Name, NoMemory, PortId};
use spec_model::Source;
use std::alloc::Global;
use typed_ltl::{Atom, Formula, Pick, Term};

fn free_port(place: usize) -> Result<PortId, NoMemory>
    ensures { IfOk result (λ port. port.0 ≡ place) }
{
    match u32::try_from(place) {
        Ok(place) => Ok(PortId(place)),
        Err(_) => Err(NoMemory),
    }
}

/// The formula that is this atom.
pub(crate) fn atomic(atom: Atom) -> Formula
    ensures { meaning result ≡ form.Atomic (proposition_of atom) }
{
    Formula::Atom(atom)
}

fn truth_of_source(alloc: Global, source: &Source, next: bool) -> Result<Formula, NoMemory>
    ensures { IfOk result (λ made. meaning made ≡ truth_for (source_reading source.now) next) }
{
    match source {
        Source::Truth(f) => {
            if next {
                formula_in_next(alloc, f)
            } else {
                f.copy(alloc)
            }
        }
        Source::Number(_) => Ok(Formula::False),
        Source::Choice(_) => Ok(Formula::False),
    }
}

fn number_of_source(alloc: Global, source: &Source, next: bool) -> Result<Term, NoMemory>
    ensures { IfOk result (λ made. number_of made ≡ number_for (source_reading source.now) next) }
{
    match source {
        Source::Number(term) => {
            if next {
                term_in_next(alloc, term)
            } else {
                term.copy(alloc)
            }
        }
        Source::Truth(_) => Ok(Term::Const(0)),
        Source::Choice(_) => Ok(Term::Const(0)),
    }
}

fn empty_pick(alloc: Global) -> Result<Pick, NoMemory>
    ensures { IfOk result (λ made. choice_of made ≡ form.Named []) }
{
    Ok(Pick::Name(Name::new(alloc, "")?))
}

fn choice_of_source(alloc: Global, source: &Source, next: bool) -> Result<Pick, NoMemory>
    ensures { IfOk result (λ made. choice_of made ≡ choice_for (source_reading source.now) next) }
{
    match source {
        Source::Choice(pick) => {
            if next {
                pick_in_next(pick)
            } else {
                pick.copy()
            }
        }
        Source::Truth(_) => empty_pick(alloc),
        Source::Number(_) => empty_pick(alloc),
    }
}

/// What stands for a port that is read as a truth value.
pub(crate) fn truth_of_port(
    alloc: Global,
    row: &PortRow<'_>,
    port: PortId,
    next: bool,
) -> Result<Formula, NoMemory>
    ensures { IfOk result (λ made. meaning made ≡ truth_for (table_reading (port_table row.now) port.0) next) }
{
    match wire_at(row, port) {
        None => {
            let port = free_port(place_at(row, port))?;
            Ok(atomic(Atom::Port { port, next }))
        }
        Some(wire) => truth_of_source(alloc, &wire.source, next),
    }
}

/// What stands for a port that is read as a number.
pub(crate) fn number_of_port(
    alloc: Global,
    row: &PortRow<'_>,
    port: PortId,
    next: bool,
) -> Result<Term, NoMemory>
    ensures { IfOk result (λ made. number_of made ≡ number_for (table_reading (port_table row.now) port.0) next) }
{
    match wire_at(row, port) {
        None => {
            let port = free_port(place_at(row, port))?;
            Ok(Term::Port { port, next })
        }
        Some(wire) => number_of_source(alloc, &wire.source, next),
    }
}

/// What stands for a port that is read as a name.
pub(crate) fn choice_of_port(
    alloc: Global,
    row: &PortRow<'_>,
    port: PortId,
    next: bool,
) -> Result<Pick, NoMemory>
    ensures { IfOk result (λ made. choice_of made ≡ choice_for (table_reading (port_table row.now) port.0) next) }
{
    match wire_at(row, port) {
        None => {
            let port = free_port(place_at(row, port))?;
            Ok(Pick::Port { port, next })
        }
        Some(wire) => choice_of_source(alloc, &wire.source, next),
    }
}
