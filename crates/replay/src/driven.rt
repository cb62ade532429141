//! The values of ports by what drives them: a free port's own, or that of a connection's expression. Main function:
//! `driven_states`. It touches memory alone.

ghost use Rattle.std.specs.Prelude.{◌≡◌, All, IfOk, ℕ, map, slice_get};
ghost use Rattle.typed_ltl.specs.Formulas.{Ltl, meaning, proposition_of};
ghost use Rattle.typed_ltl.specs.Traces.{assignment};
ghost use Rattle.typed_ltl.specs.Truth.{IsModerateOn, proposition_truth};
ghost use Rattle.connections.specs.Substitution.{state_truth, source_reading, reading_value};
ghost use Rattle.replay.specs.Judgements.{IsModerateSource, AreModerateWires};
ghost use Rattle.replay.specs.Judging.{wire_value as value_of_wire, driven_value as value_by_driver};
ghost use Rattle.replay.specs.Judging.{driven_values as values_by_drivers};

use connections::Driver;
use port_types::{Name, NoMemory, Value};
use spec_model::{Source, Wire};
use sqlite_items::at;
use std::alloc::Global;
use typed_ltl::{Atom, Formula, Valuation, Valuations};

fn atom_truth(atom: &Atom, state: &Valuation) -> bool
    requires { IsModerateOn (λ (i : ℕ). assignment state.now) (Ltl.Atomic (proposition_of atom.now)) }
    ensures { result ≡ proposition_truth (assignment state.now) (assignment state.now) (proposition_of atom.now) }
{
    atom.holds(state, state)
}

/// The truth value of a state formula at a valuation; a temporal formula has none and counts as false.
fn truth(f: &Formula, state: &Valuation) -> bool
    requires { IsModerateOn (λ (i : ℕ). assignment state.now) (meaning f.now) }
    ensures { result ≡ state_truth (assignment state.now) (meaning f.now) }
{
    match f {
        Formula::True => true,
        Formula::Atom(atom) => atom_truth(atom, state),
        Formula::Not(f) => !truth(f.get(), state),
        Formula::And(f, g) => truth(f.get(), state) && truth(g.get(), state),
        Formula::Or(f, g) => truth(f.get(), state) || truth(g.get(), state),
        Formula::Implies(f, g) => !truth(f.get(), state) || truth(g.get(), state),
        Formula::Iff(f, g) => {
            let left = truth(f.get(), state);
            let right = truth(g.get(), state);
            if left { right } else { !right }
        }
        Formula::False
        | Formula::Then(_)
        | Formula::Until(_, _)
        | Formula::Releases(_, _)
        | Formula::Future(_)
        | Formula::Always(_)
        | Formula::Never(_) => false,
    }
}

/// The value of a connection's expression at a valuation of the free ports.
fn source_value(alloc: Global, source: &Source, state: &Valuation) -> Result<Value, NoMemory>
    requires { IsModerateSource (assignment state.now) source.now }
    ensures { IfOk result (λ value. value ≡ reading_value (assignment state.now) (source_reading source.now)) }
{
    match source {
        Source::Truth(formula) => Ok(Value::Bool(truth(formula, state))),
        Source::Number(term) => Ok(Value::Int(term.value(state, state))),
        Source::Choice(pick) => Ok(Value::Name(Name::new(alloc, pick.name(state, state))?)),
    }
}

fn wire_value(
    alloc: Global,
    wires: &[Wire],
    place: usize,
    state: &Valuation,
) -> Result<Value, NoMemory>
    requires { AreModerateWires wires.now state.now }
    ensures { IfOk result (λ value. value ≡ value_of_wire (assignment state.now) (slice_get wires.now place)) }
{
    if place < wires.len() {
        source_value(alloc, &wires[place].source, state)
    } else {
        Ok(Value::Bool(false))
    }
}

fn free_value(state: &Valuation, place: usize) -> Result<Value, NoMemory>
    ensures { IfOk result (λ value. value ≡ assignment state.now place) }
{
    match at(state.as_slice(), place) {
        Some(value) => value.copy(),
        None => Ok(Value::Bool(false)),
    }
}

fn driven_value(
    alloc: Global,
    wires: &[Wire],
    driver: Driver,
    state: &Valuation,
) -> Result<Value, NoMemory>
    requires { AreModerateWires wires.now state.now }
    ensures { IfOk result (λ value. value ≡ value_by_driver wires.now (assignment state.now) driver) }
{
    match driver {
        Driver::Free(place) => free_value(state, place),
        Driver::Wired(place) => wire_value(alloc, wires, place, state),
    }
}

#[tactic(auto, using(spec_model::proofs::Building::mapped_more))]
fn driven_values(
    alloc: Global,
    wires: &[Wire],
    drivers: &[Driver],
    state: &Valuation,
) -> Result<Valuation, NoMemory>
    requires { AreModerateWires wires.now state.now }
    ensures { IfOk result (λ values. values ≡ values_by_drivers wires.now drivers.now state.now) }
{
    let mut values = Valuation::new(alloc);
    for driver in drivers {
        let value = driven_value(alloc, wires, *driver, state)?;
        values.push(value)?;
    }
    Ok(values)
}

/// The valuations of ports that are driven so, at each of these valuations of the free ports.
#[tactic(auto, using(spec_model::proofs::Building::mapped_more))]
pub fn driven_states(
    alloc: Global,
    wires: &[Wire],
    drivers: &[Driver],
    states: &[Valuation],
) -> Result<Valuations, NoMemory>
    requires { All (AreModerateWires wires.now) states.now }
    ensures { IfOk result (λ driven. driven ≡ map (values_by_drivers wires.now drivers.now) states.now) }
{
    let mut driven = Valuations::new(alloc);
    for state in states {
        let values = driven_values(alloc, wires, drivers, state)?;
        driven.push(values)?;
    }
    Ok(driven)
}
