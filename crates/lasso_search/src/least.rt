//! The least model of clauses: bits are fixed one after the other, each to false where a model is left.
//!
//! Main functions: `bits_of`, `least_model`. They touch the solver's memory and none of its clauses.

ghost use Rattle.std.specs.Prelude.{◌≡◌, ◌<◌, ◌++◌, ◌∷◌, [], List, Bool, true, All, IfOk, OnOk, map, length, reverse};
ghost use Rattle.std.specs.Prelude.{if◌then◌else◌};
ghost use Rattle.std.specs.List.{flat_map};
ghost use Rattle.cnf.specs.Clauses.{opposite, lit_holds, IsModel};
ghost use Rattle.sat_core.specs.Search.{unit_clause};
ghost use Rattle.lasso_search.specs.Paths.{bits_of_layers};
ghost use Rattle.lasso_search.specs.LeastModels.{IsModelUnder, bit_numbers, IsLeastBy};

use cnf::{Lit, Model01};
use port_types::NoMemory;
use sat_core::{Outcome, Solver};
use state_coding::StateBits;
use std::alloc::Global;
use tableau::Layer;

fn push_row(bits: &mut Vec<Lit>, row: &[Lit]) -> Result<(), NoMemory>
    ensures { OnOk result (bits.new.items ≡ bits.old.items ++ reverse row.now) }
{
    let mut turned = Vec::new(*bits.allocator());
    turned.extend_from_slice(row)?;
    turned.reverse();
    bits.extend_from_slice(turned.as_slice())?;
    Ok(())
}

fn push_state(bits: &mut Vec<Lit>, state: &StateBits) -> Result<(), NoMemory>
    ensures { OnOk result (bits.new.items ≡ bits.old.items ++ flat_map reverse state.now) }
{
    for row in state.as_slice() {
        push_row(bits, row.as_slice())?;
    }
    Ok(())
}

/// The bits of all values, position by position and port by port, each from the highest down.
pub(crate) fn bits_of(alloc: Global, layers: &[Layer]) -> Result<Vec<Lit>, NoMemory>
    ensures { IfOk result (λ bits. bits.items ≡ bits_of_layers layers.now) }
{
    let mut bits = Vec::new(alloc);
    for layer in layers {
        push_state(&mut bits, layer.now())?;
    }
    Ok(bits)
}

/// Whether a literal holds in a model.
fn holds(model: &Model01, lit: Lit) -> bool
    requires { lit.var < length model.now }
    ensures { result ≡ lit_holds model.now lit }
{
    if lit.positive {
        model.value(lit.var)
    } else {
        !model.value(lit.var)
    }
}

/// Fixes a bit: to false where a model of what is known has it so, else to true.
fn fix_bit(
    solver: &mut Solver,
    known: &mut Vec<Lit>,
    bit: Lit,
    model: Model01,
) -> Result<Model01, NoMemory>
    requires bit { bit.var < solver.old.vars }
    requires known { All (λ lit. lit.var < solver.old.vars) known.old.items }
    requires model { IsModelUnder solver.old.vars solver.old.clauses known.old.items model }
    ensures known { OnOk result (All (λ lit. lit.var < solver.old.vars) known.new.items) }
    ensures fixed { IfOk result (λ least. known.new.items
        ≡ known.old.items ++ (if lit_holds least bit then bit else opposite bit) ∷ []) }
    ensures model { IfOk result (λ least. IsModelUnder solver.old.vars solver.old.clauses known.new.items least) }
    ensures least { IfOk result (λ least. (other : List Bool)
        → IsModelUnder solver.old.vars solver.old.clauses known.old.items other
        → lit_holds least bit ≡ true → lit_holds other bit ≡ true) }
    ensures vars { solver.new.vars ≡ solver.old.vars }
    ensures clauses { solver.new.clauses ≡ solver.old.clauses }
{
    known.push(bit.negated())?;
    if !holds(&model, bit) {
        return Ok(model);
    }
    match solver.solve(known.as_slice())? {
        Outcome::Sat(other) => Ok(other),
        Outcome::Unsat(_) => {
            known.pop();
            known.push(bit)?;
            Ok(model)
        }
    }
}

/// Of the models of what is known, the one with the least bits, in the order of a dictionary.
pub(crate) fn least_model(
    solver: &mut Solver,
    bits: &[Lit],
    known: Vec<Lit>,
    model: Model01,
) -> Result<Model01, NoMemory>
    requires bits { All (λ lit. lit.var < solver.old.vars) bits.now }
    requires known { All (λ lit. lit.var < solver.old.vars) known.items }
    requires model { IsModelUnder solver.old.vars solver.old.clauses known.items model }
    ensures least { IfOk result (λ least. IsLeastBy solver.old.vars solver.old.clauses known.items bits.now least) }
    ensures vars { solver.new.vars ≡ solver.old.vars }
    ensures clauses { solver.new.clauses ≡ solver.old.clauses }
{
    let mut known = known;
    let mut best = model;
    for bit in bits {
        best = fix_bit(solver, &mut known, *bit, best)?;
    }
    Ok(best)
}
