//! The search: fewest positions, then the greatest loop start, then the least values.
//!
//! Main function: `shortest`. It touches the solver that it is lent, by clauses on new variables alone, and memory.

ghost use Rattle.std.specs.Prelude.{◌≡◌, ◌<◌, ◌≤◌, ◌++◌, ◌∷◌, [], List, Bool, true, All, IfOk, OnOk, IfSome, None};
ghost use Rattle.std.specs.Prelude.{length, map};
ghost use Rattle.cnf.specs.declared.lit.Lit.{Lit as LitValue};
ghost use Rattle.cnf.specs.Clauses.{IsConservative, IsModel, clauses_hold, lit_holds};
ghost use Rattle.state_coding.specs.Codes.{IsCodable};
ghost use Rattle.state_coding.specs.States.{HasBits, state_clauses, state_values};
ghost use Rattle.first_lasso.specs.Lassos.{WordHas};
ghost use Rattle.first_lasso.specs.FirstLassos.{IsFirstIfAny};
ghost use Rattle.tableau.specs.Questions.{IsQuestionOver, BreaksQuestion};
ghost use Rattle.tableau.specs.Copies.{IsCodedLayer};
ghost use Rattle.lasso_search.specs.Paths.{path_states, ClosesLoop, IsCodedPath, GrowsWhereOff};
ghost use Rattle.lasso_search.specs.LeastModels.{IsModelUnder, IsLeastShown};
ghost use Rattle.lasso_search.specs.Loops.{IsLeastLoop, IsBestLoop, HasNoLoop, HasNoLoopOf};

use crate::laws::breaking_lassos;
use crate::least::{bits_of, least_model};
use crate::paths::{add_layer, close_loop};
use cnf::{ClauseBase, Lit, Model01};
use core_ltl::Question;
use port_types::NoMemory;
use sat_core::{Outcome, Solver};
use state_coding::decode;
use std::alloc::Global;
use tableau::{Layer, Tableau};
use typed_ltl::{Lasso, Ports, Valuations};

/// The valuations of the layers in a model, as a lasso.
fn shown_lasso(
    alloc: Global,
    ports: &Ports,
    layers: &[Layer],
    model: &Model01,
    loop_at: usize,
) -> Result<Lasso, NoMemory>
    requires ports { All IsCodable ports.now }
    requires bits { All (λ layer. HasBits (length model.now) ports.now layer.bits) layers.now }
    requires holds { All (λ layer. clauses_hold model.now (state_clauses ports.now layer.bits) ≡ true) layers.now }
    requires place { loop_at < length layers.now }
    ensures states { IfOk result (λ lasso. lasso.states
        ≡ map (λ layer. state_values model.now ports.now layer.bits) layers.now) }
    ensures place { IfOk result (λ lasso. lasso.loop_at ≡ loop_at) }
{
    let mut states = Vec::new(alloc);
    for layer in layers {
        states.push(decode(alloc, ports, layer.now(), model)?)?;
    }
    Ok(Lasso {
        states: Valuations::from_vec(states),
        loop_at,
    })
}

/// The lasso that the model with the least values among those of what is known shows, or None where there is none.
fn least_lasso(
    alloc: Global,
    tab: &Tableau,
    solver: &mut Solver,
    layers: &[Layer],
    loop_at: usize,
    known: Vec<Lit>,
) -> Result<Option<Lasso>, NoMemory>
    requires layers { All (IsCodedLayer solver.old.vars solver.old.clauses tab.now) layers.now }
    requires place { loop_at < length layers.now }
    requires known { All (λ lit. lit.var < solver.old.vars) known.items }
    ensures some { IfOk result (λ found. IfSome found
        (IsLeastShown solver.old.vars solver.old.clauses known.items tab.now.ports layers.now loop_at)) }
    ensures none { IfOk result (λ found. found ≡ None → (model : List Bool)
        → IsModelUnder solver.old.vars solver.old.clauses known.items model → ⊥) }
    ensures vars { solver.new.vars ≡ solver.old.vars }
    ensures clauses { solver.new.clauses ≡ solver.old.clauses }
{
    match solver.solve(known.as_slice())? {
        Outcome::Unsat(_) => Ok(None),
        Outcome::Sat(model) => {
            let bits = bits_of(alloc, layers)?;
            let least = least_model(solver, bits.as_slice(), known, model)?;
            let lasso = shown_lasso(alloc, tab.ports(), layers, &least, loop_at)?;
            Ok(Some(lasso))
        }
    }
}

fn both(alloc: Global, a: Lit, b: Lit) -> Result<Vec<Lit>, NoMemory>
    ensures { IfOk result (λ lits. lits.items ≡ a ∷ b ∷ []) }
{
    let mut lits = Vec::new(alloc);
    lits.push(a)?;
    lits.push(b)?;
    Ok(lits)
}

/// The lasso with the least values among those whose loop starts at a place, where the loop is coded under a literal.
/// Adds no variable.
fn closed_lasso(
    alloc: Global,
    tab: &Tableau,
    solver: &mut Solver,
    layers: &[Layer],
    loop_at: usize,
    under: Lit,
    closed: Lit,
) -> Result<Option<Lasso>, NoMemory>
    requires layers { All (IsCodedLayer solver.old.vars solver.old.clauses tab.now) layers.now }
    requires place { loop_at < length layers.now }
    requires under { under.var < solver.old.vars }
    requires closed { closed.var < solver.old.vars }
    ensures some { IfOk result (λ found. IfSome found
        (IsLeastShown solver.new.vars solver.new.clauses (under ∷ closed ∷ []) tab.now.ports layers.now loop_at)) }
    ensures none { IfOk result (λ found. found ≡ None → (model : List Bool)
        → IsModelUnder solver.new.vars solver.new.clauses (under ∷ closed ∷ []) model → ⊥) }
    ensures closes { OnOk result ((model : List Bool) → solver.new.vars ≤ length model
        → clauses_hold model solver.new.clauses ≡ true → lit_holds model closed ≡ true
        → ClosesLoop tab.now loop_at (path_states model tab.now layers.now)) }
    ensures kept { (model : List Bool) → IsModel solver.old.vars solver.old.clauses model
        → (lit_holds model closed ≡ true → ClosesLoop tab.now loop_at (path_states model tab.now layers.now))
        → IsModel solver.new.vars solver.new.clauses model }
    ensures more { (added : List (List LitValue)) × (solver.new.clauses ≡ solver.old.clauses ++ added) }
    ensures vars { solver.new.vars ≡ solver.old.vars }
{
    tableau::layers_stay(); // a law: no code runs
    let known = both(alloc, under, closed)?;
    close_loop(alloc, solver, tab, layers, loop_at, closed)?;
    let found = least_lasso(alloc, tab, solver, layers, loop_at, known)?;
    Ok(found)
}

/// The lasso with the least values among those of a path whose loop starts at a place, or None where there is none.
fn search_loop(
    alloc: Global,
    tab: &Tableau,
    question: &Question,
    solver: &mut Solver,
    layers: &[Layer],
    loop_at: usize,
    under: Lit,
) -> Result<Option<Lasso>, NoMemory>
    requires path { IsCodedPath solver.old.vars solver.old.clauses tab.now question.now under layers.now }
    requires place { loop_at < length layers.now }
    ensures path { OnOk result (IsCodedPath solver.new.vars solver.new.clauses tab.now question.now under layers.now) }
    ensures grows { IsConservative solver.old.vars solver.old.clauses solver.new.vars solver.new.clauses }
    ensures some { IfOk result (λ found. IfSome found
        (IsLeastLoop tab.now question.now (length layers.now) loop_at)) }
    ensures none { IfOk result (λ found. found ≡ None
        → HasNoLoop tab.now question.now (length layers.now) loop_at) }
{
    // laws: no code runs
    cnf::gates_are_right();
    first_lasso::ranks_are_places();
    tableau::layers_stay();
    tab.members(); // for its promise: the ports can be coded
    let closed = Lit {
        var: solver.new_var()?,
        positive: true,
    };
    let found = closed_lasso(alloc, tab, solver, layers, loop_at, under, closed)?;
    solver.add(&[closed.negated()])?;
    Ok(found)
}

/// The lasso with the greatest loop start, and then the least values, among those of a path, or None where there is
/// none.
fn search_loops(
    alloc: Global,
    tab: &Tableau,
    question: &Question,
    solver: &mut Solver,
    layers: &[Layer],
    under: Lit,
) -> Result<Option<Lasso>, NoMemory>
    requires path { IsCodedPath solver.old.vars solver.old.clauses tab.now question.now under layers.now }
    ensures path { OnOk result (IsCodedPath solver.new.vars solver.new.clauses tab.now question.now under layers.now) }
    ensures grows { IsConservative solver.old.vars solver.old.clauses solver.new.vars solver.new.clauses }
    ensures some { IfOk result (λ found. IfSome found (IsBestLoop tab.now question.now (length layers.now))) }
    ensures none { IfOk result (λ found. found ≡ None → HasNoLoopOf tab.now question.now (length layers.now)) }
{
    cnf::extensions_compose(); // a law: no code runs
    for later in 0..layers.len() {
        let loop_at = layers.len() - 1 - later;
        let found = search_loop(alloc, tab, question, solver, layers, loop_at, under)?;
        if let Some(lasso) = found {
            return Ok(Some(lasso));
        }
    }
    Ok(None)
}

/// The first lasso, on paths that are coded under a literal.
fn search_paths(
    alloc: Global,
    tab: &Tableau,
    question: &Question,
    k: u8,
    solver: &mut Solver,
    under: Lit,
) -> Result<Option<Lasso>, NoMemory>
    requires question { IsQuestionOver tab.now question.now }
    requires under { under.var < solver.old.vars }
    requires model { (model : List Bool) × IsModel solver.old.vars solver.old.clauses model
        × (lit_holds model under ≡ true) }
    ensures first { IfOk result (λ found.
        IsFirstIfAny tab.now.ports (WordHas (BreaksQuestion tab.now question.now)) k found) }
    ensures grows { GrowsWhereOff under solver.old.vars solver.old.clauses solver.new.vars solver.new.clauses }
{
    breaking_lassos(); // a law: no code runs
    tab.members(); // for its promise: the closure is one
    let mut layers = Vec::new(alloc);
    for done in 0..k {
        // `done` states are not enough
        add_layer(alloc, solver, tab, question, &mut layers, under)?;
        let found = search_loops(alloc, tab, question, solver, layers.as_slice(), under)?;
        if let Some(lasso) = found {
            return Ok(Some(lasso));
        }
    }
    Ok(None)
}

/// The first lasso of at most `k` positions over the tableau's ports that breaks the question, or None where no such
/// lasso does.
///
/// What is added to the solver stands under new variables, so the models of its older variables stay, whatever the
/// answer.
pub fn shortest(
    alloc: Global,
    tab: &Tableau,
    question: &Question,
    k: u8,
    solver: &mut Solver,
) -> Result<Option<Lasso>, NoMemory>
    requires question { IsQuestionOver tab.now question.now }
    requires model { (model : List Bool) × IsModel solver.old.vars solver.old.clauses model }
    ensures first { IfOk result (λ found.
        IsFirstIfAny tab.now.ports (WordHas (BreaksQuestion tab.now question.now)) k found) }
    ensures models { IsConservative solver.old.vars solver.old.clauses solver.new.vars solver.new.clauses }
{
    let under = Lit {
        var: solver.new_var()?,
        positive: true,
    };
    let found = search_paths(alloc, tab, question, k, solver, under)?;
    solver.add(&[under.negated()])?;
    Ok(found)
}
