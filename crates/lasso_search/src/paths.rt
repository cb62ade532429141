//! Paths of layers: the first has the question, and each steps to the next, where a literal holds.
//!
//! Main functions: `add_layer`, `close_loop`. They touch the base that they are lent, and memory.

ghost use Rattle.std.specs.Prelude.{◌≡◌, ◌<◌, ◌≤◌, ◌+◌, ◌++◌, List, Bool, true, All, OnOk, length};
ghost use Rattle.cnf.specs.declared.lit.Lit.{Lit as LitValue};
ghost use Rattle.cnf.specs.Clauses.{IsModel, clauses_hold, lit_holds};
ghost use Rattle.tableau.specs.Copies.{IsCodedLayer, layer_state};
ghost use Rattle.tableau.specs.TableauStates.{fairness};
ghost use Rattle.tableau.specs.Questions.{IsQuestionOver, IsSignedIn};
ghost use Rattle.lasso_search.specs.Paths.{path_states, SomeMeets, ContinuesPath, ClosesLoop, IsCodedPath};
ghost use Rattle.lasso_search.specs.Paths.{GrowsWhereOff};

use crate::clauses::add_clauses;
use crate::signs::{fairness_of, signs_of};
use cnf::{ClauseBase, Lit};
use core_ltl::Question;
use port_types::NoMemory;
use std::alloc::Global;
use tableau::{Layer, Tableau};

/// Where `under` holds, each node of the question has its sign in the layer. Adds no variable.
fn sign_layer<B: ClauseBase>(
    alloc: Global,
    base: &mut B,
    tab: &Tableau,
    question: &Question,
    layer: &Layer,
    under: Lit,
) -> Result<(), NoMemory>
    requires question { IsQuestionOver tab.now question.now }
    requires layer { IsCodedLayer (B.vars base.old) (B.clauses base.old) tab.now layer.now }
    requires under { under.var < B.vars base.old }
    ensures says { OnOk result ((model : List Bool) → B.vars base.new ≤ length model
        → clauses_hold model (B.clauses base.new) ≡ true → lit_holds model under ≡ true
        → All (IsSignedIn (layer_state model tab.now layer.now)) question.now) }
    ensures kept { (model : List Bool) → IsModel (B.vars base.old) (B.clauses base.old) model
        → (lit_holds model under ≡ true → All (IsSignedIn (layer_state model tab.now layer.now)) question.now)
        → IsModel (B.vars base.new) (B.clauses base.new) model }
    ensures more { (added : List (List LitValue)) × (B.clauses base.new ≡ B.clauses base.old ++ added) }
    ensures vars { B.vars base.new ≡ B.vars base.old }
{
    let signs = signs_of(alloc, question, layer, under)?;
    add_clauses(base, signs.as_slice())?;
    Ok(())
}

/// Where `under` holds, each fairness condition is met in one of the layers. Adds no variable.
fn make_fair<B: ClauseBase>(
    alloc: Global,
    base: &mut B,
    tab: &Tableau,
    layers: &[Layer],
    under: Lit,
) -> Result<(), NoMemory>
    requires layers { All (IsCodedLayer (B.vars base.old) (B.clauses base.old) tab.now) layers.now }
    requires some { 0 < length layers.now }
    requires under { under.var < B.vars base.old }
    ensures says { OnOk result ((model : List Bool) → B.vars base.new ≤ length model
        → clauses_hold model (B.clauses base.new) ≡ true → lit_holds model under ≡ true
        → All (SomeMeets (path_states model tab.now layers.now)) (fairness tab.now)) }
    ensures kept { (model : List Bool) → IsModel (B.vars base.old) (B.clauses base.old) model
        → (lit_holds model under ≡ true → All (SomeMeets (path_states model tab.now layers.now)) (fairness tab.now))
        → IsModel (B.vars base.new) (B.clauses base.new) model }
    ensures more { (added : List (List LitValue)) × (B.clauses base.new ≡ B.clauses base.old ++ added) }
    ensures vars { B.vars base.new ≡ B.vars base.old }
{
    tab.members(); // for its promise: the closure is one
    let fair = fairness_of(alloc, tab, layers, under)?;
    add_clauses(base, fair.as_slice())?;
    Ok(())
}

/// Where `under` holds, a layer follows a path: the first one has the question, and to a later one the last of the path
/// steps. Adds no variable.
fn tie_layer<B: ClauseBase>(
    alloc: Global,
    base: &mut B,
    tab: &Tableau,
    question: &Question,
    layers: &[Layer],
    layer: &Layer,
    under: Lit,
) -> Result<(), NoMemory>
    requires question { IsQuestionOver tab.now question.now }
    requires layers { All (IsCodedLayer (B.vars base.old) (B.clauses base.old) tab.now) layers.now }
    requires layer { IsCodedLayer (B.vars base.old) (B.clauses base.old) tab.now layer.now }
    requires under { under.var < B.vars base.old }
    ensures follows { OnOk result ((model : List Bool) → B.vars base.new ≤ length model
        → clauses_hold model (B.clauses base.new) ≡ true → lit_holds model under ≡ true
        → ContinuesPath tab.now question.now (path_states model tab.now layers.now)
        (layer_state model tab.now layer.now)) }
    ensures kept { (model : List Bool) → IsModel (B.vars base.old) (B.clauses base.old) model
        → (lit_holds model under ≡ true
        → ContinuesPath tab.now question.now (path_states model tab.now layers.now)
        (layer_state model tab.now layer.now))
        → IsModel (B.vars base.new) (B.clauses base.new) model }
    ensures more { (added : List (List LitValue)) × (B.clauses base.new ≡ B.clauses base.old ++ added) }
    ensures vars { B.vars base.new ≡ B.vars base.old }
{
    let count = layers.len();
    if count == 0 {
        sign_layer(alloc, base, tab, question, layer, under)?;
        Ok(())
    } else {
        tab.code_step(base, &layers[count - 1], layer, under)?;
        Ok(())
    }
}

/// Puts a layer at the end of a path. Where `under` holds, the layers are a path again, and every path.
pub(crate) fn add_layer<B: ClauseBase>(
    alloc: Global,
    base: &mut B,
    tab: &Tableau,
    question: &Question,
    layers: &mut Vec<Layer>,
    under: Lit,
) -> Result<(), NoMemory>
    requires question { IsQuestionOver tab.now question.now }
    requires path { IsCodedPath (B.vars base.old) (B.clauses base.old) tab.now question.now under layers.old.items }
    ensures path { OnOk result
        (IsCodedPath (B.vars base.new) (B.clauses base.new) tab.now question.now under layers.new.items) }
    ensures count { OnOk result (length layers.new.items ≡ length layers.old.items + 1) }
    ensures grows { GrowsWhereOff under (B.vars base.old) (B.clauses base.old) (B.vars base.new) (B.clauses base.new) }
{
    tableau::layers_stay(); // a law: no code runs
    let layer = tab.code_copy(alloc, base)?;
    tie_layer(alloc, base, tab, question, layers.as_slice(), &layer, under)?;
    layers.push(layer)?;
    Ok(())
}

/// Codes the loop of a path: where `under` holds, the last layer steps back to the one at `loop_at`, and each fairness
/// condition is met from there on. Adds no variable.
pub(crate) fn close_loop<B: ClauseBase>(
    alloc: Global,
    base: &mut B,
    tab: &Tableau,
    layers: &[Layer],
    loop_at: usize,
    under: Lit,
) -> Result<(), NoMemory>
    requires layers { All (IsCodedLayer (B.vars base.old) (B.clauses base.old) tab.now) layers.now }
    requires place { loop_at < length layers.now }
    requires under { under.var < B.vars base.old }
    ensures closes { OnOk result ((model : List Bool) → B.vars base.new ≤ length model
        → clauses_hold model (B.clauses base.new) ≡ true → lit_holds model under ≡ true
        → ClosesLoop tab.now loop_at (path_states model tab.now layers.now)) }
    ensures kept { (model : List Bool) → IsModel (B.vars base.old) (B.clauses base.old) model
        → (lit_holds model under ≡ true → ClosesLoop tab.now loop_at (path_states model tab.now layers.now))
        → IsModel (B.vars base.new) (B.clauses base.new) model }
    ensures more { (added : List (List LitValue)) × (B.clauses base.new ≡ B.clauses base.old ++ added) }
    ensures vars { B.vars base.new ≡ B.vars base.old }
{
    tableau::layers_stay(); // a law: no code runs
    tab.code_step(base, &layers[layers.len() - 1], &layers[loop_at], under)?;
    make_fair(alloc, base, tab, &layers[loop_at..], under)?;
    Ok(())
}
