//! The clauses that put a question into a layer, and those that make a loop fair.
//!
//! Main functions: `signs_of`, `fairness_of`. They touch memory alone.

ghost use Rattle.std.specs.Prelude.{◌≡◌, ◌<◌, ◌∷◌, ◌++◌, Some, All, IfOk, OnOk, length};
ghost use Rattle.core_ltl.specs.declared.node.NodeId.{NodeId as NodeNumber};
ghost use Rattle.cnf.specs.Clauses.{opposite};
ghost use Rattle.tableau.specs.TableauStates.{fairness};
ghost use Rattle.tableau.specs.Questions.{signed_literal};
ghost use Rattle.lasso_search.specs.Paths.{sign_clauses, fair_literals, fair_clauses};
ghost use Rattle.lasso_search.specs.Paths.{all_fair_clauses};

use cnf::{Clause, Lit};
use core_ltl::{NodeId, Question, SignedNode};
use port_types::NoMemory;
use std::alloc::Global;
use tableau::{Layer, Tableau};

/// The literal that says that a node has its sign.
fn signed(layer: &Layer, x: SignedNode) -> Lit
    requires { x.node.0 < length layer.now.members }
    ensures { result ≡ signed_literal layer.now x }
{
    let member = layer.member(x.node);
    if x.positive { member } else { member.negated() }
}

/// Where `under` holds, each node of the question has its sign in the layer.
pub(crate) fn signs_of(
    alloc: Global,
    question: &Question,
    layer: &Layer,
    under: Lit,
) -> Result<Vec<Clause>, NoMemory>
    requires { All (λ x. x.node.0 < length layer.now.members) question.now }
    ensures { IfOk result (λ clauses. clauses.items ≡ sign_clauses under layer.now question.now) }
{
    let mut clauses = Vec::new(alloc);
    for x in question.as_slice() {
        let clause = [under.negated(), signed(layer, *x)];
        clauses.push(Clause::from_slice(alloc, &clause)?)?;
    }
    Ok(clauses)
}

/// Where `under` holds, one of the layers meets the condition of the until.
fn fair_clause(
    alloc: Global,
    layers: &[Layer],
    under: Lit,
    until: (NodeId, NodeId),
) -> Result<Clause, NoMemory>
    requires until { All (λ layer. until.0.0 < length layer.members) layers.now }
    requires right { All (λ layer. until.1.0 < length layer.members) layers.now }
    ensures { IfOk result (λ clause. clause ≡ opposite under ∷ fair_literals until layers.now) }
{
    let mut lits = Vec::new(alloc);
    lits.push(under.negated())?;
    for layer in layers {
        lits.push(layer.member(until.0).negated())?;
        lits.push(layer.member(until.1))?;
    }
    Ok(Clause::from_slice(alloc, lits.as_slice())?)
}

/// Puts the clause of a condition at the end: where `under` holds, one of the layers meets it. The condition True has
/// none.
fn push_condition(
    alloc: Global,
    clauses: &mut Vec<Clause>,
    layers: &[Layer],
    under: Lit,
    condition: Option<(NodeId, NodeId)>,
) -> Result<(), NoMemory>
    requires until { (until : NodeNumber × NodeNumber) → condition ≡ Some until
        → All (λ layer. until.0.0 < length layer.members) layers.now }
    requires right { (until : NodeNumber × NodeNumber) → condition ≡ Some until
        → All (λ layer. until.1.0 < length layer.members) layers.now }
    ensures { OnOk result (clauses.new.items ≡ clauses.old.items ++ fair_clauses under layers.now condition) }
{
    match condition {
        Some(until) => {
            clauses.push(fair_clause(alloc, layers, under, until)?)?;
            Ok(())
        }
        None => Ok(()),
    }
}

/// Where `under` holds, each fairness condition is met in one of the layers.
pub(crate) fn fairness_of(
    alloc: Global,
    tab: &Tableau,
    layers: &[Layer],
    under: Lit,
) -> Result<Vec<Clause>, NoMemory>
    requires { All (λ layer. length layer.members ≡ length tab.now.closure.nodes) layers.now }
    ensures { IfOk result (λ clauses. clauses.items ≡ all_fair_clauses under layers.now (fairness tab.now)) }
{
    tab.members(); // for its promise: the closure is one
    let mut clauses = Vec::new(alloc);
    for j in 0..tab.conditions() {
        push_condition(alloc, &mut clauses, layers, under, tab.condition(j))?;
    }
    Ok(clauses)
}
