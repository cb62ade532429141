//! The clauses that say how progress counts.
//!
//! Main function: `code_counting`. Touches memory alone.

ghost use Rattle.std.specs.Prelude.{◌≡◌, ◌<◌, ◌+◌, ◌^◌, ◌∷◌, ◌++◌, [], Some, IfOk, OnOk, length};
ghost use Rattle.core_ltl.specs.declared.node.NodeId.{NodeId as NodeNumber};
ghost use Rattle.tableau.specs.TableauStates.{fairness};
ghost use Rattle.counter_cert.specs.StepClauses.{falling_clauses, condition_clauses, fairness_clauses, each_below};
ghost use Rattle.counter_cert.specs.StepClauses.{beyond_first_clauses, beyond_clauses, progress_clauses};
ghost use Rattle.counter_cert.specs.StepClauses.{counting_clauses};

use crate::cases::literal_of;
use crate::clauses::add_vars;
use cnf::{Clause, ClauseBase, Cnf, Lit};
use core_ltl::NodeId;
use port_types::NoMemory;
use std::alloc::Global;
use tableau::{Layer, Tableau};

/// Puts a clause at the end.
fn put(alloc: Global, clauses: &mut Vec<Clause>, lits: &[Lit]) -> Result<(), NoMemory>
    ensures { OnOk result (clauses.new.items ≡ clauses.old.items ++ lits.now ∷ []) }
{
    clauses.push(Clause::from_slice(alloc, lits)?)?;
    Ok(())
}

/// Puts at the end that progress beyond the next number is beyond a number.
fn put_fall(alloc: Global, clauses: &mut Vec<Clause>, over: usize, b: usize) -> Result<(), NoMemory>
    requires { over + (b + 1) < 2 ^ 64 }
    ensures { OnOk result (clauses.new.items ≡ clauses.old.items ++ falling_clauses over b) }
{
    let lits = [literal_of(over + (b + 1)).negated(), literal_of(over + b)];
    put(alloc, clauses, &lits)?;
    Ok(())
}

/// Puts at the end, for each number below `most`, that progress beyond the next one is beyond it.
fn put_falling(
    alloc: Global,
    clauses: &mut Vec<Clause>,
    over: usize,
    most: usize,
) -> Result<(), NoMemory>
    requires { over + most < 2 ^ 64 }
    ensures { OnOk result (clauses.new.items ≡ clauses.old.items ++ each_below (falling_clauses over) most) }
{
    for b in 0..most {
        put_fall(alloc, clauses, over, b)?;
    }
    Ok(())
}

/// Puts at the end that the literal says that the layer's state meets the condition.
fn put_condition(
    alloc: Global,
    clauses: &mut Vec<Clause>,
    layer: &Layer,
    met: Lit,
    condition: Option<(NodeId, NodeId)>,
) -> Result<(), NoMemory>
    requires until { (until : NodeNumber × NodeNumber) → condition ≡ Some until → until.0.0 < length layer.now.members }
    requires right { (until : NodeNumber × NodeNumber) → condition ≡ Some until → until.1.0 < length layer.now.members }
    ensures { OnOk result (clauses.new.items ≡ clauses.old.items ++ condition_clauses layer.now met condition) }
{
    match condition {
        Some(until) => {
            let left = layer.member(until.0);
            let right = layer.member(until.1);
            put(alloc, clauses, &[met.negated(), left.negated(), right])?;
            put(alloc, clauses, &[met, left])?;
            put(alloc, clauses, &[met, right.negated()])?;
            Ok(())
        }
        None => {
            put(alloc, clauses, &[met])?;
            Ok(())
        }
    }
}

/// Puts at the end the clauses of each fairness condition, with the variables from `first` on.
fn put_fairness(
    alloc: Global,
    clauses: &mut Vec<Clause>,
    tab: &Tableau,
    layer: &Layer,
    first: usize,
) -> Result<(), NoMemory>
    requires layer { length layer.now.members ≡ length tab.now.closure.nodes }
    requires room { first + length (fairness tab.now) < 2 ^ 64 }
    ensures { OnOk result (clauses.new.items
        ≡ clauses.old.items ++ each_below (fairness_clauses tab.now layer.now first) (length (fairness tab.now))) }
{
    tab.members(); // for its promise: the closure is one
    for j in 0..tab.conditions() {
        put_condition(
            alloc,
            clauses,
            layer,
            literal_of(first + j),
            tab.condition(j),
        )?;
    }
    Ok(())
}

/// Where the variables of the counting begin: progress beyond a number, a condition that is met, and the progress after
/// beyond a number; and how many conditions there are, and the most progress
/// that is counted.
#[derive(Clone, Copy)]
pub(crate) struct Firsts {
    pub(crate) most: usize,
    pub(crate) conditions: usize,
    pub(crate) over: usize,
    pub(crate) met: usize,
    pub(crate) over_next: usize,
}

/// Puts at the end that a variable says that the progress after is beyond 0.
fn put_beyond_first(
    alloc: Global,
    clauses: &mut Vec<Clause>,
    over: Lit,
    met: Lit,
    next: Lit,
) -> Result<(), NoMemory>
    ensures { OnOk result (clauses.new.items ≡ clauses.old.items ++ beyond_first_clauses over met next) }
{
    put(alloc, clauses, &[next.negated(), over, met])?;
    put(alloc, clauses, &[next, over.negated()])?;
    put(alloc, clauses, &[next, met.negated()])?;
    Ok(())
}

/// Puts at the end that a variable says that the progress after is beyond a number that is not 0.
fn put_beyond(
    alloc: Global,
    clauses: &mut Vec<Clause>,
    over: Lit,
    before: Lit,
    met: Lit,
    next: Lit,
) -> Result<(), NoMemory>
    ensures { OnOk result (clauses.new.items ≡ clauses.old.items ++ beyond_clauses over before met next) }
{
    put(alloc, clauses, &[next.negated(), over, before])?;
    put(alloc, clauses, &[next.negated(), over, met])?;
    put(alloc, clauses, &[next, over.negated()])?;
    put(alloc, clauses, &[next, before.negated(), met.negated()])?;
    Ok(())
}

/// Puts at the end what the progress after is against one number.
fn put_progress(
    alloc: Global,
    clauses: &mut Vec<Clause>,
    firsts: Firsts,
    b: usize,
) -> Result<(), NoMemory>
    requires some { 0 < firsts.conditions }
    requires over { firsts.over + b < 2 ^ 64 }
    requires met { firsts.met + firsts.conditions < 2 ^ 64 }
    requires next { firsts.over_next + b < 2 ^ 64 }
    ensures { OnOk result (clauses.new.items ≡ clauses.old.items
        ++ progress_clauses firsts.conditions firsts.over firsts.met firsts.over_next b) }
{
    let next = literal_of(firsts.over_next + b);
    let over = literal_of(firsts.over + b);
    if b == 0 {
        put_beyond_first(alloc, clauses, over, literal_of(firsts.met), next)?;
        Ok(())
    } else {
        let before = literal_of(firsts.over + (b - 1));
        let met = literal_of(firsts.met + b % firsts.conditions);
        put_beyond(alloc, clauses, over, before, met, next)?;
        Ok(())
    }
}

/// Puts at the end what the progress after is against each number that is counted.
fn put_all_progress(
    alloc: Global,
    clauses: &mut Vec<Clause>,
    firsts: Firsts,
) -> Result<(), NoMemory>
    requires some { 0 < firsts.conditions }
    requires over { firsts.over + firsts.most < 2 ^ 64 }
    requires met { firsts.met + firsts.conditions < 2 ^ 64 }
    requires next { firsts.over_next + (firsts.most + 1) < 2 ^ 64 }
    ensures { OnOk result (clauses.new.items ≡ clauses.old.items
        ++ each_below (progress_clauses firsts.conditions firsts.over firsts.met firsts.over_next) (firsts.most + 1)) }
{
    for b in 0..firsts.most + 1 {
        put_progress(alloc, clauses, firsts, b)?;
    }
    Ok(())
}

/// The clauses that say how progress counts.
pub(crate) fn code_counting(
    alloc: Global,
    tab: &Tableau,
    layer: &Layer,
    firsts: Firsts,
) -> Result<Vec<Clause>, NoMemory>
    requires layer { length layer.now.members ≡ length tab.now.closure.nodes }
    requires conditions { firsts.conditions ≡ length (fairness tab.now) }
    requires over { firsts.over + firsts.most < 2 ^ 64 }
    requires met { firsts.met + firsts.conditions < 2 ^ 64 }
    requires next { firsts.over_next + (firsts.most + 1) < 2 ^ 64 }
    ensures { IfOk result (λ clauses. clauses.items
        ≡ counting_clauses tab.now firsts.most layer.now firsts.over firsts.met firsts.over_next) }
{
    tab.conditions(); // for its promise: there is one
    let mut clauses = Vec::new(alloc);
    put_falling(alloc, &mut clauses, firsts.over, firsts.most)?;
    put_fairness(alloc, &mut clauses, tab, layer, firsts.met)?;
    put_all_progress(alloc, &mut clauses, firsts)?;
    Ok(clauses)
}

/// Adds the variables of the counting up to `most`.
pub(crate) fn add_firsts(cnf: &mut Cnf, conditions: usize, most: usize) -> Result<Firsts, NoMemory>
    requires { most < 2 ^ 32 }
    ensures most { IfOk result (λ firsts. firsts.most ≡ most) }
    ensures conditions { IfOk result (λ firsts. firsts.conditions ≡ conditions) }
    ensures over { IfOk result (λ firsts. firsts.over ≡ cnf.old.vars) }
    ensures met { IfOk result (λ firsts. firsts.met ≡ firsts.over + (most + 1)) }
    ensures next { IfOk result (λ firsts. firsts.over_next ≡ firsts.met + conditions) }
    ensures vars { IfOk result (λ firsts. cnf.new.vars ≡ firsts.over_next + (most + 1)) }
    ensures room { IfOk result (λ firsts. cnf.new.vars < 2 ^ 64) }
    ensures clauses { cnf.new.clauses ≡ cnf.old.clauses }
{
    let over = cnf.vars();
    add_vars(cnf, most + 1)?;
    let met = cnf.vars();
    add_vars(cnf, conditions)?;
    let over_next = cnf.vars();
    add_vars(cnf, most + 1)?;
    cnf.vars(); // for its promise: the number has 64 bits
    Ok(Firsts {
        most,
        conditions,
        over,
        met,
        over_next,
    })
}
