//! Logs: `render` cuts the derivations down to those that the last one needs, and numbers them as chains.

ghost use Rattle.std.specs.Prelude.{◌≡◌, ◌<◌, ◌≤◌, ◌+◌, ℕ, true, [], length, map, slice_index_or, IfOk};
ghost use Rattle.sat_core.specs.declared.chain.Resolution.{Resolution};
ghost use Rattle.clause_log.specs.Derivations.{Derives};
ghost use Rattle.sat_core.specs.Search.{clause_lists, IsDerivation};
ghost use Rattle.sat_core.specs.Decisions.{AreDerivations};
ghost use Rattle.sat_core.specs.Numbering.{log_number, log_pivot, HasNumber, AllHaveNumbers, IsBelow, AllBelow};
ghost use Rattle.sat_core.specs.Numbering.{marks_with, MarksMore, AllNeeded, AreNeeded, AreBelow, IsNumbered};
ghost use Rattle.sat_core.specs.Numbering.{clauses_with_units};

use crate::chain::{Derivation, Resolution};
use crate::clause_ref::ClauseRef;
use clause_log::{Chain, ChainLog, Pivot, Pivots};
use cnf::{Clause, Lit};
use port_types::NoMemory;
use std::alloc::Global;

/// Marks the learnt clause that a reason names.
fn mark_source(needed: &mut [bool], reason: ClauseRef)
    requires { IsBelow (length needed.old) reason }
    ensures { needed.new ≡ marks_with needed.old reason }
{
    match reason {
        ClauseRef::Learnt(place) => needed[place] = true,
        ClauseRef::Added(_) => {}
        ClauseRef::Assumed(_) => {}
    }
}

/// Marks the learnt clauses that a derivation names.
fn mark(needed: &mut [bool], derivation: &Derivation)
    requires { AllBelow (length needed.old) derivation.now.first derivation.now.rest.items }
    ensures { MarksMore needed.old needed.new derivation.now.first derivation.now.rest.items }
{
    mark_source(needed, derivation.first);
    for place in 0..derivation.rest.len() {
        let resolution = derivation.rest[place];
        mark_source(needed, resolution.reason);
    }
}

/// Marks of the learnt clauses that the last derivation needs, by whichever way.
fn needed(
    alloc: Global,
    derivations: &[Derivation],
    last: &Derivation,
) -> Result<Vec<bool>, NoMemory>
    requires before { AreBelow derivations.now }
    requires last { AllBelow (length derivations.now) last.now.first last.now.rest.items }
    ensures count { IfOk result (λ needed. length needed.items ≡ length derivations.now) }
    ensures last { IfOk result (λ needed. AllNeeded needed.items last.now.first last.now.rest.items) }
    ensures each { IfOk result (λ needed. AreNeeded needed.items derivations.now) }
{
    let mut needed = Vec::new(alloc);
    for _ in 0..derivations.len() {
        needed.push(false)?;
    }
    close(needed.as_mut_slice(), derivations, last);
    Ok(needed)
}

/// Marks what the last derivation needs, and what those that are marked need.
fn close(needed: &mut [bool], derivations: &[Derivation], last: &Derivation)
    requires count { length needed.old ≡ length derivations.now }
    requires before { AreBelow derivations.now }
    requires last { AllBelow (length derivations.now) last.now.first last.now.rest.items }
    ensures last { AllNeeded needed.new last.now.first last.now.rest.items }
    ensures each { AreNeeded needed.new derivations.now }
{
    mark(needed, last);
    let mut at = derivations.len();
    while at > 0 {
        at -= 1;
        if needed[at] {
            mark(needed, &derivations[at]);
        }
    }
}

/// The number that a log gives to the clause that a reason names.
fn number(reason: ClauseRef, added: usize, numbers: &[usize]) -> usize
    requires { HasNumber added numbers.now reason }
    ensures { result ≡ log_number added numbers.now reason }
{
    match reason {
        ClauseRef::Added(place) => place,
        ClauseRef::Assumed(place) => added + place,
        ClauseRef::Learnt(place) => numbers[place],
    }
}

/// The steps of a chain.
fn pivots(
    alloc: Global,
    resolutions: &[Resolution],
    added: usize,
    numbers: &[usize],
) -> Result<Pivots, NoMemory>
    requires { (place : ℕ) → (none : Resolution) → place < length resolutions.now
        → HasNumber added numbers.now (slice_index_or resolutions.now place none).reason }
    ensures { IfOk result (λ pivots. pivots ≡ map (log_pivot added numbers.now) resolutions.now) }
{
    let mut pivots = Pivots::new(alloc);
    for resolution in resolutions {
        pivots.push(Pivot {
            var: resolution.var,
            clause: number(resolution.reason, added, numbers),
        })?;
    }
    Ok(pivots)
}

/// The chain of a clause that is derived.
pub fn chain(
    alloc: Global,
    clause: &[Lit],
    derivation: &Derivation,
    added: usize,
    numbers: &[usize],
) -> Result<Chain, NoMemory>
    requires { AllHaveNumbers added numbers.now derivation.now.first derivation.now.rest.items }
    ensures clause { IfOk result (λ chain. chain.clause ≡ clause.now) }
    ensures first { IfOk result (λ chain. chain.first ≡ log_number added numbers.now derivation.now.first) }
    ensures rest { IfOk result (λ chain. chain.rest ≡ map (log_pivot added numbers.now) derivation.now.rest.items) }
{
    Ok(Chain {
        clause: Clause::from_slice(alloc, clause)?,
        first: number(derivation.first, added, numbers),
        rest: pivots(alloc, derivation.rest.as_slice(), added, numbers)?,
    })
}

/// Chains of learnt clauses, and the numbers of these.
#[derive(Debug, Drop)]
struct NeededChains {
    log: ChainLog,
    numbers: Vec<usize>,
}

/// The chains of the learnt clauses that are needed.
fn chains(
    alloc: Global,
    added: &[Clause],
    assumed: &[Lit],
    learnt: &[Clause],
    derivations: &[Derivation],
    needed: &[bool],
) -> Result<NeededChains, NoMemory>
    requires derived { AreDerivations added.now learnt.now derivations.now }
    requires count { length needed.now ≡ length learnt.now }
    requires needed { AreNeeded needed.now derivations.now }
    ensures { IfOk result (λ n. IsNumbered added.now learnt.now assumed.now needed.now
        (length learnt.now) n.numbers.items n.log) }
{
    let mut log = ChainLog::new(alloc);
    let mut numbers = Vec::new(alloc);
    for place in 0..learnt.len() {
        let number = added.len() + assumed.len() + log.len();
        if needed[place] {
            let clause = learnt[place].as_slice();
            log.push(chain(
                alloc,
                clause,
                &derivations[place],
                added.len(),
                numbers.as_slice(),
            )?)?;
        }
        numbers.push(number)?;
    }
    Ok(NeededChains { log, numbers })
}

/// The log of the last derivation, of the empty clause: the chains of the learnt clauses that it needs,
/// and its own.
pub fn render(
    alloc: Global,
    added: &[Clause],
    assumed: &[Lit],
    learnt: &[Clause],
    derivations: &[Derivation],
    last: &Derivation,
) -> Result<ChainLog, NoMemory>
    requires derived { AreDerivations added.now learnt.now derivations.now }
    requires last { IsDerivation (clause_lists added.now learnt.now assumed.now) last.now.first last.now.rest.items [] }
    ensures { IfOk result (Derives (clauses_with_units added.now assumed.now)) }
{
    let needed = needed(alloc, derivations, last)?;
    let NeededChains { mut log, numbers } = chains(
        alloc,
        added,
        assumed,
        learnt,
        derivations,
        needed.as_slice(),
    )?;
    let end = chain(alloc, &[], last, added.len(), numbers.as_slice())?;
    log.push(end)?;
    Ok(log)
}
