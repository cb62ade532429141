//! Conflict analysis: `analyse` resolves back along the trail to the first unique implication point. It
//! reads the trail and the clauses, and makes a new clause with its derivation.
//!
//! It may touch the set that it is lent, which it leaves empty.

ghost use Rattle.std.specs.Prelude.{◌≡◌, ◌<◌, ◌≤◌, ◌+◌, ℕ, true, false, [], length, IsTrue, IfOk, IfSome, OnOk, Contains, None};
ghost use Rattle.cnf.specs.Clauses.{opposite};
ghost use Rattle.sat_core.specs.Search.{IsTrail, Justified, ClauseLists, clause_lists, lists_of, IsDerivation};
ghost use Rattle.sat_core.specs.Search.{HasClause, clause_of, AllFalse, MadeTrue, lit_at, step_at, opens_level};
ghost use Rattle.sat_core.specs.Learning.{IsFalseClause};
ghost use Rattle.sat_core.specs.Learning.{OthersFalse, SameReference, Asserts, IsLearntFrom};
ghost use Rattle.sat_core.specs.Meeting.{Met, IsMetSet, reached};

use crate::chain::{Derivation, Resolution, has};
use crate::clause_ref::{ClauseRef, Database, lits};
use crate::meet::{meet_all, reached};
use crate::trail::{Step, Trail, opens};
use cnf::Lit;
use port_types::NoMemory;
use std::alloc::Global;

/// Where a learnt clause forces a literal: after so many steps of the trail.
#[derive(Clone, Copy, Debug)]
pub struct Backjump {
    pub lit: Lit,
    pub keep: usize,
}

/// A learnt clause with its derivation. One without a backjump is empty.
#[derive(Debug, Drop)]
pub struct LearntClause {
    pub lits: Vec<Lit>,
    pub derivation: Derivation,
    pub backjump: Option<Backjump>,
}

/// One more than the place that makes a literal false.
pub fn after(trail: &Trail, lit: Lit) -> usize
    requires trail { IsTrail trail.now.steps.items trail.now.places.items }
    requires false_ { MadeTrue trail.now.steps.items (length trail.now.steps.items) (opposite lit) }
    ensures { (p : ℕ) × (result ≡ p + 1) × (p < length trail.now.steps.items) ×
        (lit_at trail.now.steps.items p ≡ opposite lit) }
{
    match trail.place(lit.var) {
        Some(place) => place + 1,
        None => 0,
    }
}

/// The least number of steps that make all literals but one false.
fn others_end(lits: &[Lit], but: Lit, trail: &Trail) -> usize
    requires trail { IsTrail trail.now.steps.items trail.now.places.items }
    requires all { AllFalse trail.now.steps.items (length trail.now.steps.items) lits.now }
    ensures covers { OthersFalse trail.now.steps.items result lits.now but }
    ensures least { (n : ℕ) → n ≤ length trail.now.steps.items → OthersFalse trail.now.steps.items n lits.now but
        → result ≤ n }
{
    let mut end = 0;
    for lit in lits {
        if !lit.same(but) {
            end = end.max(after(trail, *lit));
        }
    }
    end
}

/// Where the literals force the opposite of the last that is false, if that alone stands in the last
/// of their level_marks: after the steps before the first level that has none of the others.
fn backjump_point(trail: &Trail, at: usize, lits: &[Lit]) -> Option<usize>
    requires trail { IsTrail trail.now.steps.items trail.now.places.items }
    requires at { at < length trail.now.steps.items }
    requires all { AllFalse trail.now.steps.items (at + 1) lits.now }
    ensures some { IfSome result (λ keep. Asserts trail.now.steps.items lits.now
        (opposite (lit_at trail.now.steps.items at)) keep) }
    ensures none { result ≡ None → Contains lits.now (opposite (lit_at trail.now.steps.items at))
        → opens_level (step_at trail.now.steps.items at).reason ≡ false }
{
    let lit = trail.step(at).lit.negated();
    if !has(lits, lit) {
        return None;
    }
    let end = others_end(lits, lit, trail);
    trail.opening(end, at + 1)
}

/// Whether a step with so many literals of its level met surely is no unique implication point.
fn is_inner(step: Step, open: usize) -> bool
    ensures { IsTrue result → opens_level step.reason ≡ false }
{
    if opens(step) { false } else { open > 1 }
}

/// Whether the step of a literal that was met may be a unique implication point.
fn is_candidate(trail: &Trail, set: &Trail, at: usize, open: usize) -> bool
    requires at { at < length trail.now.steps.items }
    requires met { IsMetSet trail.now.steps.items trail.now.places.items set.now.steps.items set.now.places.items }
    requires trail { IsTrail trail.now.steps.items trail.now.places.items }
    ensures { result ≡ false → Met set.now.steps.items (opposite (lit_at trail.now.steps.items at))
        → opens_level (step_at trail.now.steps.items at).reason ≡ false }
{
    let step = trail.step(at);
    match set.place(step.lit.var) {
        None => false,
        Some(_) => !is_inner(step, open),
    }
}

/// Where the literals reached force the opposite of the step's, if they do; `open` counts those of the last level.
fn turning_point(
    alloc: Global,
    trail: &Trail,
    set: &Trail,
    at: usize,
    open: usize,
) -> Result<Option<usize>, NoMemory>
    requires trail { IsTrail trail.now.steps.items trail.now.places.items }
    requires at { at < length trail.now.steps.items }
    requires met { IsMetSet trail.now.steps.items trail.now.places.items set.now.steps.items set.now.places.items }
    ensures some { IfOk result (λ found. IfSome found (λ keep. Asserts trail.now.steps.items
        (reached trail.now.places.items (at + 1) set.now.steps.items)
        (opposite (lit_at trail.now.steps.items at)) keep)) }
    ensures none { IfOk result (λ found. found ≡ None
        → Met set.now.steps.items (opposite (lit_at trail.now.steps.items at))
        → opens_level (step_at trail.now.steps.items at).reason ≡ false) }
{
    if !is_candidate(trail, set, at, open) {
        return Ok(None);
    }
    let lits = reached(alloc, trail, set, at + 1)?;
    Ok(backjump_point(trail, at, lits.as_slice()))
}

/// Resolves with the reason of a step, if its variable was met, and answers how many literals are met that
/// stand from a place of the trail on and before the step, where `open` counted the step too.
fn resolve_at(
    database: Database<'_>,
    trail: &Trail,
    at: usize,
    set: &mut Trail,
    derivation: &mut Derivation,
    from: usize,
    open: usize,
) -> Result<usize, NoMemory>
    requires trail { IsTrail trail.now.steps.items trail.now.places.items }
    requires at { at < length trail.now.steps.items }
    requires justified { Justified (lists_of database) trail.now.steps.items }
    requires met { IsMetSet trail.now.steps.items trail.now.places.items set.old.steps.items set.old.places.items }
    requires forced { Met set.old.steps.items (opposite (lit_at trail.now.steps.items at))
        → (step_at trail.now.steps.items at).reason ≡ None → ⊥ }
    ensures met { IsMetSet trail.now.steps.items trail.now.places.items set.new.steps.items set.new.places.items }
    ensures derived { OnOk result ((k : ClauseLists)
        → (Met set.old.steps.items (opposite (lit_at trail.now.steps.items at))
        → SameReference k (lists_of database.entry) (step_at trail.now.steps.items at).reason)
        → IsDerivation k derivation.old.first derivation.old.rest.items
        (reached trail.now.places.items (at + 1) set.old.steps.items)
        → IsDerivation k derivation.new.first derivation.new.rest.items
        (reached trail.now.places.items at set.new.steps.items)) }
{
    let step = trail.step(at);
    match set.place(step.lit.var) {
        None => Ok(open),
        Some(_) => match step.reason {
            None => Ok(open),
            Some(reason) => {
                derivation.rest.push(Resolution {
                    var: step.lit.var,
                    reason,
                })?;
                let came = meet_all(set, lits(database, reason), trail, from);
                Ok(open.saturating_sub(1).saturating_add(came))
            }
        },
    }
}

/// `analyse` over an empty set.
fn trace(
    alloc: Global,
    database: Database<'_>,
    trail: &Trail,
    set: &mut Trail,
    reason: ClauseRef,
) -> Result<LearntClause, NoMemory>
    requires trail { IsTrail trail.now.steps.items trail.now.places.items }
    requires justified { Justified (lists_of database) trail.now.steps.items }
    requires falsified { IsFalseClause (lists_of database) trail.now.steps.items reason }
    requires set { IsTrail set.old.steps.items set.old.places.items }
    requires vars { length set.old.places.items ≡ length trail.now.places.items }
    requires empty { set.old.steps.items ≡ [] }
    ensures lesson { IfOk result (λ learnt_clause. IsLearntFrom
        (clause_lists database.entry.added.now database.entry.learnt.now []) trail.now.steps.items learnt_clause) }
    ensures set { IsTrail set.new.steps.items set.new.places.items }
    ensures vars { length set.new.places.items ≡ length set.old.places.items }
{
    let from = trail.last_opening();
    let mut derivation = Derivation {
        first: reason,
        rest: Vec::new(alloc),
    };
    let mut open = meet_all(set, lits(database, reason), trail, from);
    let mut at = trail.len();
    while at > 0 {
        at -= 1;
        if let Some(keep) = turning_point(alloc, trail, set, at, open)? {
            let lits = reached(alloc, trail, set, at + 1)?;
            let lit = trail.step(at).lit.negated();
            return Ok(LearntClause {
                lits,
                derivation,
                backjump: Some(Backjump { lit, keep }),
            });
        }
        open = resolve_at(database, trail, at, set, &mut derivation, from, open)?;
    }
    Ok(LearntClause {
        lits: Vec::new(alloc),
        derivation,
        backjump: None,
    })
}

/// Learns from a clause whose literals are all false: resolves back along the trail to the first
/// literal that alone stands in the last of the level_marks, or to the empty clause.
pub fn analyse(
    alloc: Global,
    database: Database<'_>,
    trail: &Trail,
    set: &mut Trail,
    reason: ClauseRef,
) -> Result<LearntClause, NoMemory>
    requires trail { IsTrail trail.now.steps.items trail.now.places.items }
    requires justified { Justified (lists_of database) trail.now.steps.items }
    requires falsified { IsFalseClause (lists_of database) trail.now.steps.items reason }
    requires set { IsTrail set.old.steps.items set.old.places.items }
    requires vars { length set.old.places.items ≡ length trail.now.places.items }
    ensures lesson { IfOk result (λ learnt_clause. IsLearntFrom
        (clause_lists database.entry.added.now database.entry.learnt.now []) trail.now.steps.items learnt_clause) }
    ensures set { IsTrail set.new.steps.items set.new.places.items }
    ensures vars { length set.new.places.items ≡ length set.old.places.items }
    ensures empty { set.new.steps.items ≡ [] }
{
    set.backtrack(0);
    let learnt_clause = trace(alloc, database, trail, set, reason);
    set.backtrack(0);
    learnt_clause
}

/// `refute` over an empty set.
fn trace_back(
    alloc: Global,
    database: Database<'_>,
    trail: &Trail,
    set: &mut Trail,
    reason: ClauseRef,
) -> Result<Derivation, NoMemory>
    requires trail { IsTrail trail.now.steps.items trail.now.places.items }
    requires justified { Justified (lists_of database) trail.now.steps.items }
    requires named { HasClause (lists_of database) reason }
    requires all { AllFalse trail.now.steps.items (length trail.now.steps.items)
        (clause_of (lists_of database) reason) }
    requires undecided { (p : ℕ) → p < length trail.now.steps.items
        → (step_at trail.now.steps.items p).reason ≡ None → ⊥ }
    requires set { IsTrail set.old.steps.items set.old.places.items }
    requires vars { length set.old.places.items ≡ length trail.now.places.items }
    requires empty { set.old.steps.items ≡ [] }
    ensures derived { IfOk result (λ derivation. IsDerivation (lists_of database.entry) derivation.first
        derivation.rest.items []) }
    ensures set { IsTrail set.new.steps.items set.new.places.items }
    ensures vars { length set.new.places.items ≡ length set.old.places.items }
{
    let mut derivation = Derivation {
        first: reason,
        rest: Vec::new(alloc),
    };
    let _ = meet_all(set, lits(database, reason), trail, 0);
    let mut at = trail.len();
    while at > 0 {
        at -= 1;
        let _ = resolve_at(database, trail, at, set, &mut derivation, 0, 0)?;
    }
    Ok(derivation)
}

/// Derives the empty clause from a clause whose literals are all false, where no step was decided.
pub fn refute(
    alloc: Global,
    database: Database<'_>,
    trail: &Trail,
    set: &mut Trail,
    reason: ClauseRef,
) -> Result<Derivation, NoMemory>
    requires trail { IsTrail trail.now.steps.items trail.now.places.items }
    requires justified { Justified (lists_of database) trail.now.steps.items }
    requires named { HasClause (lists_of database) reason }
    requires all { AllFalse trail.now.steps.items (length trail.now.steps.items)
        (clause_of (lists_of database) reason) }
    requires undecided { (p : ℕ) → p < length trail.now.steps.items
        → (step_at trail.now.steps.items p).reason ≡ None → ⊥ }
    requires set { IsTrail set.old.steps.items set.old.places.items }
    requires vars { length set.old.places.items ≡ length trail.now.places.items }
    ensures derived { IfOk result (λ derivation. IsDerivation (lists_of database.entry) derivation.first
        derivation.rest.items []) }
    ensures set { IsTrail set.new.steps.items set.new.places.items }
    ensures vars { length set.new.places.items ≡ length set.old.places.items }
    ensures empty { set.new.steps.items ≡ [] }
{
    set.backtrack(0);
    let derivation = trace_back(alloc, database, trail, set, reason);
    set.backtrack(0);
    derivation
}
