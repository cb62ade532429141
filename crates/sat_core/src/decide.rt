//! What a search does next where no clause is in conflict: `Engine::choose` takes a literal that waits, then
//! a unit, then an assumption, then a decision. It may touch the cursors of the search and the order of decisions alone.

ghost use Rattle.std.specs.Prelude.{◌≡◌, ◌<◌, ◌≤◌, ℕ, None, length, IfSome, All, slice_index_or};
ghost use Rattle.sat_core.specs.Search.{IsTrail, clause_lists, step_at};
ghost use Rattle.sat_core.specs.Decisions.{IsPending, AreTrueTo};
ghost use Rattle.sat_core.specs.Watching.{NoConflict};
ghost use Rattle.sat_core.specs.Engines.{IsSearching, Chooses};

use crate::clause_ref::{ClauseRef, Database};
use crate::decisions::{Decisions, OrderPlace};
use crate::engine::Engine;
use crate::trail::{Step, Trail};
use cnf::Lit;

/// What the search does next where no clause is in conflict.
#[derive(Clone, Copy, Debug)]
pub enum Choice {
    /// The assumption at this index is false.
    Refuted(usize),
    /// The literal of this unit clause is false.
    Falsified(ClauseRef),
    /// A literal is made true.
    Next(Step),
    /// Each unit and each assumption is true, and each variable has a value.
    Done,
}

/// A literal of a list that isn't true, by its index.
#[derive(Clone, Copy, Debug)]
pub enum Pending {
    /// It is false.
    Wrong(usize),
    /// It has no value.
    Free(usize),
}

/// How far a search has looked since it last went back: at the literals that wait, at the units, at the
/// assumptions, at the order of decisions, and at the variables by their numbers.
#[derive(Clone, Copy, Debug)]
pub struct Cursors {
    pub waiting: usize,
    pub units: usize,
    pub assumed: usize,
    pub order: OrderPlace,
    pub vars: usize,
}

impl Cursors {
    /// Nothing was looked at.
    pub fn start() -> Cursors
        ensures { result.assumed ≡ 0 }
    {
        Cursors {
            waiting: 0,
            units: 0,
            assumed: 0,
            order: OrderPlace::Front,
            vars: 0,
        }
    }

    /// After a return: the units of level 0 stay true.
    pub fn back(&mut self)
        ensures { self.new.assumed ≡ 0 }
    {
        self.waiting = 0;
        self.assumed = 0;
        self.order = OrderPlace::Front;
        self.vars = 0;
    }
}

/// The next literal that waits and has no value.
fn next_waiting(waiting: &Trail, trail: &Trail, from: &mut usize) -> Option<Step>
    requires queue { IsTrail waiting.now.steps.items waiting.now.places.items }
    requires vars { length waiting.now.places.items ≡ length trail.now.places.items }
    ensures { IfSome result (λ step. (p : ℕ) × (p < length waiting.now.steps.items) ×
        (step ≡ step_at waiting.now.steps.items p)
        × (slice_index_or trail.now.places.items step.lit.var None ≡ None)) }
{
    while *from < waiting.len() {
        let step = waiting.step(*from);
        *from += 1;
        if trail.is_free(step.lit.var) {
            return Some(step);
        }
    }
    None
}

/// The next literal of a list that isn't true.
fn next_pending(lits: &[Lit], trail: &Trail, from: &mut usize) -> Option<Pending>
    requires trail { IsTrail trail.now.steps.items trail.now.places.items }
    requires vars { All (λ lit. lit.var < length trail.now.places.items) lits.now }
    ensures pending { IfSome result (IsPending trail.now.steps.items trail.now.places.items lits.now) }
    ensures seen { AreTrueTo trail.now.steps.items lits.now from.old
        → AreTrueTo trail.now.steps.items lits.now from.new }
    ensures none { result ≡ None → length lits.now ≤ from.new }
{
    while *from < lits.len() {
        match trail.value(lits[*from]) {
            Some(true) => *from += 1,
            Some(false) => return Some(Pending::Wrong(*from)),
            None => return Some(Pending::Free(*from)),
        }
    }
    None
}

/// The next variable by its number without a value, with the value that it had last.
fn next_decision(phases: &[bool], trail: &Trail, from: &mut usize) -> Option<Lit>
    requires vars { length phases.now ≡ length trail.now.places.items }
    ensures some { IfSome result (λ lit. (lit.var < length trail.now.places.items)
        × (slice_index_or trail.now.places.items lit.var None ≡ None)) }
    ensures none { result ≡ None → (var : ℕ) → from.old ≤ var → var < length trail.now.places.items
        → slice_index_or trail.now.places.items var None ≡ None → ⊥ }
{
    while *from < phases.len() {
        let var = *from;
        *from += 1;
        if trail.is_free(var) {
            return Some(Lit {
                var,
                positive: phases[var],
            });
        }
    }
    None
}

impl Engine {
    /// What follows from a unit that isn't true.
    fn unit_choice(&self, database: Database<'_>, pending: Pending) -> Choice
        requires search { IsSearching database.added.now database.assumed.now self.now }
        requires pending { IsPending self.now.propagator.trail.steps.items self.now.propagator.trail.places.items
            self.now.units.lits.items pending }
        ensures { Chooses (clause_lists database.entry.added.now self.now.learnt.clauses.items
            database.entry.assumed.now) self.now result }
    {
        match pending {
            Pending::Wrong(index) => Choice::Falsified(self.units.reasons[index]),
            Pending::Free(index) => Choice::Next(Step {
                lit: self.units.lits[index],
                reason: Some(self.units.reasons[index]),
            }),
        }
    }

    /// What follows from an assumption that isn't true.
    fn assumption_choice(&self, database: Database<'_>, pending: Pending) -> Choice
        requires search { IsSearching database.added.now database.assumed.now self.now }
        requires pending { IsPending self.now.propagator.trail.steps.items self.now.propagator.trail.places.items
            database.assumed.now pending }
        ensures { Chooses (clause_lists database.entry.added.now self.now.learnt.clauses.items
            database.entry.assumed.now) self.now result }
    {
        match pending {
            Pending::Wrong(index) => Choice::Refuted(index),
            Pending::Free(index) => Choice::Next(Step {
                lit: database.assumed[index],
                reason: Some(ClauseRef::Assumed(index)),
            }),
        }
    }

    /// Looks at all units and variables once more, where each assumption is true.
    fn choose_anew(&self, database: Database<'_>, cursors: &mut Cursors) -> Choice
        requires search { IsSearching database.added.now database.assumed.now self.now }
        requires quiet { NoConflict self.now.propagator.links self.now.propagator.trail.steps.items }
        requires seen { AreTrueTo self.now.propagator.trail.steps.items database.assumed.now
            (length database.assumed.now) }
        ensures choice { Chooses (clause_lists database.entry.added.now self.now.learnt.clauses.items
            database.entry.assumed.now) self.now result }
        ensures seen { cursors.new.assumed ≡ cursors.old.assumed }
    {
        cursors.units = 0;
        cursors.vars = 0;
        let trail = &self.propagator.trail;
        if let Some(pending) = next_pending(self.units.lits.as_slice(), trail, &mut cursors.units) {
            return self.unit_choice(database, pending);
        }
        match next_decision(self.phases.as_slice(), trail, &mut cursors.vars) {
            Some(lit) => Choice::Next(Step { lit, reason: None }),
            None => Choice::Done,
        }
    }

    /// What the search does next where no clause is in conflict.
    pub fn choose(
        &self,
        database: Database<'_>,
        cursors: &mut Cursors,
        decisions: &mut Decisions,
    ) -> Choice
        requires search { IsSearching database.added.now database.assumed.now self.now }
        requires quiet { NoConflict self.now.propagator.links self.now.propagator.trail.steps.items }
        requires seen { AreTrueTo self.now.propagator.trail.steps.items database.assumed.now cursors.old.assumed }
        ensures choice { Chooses (clause_lists database.entry.added.now self.now.learnt.clauses.items
            database.entry.assumed.now) self.now result }
        ensures seen { AreTrueTo self.now.propagator.trail.steps.items database.entry.assumed.now cursors.new.assumed }
    {
        let trail = &self.propagator.trail;
        if let Some(step) = next_waiting(&self.propagator.waiting, trail, &mut cursors.waiting) {
            return Choice::Next(step);
        }
        if let Some(pending) = next_pending(self.units.lits.as_slice(), trail, &mut cursors.units) {
            return self.unit_choice(database, pending);
        }
        if let Some(pending) = next_pending(database.assumed, trail, &mut cursors.assumed) {
            return self.assumption_choice(database, pending);
        }
        decisions.prefer_learnt(database.learnt);
        match decisions.next(self.phases.as_slice(), trail, &mut cursors.order) {
            Some(lit) => Choice::Next(Step { lit, reason: None }),
            None => self.choose_anew(database, cursors),
        }
    }
}
