//! The trail: literals in the order in which they were made true, with the place and the value of each variable.
//! `push` and `backtrack` change it; neither takes memory.

ghost use Rattle.std.specs.Prelude.{◌≡◌, ◌<◌, ◌≤◌, ◌+◌, ◌∷◌, ◌++◌, ◌↔◌, ℕ, [], true, false, length, take, IsTrue, IfOk};
ghost use Rattle.std.specs.Prelude.{None, IfSome, OnOk, OnErr, MatchOption, slice_index_or, vec_len, vec_capacity};
ghost use Rattle.cnf.specs.declared.lit.Lit.{Lit};
ghost use Rattle.cnf.specs.Clauses.{opposite};
ghost use Rattle.sat_core.specs.Search.{step_at, lit_at, MadeTrue, IsUnassigned, IsTrail, opens_level, ValueIs, value_of};

use crate::clause_ref::ClauseRef;
use crate::room::push_within;
use cnf::Lit;
use port_types::NoMemory;
use std::alloc::Global;

/// A literal that was made true, with the clause that forced it; none where it was decided.
#[derive(Clone, Copy, Debug)]
pub struct Step {
    pub lit: Lit,
    pub reason: Option<ClauseRef>,
}

/// Literals with distinct variables, in order, and the place of each variable among them, with the sign of the
/// literal that stands there.
///
/// There is always room for a step of each variable.
#[derive(Debug, Drop)]
pub struct Trail {
    pub steps: Vec<Step>,
    pub places: Vec<Option<usize>>,
    pub values: Vec<Option<bool>>,
    ghost room: { length places.items ≤ vec_capacity steps },
    ghost valued: { length values.items ≡ length places.items },
    ghost values_stand: { (var : ℕ) → slice_index_or values.items var None
        ≡ value_of steps.items (slice_index_or places.items var None) },
}

/// Whether a step opens a level: it is a decision or an assumption.
pub fn opens(step: Step) -> bool
    ensures { result ≡ opens_level step.reason }
{
    match step.reason {
        None => true,
        Some(ClauseRef::Assumed(_)) => true,
        Some(ClauseRef::Added(_)) => false,
        Some(ClauseRef::Learnt(_)) => false,
    }
}

impl Trail {
    /// No steps, over no variables.
    pub fn new(alloc: Global) -> Trail
        ensures steps { result.steps.items ≡ [] }
        ensures places { result.places.items ≡ [] }
    {
        Trail {
            steps: Vec::new(alloc),
            places: Vec::new(alloc),
            values: Vec::new(alloc),
        }
    }

    /// Makes room for one more variable.
    pub fn reserve_var(&mut self) -> Result<(), NoMemory>
        ensures steps { self.new.steps.items ≡ self.old.steps.items }
        ensures places { self.new.places.items ≡ self.old.places.items }
        ensures steps_room { OnOk result (length self.new.places.items < vec_capacity self.new.steps) }
        ensures places_room { OnOk result (length self.new.places.items < vec_capacity self.new.places) }
        ensures values_room { OnOk result (length self.new.values.items < vec_capacity self.new.values) }
    {
        self.values.reserve(1)?;
        self.places.reserve(1)?;
        self.steps.reserve(self.places.len() + 1)?;
        Ok(())
    }

    /// One more variable, without a place, where there is room for it.
    pub fn add_var(&mut self)
        requires steps_room { length self.old.places.items < vec_capacity self.old.steps }
        requires places_room { length self.old.places.items < vec_capacity self.old.places }
        requires values_room { length self.old.values.items < vec_capacity self.old.values }
        ensures steps { self.new.steps.items ≡ self.old.steps.items }
        ensures places { self.new.places.items ≡ self.old.places.items ++ None ∷ [] }
    {
        push_within(&mut self.places, None);
        push_within(&mut self.values, None);
    }

    /// The number of literals made true.
    pub fn len(&self) -> usize
        ensures { result ≡ length self.now.steps.items }
    {
        self.steps.len()
    }

    /// The step at a place.
    pub fn step(&self, place: usize) -> Step
        requires { place < length self.now.steps.items }
        ensures { result ≡ step_at self.now.steps.items place }
    {
        self.steps[place]
    }

    /// The place of a variable, none where it has no value.
    pub fn place(&self, var: usize) -> Option<usize>
        requires { var < length self.now.places.items }
        ensures { result ≡ slice_index_or self.now.places.items var None }
    {
        self.places[var]
    }

    /// Whether a variable has no value.
    pub fn is_free(&self, var: usize) -> bool
        requires { var < length self.now.places.items }
        ensures { IsTrue result ↔ (slice_index_or self.now.places.items var None ≡ None) }
    {
        self.values[var].is_none()
    }

    /// Whether a literal is true or false, none where its variable has no value.
    pub fn value(&self, lit: Lit) -> Option<bool>
        requires trail { IsTrail self.now.steps.items self.now.places.items }
        requires var { lit.var < length self.now.places.items }
        ensures { ValueIs self.now.steps.items self.now.places.items lit result }
    {
        match self.values[lit.var] {
            None => None,
            Some(positive) => Some(positive == lit.positive),
        }
    }

    /// Whether a literal is false.
    pub fn is_false(&self, lit: Lit) -> bool
        requires trail { IsTrail self.now.steps.items self.now.places.items }
        requires var { lit.var < length self.now.places.items }
        ensures { IsTrue result ↔ MadeTrue self.now.steps.items (length self.now.steps.items) (opposite lit) }
    {
        self.value(lit) == Some(false)
    }

    /// The number of variables.
    pub fn vars(&self) -> usize
        ensures { result ≡ length self.now.places.items }
    {
        self.places.len()
    }

    /// The value of a variable, false where it has none.
    pub fn holds(&self, var: usize) -> bool
        requires trail { IsTrail self.now.steps.items self.now.places.items }
        requires var { var < length self.now.places.items }
        ensures { (lit : Lit) → MadeTrue self.now.steps.items (length self.now.steps.items) lit → lit.var ≡ var
            → result ≡ lit.positive }
    {
        match self.values[var] {
            None => false,
            Some(positive) => positive,
        }
    }

    /// Puts a step at the end whose variable has no place.
    pub fn push(&mut self, step: Step)
        requires trail { IsTrail self.old.steps.items self.old.places.items }
        requires var { step.lit.var < length self.old.places.items }
        requires free { slice_index_or self.old.places.items (step.lit.var) None ≡ None }
        ensures trail { IsTrail self.new.steps.items self.new.places.items }
        ensures vars { length self.new.places.items ≡ length self.old.places.items }
        ensures steps { self.new.steps.items ≡ self.old.steps.items ++ step ∷ [] }
    {
        let place = self.steps.len();
        push_within(&mut self.steps, step);
        self.places[step.lit.var] = Some(place);
        self.values[step.lit.var] = Some(step.lit.positive);
    }

    /// Takes back all but the first `keep` steps.
    pub fn backtrack(&mut self, keep: usize)
        requires trail { IsTrail self.old.steps.items self.old.places.items }
        ensures trail { IsTrail self.new.steps.items self.new.places.items }
        ensures vars { length self.new.places.items ≡ length self.old.places.items }
        ensures steps { self.new.steps.items ≡ take keep self.old.steps.items }
    {
        while self.steps.len() > keep {
            if let Some(step) = self.steps.pop() {
                self.places[step.lit.var] = None;
                self.values[step.lit.var] = None;
            }
        }
    }

    /// The last place whose step opens a level, 0 where none does.
    pub fn last_opening(&self) -> usize {
        let mut place = self.steps.len();
        while place > 0 {
            place -= 1;
            if opens(self.steps[place]) {
                return place;
            }
        }
        0
    }

    /// The first place from `from` on, and before `to`, whose step opens a level.
    pub fn opening(&self, from: usize, to: usize) -> Option<usize>
        requires { to ≤ length self.now.steps.items }
        ensures some { IfSome result (λ place. (from ≤ place) × (place < to) ×
            (opens_level (step_at self.now.steps.items place).reason ≡ true)) }
        ensures none { result ≡ None → (p : ℕ) → from ≤ p → p < to
            → opens_level (step_at self.now.steps.items p).reason ≡ false }
    {
        for place in from..to {
            if opens(self.steps[place]) {
                return Some(place);
            }
        }
        None
    }
}
