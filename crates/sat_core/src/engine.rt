//! The engine: what a solver keeps between calls beside the clauses that were added, and what a search
//! changes. `reset` takes back all that was made true; `add_var` and `place` come from outside of a search.

ghost use Rattle.std.specs.Prelude.{◌≡◌, ◌≢◌, ◌<◌, ◌≤◌, ◌+◌, ◌↔◌, ◌∷◌, ◌++◌, List, [], length, IsTrue, IfOk, OnOk};
ghost use Rattle.std.specs.Prelude.{OnErr, MatchOption, All, slice_get};
ghost use Rattle.cnf.specs.declared.lit.Lit.{Lit};
ghost use Rattle.clause_log.specs.Derivations.{SameLits};
ghost use Rattle.sat_core.specs.Search.{IsTrail};
ghost use Rattle.sat_core.specs.declared.clause_ref.ClauseRef.TheVariants.{Added};
ghost use Rattle.sat_core.specs.Engines.{IsEngine, IsEngineAtRest, Propagated};
ghost use Rattle.sat_core.specs.Watching.{NoConflict};
ghost use Rattle.sat_core.specs.Outcomes.{HasOpposites, AreOpposite};
ghost use Rattle.sat_core.specs.Solving.{IsKeptWith};

use crate::clause_ref::ClauseRef;
use crate::distinct::{distinct, opposites};
use crate::learnt::LearntClauses;
use crate::propagator::Propagator;
use crate::room::push_within;
use crate::units::Units;
use cnf::Lit;
use port_types::NoMemory;
use std::alloc::Global;

/// The kept clauses with the trail, the unit clauses, the learnt clauses, and the last value of each
/// variable.
#[derive(Debug, Drop)]
pub struct Engine {
    pub propagator: Propagator,
    pub units: Units,
    pub learnt: LearntClauses,
    pub phases: Vec<bool>,
}

impl Engine {
    /// No variables and no clauses.
    pub fn new(alloc: Global) -> Engine
        ensures engine { IsEngine [] result }
        ensures rest { IsEngineAtRest result }
        ensures vars { result.propagator.links.vars ≡ 0 }
        ensures kept { result.propagator.links.clauses ≡ [] }
    {
        Engine {
            propagator: Propagator::new(alloc),
            units: Units::new(alloc),
            learnt: LearntClauses::new(alloc),
            phases: Vec::new(alloc),
        }
    }

    /// Takes back all literals that were made true and all that wait.
    pub fn reset(&mut self)
        requires trail { IsTrail self.old.propagator.trail.steps.items self.old.propagator.trail.places.items }
        requires queue { IsTrail self.old.propagator.waiting.steps.items self.old.propagator.waiting.places.items }
        ensures engine { (added : List (List Lit)) → IsEngine added self.old → IsEngine added self.new }
        ensures rest { IsEngineAtRest self.new }
        ensures quiet { NoConflict self.new.propagator.links self.new.propagator.trail.steps.items }
        ensures links { self.new.propagator.links ≡ self.old.propagator.links }
    {
        self.propagator.back(0);
        self.propagator.links.lists_are_exact();
    }

    /// Takes back all that was made true, and finds two opposite literals of a list, by their places.
    pub fn clash(&mut self, lits: &[Lit]) -> Option<(usize, usize)>
        requires trail { IsTrail self.old.propagator.trail.steps.items self.old.propagator.trail.places.items }
        requires queue { IsTrail self.old.propagator.waiting.steps.items self.old.propagator.waiting.places.items }
        requires vars { length self.old.propagator.waiting.places.items ≡ self.old.propagator.links.vars }
        requires known { All (λ lit. lit.var < self.old.propagator.links.vars) lits.now }
        ensures engine { (added : List (List Lit)) → IsEngine added self.old → IsEngine added self.new }
        ensures rest { IsEngineAtRest self.new }
        ensures quiet { NoConflict self.new.propagator.links self.new.propagator.trail.steps.items }
        ensures links { self.new.propagator.links ≡ self.old.propagator.links }
        ensures found { MatchOption result (HasOpposites lits.now → ⊥)
            (λ places. AreOpposite lits.now places.0 places.1) }
    {
        self.propagator.back(0);
        self.propagator.links.lists_are_exact();
        opposites(lits, &mut self.propagator.waiting)
    }

    /// One more variable.
    pub fn add_var(&mut self) -> Result<(), NoMemory>
        requires rest { IsEngineAtRest self.old }
        requires state { Propagated self.old 0 }
        ensures engine { (added : List (List Lit)) → IsEngine added self.old → IsEngine added self.new }
        ensures rest { IsEngineAtRest self.new }
        ensures ok { OnOk result (self.new.propagator.links.vars ≡ self.old.propagator.links.vars + 1) }
        ensures err { OnErr result (self.new.propagator.links.vars ≡ self.old.propagator.links.vars) }
        ensures clauses { self.new.propagator.links.clauses ≡ self.old.propagator.links.clauses }
    {
        self.phases.reserve(1)?;
        self.propagator.add_var()?;
        push_within(&mut self.phases, false);
        Ok(())
    }

    /// Puts the distinct literals of a clause that will be added among the kept clauses or the units.
    ///
    /// Answers whether the clause is empty, which is in neither of them.
    pub fn place(&mut self, lits: &[Lit], reference: ClauseRef) -> Result<bool, NoMemory>
        requires rest { IsEngineAtRest self.old }
        requires state { Propagated self.old 0 }
        requires quiet { NoConflict self.old.propagator.links self.old.propagator.trail.steps.items }
        requires apart { 2 ≤ length lits.now → slice_get lits.now 0 ≢ slice_get lits.now 1 }
        requires known { All (λ lit. lit.var < self.old.propagator.links.vars) lits.now }
        ensures rest { IsEngineAtRest self.new }
        ensures quiet { NoConflict self.new.propagator.links self.new.propagator.trail.steps.items }
        ensures engine { (added : List (List Lit)) → IsEngine added self.old → OnErr result (IsEngine added self.new) }
        ensures placed { (added : List (List Lit)) → (clause : List Lit) → IsEngine added self.old
            → reference ≡ Added (length added)
            → SameLits lits.now clause → OnOk result (IsEngine (added ++ clause ∷ []) self.new) }
        ensures empty { IfOk result (λ empty. IsTrue empty ↔ (lits.now ≡ [])) }
        ensures vars { self.new.propagator.links.vars ≡ self.old.propagator.links.vars }
        ensures kept { 2 ≤ length lits.now
            → OnOk result (self.new.propagator.links.clauses ≡ self.old.propagator.links.clauses ++ lits.now ∷ []) }
        ensures not_kept { length lits.now < 2 → self.new.propagator.links.clauses ≡ self.old.propagator.links.clauses }
        ensures err_kept { OnErr result (self.new.propagator.links.clauses ≡ self.old.propagator.links.clauses) }
    {
        match lits {
            [] => Ok(true),
            [lit] => {
                self.units.push(*lit, reference)?;
                Ok(false)
            }
            _ => {
                self.propagator.add_clause(lits, reference)?;
                Ok(false)
            }
        }
    }

    /// Takes note of a clause that will be added last: it is kept, a unit, always true, or empty.
    ///
    /// Answers whether the clause is empty.
    pub fn add(
        &mut self,
        alloc: Global,
        lits: &[Lit],
        reference: ClauseRef,
    ) -> Result<bool, NoMemory>
        requires rest { IsEngineAtRest self.old }
        requires state { Propagated self.old 0 }
        requires quiet { NoConflict self.old.propagator.links self.old.propagator.trail.steps.items }
        requires known { All (λ lit. lit.var < self.old.propagator.links.vars) lits.now }
        ensures rest { IsEngineAtRest self.new }
        ensures quiet { NoConflict self.new.propagator.links self.new.propagator.trail.steps.items }
        ensures engine { (added : List (List Lit)) → IsEngine added self.old → OnErr result (IsEngine added self.new) }
        ensures added { (added : List (List Lit)) → IsEngine added self.old → reference ≡ Added (length added)
            → OnOk result (IsEngine (added ++ lits.now ∷ []) self.new) }
        ensures empty { IfOk result (λ empty. IsTrue empty ↔ (lits.now ≡ [])) }
        ensures vars { self.new.propagator.links.vars ≡ self.old.propagator.links.vars }
        ensures kept { OnOk result (IsKeptWith self.old.propagator.links.clauses self.new.propagator.links.clauses
            lits.now) }
        ensures err_kept { OnErr result (self.new.propagator.links.clauses ≡ self.old.propagator.links.clauses) }
    {
        match distinct(alloc, lits, &mut self.propagator.waiting)? {
            None => Ok(false),
            Some(own) => self.place(own.as_slice(), reference),
        }
    }
}
