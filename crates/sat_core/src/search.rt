//! The search: `Engine::search` makes literals true, learns from conflicts and goes back, until it has a
//! model or the empty clause.
//!
//! It may touch all of the engine, and takes memory for learnt clauses and the model.

ghost use Rattle.std.specs.Prelude.{◌≡◌, ◌<◌, ◌++◌, [], length, map, IfOk, Contains};
ghost use Rattle.cnf.specs.Clauses.{IsModel};
ghost use Rattle.sat_core.specs.declared.decide.Choice.TheVariants.{Refuted, Done};
ghost use Rattle.sat_core.specs.Search.{lists_of, clause_lists, unit_clause, IsDerivation, trail_weight};
ghost use Rattle.sat_core.specs.Search.{AssumptionsTrue, IsTrail, AllWithin};
ghost use Rattle.sat_core.specs.Decisions.{IsAnswer, AreTrueTo, AllAssigned, NoneFalse};
ghost use Rattle.sat_core.specs.Watching.{NoConflict};
ghost use Rattle.sat_core.specs.Engines.{IsEngine, IsSolver, IsEngineAtRest, IsSearching, Chooses, TakesStep, IsFound, IsLonger};
ghost use Rattle.sat_core.specs.Engines.{found_weight, step_weight};

use crate::analyse::refute;
use crate::chain::Derivation;
use crate::clause_ref::{ClauseRef, Database};
use crate::decide::{Choice, Cursors};
use crate::decisions::Decisions;
use crate::engine::Engine;
use crate::propagator::Propagation;
use crate::trail::{Step, Trail};
use cnf::{Clause, Lit, Model01};
use port_types::{NoMemory, OneRun, Steps};
use std::alloc::Global;

/// What a search answers: a model, or the derivation of the empty clause.
#[derive(Debug, Drop)]
pub enum Answer {
    Sat(Model01),
    Unsat(Derivation),
}

/// What a search goes on with: a literal to make true, or its answer.
#[derive(Debug, Drop)]
pub enum Found {
    Next(Step),
    Answered(Answer),
}

/// The values of the variables.
fn model(alloc: Global, database: Database<'_>, trail: &Trail) -> Result<Model01, NoMemory>
    requires trail { IsTrail trail.now.steps.items trail.now.places.items }
    requires placed { AllAssigned trail.now.places.items }
    requires true_ { NoneFalse database.added.now trail.now.steps.items }
    requires assumed { AssumptionsTrue (lists_of database) trail.now.steps.items (length trail.now.steps.items) }
    requires within { AllWithin (length trail.now.places.items) database.added.now }
    requires assumed_within { AllWithin (length trail.now.places.items) (map unit_clause database.assumed.now) }
    ensures { IfOk result (IsModel (length trail.now.places.items)
        (database.entry.added.now ++ map unit_clause database.entry.assumed.now)) }
{
    let mut values = Vec::new(alloc);
    for var in 0..trail.vars() {
        values.push(trail.holds(var))?;
    }
    Ok(Model01::from_vec(values))
}

impl Engine {
    /// What comes next, of the clauses that a search may name.
    fn choose_of<'a>(
        &'a self,
        added: &'a [Clause],
        assumed: &'a [Lit],
        cursors: &mut Cursors,
        decisions: &mut Decisions,
    ) -> Choice
        requires search { IsSearching added.now assumed.now self.now }
        requires quiet { NoConflict self.now.propagator.links self.now.propagator.trail.steps.items }
        requires seen { AreTrueTo self.now.propagator.trail.steps.items assumed.now cursors.old.assumed }
        ensures choice { Chooses (clause_lists added.now self.now.learnt.clauses.items assumed.now) self.now result }
        ensures seen { AreTrueTo self.now.propagator.trail.steps.items assumed.now cursors.new.assumed }
    {
        let database = Database {
            added,
            learnt: self.learnt.clauses.as_slice(),
            assumed,
        };
        self.choose(database, cursors, decisions)
    }

    /// The derivation of the empty clause where an assumption is false.
    fn refuted<'a>(
        &mut self,
        alloc: Global,
        added: &'a [Clause],
        assumed: &'a [Lit],
        index: usize,
    ) -> Result<Derivation, NoMemory>
        requires search { IsSearching added.now assumed.now self.old }
        requires false_ { Chooses (clause_lists added.now self.old.learnt.clauses.items assumed.now) self.old
            (Refuted index) }
        ensures engine { IsEngine added.now self.new }
        ensures trail { self.new.propagator.trail ≡ self.old.propagator.trail }
        ensures links { self.new.propagator.links ≡ self.old.propagator.links }
        ensures derived { IfOk result (λ derivation. IsDerivation
            (clause_lists added.now self.new.learnt.clauses.items assumed.now)
            derivation.first derivation.rest.items []) }
    {
        let database = Database {
            added,
            learnt: self.learnt.clauses.as_slice(),
            assumed,
        };
        refute(
            alloc,
            database,
            &self.propagator.trail,
            &mut self.propagator.waiting,
            ClauseRef::Assumed(index),
        )
    }

    /// The values of the variables, where each clause and each assumption is true.
    fn satisfied<'a>(
        &'a self,
        alloc: Global,
        added: &'a [Clause],
        assumed: &'a [Lit],
    ) -> Result<Model01, NoMemory>
        requires search { IsSearching added.now assumed.now self.now }
        requires quiet { NoConflict self.now.propagator.links self.now.propagator.trail.steps.items }
        requires done { Chooses (clause_lists added.now self.now.learnt.clauses.items assumed.now) self.now Done }
        requires none_empty { Contains added.now [] → ⊥ }
        ensures { IfOk result (IsModel self.now.propagator.links.vars (added.now ++ map unit_clause assumed.now)) }
    {
        let database = Database {
            added,
            learnt: self.learnt.clauses.as_slice(),
            assumed,
        };
        model(alloc, database, &self.propagator.trail)
    }

    /// The next literal where no clause is in conflict, or the answer.
    fn advance<'a>(
        &mut self,
        alloc: Global,
        added: &'a [Clause],
        assumed: &'a [Lit],
        cursors: &mut Cursors,
        decisions: &mut Decisions,
    ) -> Result<Found, NoMemory>
        requires search { IsSearching added.now assumed.now self.old }
        requires quiet { NoConflict self.old.propagator.links self.old.propagator.trail.steps.items }
        requires seen { AreTrueTo self.old.propagator.trail.steps.items assumed.now cursors.old.assumed }
        requires none_empty { Contains added.now [] → ⊥ }
        ensures engine { IsEngine added.now self.new }
        ensures longer { IsLonger self.old self.new }
        ensures found { IfOk result (IsFound added.now assumed.now self.new) }
        ensures seen { AreTrueTo self.new.propagator.trail.steps.items assumed.now cursors.new.assumed }
        ensures weight { IfOk result (λ found. found_weight self.new found
            < trail_weight self.old.propagator.trail.steps.items self.old.propagator.trail.places.items) }
    {
        match self.choose_of(added, assumed, cursors, decisions) {
            Choice::Next(step) => Ok(Found::Next(step)),
            Choice::Falsified(reason) => {
                cursors.back();
                self.learn(alloc, added, assumed, reason)
            }
            Choice::Refuted(index) => {
                let derivation = self.refuted(alloc, added, assumed, index)?;
                Ok(Found::Answered(Answer::Unsat(derivation)))
            }
            Choice::Done => {
                let model = self.satisfied(alloc, added, assumed)?;
                Ok(Found::Answered(Answer::Sat(model)))
            }
        }
    }

    /// Makes a literal true, and finds what comes next.
    fn follow<'a>(
        &mut self,
        alloc: Global,
        added: &'a [Clause],
        assumed: &'a [Lit],
        step: Step,
        cursors: &mut Cursors,
        decisions: &mut Decisions,
        steps: &mut Steps<OneRun>,
    ) -> Result<Found, NoMemory>
        requires goes_on { TakesStep added.now assumed.now self.old step }
        requires seen { AreTrueTo self.old.propagator.trail.steps.items assumed.now cursors.old.assumed }
        requires none_empty { Contains added.now [] → ⊥ }
        ensures engine { IsEngine added.now self.new }
        ensures longer { IsLonger self.old self.new }
        ensures found { IfOk result (IsFound added.now assumed.now self.new) }
        ensures seen { AreTrueTo self.new.propagator.trail.steps.items assumed.now cursors.new.assumed }
        ensures weight { IfOk result (λ found. found_weight self.new found < step_weight self.old step) }
    {
        self.phases[step.lit.var] = step.lit.positive;
        match self.propagator.propagate(step, steps) {
            Propagation::Quiet => self.advance(alloc, added, assumed, cursors, decisions),
            Propagation::Conflict(clause) => {
                cursors.back();
                let reason = self.propagator.references[clause];
                self.learn(alloc, added, assumed, reason)
            }
        }
    }

    /// Searches for a model of the added clauses and the assumptions.
    pub fn search<'a>(
        &mut self,
        alloc: Global,
        added: &'a [Clause],
        assumed: &'a [Lit],
        decisions: &mut Decisions,
    ) -> Result<Answer, NoMemory>
        requires engine { IsEngine added.now self.old }
        requires rest { IsEngineAtRest self.old }
        requires assumed { AllWithin self.old.propagator.links.vars (map unit_clause assumed.now) }
        requires none_empty { Contains added.now [] → ⊥ }
        ensures engine { IsEngine added.now self.new }
        ensures longer { IsLonger self.old self.new }
        ensures answers { IfOk result (IsAnswer self.new.propagator.links.vars added.now self.new.learnt.clauses.items
            assumed.now) }
    {
        self.propagator.links.lists_are_exact();
        let mut steps = Steps::start();
        let mut cursors = Cursors::start();
        let mut found = self.advance(alloc, added, assumed, &mut cursors, decisions)?;
        loop {
            match found {
                Found::Next(step) => {
                    found = self.follow(
                        alloc,
                        added,
                        assumed,
                        step,
                        &mut cursors,
                        decisions,
                        &mut steps,
                    )?;
                }
                Found::Answered(answer) => return Ok(answer),
            }
        }
    }

    /// A model of the added clauses and the assumptions, or the derivation of the empty clause, which is an added one
    /// where `empty` names it.
    pub fn answer<'a>(
        &mut self,
        alloc: Global,
        added: &'a [Clause],
        empty: Option<usize>,
        assumed: &'a [Lit],
        decisions: &mut Decisions,
    ) -> Result<Answer, NoMemory>
        requires solver { IsSolver added.now empty self.old }
        requires rest { IsEngineAtRest self.old }
        requires assumed { AllWithin self.old.propagator.links.vars (map unit_clause assumed.now) }
        ensures solver { IsSolver added.now empty self.new }
        ensures longer { IsLonger self.old self.new }
        ensures answers { IfOk result (IsAnswer self.new.propagator.links.vars added.now self.new.learnt.clauses.items
            assumed.now) }
    {
        match empty {
            Some(index) => Ok(Answer::Unsat(Derivation {
                first: ClauseRef::Added(index),
                rest: Vec::new(alloc),
            })),
            None => self.search(alloc, added, assumed, decisions),
        }
    }
}
