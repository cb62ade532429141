//! The solver: `Solver::solve` under assumptions, `Solver::propagate` one literal at a time. What a call
//! learns serves the later ones.
//!
//! It may touch all that the solver keeps but the clauses that were added.

ghost use Rattle.std.specs.Prelude.{◌≡◌, ◌<◌, ◌≤◌, ◌+◌, ◌∷◌, ◌++◌, [], length, map, IfOk, OnOk, OnErr, All, Contains};
ghost use Rattle.cnf.specs.Clauses.{opposite, IsModel, HasNoModel};
ghost use Rattle.clause_log.specs.Derivations.{Derives};
ghost use Rattle.clause_links.specs.WatchLists.{watchers};
ghost use Rattle.sat_core.specs.Search.{unit_clause};

use crate::clause_ref::ClauseRef;
use crate::decisions::Decisions;
use crate::engine::Engine;
use crate::log::render;
use crate::opposites::units_log;
use crate::outcome::Outcome;
use crate::propagator::Propagation;
use crate::room::push_within;
use crate::search::Answer;
use crate::trail::Step;
use clause_log::derivations_refute;
use cnf::{Clause, ClauseBase, Lit};
use port_types::{NoMemory, StepLedger, Steps};
use std::alloc::Global;
use std::marker::Model;

/// Clauses that are solved under changing assumptions. What a call learns serves the later ones.
///
/// Contracts see the number of variables, the clauses that were added, the kept clauses in their watch
/// lists, and the literals that were made true. A kept clause is an added or learnt one with two
/// literals or more, without repeats, and not with a literal and its opposite.
#[derive(Debug, Drop)]
pub struct Solver {
    added: Vec<Clause>,
    empty: Option<usize>,
    engine: Engine,
    decisions: Decisions,
}

impl Model for Solver {
    ghost use Rattle.std.specs.Prelude.{map};
    ghost use Rattle.sat_core.specs.Solving.{Solving};

    ghost Value = { Solving };

    ghost use Rattle.sat_core.specs.Engines.{IsSolver};

    ghost view = { λ s. record {
      vars = s.engine.propagator.links.vars;
      clauses = s.added.items;
      kept = s.engine.propagator.links;
      true_lits = map (λ step. step.lit) s.engine.propagator.trail.steps.items;
    } };

    ghost invariant = { λ s. IsSolver s.added.items s.empty s.engine };
}

impl Solver {
    ghost use Rattle.sat_core.specs.Outcomes.{IfSat, IfUnsat, IsUnsat, HasOpposites, IsOfUnits};
    ghost use Rattle.sat_core.specs.Solving.{HasConflict, EndsPropagation, FollowFrom};

    /// No variables and no clauses.
    pub fn new(alloc: Global) -> Solver
        ensures vars { result.vars ≡ 0 }
        ensures clauses { result.clauses ≡ [] }
        ensures kept { result.kept.clauses ≡ [] }
        ensures none_true { result.true_lits ≡ [] }
    {
        Solver {
            added: Vec::new(alloc),
            empty: None,
            engine: Engine::new(alloc),
            decisions: Decisions::new(alloc),
        }
    }

    /// A model of the clauses and the assumptions, or a log that derives the empty clause from the
    /// clauses followed by a unit clause for each assumption.
    ///
    /// Of opposite assumptions the log has the two unit clauses alone.
    pub fn solve(&mut self, assumptions: &[Lit]) -> Result<Outcome, NoMemory>
        requires { All (λ lit. lit.var < self.old.vars) assumptions.now }
        ensures sat { IfOk result (λ outcome. IfSat outcome
            (IsModel self.old.vars (self.old.clauses ++ map unit_clause assumptions.now))) }
        ensures unsat { IfOk result (λ outcome. IfUnsat outcome
            (λ _. HasNoModel self.old.vars (self.old.clauses ++ map unit_clause assumptions.now))) }
        ensures log { IfOk result (λ outcome. IfUnsat outcome
            (Derives (self.old.clauses ++ map unit_clause assumptions.now))) }
        ensures opposite { HasOpposites assumptions.now
            → IfOk result (λ outcome. IsUnsat outcome (IsOfUnits (length self.old.clauses) assumptions.now)) }
        ensures vars { self.new.vars ≡ self.old.vars }
        ensures clauses { self.new.clauses ≡ self.old.clauses }
        ensures none_true { self.new.true_lits ≡ [] }
        ensures quiet { HasConflict self.new.kept self.new.true_lits → ⊥ }
        ensures learnt { FollowFrom self.old.vars self.old.clauses self.old.kept self.new.kept }
    {
        derivations_refute(); // a law: no code runs
        match self.engine.clash(assumptions) {
            Some((index, other)) => {
                let alloc = *self.added.allocator();
                let added = self.added.as_slice();
                Ok(Outcome::Unsat(units_log(alloc, added, assumptions, index, other)?))
            }
            None => {
                let outcome = self.decide(assumptions);
                self.engine.reset();
                outcome
            }
        }
    }

    // `solve` by a search.
    fn decide(&mut self, assumptions: &[Lit]) -> Result<Outcome, NoMemory>
        requires known { All (λ lit. lit.var < self.old.vars) assumptions.now }
        ensures sat { IfOk result (λ outcome. IfSat outcome
            (IsModel self.old.vars (self.old.clauses ++ map unit_clause assumptions.now))) }
        ensures log { IfOk result (λ outcome. IfUnsat outcome
            (Derives (self.old.clauses ++ map unit_clause assumptions.now))) }
        ensures vars { self.new.vars ≡ self.old.vars }
        ensures clauses { self.new.clauses ≡ self.old.clauses }
        ensures learnt { FollowFrom self.old.vars self.old.clauses self.old.kept self.new.kept }
    {
        self.engine.reset();
        self.decisions.widen(self.engine.phases.len());
        let alloc = *self.added.allocator();
        let added = self.added.as_slice();
        let answer = self
            .engine
            .answer(alloc, added, self.empty, assumptions, &mut self.decisions)?;
        match answer {
            Answer::Sat(model) => Ok(Outcome::Sat(model)),
            Answer::Unsat(last) => {
                let log = render(
                    alloc,
                    self.added.as_slice(),
                    assumptions,
                    self.engine.learnt.clauses.as_slice(),
                    self.engine.learnt.derivations.as_slice(),
                    &last,
                )?;
                Ok(Outcome::Unsat(log))
            }
        }
    }

    /// Makes a literal true, and no other one. What a clause then forces waits in the solver until it is
    /// made true itself.
    ///
    /// Takes no memory, and at most one step of the counter for each clause that watches the opposite of
    /// the literal.
    pub fn propagate<L: StepLedger>(&mut self, lit: Lit, steps: &mut Steps<L>) -> Propagation
        requires var { lit.var < self.old.vars }
        requires not_true { Contains self.old.true_lits lit → ⊥ }
        requires not_false { Contains self.old.true_lits (opposite lit) → ⊥ }
        requires quiet { HasConflict self.old.kept self.old.true_lits → ⊥ }
        ensures made { self.new.true_lits ≡ self.old.true_lits ++ lit ∷ [] }
        ensures ends { EndsPropagation self.new.kept self.new.true_lits result }
        ensures vars { self.new.vars ≡ self.old.vars }
        ensures clauses { self.new.clauses ≡ self.old.clauses }
        ensures kept { self.new.kept.clauses ≡ self.old.kept.clauses }
        ensures steps { steps.new ≤ steps.old + length (watchers self.old.kept (opposite lit)) }
    {
        self.engine
            .propagator
            .propagate(Step { lit, reason: None }, steps)
    }
}

impl ClauseBase for Solver {
    ghost use Rattle.sat_core.specs.Solving.{HasConflict, IsKeptWith};

    ghost vars = { λ s. s.vars };

    ghost clauses = { λ s. s.clauses };

    fn vars(&self) -> usize {
        self.engine.phases.len()
    }

    fn new_var(&mut self) -> Result<usize, NoMemory>
        ensures number { IfOk result (λ var. var ≡ self.old.vars) }
        ensures ok { OnOk result (self.new.vars ≡ self.old.vars + 1) }
        ensures err { OnErr result (self.new.vars ≡ self.old.vars) }
        ensures clauses { self.new.clauses ≡ self.old.clauses }
        ensures kept { self.new.kept.clauses ≡ self.old.kept.clauses }
        ensures none_true { self.new.true_lits ≡ [] }
        ensures quiet { HasConflict self.new.kept self.new.true_lits → ⊥ }
    {
        self.engine.reset();
        let var = self.engine.phases.len();
        self.engine.add_var()?;
        Ok(var)
    }

    fn add(&mut self, lits: &[Lit]) -> Result<(), NoMemory>
        requires known { All (λ lit. lit.var < self.old.vars) lits.now }
        ensures ok { OnOk result (self.new.clauses ≡ self.old.clauses ++ lits.now ∷ []) }
        ensures err { OnErr result (self.new.clauses ≡ self.old.clauses) }
        ensures vars { self.new.vars ≡ self.old.vars }
        ensures kept { OnOk result (IsKeptWith self.old.kept.clauses self.new.kept.clauses lits.now) }
        ensures err_kept { OnErr result (self.new.kept.clauses ≡ self.old.kept.clauses) }
        ensures none_true { self.new.true_lits ≡ [] }
        ensures quiet { HasConflict self.new.kept self.new.true_lits → ⊥ }
    {
        self.engine.reset();
        let alloc = *self.added.allocator();
        let clause = Clause::from_slice(alloc, lits)?;
        self.added.reserve(1)?;
        let index = self.added.len();
        if self.engine.add(alloc, lits, ClauseRef::Added(index))? {
            self.empty = Some(index);
        }
        push_within(&mut self.added, clause);
        Ok(())
    }
}
