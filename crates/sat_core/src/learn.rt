//! Learning: `Engine::learn` analyses a conflict, keeps the clause that it learns, and goes back to where
//! that clause forces a literal.
//!
//! It may touch the trail, the literals that wait, the watch lists, the units and the learnt clauses.

ghost use Rattle.std.specs.Prelude.{◌≡◌, ◌<◌, ◌∷◌, ◌++◌, List, [], None, length, All, IfOk, OnOk, slice_index_or};
ghost use Rattle.cnf.specs.declared.lit.Lit.{Lit};
ghost use Rattle.sat_core.specs.declared.clause_ref.ClauseRef.TheVariants.{Learnt};
ghost use Rattle.sat_core.specs.Search.{clause_lists, IsDerivation, trail_weight};
ghost use Rattle.sat_core.specs.Learning.{IsFalseClause, IsWatchOrder};
ghost use Rattle.sat_core.specs.Watching.{NoConflict};
ghost use Rattle.sat_core.specs.Engines.{IsEngine, IsSearching, IsFound, IsLonger, Keeps, Propagated, found_weight};

use crate::analyse::{LearntClause, analyse};
use crate::chain::Derivation;
use crate::clause_ref::{ClauseRef, Database};
use crate::engine::Engine;
use crate::order::watch_order;
use crate::search::{Answer, Found};
use crate::trail::Step;
use cnf::{Clause, Lit};
use port_types::NoMemory;
use std::alloc::Global;

impl Engine {
    /// Learns from a clause whose literals are all false, and goes back.
    ///
    /// Finds the literal that the learnt clause forces there, or that the empty clause was learnt.
    pub fn learn<'a>(
        &mut self,
        alloc: Global,
        added: &'a [Clause],
        assumed: &'a [Lit],
        reason: ClauseRef,
    ) -> Result<Found, NoMemory>
        requires search { IsSearching added.now assumed.now self.old }
        requires false_ { IsFalseClause (clause_lists added.now self.old.learnt.clauses.items assumed.now)
            self.old.propagator.trail.steps.items reason }
        ensures engine { IsEngine added.now self.new }
        ensures longer { IsLonger self.old self.new }
        ensures found { IfOk result (IsFound added.now assumed.now self.new) }
        ensures weight { IfOk result (λ found. found_weight self.new found
            < trail_weight self.old.propagator.trail.steps.items self.old.propagator.trail.places.items) }
    {
        let database = Database {
            added,
            learnt: self.learnt.clauses.as_slice(),
            assumed,
        };
        let LearntClause {
            lits,
            derivation,
            backjump,
        } = analyse(
            alloc,
            database,
            &self.propagator.trail,
            &mut self.propagator.waiting,
            reason,
        )?;
        match backjump {
            None => Ok(Found::Answered(Answer::Unsat(derivation))),
            Some(backjump) => {
                self.propagator.back(backjump.keep);
                let order = watch_order(alloc, &lits, backjump.lit, &self.propagator.trail)?;
                let reason = self.keep(order.as_slice(), derivation, backjump.lit)?;
                Ok(Found::Next(Step {
                    lit: backjump.lit,
                    reason: Some(reason),
                }))
            }
        }
    }

    /// Keeps a learnt clause that forces its first literal, and answers its reference.
    fn keep(
        &mut self,
        lits: &[Lit],
        derivation: Derivation,
        forced: Lit,
    ) -> Result<ClauseRef, NoMemory>
        requires state { Propagated self.old (length self.old.propagator.trail.steps.items) }
        requires quiet { NoConflict self.old.propagator.links self.old.propagator.trail.steps.items }
        requires free { slice_index_or self.old.propagator.trail.places.items forced.var None ≡ None }
        requires order { IsWatchOrder self.old.propagator.trail.steps.items forced lits.now }
        requires known { All (λ lit. lit.var < self.old.propagator.links.vars) lits.now }
        ensures state { Propagated self.new (length self.new.propagator.trail.steps.items) }
        ensures quiet { NoConflict self.new.propagator.links self.new.propagator.trail.steps.items }
        ensures trail { self.new.propagator.trail ≡ self.old.propagator.trail }
        ensures phases { self.new.phases ≡ self.old.phases }
        ensures keeps { (added : List (List Lit)) → Keeps added self.old
            → IsDerivation (clause_lists added self.old.learnt.clauses.items [])
            derivation.first derivation.rest.items lits.now
            → Keeps added self.new }
        ensures learnt { OnOk result (self.new.learnt.clauses.items ≡ self.old.learnt.clauses.items ++ lits.now ∷ []) }
        ensures reason { IfOk result (λ reason. reason ≡ Learnt (length self.old.learnt.clauses.items)) }
        ensures longer { IsLonger self.old self.new }
    {
        let number = self.learnt.clauses.len();
        let reason = ClauseRef::Learnt(number);
        self.learnt.push(lits, derivation)?;
        if lits.len() == 1 {
            self.units.push(forced, reason)?;
        } else {
            self.propagator.add_clause(lits, reason)?;
        }
        Ok(reason)
    }
}
