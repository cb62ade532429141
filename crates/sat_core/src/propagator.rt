//! Propagation: `Propagator::propagate` makes one literal true and looks at the clauses that watch its
//! opposite. A literal that a clause then forces waits until it is made true itself.
//!
//! It may touch the watch lists, the trail, the literals that wait, and the counter that it is lent. It
//! takes no memory.

ghost use Rattle.std.specs.Prelude.{◌≡◌, ◌≢◌, ◌<◌, ◌≤◌, ◌+◌, ◌-◌, ◌∷◌, ◌++◌, ◌⊎◌, [], None, Some, false, length, take};
ghost use Rattle.std.specs.Prelude.{IsTrue, IfSome, OnOk, OnErr, Contains, All, slice_get, slice_index_or};
ghost use Rattle.cnf.specs.declared.lit.Lit.{Lit};
ghost use Rattle.cnf.specs.Clauses.{opposite};
ghost use Rattle.clause_links.specs.WatchLists.{AreExact, Watches, watchers, clause_lits};
ghost use Rattle.sat_core.specs.Search.{MadeTrue, IsTrail};
ghost use Rattle.sat_core.specs.Learning.{OthersFalse};
ghost use Rattle.sat_core.specs.Watching.{IsPropagator, IsConflicting, NoConflict, Propagates, Examines, CanWatch};
ghost use Rattle.sat_core.specs.Watching.{IsWrong, IsVisiting, left_from};

use crate::clause_ref::ClauseRef;
use crate::room::push_within;
use crate::trail::{Step, Trail};
use clause_links::ClauseLinks;
use cnf::Lit;
use port_types::{NoMemory, StepLedger, Steps};
use std::alloc::Global;

/// How a propagation ends.
#[derive(Clone, Copy, Debug, PartialEq, Eq)]
pub enum Propagation {
    /// No kept clause has all its literals false.
    Quiet,
    /// The kept clause of this number has all its literals false.
    Conflict(usize),
}

/// What a clause says that watches a literal that is now false.
#[derive(Clone, Copy, Debug)]
pub enum Examined {
    /// The other literal that it watches is true.
    Satisfied,
    /// It can watch this literal, which isn't false.
    Movable(Lit),
    /// All its literals are false but this one, which has no value.
    Forcing(Lit),
    /// All its literals are false.
    Falsified,
}

/// Where a walk along a list stands: behind one clause, at another.
#[derive(Clone, Copy, Debug)]
pub struct Walk {
    pub before: Option<usize>,
    pub at: Option<usize>,
}

/// The watch lists with the trail, and the literals that were forced and wait to be made true.
///
/// `references` says of each clause of the lists where it stands.
#[derive(Debug, Drop)]
pub struct Propagator {
    pub links: ClauseLinks,
    pub references: Vec<ClauseRef>,
    pub trail: Trail,
    pub waiting: Trail,
}

/// A literal of the clause beside `other` that isn't false.
pub fn replacement(lits: &[Lit], other: Lit, trail: &Trail) -> Option<Lit>
    requires trail { IsTrail trail.now.steps.items trail.now.places.items }
    requires known { All (λ lit. lit.var < length trail.now.places.items) lits.now }
    ensures some { IfSome result (λ lit. Contains lits.now lit × (lit ≢ other)
        × (MadeTrue trail.now.steps.items (length trail.now.steps.items) (opposite lit) → ⊥)) }
    ensures none { result ≡ None → OthersFalse trail.now.steps.items (length trail.now.steps.items) lits.now other }
{
    for lit in lits {
        if can_replace(*lit, other, trail) {
            return Some(*lit);
        }
    }
    None
}

/// Whether a literal is another than `other` and isn't false.
fn can_replace(lit: Lit, other: Lit, trail: &Trail) -> bool
    requires trail { IsTrail trail.now.steps.items trail.now.places.items }
    requires known { lit.var < length trail.now.places.items }
    ensures yes { IsTrue result → (lit ≢ other)
        × (MadeTrue trail.now.steps.items (length trail.now.steps.items) (opposite lit) → ⊥) }
    ensures no { result ≡ false → (lit ≡ other)
        ⊎ MadeTrue trail.now.steps.items (length trail.now.steps.items) (opposite lit) }
{
    if lit.same(other) {
        false
    } else {
        !trail.is_false(lit)
    }
}

/// Looks at a clause that watches a literal that is now false.
pub fn examine<L: StepLedger>(
    links: &ClauseLinks,
    trail: &Trail,
    clause: usize,
    watch: Lit,
    steps: &mut Steps<L>,
) -> Examined
    requires trail { IsTrail trail.now.steps.items trail.now.places.items }
    requires vars { length trail.now.places.items ≡ links.now.vars }
    requires exact { AreExact links.now }
    requires watched { Watches links.now clause watch }
    requires wrong { MadeTrue trail.now.steps.items (length trail.now.steps.items) (opposite watch) }
    ensures examined { Examines links.now trail.now.steps.items trail.now.places.items clause watch result }
    ensures steps { steps.new ≤ steps.old + 1 }
{
    let other = links.other_watch(clause, watch);
    match trail.value(other) {
        Some(true) => Examined::Satisfied,
        Some(false) => match replacement(links.lits(clause, steps), other, trail) {
            Some(lit) => Examined::Movable(lit),
            None => Examined::Falsified,
        },
        None => match replacement(links.lits(clause, steps), other, trail) {
            Some(lit) => Examined::Movable(lit),
            None => Examined::Forcing(other),
        },
    }
}

impl Propagator {
    /// No variables and no clauses.
    pub fn new(alloc: Global) -> Propagator
        ensures steps { result.trail.steps.items ≡ [] }
        ensures places { result.trail.places.items ≡ [] }
        ensures queue { result.waiting.steps.items ≡ [] }
        ensures queue_places { result.waiting.places.items ≡ [] }
        ensures references { result.references.items ≡ [] }
        ensures vars { result.links.vars ≡ 0 }
        ensures clauses { result.links.clauses ≡ [] }
    {
        Propagator {
            links: ClauseLinks::new(alloc),
            references: Vec::new(alloc),
            trail: Trail::new(alloc),
            waiting: Trail::new(alloc),
        }
    }

    /// One more variable.
    pub fn add_var(&mut self) -> Result<(), NoMemory>
        requires trail { IsTrail self.old.trail.steps.items self.old.trail.places.items }
        requires queue { IsTrail self.old.waiting.steps.items self.old.waiting.places.items }
        requires vars { length self.old.trail.places.items ≡ self.old.links.vars }
        requires queue_vars { length self.old.waiting.places.items ≡ self.old.links.vars }
        ensures trail { IsTrail self.new.trail.steps.items self.new.trail.places.items }
        ensures queue { IsTrail self.new.waiting.steps.items self.new.waiting.places.items }
        ensures vars { length self.new.trail.places.items ≡ self.new.links.vars }
        ensures queue_vars { length self.new.waiting.places.items ≡ self.new.links.vars }
        ensures steps { self.new.trail.steps.items ≡ self.old.trail.steps.items }
        ensures waiting { self.new.waiting.steps.items ≡ self.old.waiting.steps.items }
        ensures clauses { self.new.links.clauses ≡ self.old.links.clauses }
        ensures references { self.new.references.items ≡ self.old.references.items }
        ensures ok { OnOk result (self.new.links.vars ≡ self.old.links.vars + 1) }
        ensures err { OnErr result (self.new.links.vars ≡ self.old.links.vars) }
    {
        self.trail.reserve_var()?;
        self.waiting.reserve_var()?;
        self.links.add_vars(1)?;
        self.trail.add_var();
        self.waiting.add_var();
        Ok(())
    }

    /// Takes back all but the first `keep` literals made true, and all that wait.
    pub fn back(&mut self, keep: usize)
        requires trail { IsTrail self.old.trail.steps.items self.old.trail.places.items }
        requires queue { IsTrail self.old.waiting.steps.items self.old.waiting.places.items }
        ensures trail { IsTrail self.new.trail.steps.items self.new.trail.places.items }
        ensures queue { IsTrail self.new.waiting.steps.items self.new.waiting.places.items }
        ensures vars { length self.new.trail.places.items ≡ length self.old.trail.places.items }
        ensures queue_vars { length self.new.waiting.places.items ≡ length self.old.waiting.places.items }
        ensures steps { self.new.trail.steps.items ≡ take keep self.old.trail.steps.items }
        ensures waiting { self.new.waiting.steps.items ≡ [] }
        ensures links { self.new.links ≡ self.old.links }
        ensures references { self.new.references.items ≡ self.old.references.items }
    {
        self.trail.backtrack(keep);
        self.waiting.backtrack(0);
    }

    /// Puts a clause into the watch lists, with its reference.
    pub fn add_clause(&mut self, lits: &[Lit], reference: ClauseRef) -> Result<(), NoMemory>
        requires state { IsPropagator self.old.links self.old.references.items
            self.old.trail.steps.items self.old.trail.places.items
            self.old.waiting.steps.items self.old.waiting.places.items (length self.old.trail.steps.items) }
        requires quiet { NoConflict self.old.links self.old.trail.steps.items }
        requires known { All (λ lit. lit.var < self.old.links.vars) lits.now }
        requires watch { CanWatch self.old.trail.steps.items lits.now }
        ensures state { IsPropagator self.new.links self.new.references.items
            self.new.trail.steps.items self.new.trail.places.items
            self.new.waiting.steps.items self.new.waiting.places.items (length self.new.trail.steps.items) }
        ensures quiet { NoConflict self.new.links self.new.trail.steps.items }
        ensures trail { self.new.trail ≡ self.old.trail }
        ensures waiting { self.new.waiting ≡ self.old.waiting }
        ensures vars { self.new.links.vars ≡ self.old.links.vars }
        ensures clauses { OnOk result (self.new.links.clauses ≡ self.old.links.clauses ++ lits.now ∷ []) }
        ensures references { OnOk result (self.new.references.items ≡ self.old.references.items ++ reference ∷ []) }
        ensures err_clauses { OnErr result (self.new.links.clauses ≡ self.old.links.clauses) }
        ensures err_references { OnErr result (self.new.references.items ≡ self.old.references.items) }
    {
        self.references.reserve(1)?;
        self.links.lists_are_exact();
        let _ = self.links.add_clause(lits)?;
        self.links.lists_are_exact();
        push_within(&mut self.references, reference);
        Ok(())
    }

    /// Lets a literal wait that a clause forces, if none of its variable waits.
    fn wait(&mut self, lit: Lit, clause: usize)
        requires queue { IsTrail self.old.waiting.steps.items self.old.waiting.places.items }
        requires var { lit.var < length self.old.waiting.places.items }
        requires clause { clause < length self.old.references.items }
        ensures queue { IsTrail self.new.waiting.steps.items self.new.waiting.places.items }
        ensures vars { length self.new.waiting.places.items ≡ length self.old.waiting.places.items }
        ensures waits { (self.new.waiting.steps.items ≡ self.old.waiting.steps.items)
            ⊎ ((reason : _) × (slice_get self.old.references.items clause ≡ Some reason)
            × (self.new.waiting.steps.items
            ≡ self.old.waiting.steps.items ++ record { lit = lit; reason = Some reason } ∷ [])) }
        ensures links { self.new.links ≡ self.old.links }
        ensures references { self.new.references.items ≡ self.old.references.items }
        ensures trail { self.new.trail ≡ self.old.trail }
    {
        if self.waiting.is_free(lit.var) {
            let reason = Some(self.references[clause]);
            self.waiting.push(Step { lit, reason });
        }
    }

    /// Looks at a clause in the list of a literal that was made false, behind another, and finds where the walk
    /// goes on; nowhere if the clause has all its literals false.
    fn visit<L: StepLedger>(
        &mut self,
        watch: Lit,
        before: Option<usize>,
        clause: usize,
        steps: &mut Steps<L>,
    ) -> Option<Walk>
        requires state { IsPropagator self.old.links self.old.references.items
            self.old.trail.steps.items self.old.trail.places.items
            self.old.waiting.steps.items self.old.waiting.places.items (length self.old.trail.steps.items - 1) }
        requires wrong { IsWrong self.old.trail.steps.items watch }
        requires visiting { IsVisiting self.old.links self.old.trail.steps.items watch before (Some clause) }
        ensures state { IsPropagator self.new.links self.new.references.items
            self.new.trail.steps.items self.new.trail.places.items
            self.new.waiting.steps.items self.new.waiting.places.items (length self.new.trail.steps.items - 1) }
        ensures trail { self.new.trail ≡ self.old.trail }
        ensures references { self.new.references.items ≡ self.old.references.items }
        ensures clauses { self.new.links.clauses ≡ self.old.links.clauses }
        ensures vars { self.new.links.vars ≡ self.old.links.vars }
        ensures visiting { IfSome result (λ walk.
            IsVisiting self.new.links self.old.trail.steps.items watch walk.before walk.at) }
        ensures shorter { IfSome result (λ walk.
            left_from self.new.links watch walk.at + 1 ≡ left_from self.old.links watch (Some clause)) }
        ensures conflict { result ≡ None → (clause < length self.new.links.clauses)
            × IsConflicting self.new.links self.old.trail.steps.items clause }
        ensures steps { steps.new ≤ steps.old + 1 }
    {
        self.links.lists_are_exact();
        let at = self.links.next(clause, watch);
        match examine(&self.links, &self.trail, clause, watch, steps) {
            Examined::Satisfied => Some(Walk {
                before: Some(clause),
                at,
            }),
            Examined::Movable(lit) => {
                self.links.move_watch(before, clause, watch, lit);
                self.links.lists_are_exact();
                Some(Walk { before, at })
            }
            Examined::Forcing(lit) => {
                self.wait(lit, clause);
                Some(Walk {
                    before: Some(clause),
                    at,
                })
            }
            Examined::Falsified => None,
        }
    }

    /// Makes a literal true, and finds whether a clause then has all its literals false.
    pub fn propagate<L: StepLedger>(&mut self, step: Step, steps: &mut Steps<L>) -> Propagation
        requires state { IsPropagator self.old.links self.old.references.items
            self.old.trail.steps.items self.old.trail.places.items
            self.old.waiting.steps.items self.old.waiting.places.items (length self.old.trail.steps.items) }
        requires quiet { NoConflict self.old.links self.old.trail.steps.items }
        requires var { step.lit.var < self.old.links.vars }
        requires free { slice_index_or self.old.trail.places.items step.lit.var None ≡ None }
        ensures state { IsPropagator self.new.links self.new.references.items
            self.new.trail.steps.items self.new.trail.places.items
            self.new.waiting.steps.items self.new.waiting.places.items (length self.old.trail.steps.items) }
        ensures trail { self.new.trail.steps.items ≡ self.old.trail.steps.items ++ step ∷ [] }
        ensures ends { Propagates self.new.links self.new.trail.steps.items result }
        ensures clauses { self.new.links.clauses ≡ self.old.links.clauses }
        ensures vars { self.new.links.vars ≡ self.old.links.vars }
        ensures references { self.new.references.items ≡ self.old.references.items }
        ensures steps { steps.new ≤ steps.old + length (watchers self.old.links (opposite step.lit)) }
    {
        self.trail.push(step);
        self.links.lists_are_exact();
        let watch = step.lit.negated();
        let mut walk = Walk {
            before: None,
            at: self.links.head(watch),
        };
        while let Some(clause) = walk.at {
            match self.visit(watch, walk.before, clause, steps) {
                Some(next) => walk = next,
                None => return Propagation::Conflict(clause),
            }
        }
        self.links.lists_are_exact();
        Propagation::Quiet
    }
}
