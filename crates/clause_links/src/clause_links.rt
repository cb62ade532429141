//! `ClauseLinks` and its calls.

ghost use Rattle.std.specs.Prelude.{◌≡◌, ◌≢◌, ◌<◌, ◌≤◌, ◌+◌, ◌∷◌, ◌++◌, ◌↔◌, ℕ, List, [], None, Some, length};
ghost use Rattle.std.specs.Prelude.{IsTrue, IfOk, OnOk, OnErr, All, Contains, slice_get};
ghost use Rattle.port_types.specs.Counts.{next_count};
ghost use Rattle.cnf.specs.declared.lit.Lit.{Lit};

use crate::records::{Heads, Record, head_of, move_between, new_record, next_of, set_heads};
use cnf::Lit;
use port_types::{NoMemory, StepLedger, Steps};
use std::alloc::Global;
use std::marker::Model;

/// Clauses over variables, each of which watches two of its literals; and for each literal the list
/// of the clauses that watch it, linked by index.
#[derive(Debug, Drop)]
pub struct ClauseLinks {
    records: Vec<Record>,
    heads: Vec<Heads>,
}

impl Model for ClauseLinks {
    ghost use Rattle.clause_links.specs.WatchLists.{WatchLists};

    ghost Value = { WatchLists };

    ghost use Rattle.clause_links.specs.Records.{watch_lists, AreLinked};

    ghost view = { λ s. watch_lists s.records.items s.heads.items };

    ghost invariant = { λ s. AreLinked s.records.items s.heads.items };
}

impl ClauseLinks {
    ghost use Rattle.clause_links.specs.WatchLists.{WatchLists, AreExact, Watches, WatchesBoth, IsRewatched};
    ghost use Rattle.clause_links.specs.WatchLists.{IsWatchedFirst, Precedes, watchers, clause_lits};

    /// No variables and no clauses.
    pub fn new(alloc: Global) -> ClauseLinks
        ensures vars { result.vars ≡ 0 }
        ensures clauses { result.clauses ≡ [] }
    {
        ClauseLinks {
            records: Vec::new(alloc),
            heads: Vec::new(alloc),
        }
    }

    /// The number of variables.
    pub fn vars(&self) -> usize
        ensures { result ≡ self.now.vars }
    {
        self.heads.len()
    }

    /// The number of clauses.
    pub fn len(&self) -> usize
        ensures { result ≡ length self.now.clauses }
    {
        self.records.len()
    }

    /// Whether there are no clauses.
    pub fn is_empty(&self) -> bool
        ensures { IsTrue result ↔ (self.now.clauses ≡ []) }
    {
        self.records.is_empty()
    }

    /// The list of each literal holds exactly the clauses that watch it, each once.
    pub fn lists_are_exact(&self)
        ensures { AreExact self.now }
    {
        let _opened = &self.records;
    }

    /// So many more variables, which no clause has yet.
    ///
    /// Answers `NoMemory` too where no number is left for a variable.
    pub fn add_vars(&mut self, n: usize) -> Result<(), NoMemory>
        ensures vars { OnOk result (self.new.vars ≡ self.old.vars + n) }
        ensures clauses { self.new.clauses ≡ self.old.clauses }
        ensures pairs { self.new.pairs ≡ self.old.pairs }
        ensures lists { (lit : Lit) → watchers self.new lit ≡ watchers self.old lit }
        ensures err { OnErr result (self.new ≡ self.old) }
    {
        let Some(vars) = self.heads.len().checked_add(n) else {
            return Err(NoMemory);
        };
        let none = Heads {
            positive: None,
            negative: None,
        };
        self.heads.resize(vars, none)?;
        Ok(())
    }

    /// Puts a clause at the end of the clauses, and answers its number. It watches its first two
    /// literals, and stands at the head of their lists.
    pub fn add_clause(&mut self, lits: &[Lit]) -> Result<usize, NoMemory>
        requires two { 2 ≤ length lits.now }
        requires apart { slice_get lits.now 0 ≢ slice_get lits.now 1 }
        requires known { All (λ lit. lit.var < self.old.vars) lits.now }
        ensures number { IfOk result (λ clause. clause ≡ length self.old.clauses) }
        ensures clauses { OnOk result (self.new.clauses ≡ self.old.clauses ++ lits.now ∷ []) }
        ensures watched { (a b : Lit) → slice_get lits.now 0 ≡ Some a → slice_get lits.now 1 ≡ Some b
            → OnOk result (IsWatchedFirst self.old self.new (length self.old.clauses) a b) }
        ensures vars { self.new.vars ≡ self.old.vars }
        ensures err { OnErr result (self.new ≡ self.old) }
    {
        let number = self.records.len();
        let added = new_record(*self.records.allocator(), &self.heads, lits)?;
        self.records.push(added)?;
        set_heads(&mut self.heads, lits, number);
        Ok(number)
    }

    /// The first clause in the list of a literal.
    pub fn head(&self, lit: Lit) -> Option<usize>
        ensures first { result ≡ slice_get (watchers self.now lit) 0 }
        ensures none { (result ≡ None) ↔ ((clause : ℕ) → Watches self.now clause lit → ⊥) }
    {
        head_of(&self.heads, lit)
    }

    /// The clause behind one in the list of a literal.
    pub fn next(&self, clause: usize, lit: Lit) -> Option<usize>
        requires { Watches self.now clause lit }
        ensures behind { (front back : List ℕ) → watchers self.now lit ≡ front ++ clause ∷ back
            → result ≡ slice_get back 0 }
        ensures last { (result ≡ None) ↔ ((front : List ℕ) × (watchers self.now lit ≡ front ++ clause ∷ [])) }
    {
        next_of(&self.records[clause], lit)
    }

    /// The literal that a clause watches beside one that it watches.
    pub fn other_watch(&self, clause: usize, lit: Lit) -> Lit
        requires { Watches self.now clause lit }
        ensures { WatchesBoth self.now clause lit result }
    {
        let own = &self.records[clause];
        if own.first.lit.same(lit) {
            own.second.lit
        } else {
            own.first.lit
        }
    }

    /// The literals of a clause, in the order in which they were added. This takes one step.
    pub fn lits<L: StepLedger>(&self, clause: usize, steps: &mut Steps<L>) -> &[Lit]
        requires { clause < length self.now.clauses }
        ensures lits { result.now ≡ clause_lits self.now clause }
        ensures step { steps.new ≡ next_count steps.old }
    {
        steps.tick();
        self.records[clause].clause.as_slice()
    }

    /// Lets a clause watch another of its literals in place of one, with `before` the number before
    /// the clause in the list of `from`. The clause goes to the head of the list of `to`.
    pub fn move_watch(&mut self, before: Option<usize>, clause: usize, from: Lit, to: Lit)
        requires watched { Watches self.old clause from }
        requires unwatched { Watches self.old clause to → ⊥ }
        requires own { Contains (clause_lits self.old clause) to }
        requires before { Precedes (watchers self.old from) before clause }
        ensures from { (front back : List ℕ) → watchers self.old from ≡ front ++ clause ∷ back
            → watchers self.new from ≡ front ++ back }
        ensures to { watchers self.new to ≡ clause ∷ watchers self.old to }
        ensures others { (lit : Lit) → lit ≢ from → lit ≢ to → watchers self.new lit ≡ watchers self.old lit }
        ensures pair { IsRewatched self.old self.new clause from to }
        ensures clauses { self.new.clauses ≡ self.old.clauses }
        ensures vars { self.new.vars ≡ self.old.vars }
    {
        move_between(&mut self.records, &mut self.heads, before, clause, from, to);
    }
}
