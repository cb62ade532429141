//! The check of a log: `check` resolves each chain step by step in a set of literals, and compares the set
//! with the chain's clause.
//!
//! It may touch the bench that it is lent, which it leaves empty.

ghost use Rattle.std.specs.Prelude.{◌≡◌, ◌<◌, ◌≤◌, ◌↔◌, [], true, false, ℕ, List};
ghost use Rattle.std.specs.Prelude.{IsTrue, IfOk, MatchOption, All, Contains, length, slice_index_or};
ghost use Rattle.cnf.specs.declared.lit.Lit.{Lit};
ghost use Rattle.cnf.specs.Clauses.{opposite, HasNoModel};
ghost use Rattle.clause_log.specs.Marks.{mark_of, SetsMarks};
ghost use Rattle.clause_log.specs.Members.{marked_lits};
ghost use Rattle.clause_log.specs.Derivations.{SameLits, Resolves, Leads, Follows, Derives, DerivationsRefute};
ghost use Rattle.clause_log.specs.Derivations.{clauses_by_number, EachFollows, EndsEmpty};

use crate::chain::{Chain, ChainLog, Pivot};
use crate::lit_set::LitSet;
use cnf::{Clause, ClauseBase, Cnf, Lit};
use port_types::NoMemory;
use std::alloc::Global;
use std::marker::Model;

/// The bench of `check`: room for the literals of so many variables. Contracts see that number.
#[derive(Debug, Drop)]
pub struct Marks {
    vars: usize,
    set: LitSet,
}

impl Model for Marks {
    ghost use Rattle.std.specs.Prelude.{ℕ, ◌≡◌, false, length};
    ghost use Rattle.cnf.specs.declared.lit.Lit.{Lit};
    ghost use Rattle.clause_log.specs.Marks.{mark_of};

    ghost Value = { ℕ };

    ghost view = { λ m. m.vars };

    ghost invariant = { λ m. (length m.set ≡ m.vars) × ((lit : Lit) → mark_of m.set lit ≡ false) };
}

impl Marks {
    pub fn new(alloc: Global, vars: usize) -> Result<Marks, NoMemory>
        ensures { IfOk result (λ marks. marks ≡ vars) }
    {
        Ok(Marks {
            vars,
            set: LitSet::new(alloc, vars)?,
        })
    }
}

// The clause of a number, the chains' clauses after those of the cnf.
fn clause_at<'a>(cnf: &'a [Clause], log: &'a [Chain], number: usize) -> Option<&'a [Lit]>
    ensures { MatchOption result
        (length (clauses_by_number cnf.now log.now) ≤ number)
        (λ clause. (number < length (clauses_by_number cnf.now log.now))
        × (clause.now ≡ slice_index_or (clauses_by_number cnf.now log.now) number [])) }
{
    if number < cnf.len() {
        return Some(cnf[number].as_slice());
    }
    let place = number - cnf.len();
    if place < log.len() {
        Some(log[place].clause.as_slice())
    } else {
        None
    }
}

fn put_all(set: &mut LitSet, lits: &[Lit], mark: bool)
    requires { All (λ lit. lit.var < length set.old) lits.now }
    ensures vars { length set.new ≡ length set.old }
    ensures puts { SetsMarks set.old lits.now mark set.new }
{
    for lit in lits {
        set.put(*lit, mark);
    }
}

// A literal of the variable that is in the set, and whose opposite is in the clause.
fn pivot_of(set: &LitSet, clause: &[Lit], var: usize) -> Option<Lit>
    ensures { MatchOption result
        ((pivot : Lit) → pivot.var ≡ var → mark_of set.now pivot ≡ true → Contains clause.now (opposite pivot) → ⊥)
        (λ pivot. (pivot.var ≡ var) × (mark_of set.now pivot ≡ true) × Contains clause.now (opposite pivot)) }
{
    for lit in clause {
        let pivot = lit.negated();
        if lit.var == var && set.has(pivot) {
            return Some(pivot);
        }
    }
    None
}

// Resolves the set with a clause on a literal of the variable, if that can be done.
fn resolve(set: &mut LitSet, clause: &[Lit], var: usize) -> bool
    requires { All (λ lit. lit.var < length set.old) clause.now }
    ensures vars { length set.new ≡ length set.old }
    ensures yes { IsTrue result → (pivot : Lit) × (pivot.var ≡ var)
        × Resolves (marked_lits set.old) clause.now pivot (marked_lits set.new) }
    ensures no { result ≡ false → (pivot : Lit) → pivot.var ≡ var → Contains (marked_lits set.old) pivot
        → Contains clause.now (opposite pivot) → ⊥ }
{
    match pivot_of(set, clause, var) {
        Some(pivot) => {
            let opposite = pivot.negated();
            set.put(pivot, false);
            // a literal that the left side has too stays
            let stays = set.has(opposite);
            put_all(set, clause, true);
            set.put(opposite, stays);
            true
        }
        None => false,
    }
}

// Takes the steps from the literals of the set on, if all can be taken.
fn take_steps(cnf: &[Clause], log: &[Chain], steps: &[Pivot], set: &mut LitSet) -> bool
    requires { All (All (λ lit. lit.var < length set.old)) (clauses_by_number cnf.now log.now) }
    ensures vars { length set.new ≡ length set.old }
    ensures yes { IsTrue result → (clause : List Lit)
        → Leads (clauses_by_number cnf.now log.now) (marked_lits set.old) steps.now clause
        ↔ SameLits (marked_lits set.new) clause }
    ensures no { result ≡ false → (clause : List Lit)
        → Leads (clauses_by_number cnf.now log.now) (marked_lits set.old) steps.now clause → ⊥ }
{
    for step in steps {
        match clause_at(cnf, log, step.clause) {
            Some(clause) => {
                if !resolve(set, clause, step.var) {
                    return false;
                }
            }
            None => return false,
        }
    }
    true
}

// Whether the set has exactly the literals; if so, it is empty afterwards.
fn take_exactly(set: &mut LitSet, lits: &[Lit]) -> bool
    ensures vars { length set.new ≡ length set.old }
    ensures result { IsTrue result ↔ SameLits (marked_lits set.old) lits.now }
    ensures empty { IsTrue result → (lit : Lit) → mark_of set.new lit ≡ false }
    ensures known { IsTrue result → All (λ lit. lit.var < length set.old) lits.now }
{
    if !has_all(set, lits) {
        return false;
    }
    put_all(set, lits, false);
    set.is_empty()
}

fn has_all(set: &LitSet, lits: &[Lit]) -> bool
    ensures { IsTrue result ↔ All (λ lit. IsTrue (mark_of set.now lit)) lits.now }
{
    lits.iter().all(|lit| set.has(*lit))
}

// Whether the chain follows from the clauses before it; if so, the set is empty again.
fn follows(cnf: &[Clause], log: &[Chain], chain: &Chain, set: &mut LitSet) -> bool
    requires known { All (All (λ lit. lit.var < length set.old)) (clauses_by_number cnf.now log.now) }
    requires empty { (lit : Lit) → mark_of set.old lit ≡ false }
    ensures vars { length set.new ≡ length set.old }
    ensures result { IsTrue result ↔ Follows (clauses_by_number cnf.now log.now) chain.now }
    ensures empty { IsTrue result → (lit : Lit) → mark_of set.new lit ≡ false }
    ensures known { IsTrue result → All (λ lit. lit.var < length set.old) chain.now.clause }
{
    match clause_at(cnf, log, chain.first) {
        Some(first) => {
            put_all(set, first, true);
            let steps = chain.rest.as_slice();
            let lits = chain.clause.as_slice();
            if !take_steps(cnf, log, steps, set) {
                return false;
            }
            take_exactly(set, lits)
        }
        None => false,
    }
}

// Empties the set after a chain that does not follow, in the time that its literals took.
fn forget(cnf: &[Clause], log: &[Chain], chain: &Chain, set: &mut LitSet)
    requires { All (All (λ lit. lit.var < length set.old)) (clauses_by_number cnf.now log.now) }
    ensures vars { length set.new ≡ length set.old }
    ensures empty { (lit : Lit) → mark_of set.new lit ≡ false }
{
    forget_clause(cnf, log, chain.first, set);
    for step in chain.rest.as_slice() {
        forget_clause(cnf, log, step.clause, set);
    }
    // the clauses of the chain were all that was put in, so this is not reached
    if !set.is_empty() {
        clear(set);
    }
}

fn clear(set: &mut LitSet)
    ensures vars { length set.new ≡ length set.old }
    ensures empty { (lit : Lit) → mark_of set.new lit ≡ false }
{
    for var in 0..set.vars() {
        let yes = Lit {
            var,
            positive: true,
        };
        set.put(yes, false);
        set.put(yes.negated(), false);
    }
}

fn forget_clause(cnf: &[Clause], log: &[Chain], number: usize, set: &mut LitSet)
    requires { All (All (λ lit. lit.var < length set.old)) (clauses_by_number cnf.now log.now) }
    ensures { length set.new ≡ length set.old }
{
    match clause_at(cnf, log, number) {
        Some(clause) => put_all(set, clause, false),
        None => {}
    }
}

// Whether each chain follows from the clauses before it.
fn all_follow(cnf: &[Clause], log: &[Chain], set: &mut LitSet) -> bool
    requires known { All (All (λ lit. lit.var < length set.old)) cnf.now }
    requires empty { (lit : Lit) → mark_of set.old lit ≡ false }
    ensures vars { length set.new ≡ length set.old }
    ensures empty { (lit : Lit) → mark_of set.new lit ≡ false }
    ensures result { IsTrue result ↔ EachFollows cnf.now log.now }
{
    for i in 0..log.len() {
        let before = &log[..i];
        let chain = &log[i];
        if !follows(cnf, before, chain, set) {
            forget(cnf, before, chain, set);
            return false;
        }
    }
    true
}

fn ends_empty(log: &[Chain]) -> bool
    ensures { IsTrue result ↔ EndsEmpty log.now }
{
    match log.last() {
        Some(last) => last.clause.is_empty(),
        None => false, // no last chain
    }
}

/// Whether the log derives the empty clause from the clauses of the cnf.
///
/// Takes no memory, and a time that is linear in the literals of the clauses that the chains name and
/// of those that they have.
pub fn check(cnf: &Cnf, log: &ChainLog, marks: &mut Marks) -> bool
    requires { cnf.now.vars ≤ marks.old }
    ensures derives { IsTrue result ↔ Derives cnf.now.clauses log.now }
    ensures refutes { IsTrue result → HasNoModel cnf.now.vars cnf.now.clauses }
    ensures marks { marks.new ≡ marks.old }
{
    let chains = log.as_slice();
    if !ends_empty(chains) {
        return false;
    }
    let clauses = cnf.clauses();
    all_follow(clauses, chains, &mut marks.set)
}

/// A log that derives the empty clause shows that there is no model.
pub fn derivations_refute()
    ensures { DerivationsRefute }
{}
