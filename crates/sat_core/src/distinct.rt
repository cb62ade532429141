//! The literals of a list without repeats: `distinct` for a clause, `opposites` for assumptions. Both use an
//! empty trail as a set, and leave it empty.

ghost use Rattle.std.specs.Prelude.{◌≡◌, ◌≢◌, ◌<◌, ◌≤◌, [], None, length, map, IfOk, IfSome, MatchOption, All};
ghost use Rattle.std.specs.Prelude.{Contains, slice_get};
ghost use Rattle.cnf.specs.declared.lit.Lit.{Lit};
ghost use Rattle.cnf.specs.Clauses.{opposite};
ghost use Rattle.clause_log.specs.Derivations.{SameLits};
ghost use Rattle.sat_core.specs.Search.{IsTrail};
ghost use Rattle.sat_core.specs.Outcomes.{HasOpposites, AreOpposite, StandsAt};
ghost use Rattle.sat_core.specs.Solving.{AreOnce};

use crate::trail::{Step, Trail};
use cnf::Lit;
use port_types::NoMemory;
use std::alloc::Global;

/// Puts the literals of a list into an empty trail, up to one whose opposite came before, which it answers.
fn gather(lits: &[Lit], set: &mut Trail) -> Option<Lit>
    requires set { IsTrail set.old.steps.items set.old.places.items }
    requires empty { set.old.steps.items ≡ [] }
    requires known { All (λ lit. lit.var < length set.old.places.items) lits.now }
    ensures set { IsTrail set.new.steps.items set.new.places.items }
    ensures vars { length set.new.places.items ≡ length set.old.places.items }
    ensures all { result ≡ None → SameLits (map (λ step. step.lit) set.new.steps.items) lits.now }
    ensures opposite { IfSome result (λ lit. Contains lits.now lit × Contains lits.now (opposite lit)) }
{
    for lit in lits {
        match set.value(*lit) {
            Some(true) => {}
            Some(false) => return Some(*lit),
            None => set.push(Step {
                lit: *lit,
                reason: None,
            }),
        }
    }
    None
}

/// The literals of a trail, in order.
fn literals(alloc: Global, set: &Trail) -> Result<Vec<Lit>, NoMemory>
    ensures { IfOk result (λ lits. lits.items ≡ map (λ step. step.lit) set.now.steps.items) }
{
    let mut lits = Vec::new(alloc);
    for place in 0..set.len() {
        lits.push(set.step(place).lit)?;
    }
    Ok(lits)
}

/// The literals of a clause without repeats; nothing where two of them are opposite.
pub fn distinct(alloc: Global, lits: &[Lit], set: &mut Trail) -> Result<Option<Vec<Lit>>, NoMemory>
    requires set { IsTrail set.old.steps.items set.old.places.items }
    requires empty { set.old.steps.items ≡ [] }
    requires known { All (λ lit. lit.var < length set.old.places.items) lits.now }
    ensures set { IsTrail set.new.steps.items set.new.places.items }
    ensures vars { length set.new.places.items ≡ length set.old.places.items }
    ensures empty { set.new.steps.items ≡ [] }
    ensures same { IfOk result (λ found. MatchOption found (HasOpposites lits.now)
        (λ own. SameLits own.items lits.now)) }
    ensures apart { IfOk result (λ found. IfSome found (λ own. 2 ≤ length own.items
        → slice_get own.items 0 ≢ slice_get own.items 1)) }
    ensures once { IfOk result (λ found. IfSome found (λ own. AreOnce own.items)) }
    ensures none_opposite { IfOk result (λ found. IfSome found (λ _. HasOpposites lits.now → ⊥)) }
{
    let clash = gather(lits, set);
    let own = literals(alloc, set);
    set.backtrack(0);
    match clash {
        Some(_) => Ok(None),
        None => Ok(Some(own?)),
    }
}

/// The place of a literal in a list.
fn index_of(lits: &[Lit], lit: Lit) -> Option<usize>
    ensures { MatchOption result (Contains lits.now lit → ⊥) (λ place. StandsAt lits.now place lit) }
{
    lits.iter().position(|other| other.same(lit))
}

/// Two opposite literals of a list, by their places.
pub fn opposites(lits: &[Lit], set: &mut Trail) -> Option<(usize, usize)>
    requires set { IsTrail set.old.steps.items set.old.places.items }
    requires empty { set.old.steps.items ≡ [] }
    requires known { All (λ lit. lit.var < length set.old.places.items) lits.now }
    ensures set { IsTrail set.new.steps.items set.new.places.items }
    ensures vars { length set.new.places.items ≡ length set.old.places.items }
    ensures empty { set.new.steps.items ≡ [] }
    ensures found { MatchOption result (HasOpposites lits.now → ⊥) (λ places. AreOpposite lits.now places.0 places.1) }
{
    let clash = gather(lits, set);
    set.backtrack(0);
    match clash {
        None => None,
        Some(lit) => match (index_of(lits, lit), index_of(lits, lit.negated())) {
            (Some(place), Some(other)) => Some((place, other)),
            _ => unreachable!(),
        },
    }
}
