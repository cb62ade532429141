//! The order of a learnt clause's literals: `watch_order` puts the two first that the clause then watches. It
//! only reads the trail.

ghost use Rattle.std.specs.Prelude.{◌≡◌, ◌≢◌, ◌<◌, ◌+◌, ◌∷◌, ◌++◌, ◌⊎◌, ℕ, List, [], None, length, IfOk, IfSome};
ghost use Rattle.std.specs.Prelude.{Contains};
ghost use Rattle.cnf.specs.declared.lit.Lit.{Lit};
ghost use Rattle.cnf.specs.Clauses.{opposite};
ghost use Rattle.clause_log.specs.Derivations.{SameLits};
ghost use Rattle.sat_core.specs.Search.{IsTrail, Forces, MadeTrue, lit_at};
ghost use Rattle.sat_core.specs.Learning.{OthersFalse, IsWatchOrder, IsLatest};

use crate::analyse::after;
use crate::chain::without;
use crate::trail::Trail;
use cnf::Lit;
use port_types::NoMemory;
use std::alloc::Global;

/// One more than the place that makes a literal false; 0 for the literal that is forced.
fn place_after(lit: Lit, forced: Lit, trail: &Trail) -> usize
    requires trail { IsTrail trail.now.steps.items trail.now.places.items }
    requires false_ { (lit ≡ forced) ⊎ MadeTrue trail.now.steps.items (length trail.now.steps.items) (opposite lit) }
    ensures { ((result ≡ 0) × (lit ≡ forced)) ⊎ ((p : ℕ) × (result ≡ p + 1) × (lit ≢ forced)
        × (p < length trail.now.steps.items) × (lit_at trail.now.steps.items p ≡ opposite lit)) }
{
    if lit.same(forced) {
        0
    } else {
        after(trail, lit)
    }
}

/// The literal of a clause, beside one that it forces, that was made false last.
fn latest(lits: &[Lit], forced: Lit, trail: &Trail) -> Option<Lit>
    requires trail { IsTrail trail.now.steps.items trail.now.places.items }
    requires forces { Forces trail.now.steps.items (length trail.now.steps.items) lits.now forced }
    ensures some { IfSome result (λ lit. IsLatest trail.now.steps.items lits.now forced lit) }
    ensures none { result ≡ None → (lit : Lit) → Contains lits.now lit → lit ≡ forced }
{
    let mut last = None;
    let mut end = 0;
    for lit in lits {
        let place = place_after(*lit, forced, trail);
        if end < place {
            end = place;
            last = Some(*lit);
        }
    }
    last
}

/// The literals of a clause, with two of them first.
fn two_first(alloc: Global, lits: &[Lit], first: Lit, second: Lit) -> Result<Vec<Lit>, NoMemory>
    requires first { Contains lits.now first }
    requires second { Contains lits.now second }
    ensures same { IfOk result (λ order. SameLits order.items lits.now) }
    ensures order { IfOk result (λ order. (rest : List Lit) × (order.items ≡ first ∷ second ∷ rest)) }
{
    let others = without(alloc, lits, first)?;
    let rest = without(alloc, others.as_slice(), second)?;
    let mut order = Vec::new(alloc);
    order.push(first)?;
    order.push(second)?;
    order.extend_from_slice(rest.as_slice())?;
    Ok(order)
}

/// The literals of a clause with the one first that it forces, then the one that was made false last.
pub fn watch_order(
    alloc: Global,
    lits: &[Lit],
    forced: Lit,
    trail: &Trail,
) -> Result<Vec<Lit>, NoMemory>
    requires trail { IsTrail trail.now.steps.items trail.now.places.items }
    requires forces { Forces trail.now.steps.items (length trail.now.steps.items) lits.now forced }
    ensures same { IfOk result (λ order. SameLits order.items lits.now) }
    ensures order { IfOk result (λ order. IsWatchOrder trail.now.steps.items forced order.items) }
{
    match latest(lits, forced, trail) {
        None => {
            let mut order = Vec::new(alloc);
            order.push(forced)?;
            Ok(order)
        }
        Some(second) => two_first(alloc, lits, forced, second),
    }
}
