//! The literals that an analysis has met, as a set: `meet_all` puts those of a clause into it, and `reached`
//! lists those that a derivation still has.
//!
//! The set is a trail that is lent: one mark for each variable, and the list by which the marks are taken back.

ghost use Rattle.std.specs.Prelude.{◌≡◌, ◌<◌, ◌⊎◌, ◌↔◌, ◌∷◌, [], None, length, IfOk, Contains, slice_index_or};
ghost use Rattle.cnf.specs.declared.lit.Lit.{Lit};
ghost use Rattle.cnf.specs.Clauses.{opposite};
ghost use Rattle.sat_core.specs.Search.{IsTrail, MadeTrue};
ghost use Rattle.sat_core.specs.Meeting.{Met, IsMetSet, CanMeet, HasMet, reached, stands_before};

use crate::trail::{Step, Trail};
use cnf::Lit;
use port_types::NoMemory;
use std::alloc::Global;

/// Whether the variable of a literal has its place before this one.
fn is_before(trail: &Trail, lit: Lit, at: usize) -> bool
    requires { lit.var < length trail.now.places.items }
    ensures { result ≡ stands_before trail.now.places.items at lit }
{
    match trail.place(lit.var) {
        None => false,
        Some(place) => place < at,
    }
}

/// Puts a literal into the set, if none of its variable is in it, and answers 1 if it then stands from a place
/// of the trail on, else 0.
fn meet(set: &mut Trail, lit: Lit, trail: &Trail, from: usize) -> usize
    requires trail { IsTrail trail.now.steps.items trail.now.places.items }
    requires met { IsMetSet trail.now.steps.items trail.now.places.items set.old.steps.items set.old.places.items }
    requires known { lit.var < length trail.now.places.items }
    requires can { CanMeet trail.now.steps.items set.old.steps.items lit }
    ensures met { IsMetSet trail.now.steps.items trail.now.places.items set.new.steps.items set.new.places.items }
    ensures has { HasMet trail.now.steps.items set.old.steps.items (lit ∷ []) set.new.steps.items }
{
    match set.place(lit.var) {
        Some(_) => 0,
        None => {
            set.push(Step { lit, reason: None });
            late(trail, lit, from)
        }
    }
}

/// 1 where the variable of a literal has no place before this one, else 0.
fn late(trail: &Trail, lit: Lit, from: usize) -> usize
    requires { lit.var < length trail.now.places.items }
{
    if is_before(trail, lit, from) { 0 } else { 1 }
}

/// Puts the literals of a clause into the set, but for those of whose variables it has one, and answers how
/// many came that stand from a place of the trail on.
pub fn meet_all(set: &mut Trail, lits: &[Lit], trail: &Trail, from: usize) -> usize
    requires trail { IsTrail trail.now.steps.items trail.now.places.items }
    requires met { IsMetSet trail.now.steps.items trail.now.places.items set.old.steps.items set.old.places.items }
    requires can { (lit : Lit) → Contains lits.now lit → CanMeet trail.now.steps.items set.old.steps.items lit }
    ensures met { IsMetSet trail.now.steps.items trail.now.places.items set.new.steps.items set.new.places.items }
    ensures has { HasMet trail.now.steps.items set.old.steps.items lits.now set.new.steps.items }
{
    let mut came = 0usize;
    for lit in lits {
        came = came.saturating_add(meet(set, *lit, trail, from));
    }
    came
}

/// The literals that were met and became false before a place of the trail.
pub fn reached(alloc: Global, trail: &Trail, set: &Trail, at: usize) -> Result<Vec<Lit>, NoMemory>
    requires met { IsMetSet trail.now.steps.items trail.now.places.items set.now.steps.items set.now.places.items }
    ensures { IfOk result (λ lits. lits.items ≡ reached trail.now.places.items at set.now.steps.items) }
{
    let mut lits = Vec::new(alloc);
    for place in 0..set.len() {
        let lit = set.step(place).lit;
        if is_before(trail, lit, at) {
            lits.push(lit)?;
        }
    }
    Ok(lits)
}
