//! Derivations: a first clause and resolutions; and which literals a list has.

ghost use Rattle.std.specs.Prelude.{◌↔◌, IsTrue, IfOk, Contains};
ghost use Rattle.sat_core.specs.Search.{IsWithout};

use crate::clause_ref::ClauseRef;
use cnf::Lit;
use port_types::NoMemory;
use std::alloc::Global;

/// One resolution: on a variable, with a clause.
#[derive(Clone, Copy, Debug)]
pub struct Resolution {
    pub var: usize,
    pub reason: ClauseRef,
}

/// How a clause was derived: from a first clause, by resolutions in order.
#[derive(Debug, Drop)]
pub struct Derivation {
    pub first: ClauseRef,
    pub rest: Vec<Resolution>,
}

/// Whether a literal is in a list.
pub fn has(lits: &[Lit], lit: Lit) -> bool
    ensures { IsTrue result ↔ Contains lits.now lit }
{
    lits.contains(&lit)
}

/// The literals of a list but for one.
pub fn without(alloc: Global, lits: &[Lit], lit: Lit) -> Result<Vec<Lit>, NoMemory>
    ensures { IfOk result (λ rest. IsWithout lits.now lit rest.items) }
{
    let mut rest = Vec::new(alloc);
    for other in lits {
        if !other.same(lit) {
            rest.push(*other)?;
        }
    }
    Ok(rest)
}
