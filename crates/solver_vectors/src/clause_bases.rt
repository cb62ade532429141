//! Bases that get variables and clauses. Main functions: `known`, `add_vars`, `add`. Touches the base that it is lent.

ghost use Rattle.std.specs.Prelude.{◌<◌, ◌↔◌, IsTrue, All};

use cnf::{ClauseBase, Lit};
use port_types::NoMemory;

/// Whether each literal is one of so many variables.
pub(crate) fn known(row: &[Lit], vars: usize) -> bool
    ensures { IsTrue result ↔ All (λ lit. lit.var < vars) row.now }
{
    row.iter().all(|lit| lit.var < vars)
}

/// Adds so many variables.
pub(crate) fn add_vars<B: ClauseBase>(base: &mut B, vars: usize) -> Result<(), NoMemory> {
    for _ in 0..vars {
        let _ = base.new_var()?;
    }
    Ok(())
}

/// Adds a clause, if the base has its variables.
pub(crate) fn add<B: ClauseBase>(base: &mut B, lits: &[Lit]) -> Result<(), NoMemory> {
    if known(lits, base.vars()) {
        base.add(lits)?;
    }
    Ok(())
}
