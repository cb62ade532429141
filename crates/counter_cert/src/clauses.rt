//! Lists of clauses that are added to a formula, one after the other, and the variables that are added to it.
//!
//! Main functions: `add_clauses`, `add_vars`. They touch the formula that they are lent.

ghost use Rattle.std.specs.Prelude.{◌≡◌, ◌<◌, ◌+◌, ◌++◌, All, OnOk};

use cnf::{Clause, ClauseBase, Cnf};
use port_types::NoMemory;

/// Adds the clauses in their order.
pub(crate) fn add_clauses(cnf: &mut Cnf, clauses: &[Clause]) -> Result<(), NoMemory>
    requires { All (All (λ lit. lit.var < cnf.old.vars)) clauses.now }
    ensures vars { cnf.new.vars ≡ cnf.old.vars }
    ensures clauses { OnOk result (cnf.new.clauses ≡ cnf.old.clauses ++ clauses.now) }
{
    for clause in clauses {
        cnf.add(clause.as_slice())?;
    }
    Ok(())
}

/// Adds so many variables.
pub(crate) fn add_vars(cnf: &mut Cnf, count: usize) -> Result<(), NoMemory>
    ensures vars { OnOk result (cnf.new.vars ≡ cnf.old.vars + count) }
    ensures clauses { cnf.new.clauses ≡ cnf.old.clauses }
{
    for _ in 0..count {
        cnf.new_var()?;
    }
    Ok(())
}
