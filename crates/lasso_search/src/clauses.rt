//! Lists of clauses that are added to a base, one after the other.
//!
//! Main function: `add_clauses`. Touches the base that it is lent, and nothing else.

ghost use Rattle.std.specs.Prelude.{◌≡◌, ◌<◌, ◌++◌, ℕ, All, OnOk, OnErr, take};

use cnf::{Clause, ClauseBase};
use port_types::NoMemory;

/// Adds the clauses in their order. After want of memory a front of them was added.
pub(crate) fn add_clauses<B: ClauseBase>(base: &mut B, clauses: &[Clause]) -> Result<(), NoMemory>
    requires { All (All (λ lit. lit.var < B.vars base.old)) clauses.now }
    ensures vars { B.vars base.new ≡ B.vars base.old }
    ensures ok { OnOk result (B.clauses base.new ≡ B.clauses base.old ++ clauses.now) }
    ensures err { OnErr result ((k : ℕ) × (B.clauses base.new ≡ B.clauses base.old ++ take k clauses.now)) }
{
    for clause in clauses {
        base.add(clause.as_slice())?;
    }
    Ok(())
}
