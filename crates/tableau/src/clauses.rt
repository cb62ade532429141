//! Clauses that are added one after the other. Touches the base that it is lent, and nothing else.

ghost use Rattle.std.specs.Prelude.{◌≡◌, ◌<◌, ◌++◌, ℕ, OnOk, OnErr, All, take};

use cnf::{ClauseBase, Lit};
use port_types::NoMemory;

/// Adds clauses of one length in order.
pub(crate) fn add_clauses<B: ClauseBase, const N: usize>(
    base: &mut B,
    clauses: &[[Lit; N]],
) -> Result<(), NoMemory>
    requires { All (All (λ lit. lit.var < B.vars base.old)) clauses.now }
    ensures vars { B.vars base.new ≡ B.vars base.old }
    ensures ok { OnOk result (B.clauses base.new ≡ B.clauses base.old ++ clauses.now) }
    ensures err { OnErr result ((k : ℕ) × (B.clauses base.new ≡ B.clauses base.old ++ take k clauses.now)) }
{
    for clause in clauses {
        base.add(clause)?;
    }
    Ok(())
}
