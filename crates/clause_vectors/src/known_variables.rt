//! Which clauses are of the variables that are there. Main function: `known`. Touches nothing.

ghost use Rattle.std.specs.Prelude.{◌<◌, ◌↔◌, IsTrue, All};

use cnf::Lit;

/// Whether each literal is one of so many variables.
pub(crate) fn known(row: &[Lit], vars: usize) -> bool
    ensures { IsTrue result ↔ All (λ lit. lit.var < vars) row.now }
{
    row.iter().all(|lit| lit.var < vars)
}
