//! A base of clauses, as a trait: what gates need of whoever keeps the clauses.

ghost use Rattle.std.specs.Prelude.{◌≡◌, ◌+◌, ◌<◌, ℕ, List, [], ◌∷◌, ◌++◌, IfOk, OnOk, OnErr, All};
ghost use Rattle.cnf.specs.declared.lit.Lit.{Lit};

use crate::lit::Lit;
use port_types::NoMemory;

/// What clauses are added to: a number of variables and a list of clauses.
///
/// The variables are the numbers below the number of them.
pub trait ClauseBase {
    ghost vars: { Self → ℕ };

    ghost clauses: { Self → List (List Lit) };

    /// The number of variables.
    fn vars(&self) -> usize
        ensures { result ≡ vars self.now };

    /// One more variable, whose number is the old number of variables.
    fn new_var(&mut self) -> Result<usize, NoMemory>
        ensures number { IfOk result (λ var. var ≡ vars self.old) }
        ensures ok { OnOk result (vars self.new ≡ vars self.old + 1) }
        ensures err { OnErr result (vars self.new ≡ vars self.old) }
        ensures clauses { clauses self.new ≡ clauses self.old };

    /// Puts a clause at the end of the list.
    fn add(&mut self, lits: &[Lit]) -> Result<(), NoMemory>
        requires { All (λ lit. lit.var < vars self.old) lits.now }
        ensures ok { OnOk result (clauses self.new ≡ clauses self.old ++ lits.now ∷ []) }
        ensures err { OnErr result (clauses self.new ≡ clauses self.old) }
        ensures vars { vars self.new ≡ vars self.old };
}
