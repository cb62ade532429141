//! Learnt clauses, each with its derivation.

ghost use Rattle.std.specs.Prelude.{◌≡◌, ◌∷◌, ◌++◌, [], OnOk, OnErr};

use crate::chain::Derivation;
use cnf::{Clause, Lit};
use port_types::NoMemory;
use std::alloc::Global;

/// Clauses that were learnt, each with its derivation.
#[derive(Debug, Drop)]
pub struct LearntClauses {
    pub clauses: Vec<Clause>,
    pub derivations: Vec<Derivation>,
}

impl LearntClauses {
    /// No clauses.
    pub fn new(alloc: Global) -> LearntClauses
        ensures clauses { result.clauses.items ≡ [] }
        ensures derivations { result.derivations.items ≡ [] }
    {
        LearntClauses {
            clauses: Vec::new(alloc),
            derivations: Vec::new(alloc),
        }
    }

    /// Puts a learnt clause at the end.
    pub fn push(&mut self, lits: &[Lit], derivation: Derivation) -> Result<(), NoMemory>
        ensures clauses { OnOk result (self.new.clauses.items ≡ self.old.clauses.items ++ lits.now ∷ []) }
        ensures derivations { OnOk result (self.new.derivations.items ≡ self.old.derivations.items ++ derivation ∷ []) }
        ensures err_clauses { OnErr result (self.new.clauses.items ≡ self.old.clauses.items) }
        ensures err_derivations { OnErr result (self.new.derivations.items ≡ self.old.derivations.items) }
    {
        let clause = Clause::from_slice(*self.clauses.allocator(), lits)?;
        self.derivations.push(derivation)?;
        match self.clauses.push(clause) {
            Ok(()) => Ok(()),
            Err(_) => {
                let _ = self.derivations.pop();
                Err(NoMemory)
            }
        }
    }
}
