//! Unit clauses, added or learnt: each one's literal, with its reference.

ghost use Rattle.std.specs.Prelude.{◌≡◌, ◌∷◌, ◌++◌, [], OnOk, OnErr};

use crate::clause_ref::ClauseRef;
use cnf::Lit;
use port_types::NoMemory;
use std::alloc::Global;

/// The literals of unit clauses, and where these clauses stand.
#[derive(Debug, Drop)]
pub struct Units {
    pub lits: Vec<Lit>,
    pub reasons: Vec<ClauseRef>,
}

impl Units {
    /// No units.
    pub fn new(alloc: Global) -> Units
        ensures lits { result.lits.items ≡ [] }
        ensures reasons { result.reasons.items ≡ [] }
    {
        Units {
            lits: Vec::new(alloc),
            reasons: Vec::new(alloc),
        }
    }

    /// Puts a unit at the end.
    pub fn push(&mut self, lit: Lit, reason: ClauseRef) -> Result<(), NoMemory>
        ensures lits { OnOk result (self.new.lits.items ≡ self.old.lits.items ++ lit ∷ []) }
        ensures reasons { OnOk result (self.new.reasons.items ≡ self.old.reasons.items ++ reason ∷ []) }
        ensures err_lits { OnErr result (self.new.lits.items ≡ self.old.lits.items) }
        ensures err_reasons { OnErr result (self.new.reasons.items ≡ self.old.reasons.items) }
    {
        self.lits.push(lit)?;
        match self.reasons.push(reason) {
            Ok(()) => Ok(()),
            Err(_) => {
                let _ = self.lits.pop();
                Err(NoMemory)
            }
        }
    }
}
