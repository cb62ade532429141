//! A list of clauses over a number of variables, the plainest base of clauses.

ghost use Rattle.std.specs.Prelude.{◌≡◌, ◌<◌, [], All};

use crate::base::ClauseBase;
use crate::clause::Clause;
use crate::lit::Lit;
use port_types::NoMemory;
use std::alloc::Global;
use std::marker::Model;

/// A number of variables and a list of clauses over them. Contracts see the two.
#[derive(Debug, Drop)]
pub struct Cnf {
    vars: usize,
    clauses: Vec<Clause>,
}

impl Model for Cnf {
    ghost use Rattle.std.specs.Prelude.{◌<◌, All};
    ghost use Rattle.cnf.specs.Clauses.{Problem};

    ghost Value = { Problem };

    ghost view = { λ c. record { vars = c.vars; clauses = c.clauses.items } };

    ghost invariant = { λ c. All (All (λ lit. lit.var < c.vars)) c.clauses.items };
}

impl Cnf {
    /// No variables and no clauses.
    pub fn new(alloc: Global) -> Cnf
        ensures vars { result.vars ≡ 0 }
        ensures clauses { result.clauses ≡ [] }
    {
        Cnf {
            vars: 0,
            clauses: Vec::new(alloc),
        }
    }

    /// The clauses in the order in which they were added.
    pub fn clauses(&self) -> &[Clause]
        ensures clauses { result.now ≡ self.now.clauses }
        ensures known { All (All (λ lit. lit.var < self.now.vars)) self.now.clauses }
    {
        self.clauses.as_slice()
    }
}

impl ClauseBase for Cnf {
    ghost vars = { λ c. c.vars };

    ghost clauses = { λ c. c.clauses };

    fn vars(&self) -> usize {
        self.vars
    }

    /// Answers `NoMemory` too where no number is left for a variable.
    fn new_var(&mut self) -> Result<usize, NoMemory> {
        let var = self.vars;
        if var == usize::MAX {
            return Err(NoMemory);
        }
        self.vars = var + 1;
        Ok(var)
    }

    fn add(&mut self, lits: &[Lit]) -> Result<(), NoMemory> {
        let clause = Clause::from_slice(*self.clauses.allocator(), lits)?;
        self.clauses.push(clause)?;
        Ok(())
    }
}
