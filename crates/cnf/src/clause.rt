//! Clauses. Contracts see the list of their literals.

ghost use Rattle.std.specs.Prelude.{◌≡◌, ◌∷◌, ◌++◌, [], ◌↔◌, IsTrue, IfOk, OnOk, OnErr, length, Contains};

use crate::lit::Lit;
use port_types::NoMemory;
use smallvec::SmallVec;
use std::alloc::Global;
use std::marker::Model;

/// A clause: literals in order, of which at least one is to hold. Contracts see the list of them.
#[derive(Debug, Drop)]
pub struct Clause {
    lits: SmallVec<Lit, 3>,
}

impl Model for Clause {
    ghost use Rattle.std.specs.Prelude.{List};
    ghost use Rattle.cnf.specs.declared.lit.Lit.{Lit};

    ghost Value = { List Lit };

    ghost view = { λ c. c.lits.items };
}

impl Clause {
    /// The empty clause, which holds in no model.
    pub fn new(alloc: Global) -> Clause
        ensures { result ≡ [] }
    {
        Clause {
            lits: SmallVec::new(alloc),
        }
    }

    /// The clause of these literals in this order.
    pub fn from_slice(alloc: Global, lits: &[Lit]) -> Result<Clause, NoMemory>
        ensures { IfOk result (λ clause. clause ≡ lits.now) }
    {
        Ok(Clause {
            lits: SmallVec::from_slice(alloc, lits)?,
        })
    }

    pub fn as_slice(&self) -> &[Lit]
        ensures { result.now ≡ self.now }
    {
        self.lits.as_slice()
    }

    pub fn len(&self) -> usize
        ensures { result ≡ length self.now }
    {
        self.lits.len()
    }

    pub fn is_empty(&self) -> bool
        ensures { IsTrue result ↔ (self.now ≡ []) }
    {
        self.lits.is_empty()
    }

    /// Puts a literal at the end.
    pub fn push(&mut self, lit: Lit) -> Result<(), NoMemory>
        ensures ok { OnOk result (self.new ≡ self.old ++ lit ∷ []) }
        ensures err { OnErr result (self.new ≡ self.old) }
    {
        self.lits.push(lit)?;
        Ok(())
    }

    /// Whether the literal is one of the clause.
    pub fn has(&self, lit: Lit) -> bool
        ensures { IsTrue result ↔ Contains self.now lit }
    {
        self.lits.as_slice().contains(&lit)
    }

    pub fn copy(&self) -> Result<Clause, NoMemory>
        ensures { IfOk result (λ copy. copy ≡ self.now) }
    {
        Clause::from_slice(*self.lits.allocator(), self.lits.as_slice())
    }
}
