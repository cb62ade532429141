//! Atoms of formulas: facts on a valuation and the next one. May touch the allocator.

ghost use Rattle.std.specs.Prelude.{◌≡◌, IfOk};

use crate::term::{Pick, Term};
use port_types::{NoMemory, PortId};
use std::alloc::Global;

/// A fact about a valuation and its successor: a boolean port is true, two terms are equal, one term
/// is at most another, or two picks are the same name.
#[derive(Debug, Drop)]
pub enum Atom {
    Port { port: PortId, next: bool },
    Equal(Term, Term),
    AtMost(Term, Term),
    Same(Pick, Pick),
}

impl Atom {
    /// An equal atom.
    pub fn copy(&self, alloc: Global) -> Result<Atom, NoMemory>
        ensures { IfOk result (λ copy. copy ≡ self.now) }
    {
        match self {
            Atom::Port { port, next } => Ok(Atom::Port {
                port: *port,
                next: *next,
            }),
            Atom::Equal(a, b) => Ok(Atom::Equal(a.copy(alloc)?, b.copy(alloc)?)),
            Atom::AtMost(a, b) => Ok(Atom::AtMost(a.copy(alloc)?, b.copy(alloc)?)),
            Atom::Same(a, b) => Ok(Atom::Same(a.copy()?, b.copy()?)),
        }
    }
}
