//! Terms, which stand for whole numbers, and picks, which stand for names. May touch the allocator.

ghost use Rattle.std.specs.Prelude.{◌≡◌, IfOk};
ghost use Rattle.typed_ltl.specs.Formulas.{number_of, Number};

use port_types::{Name, NoMemory, PortId};
use sqlite_items::Boxed;
use std::alloc::Global;

/// A whole number that depends on a valuation and its successor.
///
/// A port under `next` is read in the successor. Sums and differences are exact.
#[derive(Debug, Drop)]
pub enum Term {
    Const(i64),
    Port { port: PortId, next: bool },
    Plus(Boxed<Term>, Boxed<Term>),
    Minus(Boxed<Term>, Boxed<Term>),
    Negate(Boxed<Term>),
}

impl Term {
    /// An equal term.
    pub fn copy(&self, alloc: Global) -> Result<Term, NoMemory>
        ensures { IfOk result (λ copy. copy ≡ self.now) }
    {
        match self {
            Term::Const(number) => Ok(Term::Const(*number)),
            Term::Port { port, next } => Ok(Term::Port {
                port: *port,
                next: *next,
            }),
            Term::Plus(a, b) => {
                let a = a.get().copy(alloc)?;
                let b = b.get().copy(alloc)?;
                Ok(Term::Plus(Boxed::new(alloc, a)?, Boxed::new(alloc, b)?))
            }
            Term::Minus(a, b) => {
                let a = a.get().copy(alloc)?;
                let b = b.get().copy(alloc)?;
                Ok(Term::Minus(Boxed::new(alloc, a)?, Boxed::new(alloc, b)?))
            }
            Term::Negate(a) => {
                let a = a.get().copy(alloc)?;
                Ok(Term::Negate(Boxed::new(alloc, a)?))
            }
        }
    }

    /// The term `a + b`.
    pub fn plus(alloc: Global, a: Term, b: Term) -> Result<Term, NoMemory>
        ensures { IfOk result (λ term. number_of term ≡ Number.Sum (number_of a) (number_of b)) }
    {
        Ok(Term::Plus(Boxed::new(alloc, a)?, Boxed::new(alloc, b)?))
    }

    /// The term `a - b`.
    pub fn minus(alloc: Global, a: Term, b: Term) -> Result<Term, NoMemory>
        ensures { IfOk result (λ term. number_of term ≡ Number.Difference (number_of a) (number_of b)) }
    {
        Ok(Term::Minus(Boxed::new(alloc, a)?, Boxed::new(alloc, b)?))
    }

    /// The term `-a`.
    pub fn negate(alloc: Global, a: Term) -> Result<Term, NoMemory>
        ensures { IfOk result (λ term. number_of term ≡ Number.Opposite (number_of a)) }
    {
        Ok(Term::Negate(Boxed::new(alloc, a)?))
    }
}

/// A name that depends on a valuation and its successor: a name itself, or the value of a port.
#[derive(Debug, Drop)]
pub enum Pick {
    Name(Name),
    Port { port: PortId, next: bool },
}

impl Pick {
    /// An equal pick.
    pub fn copy(&self) -> Result<Pick, NoMemory>
        ensures { IfOk result (λ copy. copy ≡ self.now) }
    {
        match self {
            Pick::Name(name) => Ok(Pick::Name(name.copy()?)),
            Pick::Port { port, next } => Ok(Pick::Port {
                port: *port,
                next: *next,
            }),
        }
    }
}
