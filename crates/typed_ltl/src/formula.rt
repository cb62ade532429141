//! Formulas: the type, its copies, and one constructor for each form. May touch the allocator.

ghost use Rattle.std.specs.Prelude.{◌≡◌, IfOk};
ghost use Rattle.typed_ltl.specs.Formulas.{meaning, Ltl};

use crate::atom::Atom;
use port_types::NoMemory;
use sqlite_items::Boxed;
use std::alloc::Global;

/// A formula of linear temporal logic over atoms.
#[derive(Debug, Drop)]
pub enum Formula {
    True,
    False,
    Atom(Atom),
    Not(Boxed<Formula>),
    And(Boxed<Formula>, Boxed<Formula>),
    Or(Boxed<Formula>, Boxed<Formula>),
    Implies(Boxed<Formula>, Boxed<Formula>),
    Iff(Boxed<Formula>, Boxed<Formula>),
    Then(Boxed<Formula>),
    Until(Boxed<Formula>, Boxed<Formula>),
    Releases(Boxed<Formula>, Boxed<Formula>),
    Future(Boxed<Formula>),
    Always(Boxed<Formula>),
    Never(Boxed<Formula>),
}

impl Formula {
    /// An equal formula.
    pub fn copy(&self, alloc: Global) -> Result<Formula, NoMemory>
        ensures { IfOk result (λ copy. copy ≡ self.now) }
    {
        match self {
            Formula::True => Ok(Formula::True),
            Formula::False => Ok(Formula::False),
            Formula::Atom(atom) => Ok(Formula::Atom(atom.copy(alloc)?)),
            Formula::Not(f) => {
                let f = f.get().copy(alloc)?;
                Ok(Formula::Not(Boxed::new(alloc, f)?))
            }
            Formula::And(f, g) => {
                let f = f.get().copy(alloc)?;
                let g = g.get().copy(alloc)?;
                Ok(Formula::And(Boxed::new(alloc, f)?, Boxed::new(alloc, g)?))
            }
            Formula::Or(f, g) => {
                let f = f.get().copy(alloc)?;
                let g = g.get().copy(alloc)?;
                Ok(Formula::Or(Boxed::new(alloc, f)?, Boxed::new(alloc, g)?))
            }
            Formula::Implies(f, g) => {
                let f = f.get().copy(alloc)?;
                let g = g.get().copy(alloc)?;
                Ok(Formula::Implies(Boxed::new(alloc, f)?, Boxed::new(alloc, g)?))
            }
            Formula::Iff(f, g) => {
                let f = f.get().copy(alloc)?;
                let g = g.get().copy(alloc)?;
                Ok(Formula::Iff(Boxed::new(alloc, f)?, Boxed::new(alloc, g)?))
            }
            Formula::Then(f) => {
                let f = f.get().copy(alloc)?;
                Ok(Formula::Then(Boxed::new(alloc, f)?))
            }
            Formula::Until(f, g) => {
                let f = f.get().copy(alloc)?;
                let g = g.get().copy(alloc)?;
                Ok(Formula::Until(Boxed::new(alloc, f)?, Boxed::new(alloc, g)?))
            }
            Formula::Releases(f, g) => {
                let f = f.get().copy(alloc)?;
                let g = g.get().copy(alloc)?;
                Ok(Formula::Releases(Boxed::new(alloc, f)?, Boxed::new(alloc, g)?))
            }
            Formula::Future(f) => {
                let f = f.get().copy(alloc)?;
                Ok(Formula::Future(Boxed::new(alloc, f)?))
            }
            Formula::Always(f) => {
                let f = f.get().copy(alloc)?;
                Ok(Formula::Always(Boxed::new(alloc, f)?))
            }
            Formula::Never(f) => {
                let f = f.get().copy(alloc)?;
                Ok(Formula::Never(Boxed::new(alloc, f)?))
            }
        }
    }

    /// The formula `not f`.
    pub fn negation(alloc: Global, f: Formula) -> Result<Formula, NoMemory>
        ensures { IfOk result (λ made. meaning made ≡ Ltl.Not (meaning f)) }
    {
        Ok(Formula::Not(Boxed::new(alloc, f)?))
    }

    /// The formula `f and g`.
    pub fn both(alloc: Global, f: Formula, g: Formula) -> Result<Formula, NoMemory>
        ensures { IfOk result (λ made. meaning made ≡ Ltl.And (meaning f) (meaning g)) }
    {
        Ok(Formula::And(Boxed::new(alloc, f)?, Boxed::new(alloc, g)?))
    }

    /// The formula `f or g`.
    pub fn either(alloc: Global, f: Formula, g: Formula) -> Result<Formula, NoMemory>
        ensures { IfOk result (λ made. meaning made ≡ Ltl.Or (meaning f) (meaning g)) }
    {
        Ok(Formula::Or(Boxed::new(alloc, f)?, Boxed::new(alloc, g)?))
    }

    /// The formula `f implies g`.
    pub fn implication(alloc: Global, f: Formula, g: Formula) -> Result<Formula, NoMemory>
        ensures { IfOk result (λ made. meaning made ≡ Ltl.Implies (meaning f) (meaning g)) }
    {
        Ok(Formula::Implies(Boxed::new(alloc, f)?, Boxed::new(alloc, g)?))
    }

    /// The formula `f iff g`.
    pub fn equivalence(alloc: Global, f: Formula, g: Formula) -> Result<Formula, NoMemory>
        ensures { IfOk result (λ made. meaning made ≡ Ltl.Iff (meaning f) (meaning g)) }
    {
        Ok(Formula::Iff(Boxed::new(alloc, f)?, Boxed::new(alloc, g)?))
    }

    /// The formula `then f`.
    pub fn then(alloc: Global, f: Formula) -> Result<Formula, NoMemory>
        ensures { IfOk result (λ made. meaning made ≡ Ltl.Then (meaning f)) }
    {
        Ok(Formula::Then(Boxed::new(alloc, f)?))
    }

    /// The formula `f until g`.
    pub fn until(alloc: Global, f: Formula, g: Formula) -> Result<Formula, NoMemory>
        ensures { IfOk result (λ made. meaning made ≡ Ltl.Until (meaning f) (meaning g)) }
    {
        Ok(Formula::Until(Boxed::new(alloc, f)?, Boxed::new(alloc, g)?))
    }

    /// The formula `f releases g`.
    pub fn releases(alloc: Global, f: Formula, g: Formula) -> Result<Formula, NoMemory>
        ensures { IfOk result (λ made. meaning made ≡ Ltl.Releases (meaning f) (meaning g)) }
    {
        Ok(Formula::Releases(Boxed::new(alloc, f)?, Boxed::new(alloc, g)?))
    }

    /// The formula `in the future f`.
    pub fn future(alloc: Global, f: Formula) -> Result<Formula, NoMemory>
        ensures { IfOk result (λ made. meaning made ≡ Ltl.Future (meaning f)) }
    {
        Ok(Formula::Future(Boxed::new(alloc, f)?))
    }

    /// The formula `always f`.
    pub fn always(alloc: Global, f: Formula) -> Result<Formula, NoMemory>
        ensures { IfOk result (λ made. meaning made ≡ Ltl.Always (meaning f)) }
    {
        Ok(Formula::Always(Boxed::new(alloc, f)?))
    }

    /// The formula `never f`.
    pub fn never(alloc: Global, f: Formula) -> Result<Formula, NoMemory>
        ensures { IfOk result (λ made. meaning made ≡ Ltl.Never (meaning f)) }
    {
        Ok(Formula::Never(Boxed::new(alloc, f)?))
    }
}
