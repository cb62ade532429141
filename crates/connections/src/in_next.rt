//! Copies of expressions with each port read in the next valuation: `formula_in_next`. May touch the allocator.

ghost use Rattle.std.specs.Prelude.{◌≡◌, IfOk};
ghost use Rattle.typed_ltl.specs.Formulas.{meaning, number_of, choice_of, proposition_of};
ghost use Rattle.typed_ltl.specs.Formulas as form;
ghost use Rattle.connections.specs.Forms.{unary_form, binary_form};
ghost use Rattle.connections.specs.Substitution.{next_number, next_choice, next_test, next_formula};

use crate::forms::{Binary, Unary, made_binary, made_unary};
use port_types::NoMemory;
use std::alloc::Global;
use typed_ltl::{Atom, Formula, Pick, Term};

pub(crate) fn term_in_next(alloc: Global, term: &Term) -> Result<Term, NoMemory>
    ensures { IfOk result (λ made. number_of made ≡ next_number (number_of term.now)) }
{
    match term {
        Term::Const(number) => Ok(Term::Const(*number)),
        Term::Port { port, .. } => Ok(Term::Port {
            port: *port,
            next: true,
        }),
        Term::Plus(a, b) => {
            let a = term_in_next(alloc, a.get())?;
            let b = term_in_next(alloc, b.get())?;
            Term::plus(alloc, a, b)
        }
        Term::Minus(a, b) => {
            let a = term_in_next(alloc, a.get())?;
            let b = term_in_next(alloc, b.get())?;
            Term::minus(alloc, a, b)
        }
        Term::Negate(a) => {
            let a = term_in_next(alloc, a.get())?;
            Term::negate(alloc, a)
        }
    }
}

pub(crate) fn pick_in_next(pick: &Pick) -> Result<Pick, NoMemory>
    ensures { IfOk result (λ made. choice_of made ≡ next_choice (choice_of pick.now)) }
{
    match pick {
        Pick::Name(name) => Ok(Pick::Name(name.copy()?)),
        Pick::Port { port, .. } => Ok(Pick::Port {
            port: *port,
            next: true,
        }),
    }
}

fn atom_in_next(alloc: Global, atom: &Atom) -> Result<Atom, NoMemory>
    ensures { IfOk result (λ made. proposition_of made ≡ next_test (proposition_of atom.now)) }
{
    match atom {
        Atom::Port { port, .. } => Ok(Atom::Port {
            port: *port,
            next: true,
        }),
        Atom::Equal(a, b) => Ok(Atom::Equal(term_in_next(alloc, a)?, term_in_next(alloc, b)?)),
        Atom::AtMost(a, b) => Ok(Atom::AtMost(term_in_next(alloc, a)?, term_in_next(alloc, b)?)),
        Atom::Same(a, b) => Ok(Atom::Same(pick_in_next(a)?, pick_in_next(b)?)),
    }
}

/// The formula with each port read in the next valuation. The depth of the recursion is the formula's height.
#[cycle(in_next)]
pub(crate) fn formula_in_next(alloc: Global, f: &Formula) -> Result<Formula, NoMemory>
    ensures { IfOk result (λ made. meaning made ≡ next_formula (meaning f.now)) }
{
    match f {
        Formula::True => Ok(Formula::True),
        Formula::False => Ok(Formula::False),
        Formula::Atom(atom) => atomic_in_next(alloc, atom),
        Formula::Not(f) => unary_in_next(alloc, Unary::Not, f.get()),
        Formula::And(f, g) => binary_in_next(alloc, Binary::And, f.get(), g.get()),
        Formula::Or(f, g) => binary_in_next(alloc, Binary::Or, f.get(), g.get()),
        Formula::Implies(f, g) => binary_in_next(alloc, Binary::Implies, f.get(), g.get()),
        Formula::Iff(f, g) => binary_in_next(alloc, Binary::Iff, f.get(), g.get()),
        Formula::Then(f) => unary_in_next(alloc, Unary::Then, f.get()),
        Formula::Until(f, g) => binary_in_next(alloc, Binary::Until, f.get(), g.get()),
        Formula::Releases(f, g) => binary_in_next(alloc, Binary::Releases, f.get(), g.get()),
        Formula::Future(f) => unary_in_next(alloc, Unary::Future, f.get()),
        Formula::Always(f) => unary_in_next(alloc, Unary::Always, f.get()),
        Formula::Never(f) => unary_in_next(alloc, Unary::Never, f.get()),
    }
}

fn atomic_in_next(alloc: Global, atom: &Atom) -> Result<Formula, NoMemory>
    ensures { IfOk result (λ made. meaning made ≡ form.Atomic (next_test (proposition_of atom.now))) }
{
    Ok(Formula::Atom(atom_in_next(alloc, atom)?))
}

#[cycle(in_next)]
fn unary_in_next(alloc: Global, form: Unary, f: &Formula) -> Result<Formula, NoMemory>
    ensures { IfOk result (λ made. meaning made ≡ unary_form form (next_formula (meaning f.now))) }
{
    let f = formula_in_next(alloc, f)?;
    made_unary(alloc, form, f)
}

#[cycle(in_next)]
fn binary_in_next(
    alloc: Global,
    form: Binary,
    f: &Formula,
    g: &Formula,
) -> Result<Formula, NoMemory>
    ensures { IfOk result (λ made.
        meaning made ≡ binary_form form (next_formula (meaning f.now)) (next_formula (meaning g.now))) }
{
    let f = formula_in_next(alloc, f)?;
    let g = formula_in_next(alloc, g)?;
    made_binary(alloc, form, f, g)
}
