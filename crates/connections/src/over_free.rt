//! Copies of expressions in which each connected port is replaced by the expression of its connection:
//! `formula_over_free`. May touch the allocator.

ghost use Rattle.std.specs.Prelude.{◌≡◌, IfOk};
ghost use Rattle.typed_ltl.specs.Formulas.{meaning, number_of, choice_of, proposition_of};
ghost use Rattle.connections.specs.Forms.{unary_form, binary_form};
ghost use Rattle.connections.specs.Substitution.{substituted, substituted_test, substituted_number, substituted_choice};
ghost use Rattle.connections.specs.PortTables.{port_table, table_reading};

use crate::forms::{Binary, Unary, made_binary, made_unary};
use crate::port_forms::{atomic, choice_of_port, number_of_port, truth_of_port};
use crate::port_row::PortRow;
use port_types::NoMemory;
use std::alloc::Global;
use typed_ltl::{Atom, Formula, Pick, Term};

fn term_over_free(alloc: Global, row: &PortRow<'_>, term: &Term) -> Result<Term, NoMemory>
    ensures { IfOk result (λ made.
        number_of made ≡ substituted_number (table_reading (port_table row.now)) (number_of term.now)) }
{
    match term {
        Term::Const(number) => Ok(Term::Const(*number)),
        Term::Port { port, next } => number_of_port(alloc, row, *port, *next),
        Term::Plus(a, b) => {
            let a = term_over_free(alloc, row, a.get())?;
            let b = term_over_free(alloc, row, b.get())?;
            Term::plus(alloc, a, b)
        }
        Term::Minus(a, b) => {
            let a = term_over_free(alloc, row, a.get())?;
            let b = term_over_free(alloc, row, b.get())?;
            Term::minus(alloc, a, b)
        }
        Term::Negate(a) => {
            let a = term_over_free(alloc, row, a.get())?;
            Term::negate(alloc, a)
        }
    }
}

fn pick_over_free(alloc: Global, row: &PortRow<'_>, pick: &Pick) -> Result<Pick, NoMemory>
    ensures { IfOk result (λ made.
        choice_of made ≡ substituted_choice (table_reading (port_table row.now)) (choice_of pick.now)) }
{
    match pick {
        Pick::Name(_) => pick.copy(),
        Pick::Port { port, next } => choice_of_port(alloc, row, *port, *next),
    }
}

fn atom_over_free(alloc: Global, row: &PortRow<'_>, atom: &Atom) -> Result<Formula, NoMemory>
    ensures { IfOk result (λ made.
        meaning made ≡ substituted_test (table_reading (port_table row.now)) (proposition_of atom.now)) }
{
    match atom {
        Atom::Port { port, next } => truth_of_port(alloc, row, *port, *next),
        Atom::Equal(a, b) => {
            let a = term_over_free(alloc, row, a)?;
            let b = term_over_free(alloc, row, b)?;
            Ok(atomic(Atom::Equal(a, b)))
        }
        Atom::AtMost(a, b) => {
            let a = term_over_free(alloc, row, a)?;
            let b = term_over_free(alloc, row, b)?;
            Ok(atomic(Atom::AtMost(a, b)))
        }
        Atom::Same(a, b) => {
            let a = pick_over_free(alloc, row, a)?;
            let b = pick_over_free(alloc, row, b)?;
            Ok(atomic(Atom::Same(a, b)))
        }
    }
}

/// The formula with each connected port replaced by the expression of its connection. The depth of the
/// recursion is the formula's height.
#[cycle(over_free)]
pub(crate) fn formula_over_free(
    alloc: Global,
    row: &PortRow<'_>,
    f: &Formula,
) -> Result<Formula, NoMemory>
    ensures { IfOk result (λ made. meaning made ≡ substituted (table_reading (port_table row.now)) (meaning f.now)) }
{
    match f {
        Formula::True => Ok(Formula::True),
        Formula::False => Ok(Formula::False),
        Formula::Atom(atom) => atom_over_free(alloc, row, atom),
        Formula::Not(f) => unary_over_free(alloc, row, Unary::Not, f.get()),
        Formula::And(f, g) => binary_over_free(alloc, row, Binary::And, f.get(), g.get()),
        Formula::Or(f, g) => binary_over_free(alloc, row, Binary::Or, f.get(), g.get()),
        Formula::Implies(f, g) => binary_over_free(alloc, row, Binary::Implies, f.get(), g.get()),
        Formula::Iff(f, g) => binary_over_free(alloc, row, Binary::Iff, f.get(), g.get()),
        Formula::Then(f) => unary_over_free(alloc, row, Unary::Then, f.get()),
        Formula::Until(f, g) => binary_over_free(alloc, row, Binary::Until, f.get(), g.get()),
        Formula::Releases(f, g) => {
            binary_over_free(alloc, row, Binary::Releases, f.get(), g.get())
        }
        Formula::Future(f) => unary_over_free(alloc, row, Unary::Future, f.get()),
        Formula::Always(f) => unary_over_free(alloc, row, Unary::Always, f.get()),
        Formula::Never(f) => unary_over_free(alloc, row, Unary::Never, f.get()),
    }
}

#[cycle(over_free)]
fn unary_over_free(
    alloc: Global,
    row: &PortRow<'_>,
    form: Unary,
    f: &Formula,
) -> Result<Formula, NoMemory>
    ensures { IfOk result (λ made.
        meaning made ≡ unary_form form (substituted (table_reading (port_table row.now)) (meaning f.now))) }
{
    let f = formula_over_free(alloc, row, f)?;
    made_unary(alloc, form, f)
}

#[cycle(over_free)]
fn binary_over_free(
    alloc: Global,
    row: &PortRow<'_>,
    form: Binary,
    f: &Formula,
    g: &Formula,
) -> Result<Formula, NoMemory>
    ensures { let by = table_reading (port_table row.now) in
        IfOk result (λ made.
        meaning made ≡ binary_form form (substituted by (meaning f.now)) (substituted by (meaning g.now))) }
{
    let f = formula_over_free(alloc, row, f)?;
    let g = formula_over_free(alloc, row, g)?;
    made_binary(alloc, form, f, g)
}
