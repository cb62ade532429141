//! Formulas over the ports that occur in a level, each port named by its place among them: `formula_over_places`.
//! May touch the allocator.

ghost use Rattle.std.specs.Prelude.{◌≡◌, IfOk, nat_eq};
ghost use Rattle.std.specs.List.{position_or_len};
ghost use Rattle.typed_ltl.specs.Formulas.{meaning, number_of, choice_of, proposition_of};
ghost use Rattle.typed_ltl.specs.Formulas as form;
ghost use Rattle.connections.specs.Substitution.{substituted_number, substituted_choice, substituted_test};
ghost use Rattle.spec_model.specs.FreePlaces.{Rises};
ghost use Rattle.levels.specs.Levels.{over_places};
ghost use Rattle.levels.specs.Steps.{place_reading, unary_of, binary_of};

use crate::places::place_of;
use port_types::{NoMemory, PortId};
use std::alloc::Global;
use typed_ltl::{Atom, Formula, Pick, Term};

/// The forms with one part.
#[derive(Clone, Copy, Debug)]
pub(crate) enum OnePart {
    Not,
    Then,
    Future,
    Always,
    Never,
}

/// The forms with two parts.
#[derive(Clone, Copy, Debug)]
pub(crate) enum TwoParts {
    And,
    Or,
    Implies,
    Iff,
    Until,
    Releases,
}

fn of_one(alloc: Global, form: OnePart, f: Formula) -> Result<Formula, NoMemory>
    ensures { IfOk result (λ made. meaning made ≡ unary_of form (meaning f)) }
{
    match form {
        OnePart::Not => Formula::negation(alloc, f),
        OnePart::Then => Formula::then(alloc, f),
        OnePart::Future => Formula::future(alloc, f),
        OnePart::Always => Formula::always(alloc, f),
        OnePart::Never => Formula::never(alloc, f),
    }
}

fn of_two(alloc: Global, form: TwoParts, f: Formula, g: Formula) -> Result<Formula, NoMemory>
    ensures { IfOk result (λ made. meaning made ≡ binary_of form (meaning f) (meaning g)) }
{
    match form {
        TwoParts::And => Formula::both(alloc, f, g),
        TwoParts::Or => Formula::either(alloc, f, g),
        TwoParts::Implies => Formula::implication(alloc, f, g),
        TwoParts::Iff => Formula::equivalence(alloc, f, g),
        TwoParts::Until => Formula::until(alloc, f, g),
        TwoParts::Releases => Formula::releases(alloc, f, g),
    }
}

fn port_among(places: &[u32], port: PortId) -> Result<PortId, NoMemory>
    requires { Rises 0 places.now }
    ensures { IfOk result (λ place. place.0 ≡ position_or_len (nat_eq port.0) places.now) }
{
    match u32::try_from(place_of(places, port.0 as usize)) {
        Ok(place) => Ok(PortId(place)),
        Err(_) => Err(NoMemory),
    }
}

fn term_over_places(alloc: Global, places: &[u32], term: &Term) -> Result<Term, NoMemory>
    requires { Rises 0 places.now }
    ensures { IfOk result (λ made.
        number_of made ≡ substituted_number (place_reading places.now) (number_of term.now)) }
{
    match term {
        Term::Const(number) => Ok(Term::Const(*number)),
        Term::Port { port, next } => {
            let port = port_among(places, *port)?;
            Ok(Term::Port { port, next: *next })
        }
        Term::Plus(a, b) => {
            let a = term_over_places(alloc, places, a.get())?;
            let b = term_over_places(alloc, places, b.get())?;
            Term::plus(alloc, a, b)
        }
        Term::Minus(a, b) => {
            let a = term_over_places(alloc, places, a.get())?;
            let b = term_over_places(alloc, places, b.get())?;
            Term::minus(alloc, a, b)
        }
        Term::Negate(a) => {
            let a = term_over_places(alloc, places, a.get())?;
            Term::negate(alloc, a)
        }
    }
}

fn pick_over_places(places: &[u32], pick: &Pick) -> Result<Pick, NoMemory>
    requires { Rises 0 places.now }
    ensures { IfOk result (λ made.
        choice_of made ≡ substituted_choice (place_reading places.now) (choice_of pick.now)) }
{
    match pick {
        Pick::Name(_) => pick.copy(),
        Pick::Port { port, next } => {
            let port = port_among(places, *port)?;
            Ok(Pick::Port { port, next: *next })
        }
    }
}

fn atomic(atom: Atom) -> Formula
    ensures { meaning result ≡ form.Atomic (proposition_of atom) }
{
    Formula::Atom(atom)
}

fn atom_over_places(alloc: Global, places: &[u32], atom: &Atom) -> Result<Formula, NoMemory>
    requires { Rises 0 places.now }
    ensures { IfOk result (λ made.
        meaning made ≡ substituted_test (place_reading places.now) (proposition_of atom.now)) }
{
    match atom {
        Atom::Port { port, next } => {
            let port = port_among(places, *port)?;
            Ok(atomic(Atom::Port { port, next: *next }))
        }
        Atom::Equal(a, b) => {
            let a = term_over_places(alloc, places, a)?;
            let b = term_over_places(alloc, places, b)?;
            Ok(atomic(Atom::Equal(a, b)))
        }
        Atom::AtMost(a, b) => {
            let a = term_over_places(alloc, places, a)?;
            let b = term_over_places(alloc, places, b)?;
            Ok(atomic(Atom::AtMost(a, b)))
        }
        Atom::Same(a, b) => {
            let a = pick_over_places(places, a)?;
            let b = pick_over_places(places, b)?;
            Ok(atomic(Atom::Same(a, b)))
        }
    }
}

/// The formula with each port named by its place among these. The depth of the recursion is the formula's
/// height.
#[cycle(over)]
pub(crate) fn formula_over_places(
    alloc: Global,
    places: &[u32],
    f: &Formula,
) -> Result<Formula, NoMemory>
    requires { Rises 0 places.now }
    ensures { IfOk result (λ made. meaning made ≡ over_places places.now (meaning f.now)) }
{
    match f {
        Formula::True => Ok(Formula::True),
        Formula::False => Ok(Formula::False),
        Formula::Atom(atom) => atom_over_places(alloc, places, atom),
        Formula::Not(f) => one_over_places(alloc, places, OnePart::Not, f.get()),
        Formula::And(f, g) => two_over_places(alloc, places, TwoParts::And, f.get(), g.get()),
        Formula::Or(f, g) => two_over_places(alloc, places, TwoParts::Or, f.get(), g.get()),
        Formula::Implies(f, g) => {
            two_over_places(alloc, places, TwoParts::Implies, f.get(), g.get())
        }
        Formula::Iff(f, g) => two_over_places(alloc, places, TwoParts::Iff, f.get(), g.get()),
        Formula::Then(f) => one_over_places(alloc, places, OnePart::Then, f.get()),
        Formula::Until(f, g) => two_over_places(alloc, places, TwoParts::Until, f.get(), g.get()),
        Formula::Releases(f, g) => {
            two_over_places(alloc, places, TwoParts::Releases, f.get(), g.get())
        }
        Formula::Future(f) => one_over_places(alloc, places, OnePart::Future, f.get()),
        Formula::Always(f) => one_over_places(alloc, places, OnePart::Always, f.get()),
        Formula::Never(f) => one_over_places(alloc, places, OnePart::Never, f.get()),
    }
}

#[cycle(over)]
fn one_over_places(
    alloc: Global,
    places: &[u32],
    form: OnePart,
    f: &Formula,
) -> Result<Formula, NoMemory>
    requires { Rises 0 places.now }
    ensures { IfOk result (λ made. meaning made ≡ unary_of form (over_places places.now (meaning f.now))) }
{
    let f = formula_over_places(alloc, places, f)?;
    of_one(alloc, form, f)
}

#[cycle(over)]
fn two_over_places(
    alloc: Global,
    places: &[u32],
    form: TwoParts,
    f: &Formula,
    g: &Formula,
) -> Result<Formula, NoMemory>
    requires { Rises 0 places.now }
    ensures { IfOk result (λ made. meaning made
        ≡ binary_of form (over_places places.now (meaning f.now)) (over_places places.now (meaning g.now))) }
{
    let f = formula_over_places(alloc, places, f)?;
    let g = formula_over_places(alloc, places, g)?;
    of_two(alloc, form, f, g)
}
