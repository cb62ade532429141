//! Equality and hashes of terms, picks and atoms, by what they mean, so that a table can keep each once. May
//! touch nothing.

ghost use Rattle.std.specs.Prelude.{◌≡◌, fold};
ghost use Rattle.typed_ltl.specs.Formulas.{number_of, choice_of, proposition_of};
ghost use Rattle.typed_ltl.specs.Equality.{number_eq, choice_eq, proposition_eq};
ghost use Rattle.typed_ltl.specs.HashInput.{number_writes, choice_writes, proposition_writes};

use crate::atom::Atom;
use crate::term::{Pick, Term};
use std::hash::{Hash, Hasher};

impl Term {
    fn is_same(&self, other: &Term) -> bool
        ensures { result ≡ number_eq (number_of self.now) (number_of other.now) }
    {
        match (self, other) {
            (Term::Const(x), Term::Const(y)) => *x == *y,
            (Term::Port { port: p, next: x }, Term::Port { port: q, next: y }) => p.0 == q.0
                && *x == *y,
            (Term::Plus(a, b), Term::Plus(c, d)) => a.get().is_same(c.get())
                && b.get().is_same(d.get()),
            (Term::Minus(a, b), Term::Minus(c, d)) => a.get().is_same(c.get())
                && b.get().is_same(d.get()),
            (Term::Negate(a), Term::Negate(b)) => a.get().is_same(b.get()),
            _ => false,
        }
    }

    fn feed<H: Hasher>(&self, state: &mut H)
        ensures { state.new ≡ fold H.write state.old (number_writes (number_of self.now)) }
    {
        match self {
            Term::Const(number) => {
                state.write_u8(0);
                state.write_i64(*number);
            }
            Term::Port { port, next } => {
                state.write_u8(1);
                state.write_u32(port.0);
                next.hash(state);
            }
            Term::Plus(a, b) => {
                state.write_u8(2);
                a.get().feed(state);
                b.get().feed(state);
            }
            Term::Minus(a, b) => {
                state.write_u8(3);
                a.get().feed(state);
                b.get().feed(state);
            }
            Term::Negate(a) => {
                state.write_u8(4);
                a.get().feed(state);
            }
        }
    }
}

impl Pick {
    fn is_same(&self, other: &Pick) -> bool
        ensures { result ≡ choice_eq (choice_of self.now) (choice_of other.now) }
    {
        match (self, other) {
            (Pick::Name(x), Pick::Name(y)) => x.as_str() == y.as_str(),
            (Pick::Port { port: p, next: x }, Pick::Port { port: q, next: y }) => p.0 == q.0
                && *x == *y,
            _ => false,
        }
    }

    fn feed<H: Hasher>(&self, state: &mut H)
        ensures { state.new ≡ fold H.write state.old (choice_writes (choice_of self.now)) }
    {
        match self {
            Pick::Name(name) => {
                state.write_u8(0);
                name.as_str().hash(state);
            }
            Pick::Port { port, next } => {
                state.write_u8(1);
                state.write_u32(port.0);
                next.hash(state);
            }
        }
    }
}

impl PartialEq for Atom {
    ghost use Rattle.typed_ltl.specs.Formulas.{proposition_of};
    ghost use Rattle.typed_ltl.specs.Equality.{proposition_eq};
    ghost use Rattle.typed_ltl.specs.EqualityLaws.{atom_equivalence};
    ghost use Rattle.std.specs.Cmp.{partial_equiv_from_equiv};

    ghost eq = { λ a b. proposition_eq (proposition_of a) (proposition_of b) };

    ghost laws = { partial_equiv_from_equiv atom_equivalence };

    fn eq(&self, other: &Atom) -> bool {
        match (self, other) {
            (Atom::Port { port: p, next: x }, Atom::Port { port: q, next: y }) => p.0 == q.0
                && *x == *y,
            (Atom::Equal(a, b), Atom::Equal(c, d)) => a.is_same(c) && b.is_same(d),
            (Atom::AtMost(a, b), Atom::AtMost(c, d)) => a.is_same(c) && b.is_same(d),
            (Atom::Same(a, b), Atom::Same(c, d)) => a.is_same(c) && b.is_same(d),
            _ => false,
        }
    }
}

impl Eq for Atom {
    ghost use Rattle.typed_ltl.specs.EqualityLaws.{atom_equivalence};

    ghost laws = { atom_equivalence };
}

impl Hash for Atom {
    ghost use Rattle.typed_ltl.specs.Formulas.{proposition_of};
    ghost use Rattle.typed_ltl.specs.HashInput.{proposition_writes};
    ghost use Rattle.typed_ltl.specs.EqualityLaws.{equal_atoms_feed_alike};

    ghost hash_input = { λ a. proposition_writes (proposition_of a) };

    ghost respects_eq = { equal_atoms_feed_alike };

    fn hash<H: Hasher>(&self, state: &mut H) {
        match self {
            Atom::Port { port, next } => {
                state.write_u8(0);
                state.write_u32(port.0);
                next.hash(state);
            }
            Atom::Equal(a, b) => {
                state.write_u8(1);
                a.feed(state);
                b.feed(state);
            }
            Atom::AtMost(a, b) => {
                state.write_u8(2);
                a.feed(state);
                b.feed(state);
            }
            Atom::Same(a, b) => {
                state.write_u8(3);
                a.feed(state);
                b.feed(state);
            }
        }
    }
}
