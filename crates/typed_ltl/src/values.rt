//! The values of terms, picks and atoms at a valuation and the next one; the main functions are
//! `Term::value`, `Pick::name` and `Atom::holds`. May touch nothing.

ghost use Rattle.std.specs.Prelude.{◌≡◌};
ghost use Rattle.typed_ltl.specs.Formulas.{number_of, choice_of, proposition_of};
ghost use Rattle.typed_ltl.specs.Traces.{assignment};
ghost use Rattle.typed_ltl.specs.Truth.{as_truth, as_number, as_name, number_value, choice_name, proposition_truth};
ghost use Rattle.typed_ltl.specs.Truth.{IsModerateNumber, IsModerateProposition};

use crate::atom::Atom;
use crate::lasso::Valuation;
use crate::term::{Pick, Term};
use port_types::{PortId, Value};

// The truth value of a port, false where it has none.
fn truth_at(values: &[Value], port: PortId) -> bool
    ensures { result ≡ as_truth (assignment values.now port.0) }
{
    match values.get(port.0 as usize) {
        Some(Value::Bool(truth)) => *truth,
        Some(Value::Int(_)) => false,
        Some(Value::Name(_)) => false,
        None => false,
    }
}

// The whole number of a port, 0 where it has none.
fn number_at(values: &[Value], port: PortId) -> i64
    ensures { result ≡ as_number (assignment values.now port.0) }
{
    match values.get(port.0 as usize) {
        Some(Value::Bool(_)) => 0,
        Some(Value::Int(number)) => *number,
        Some(Value::Name(_)) => 0,
        None => 0,
    }
}

// The name that a port has as its value, the empty one where it has none.
fn name_at(values: &[Value], port: PortId) -> &str
    ensures { result.now ≡ as_name (assignment values.now port.0) }
{
    match values.get(port.0 as usize) {
        Some(Value::Bool(_)) => "",
        Some(Value::Int(_)) => "",
        Some(Value::Name(name)) => name.as_str(),
        None => "",
    }
}

impl Term {
    /// The value of the term at a valuation and the next one.
    pub fn value(&self, now: &Valuation, after: &Valuation) -> i64
        requires { IsModerateNumber (assignment now.now) (assignment after.now) (number_of self.now) }
        ensures { result ≡ number_value (assignment now.now) (assignment after.now) (number_of self.now) }
    {
        match self {
            Term::Const(number) => *number,
            Term::Port { port, next } => {
                let values = if *next { after } else { now };
                number_at(values.as_slice(), *port)
            }
            Term::Plus(a, b) => a.get().value(now, after) + b.get().value(now, after),
            Term::Minus(a, b) => a.get().value(now, after) - b.get().value(now, after),
            Term::Negate(a) => -a.get().value(now, after),
        }
    }
}

impl Pick {
    /// The name that the pick stands for at a valuation and the next one.
    pub fn name<'a>(&'a self, now: &'a Valuation, after: &'a Valuation) -> &'a str
        ensures { result.now ≡ choice_name (assignment now.now) (assignment after.now) (choice_of self.now) }
    {
        match self {
            Pick::Name(name) => name.as_str(),
            Pick::Port { port, next } => {
                let values = if *next { after } else { now };
                name_at(values.as_slice(), *port)
            }
        }
    }
}

impl Atom {
    /// Whether the atom holds at a valuation and the next one.
    pub fn holds(&self, now: &Valuation, after: &Valuation) -> bool
        requires { IsModerateProposition (assignment now.now) (assignment after.now) (proposition_of self.now) }
        ensures { result ≡ proposition_truth (assignment now.now) (assignment after.now) (proposition_of self.now) }
    {
        match self {
            Atom::Port { port, next } => {
                let values = if *next { after } else { now };
                truth_at(values.as_slice(), *port)
            }
            Atom::Equal(a, b) => a.value(now, after) == b.value(now, after),
            Atom::AtMost(a, b) => a.value(now, after) <= b.value(now, after),
            Atom::Same(a, b) => a.name(now, after) == b.name(now, after),
        }
    }
}
