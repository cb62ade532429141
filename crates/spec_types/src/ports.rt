//! A port as an expression reads it: now, in the next valuation, or by `change`, `rise` and `fall`. It
//! touches nothing outside.

ghost use Rattle.std.specs.Prelude.{◌≡◌, true, false, Option, Some, IfOk, option_map};
ghost use Rattle.typed_ltl.specs.Formulas.{meaning, Ltl};
ghost use Rattle.spec_types.specs.Typing as specs;
ghost use Rattle.spec_types.specs.Walks as walks;

use crate::enumerations::NameSet;
use crate::operators::{equality, negated};
use crate::typed::Typed;
use oss_syntax::{PortWord, Word};
use port_types::{Interval, NoMemory, PortId, PortType};
use std::alloc::Global;
use typed_ltl::{Atom, Formula, Pick, Term};

/// A port as it is read in an expression: its number there, and its type, with the number of the type.
#[derive(Clone, Copy)]
pub struct PortRead<'a> {
    pub number: PortId,
    pub kind: &'a PortType,
    pub type_number: u32,
}

/// The port, now or in the next valuation.
pub(crate) fn read_port<'a>(port: PortRead<'a>, next: bool) -> Typed<'a>
    ensures { walks.typed result ≡ specs.read_port next (walks.port port.entry) }
{
    let number = port.number;
    match port.kind {
        PortType::Bool => Typed::Truth(Formula::Atom(Atom::Port { port: number, next })),
        PortType::Range { lo, hi } => Typed::Number(
            Term::Port { port: number, next },
            Interval {
                lo: i64::from(*lo),
                hi: i64::from(*hi),
            },
        ),
        PortType::Enum(names) => Typed::Choice(
            Pick::Port { port: number, next },
            NameSet {
                names: names.as_slice(),
                number: Some(port.type_number),
            },
        ),
    }
}

/// A bare name or `SUB.PORT`: a port, else an enumerator.
pub(crate) fn read_name<'a>(
    name: &'a Word,
    port: Option<PortRead<'a>>,
) -> Result<Typed<'a>, NoMemory>
    ensures { IfOk result (λ t. walks.typed t ≡ specs.read_name name.now.text (option_map walks.port port.entry)) }
{
    match port {
        Some(port) => Ok(read_port(port, false)),
        None => {
            let copy = name.text.copy()?;
            let names = std::slice::from_ref(&name.text);
            Ok(Typed::Choice(
                Pick::Name(copy),
                NameSet {
                    names,
                    number: None,
                },
            ))
        }
    }
}

fn truth_at(port: PortRead, next: bool) -> Formula
    ensures { meaning result ≡ specs.truth_at next (walks.port port.entry) }
{
    Formula::Atom(Atom::Port {
        port: port.number,
        next,
    })
}

/// The port is false now and true in the next valuation.
fn rise(alloc: Global, port: PortRead) -> Result<Formula, NoMemory>
    ensures { IfOk result (λ f. meaning f
        ≡ Ltl.And (Ltl.Not (specs.truth_at false (walks.port port.entry))) (specs.truth_at true
        (walks.port port.entry))) }
{
    let before = Formula::negation(alloc, truth_at(port, false))?;
    Formula::both(alloc, before, truth_at(port, true))
}

/// The port is true now and false in the next valuation.
fn fall(alloc: Global, port: PortRead) -> Result<Formula, NoMemory>
    ensures { IfOk result (λ f. meaning f
        ≡ Ltl.And (specs.truth_at false (walks.port port.entry)) (Ltl.Not (specs.truth_at true
        (walks.port port.entry)))) }
{
    let after = Formula::negation(alloc, truth_at(port, true))?;
    Formula::both(alloc, truth_at(port, false), after)
}

/// The port differs in the next valuation.
fn change(alloc: Global, port: PortRead) -> Result<Formula, NoMemory>
    ensures { IfOk result (λ f. meaning f
        ≡ Ltl.Not (specs.equality (specs.read_port true (walks.port port.entry)) (specs.read_port false
        (walks.port port.entry)))) }
{
    negated(
        alloc,
        equality(alloc, read_port(port, true), read_port(port, false))?,
    )
}

/// `next`, `change`, `rise` or `fall` of a port.
pub(crate) fn of_port<'a>(
    alloc: Global,
    word: PortWord,
    port: PortRead<'a>,
) -> Result<Typed<'a>, NoMemory>
    ensures { IfOk result (λ t. walks.typed t ≡ specs.of_port word (walks.port port.entry)) }
{
    match word {
        PortWord::Next => Ok(read_port(port, true)),
        PortWord::Change => Ok(Typed::Truth(change(alloc, port)?)),
        PortWord::Rise => Ok(Typed::Truth(rise(alloc, port)?)),
        PortWord::Fall => Ok(Typed::Truth(fall(alloc, port)?)),
    }
}

/// The same of a name that may be none; one that is no port counts as false.
pub(crate) fn of_wanted<'a>(
    alloc: Global,
    word: PortWord,
    port: Option<PortRead<'a>>,
) -> Result<Typed<'a>, NoMemory>
    ensures { IfOk result (λ t. walks.typed t ≡ specs.of_wanted word (option_map walks.port port.entry)) }
{
    match port {
        Some(port) => of_port(alloc, word, port),
        None => Ok(Typed::Truth(Formula::False)),
    }
}
