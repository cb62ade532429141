//! Whether operands fit their operator, and a connection's expression its target. It touches nothing outside.

ghost use Rattle.std.specs.Prelude.{◌≡◌, ◌&&◌, IfOk};
ghost use Rattle.spec_types.specs.TypeFaults as faults;
ghost use Rattle.spec_types.specs.Walks as walks;

use crate::enumerations::{NameSet, Sightings, are_names_of, share_name};
use crate::typed::Typed;
use oss_syntax::{BinaryWord, PortWord, PrefixWord};
use port_types::{Interval, NoMemory, PortType};
use std::alloc::Global;

pub(crate) fn is_formula(typed: &Typed) -> bool
    ensures { result ≡ faults.is_formula (walks.typed typed.now) }
{
    match typed {
        Typed::Truth(_) => true,
        Typed::Number(_, _) => false,
        Typed::Choice(_, _) => false,
    }
}

fn is_number(typed: &Typed) -> bool
    ensures { result ≡ faults.is_number (walks.typed typed.now) }
{
    match typed {
        Typed::Truth(_) => false,
        Typed::Number(_, _) => true,
        Typed::Choice(_, _) => false,
    }
}

fn are_formulas(left: &Typed, right: &Typed) -> bool
    ensures { result ≡ (faults.is_formula (walks.typed left.now) && faults.is_formula (walks.typed right.now)) }
{
    is_formula(left) && is_formula(right)
}

fn are_numbers(left: &Typed, right: &Typed) -> bool
    ensures { result ≡ (faults.is_number (walks.typed left.now) && faults.is_number (walks.typed right.now)) }
{
    is_number(left) && is_number(right)
}

/// Two formulas, two numbers, or two picks that share a name.
fn are_comparable(
    alloc: Global,
    sightings: &mut Sightings,
    left: &Typed,
    right: &Typed,
) -> Result<bool, NoMemory>
    ensures { IfOk result (λ fit. fit ≡ faults.are_comparable (walks.typed left.now) (walks.typed right.now)) }
{
    match left {
        Typed::Truth(_) => Ok(is_formula(right)),
        Typed::Number(_, _) => Ok(is_number(right)),
        Typed::Choice(_, names) => match right {
            Typed::Truth(_) => Ok(false),
            Typed::Number(_, _) => Ok(false),
            Typed::Choice(_, others) => share_name(alloc, sightings, *names, *others),
        },
    }
}

pub(crate) fn admits_operand(word: PrefixWord, operand: &Typed) -> bool
    ensures { result ≡ faults.admits_operand word (walks.typed operand.now) }
{
    match word {
        PrefixWord::Minus => is_number(operand),
        PrefixWord::Not => is_formula(operand),
        PrefixWord::Always => is_formula(operand),
        PrefixWord::Never => is_formula(operand),
        PrefixWord::Future => is_formula(operand),
        PrefixWord::Then => is_formula(operand),
    }
}

pub(crate) fn admits_operands(
    alloc: Global,
    sightings: &mut Sightings,
    word: BinaryWord,
    left: &Typed,
    right: &Typed,
) -> Result<bool, NoMemory>
    ensures { IfOk result (λ fit. fit ≡ faults.admits_operands word (walks.typed left.now) (walks.typed right.now)) }
{
    match word {
        BinaryWord::Plus => Ok(are_numbers(left, right)),
        BinaryWord::Minus => Ok(are_numbers(left, right)),
        BinaryWord::Equal => are_comparable(alloc, sightings, left, right),
        BinaryWord::NotEqual => are_comparable(alloc, sightings, left, right),
        BinaryWord::Less => Ok(are_numbers(left, right)),
        BinaryWord::AtMost => Ok(are_numbers(left, right)),
        BinaryWord::Greater => Ok(are_numbers(left, right)),
        BinaryWord::AtLeast => Ok(are_numbers(left, right)),
        BinaryWord::Until => Ok(are_formulas(left, right)),
        BinaryWord::Releases => Ok(are_formulas(left, right)),
        BinaryWord::And => Ok(are_formulas(left, right)),
        BinaryWord::Or => Ok(are_formulas(left, right)),
        BinaryWord::Implies => Ok(are_formulas(left, right)),
        BinaryWord::Iff => Ok(are_formulas(left, right)),
    }
}

fn is_boolean(kind: &PortType) -> bool
    ensures { result ≡ faults.is_boolean kind.now }
{
    match kind {
        PortType::Bool => true,
        PortType::Range { lo: _, hi: _ } => false,
        PortType::Enum(_) => false,
    }
}

pub(crate) fn admits_port(word: PortWord, kind: &PortType) -> bool
    ensures { result ≡ faults.admits_port word kind.now }
{
    match word {
        PortWord::Next => true,
        PortWord::Change => true,
        PortWord::Rise => is_boolean(kind),
        PortWord::Fall => is_boolean(kind),
    }
}

fn is_within(lo: i64, hi: i64, values: Interval) -> bool
    ensures { result ≡ faults.is_within lo hi values }
{
    lo <= values.lo && values.hi <= hi
}

/// Whether an expression may be the value of a port of this type, which may have a number.
pub(crate) fn admits_source(
    alloc: Global,
    sightings: &mut Sightings,
    target: &PortType,
    number: Option<u32>,
    source: &Typed,
) -> Result<bool, NoMemory>
    ensures { IfOk result (λ fit. fit ≡ faults.admits_source target.now (walks.typed source.now)) }
{
    match target {
        PortType::Bool => Ok(is_formula(source)),
        PortType::Range { lo, hi } => match source {
            Typed::Truth(_) => Ok(false),
            Typed::Number(_, values) => Ok(is_within(i64::from(*lo), i64::from(*hi), *values)),
            Typed::Choice(_, _) => Ok(false),
        },
        PortType::Enum(names) => match source {
            Typed::Truth(_) => Ok(false),
            Typed::Number(_, _) => Ok(false),
            Typed::Choice(_, values) => {
                let names = names.as_slice();
                are_names_of(alloc, sightings, NameSet { names, number }, values.names)
            }
        },
    }
}
