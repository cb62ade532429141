//! What an operator makes of its typed operands: `before` one operand, and `between` two. It touches nothing
//! outside.

ghost use Rattle.std.specs.Prelude.{◌≡◌, IfOk};
ghost use Rattle.typed_ltl.specs.Formulas.{meaning, number_of, choice_of, Ltl, Number};
ghost use Rattle.spec_types.specs.Typing as specs;
ghost use Rattle.spec_types.specs.Walks as walks;

use crate::enumerations::NameSet;
use crate::intervals::{differences, sums};
use crate::typed::Typed;
use oss_syntax::{BinaryWord, PrefixWord};
use port_types::{Interval, NoMemory};
use std::alloc::Global;
use typed_ltl::{Atom, Formula, Pick, Term};

/// The operand as a formula, false where it is none.
pub(crate) fn formula_in(operand: Typed) -> Formula
    ensures { meaning result ≡ specs.formula_in (walks.typed operand.entry) }
{
    match operand {
        Typed::Truth(formula) => formula,
        Typed::Number(_, _) => Formula::False,
        Typed::Choice(_, _) => Formula::False,
    }
}

/// The operand as a term with its values, 0 where it is none.
fn number_in(operand: Typed) -> (Term, Interval)
    ensures term { number_of result.0 ≡ specs.number_in (walks.typed operand.entry) }
    ensures values { result.1 ≡ specs.values_in (walks.typed operand.entry) }
{
    match operand {
        Typed::Truth(_) => (Term::Const(0), Interval { lo: 0, hi: 0 }),
        Typed::Number(term, values) => (term, values),
        Typed::Choice(_, _) => (Term::Const(0), Interval { lo: 0, hi: 0 }),
    }
}

fn term_in(operand: Typed) -> Term
    ensures { number_of result ≡ specs.number_in (walks.typed operand.entry) }
{
    let (term, _) = number_in(operand);
    term
}

pub(crate) fn negated(alloc: Global, formula: Formula) -> Result<Formula, NoMemory>
    ensures { IfOk result (λ f. meaning f ≡ Ltl.Not (meaning formula)) }
{
    Formula::negation(alloc, formula)
}

fn formula_equality(alloc: Global, left: Formula, right: Typed) -> Result<Formula, NoMemory>
    ensures { IfOk result (λ f. meaning f ≡ specs.equality (specs.Formula (meaning left)) (walks.typed right.entry)) }
{
    match right {
        Typed::Truth(right) => Formula::equivalence(alloc, left, right),
        Typed::Number(_, _) => Ok(Formula::False),
        Typed::Choice(_, _) => Ok(Formula::False),
    }
}

fn number_equality(left: Term, values: Interval, right: Typed) -> Formula
    ensures { meaning result ≡ specs.equality (specs.Term (number_of left) values) (walks.typed right.entry) }
{
    let _ = values;
    match right {
        Typed::Truth(_) => Formula::False,
        Typed::Number(right, _) => Formula::Atom(Atom::Equal(left, right)),
        Typed::Choice(_, _) => Formula::False,
    }
}

fn pick_equality(left: Pick, set: NameSet, right: Typed) -> Formula
    ensures { meaning result ≡ specs.equality (specs.Pick (choice_of left) set.entry.names.now)
        (walks.typed right.entry) }
{
    let _ = set;
    match right {
        Typed::Truth(_) => Formula::False,
        Typed::Number(_, _) => Formula::False,
        Typed::Choice(right, _) => Formula::Atom(Atom::Same(left, right)),
    }
}

/// Two operands of one kind are equal; false where they are of two kinds.
pub(crate) fn equality(alloc: Global, left: Typed, right: Typed) -> Result<Formula, NoMemory>
    ensures { IfOk result (λ f. meaning f ≡ specs.equality (walks.typed left.entry) (walks.typed right.entry)) }
{
    match left {
        Typed::Truth(formula) => formula_equality(alloc, formula, right),
        Typed::Number(term, values) => Ok(number_equality(term, values, right)),
        Typed::Choice(pick, set) => Ok(pick_equality(pick, set, right)),
    }
}

/// The first operand is at most the second.
fn at_most(left: Typed, right: Typed) -> Formula
    ensures { meaning result ≡ specs.at_most (walks.typed left.entry) (walks.typed right.entry) }
{
    let left = term_in(left);
    let right = term_in(right);
    Formula::Atom(Atom::AtMost(left, right))
}

fn opposite<'a>(alloc: Global, operand: Typed<'a>) -> Result<Typed<'a>, NoMemory>
    ensures { IfOk result (λ t. walks.typed t ≡ specs.typed_prefix PrefixWord.Minus (walks.typed operand.entry)) }
{
    let (term, values) = number_in(operand);
    let values = differences(Interval { lo: 0, hi: 0 }, values)?;
    Ok(Typed::Number(Term::negate(alloc, term)?, values))
}

/// An operator before its operand.
pub(crate) fn before<'a>(
    alloc: Global,
    word: PrefixWord,
    operand: Typed<'a>,
) -> Result<Typed<'a>, NoMemory>
    ensures { IfOk result (λ t. walks.typed t ≡ specs.typed_prefix word (walks.typed operand.entry)) }
{
    match word {
        PrefixWord::Minus => opposite(alloc, operand),
        PrefixWord::Not => Ok(Typed::Truth(negated(alloc, formula_in(operand))?)),
        PrefixWord::Always => Ok(Typed::Truth(Formula::always(alloc, formula_in(operand))?)),
        PrefixWord::Never => Ok(Typed::Truth(Formula::never(alloc, formula_in(operand))?)),
        PrefixWord::Future => Ok(Typed::Truth(Formula::future(alloc, formula_in(operand))?)),
        PrefixWord::Then => Ok(Typed::Truth(Formula::then(alloc, formula_in(operand))?)),
    }
}

fn plus<'a>(alloc: Global, left: Typed<'a>, right: Typed<'a>) -> Result<Typed<'a>, NoMemory>
    ensures { IfOk result (λ t. walks.typed t ≡ specs.typed_binary BinaryWord.Plus (walks.typed left.entry)
        (walks.typed right.entry)) }
{
    let (a, values) = number_in(left);
    let (b, others) = number_in(right);
    let values = sums(values, others)?;
    Ok(Typed::Number(Term::plus(alloc, a, b)?, values))
}

fn minus<'a>(alloc: Global, left: Typed<'a>, right: Typed<'a>) -> Result<Typed<'a>, NoMemory>
    ensures { IfOk result (λ t. walks.typed t ≡ specs.typed_binary BinaryWord.Minus (walks.typed left.entry)
        (walks.typed right.entry)) }
{
    let (a, values) = number_in(left);
    let (b, others) = number_in(right);
    let values = differences(values, others)?;
    Ok(Typed::Number(Term::minus(alloc, a, b)?, values))
}

/// A comparison of two operands.
#[derive(Clone, Copy)]
pub enum Comparison {
    Equal,
    NotEqual,
    Less,
    AtMost,
    Greater,
    AtLeast,
}

/// A connective of propositional or temporal logic between two formulas.
#[derive(Clone, Copy)]
pub enum Connective {
    Until,
    Releases,
    And,
    Or,
    Implies,
    Iff,
}

fn compare(alloc: Global, word: Comparison, left: Typed, right: Typed) -> Result<Formula, NoMemory>
    ensures { IfOk result (λ f. meaning f ≡ walks.compared_by word (walks.typed left.entry) (walks.typed right.entry)) }
{
    match word {
        Comparison::Equal => equality(alloc, left, right),
        Comparison::NotEqual => negated(alloc, equality(alloc, left, right)?),
        Comparison::Less => negated(alloc, at_most(right, left)),
        Comparison::AtMost => Ok(at_most(left, right)),
        Comparison::Greater => negated(alloc, at_most(left, right)),
        Comparison::AtLeast => Ok(at_most(right, left)),
    }
}

fn connect(
    alloc: Global,
    word: Connective,
    left: Formula,
    right: Formula,
) -> Result<Formula, NoMemory>
    ensures { IfOk result (λ f. meaning f ≡ walks.connected_by word (meaning left) (meaning right)) }
{
    match word {
        Connective::Until => Formula::until(alloc, left, right),
        Connective::Releases => Formula::releases(alloc, left, right),
        Connective::And => Formula::both(alloc, left, right),
        Connective::Or => Formula::either(alloc, left, right),
        Connective::Implies => Formula::implication(alloc, left, right),
        Connective::Iff => Formula::equivalence(alloc, left, right),
    }
}

fn compared<'a>(
    alloc: Global,
    word: Comparison,
    left: Typed<'a>,
    right: Typed<'a>,
) -> Result<Typed<'a>, NoMemory>
    ensures { IfOk result (λ t. walks.typed t
        ≡ specs.Formula (walks.compared_by word (walks.typed left.entry) (walks.typed right.entry))) }
{
    Ok(Typed::Truth(compare(alloc, word, left, right)?))
}

fn connected<'a>(
    alloc: Global,
    word: Connective,
    left: Typed<'a>,
    right: Typed<'a>,
) -> Result<Typed<'a>, NoMemory>
    ensures { IfOk result (λ t. walks.typed t ≡ specs.Formula
        (walks.connected_by word (specs.formula_in (walks.typed left.entry))
        (specs.formula_in (walks.typed right.entry)))) }
{
    let left = formula_in(left);
    let right = formula_in(right);
    Ok(Typed::Truth(connect(alloc, word, left, right)?))
}

/// An operator between its operands.
pub(crate) fn between<'a>(
    alloc: Global,
    word: BinaryWord,
    left: Typed<'a>,
    right: Typed<'a>,
) -> Result<Typed<'a>, NoMemory>
    ensures { IfOk result (λ t. walks.typed t
        ≡ specs.typed_binary word (walks.typed left.entry) (walks.typed right.entry)) }
{
    match word {
        BinaryWord::Plus => plus(alloc, left, right),
        BinaryWord::Minus => minus(alloc, left, right),
        BinaryWord::Equal => compared(alloc, Comparison::Equal, left, right),
        BinaryWord::NotEqual => compared(alloc, Comparison::NotEqual, left, right),
        BinaryWord::Less => compared(alloc, Comparison::Less, left, right),
        BinaryWord::AtMost => compared(alloc, Comparison::AtMost, left, right),
        BinaryWord::Greater => compared(alloc, Comparison::Greater, left, right),
        BinaryWord::AtLeast => compared(alloc, Comparison::AtLeast, left, right),
        BinaryWord::Until => connected(alloc, Connective::Until, left, right),
        BinaryWord::Releases => connected(alloc, Connective::Releases, left, right),
        BinaryWord::And => connected(alloc, Connective::And, left, right),
        BinaryWord::Or => connected(alloc, Connective::Or, left, right),
        BinaryWord::Implies => connected(alloc, Connective::Implies, left, right),
        BinaryWord::Iff => connected(alloc, Connective::Iff, left, right),
    }
}
