//! Reads expressions by precedence climbing, within the limit on height. Main function: `closed`. Allocates the tree.

ghost use Rattle.std.specs.Prelude.{◌≡◌, ◌∷◌, ◌≤◌};
ghost use Rattle.oss_syntax.specs.declared.terminal.Mark.TheVariants as mark;
ghost use Rattle.oss_syntax.specs.Alphabet as terminal;
ghost use Rattle.oss_base.specs.Limits.{most_height};
ghost use Rattle.oss_syntax.specs.Expressions.{tree, prefix_level};
ghost use Rattle.oss_syntax.specs.Formulas.{Closed};
ghost use Rattle.oss_reader.specs.Ahead.{ahead};
ghost use Rattle.oss_reader.specs.Reads.{ReadsPrefix, ReadsAs, ReadsBegin, ReadsPhrase, ReadsStep, IsStart};

use crate::cursor::{
    Next, Start, after, broken, copy_word, expect, expect_name, name, operand_start, split_first,
    what_follows,
};
use crate::halt::Halt;
use crate::measured::{
    MeasuredExpr, binary_expr, brackets_expr, dotted_expr, name_expr, numeral_expr, of_port_expr,
    prefix_expr, truth_expr,
};
use crate::rest::Rest;
use oss_base::{MOST_HEIGHT, Span};
use oss_syntax::{Expr, Mark, PortWord, PrefixWord, Role};
use std::alloc::Global;

/// The loosest level.
const LOOSEST: usize = 10;

/// What one turn of the reading of an expression comes to: one operator more, or the whole.
#[derive(Debug)]
pub enum Step<'a> {
    More(MeasuredExpr, Rest<'a>),
    Done(MeasuredExpr, Rest<'a>),
}

/// A name that begins an operand, dotted or not.
fn named<'a>(
    alloc: Global,
    role: Role,
    room: usize,
    max: usize,
    terminals: Rest<'a>,
    text: &'a str,
    span: Span,
    more: Rest<'a>,
) -> Result<(MeasuredExpr, Rest<'a>), Halt>
    requires room { 1 ≤ room }
    requires max { 1 ≤ max }
    requires begins { ahead terminals ≡ terminal.Name (record { text = text.now; span = span }) ∷ ahead more }
    ensures { ReadsBegin role room max (ahead terminals.entry) result }
{
    match role {
        Role::Formula => Ok((name_expr(copy_word(alloc, text, span)?), more)),
        Role::State => match after(more, Mark::Dot) {
            None => Ok((name_expr(copy_word(alloc, text, span)?), more)),
            Some(left) => {
                let (port, left) = name(alloc, left)?;
                Ok((dotted_expr(copy_word(alloc, text, span)?, port), left))
            }
        },
    }
}

/// A word that wants a port in brackets, and these.
fn of_port<'a>(
    alloc: Global,
    role: Role,
    room: usize,
    max: usize,
    terminals: Rest<'a>,
    word: PortWord,
    span: Span,
    more: Rest<'a>,
) -> Result<(MeasuredExpr, Rest<'a>), Halt>
    requires room { 1 ≤ room }
    requires max { 1 ≤ max }
    requires begins { ahead terminals ≡ terminal.OfPort word span ∷ ahead more }
    ensures { ReadsBegin role room max (ahead terminals.entry) result }
{
    match role {
        Role::State => Err(Halt::Broken(broken(terminals, false))),
        Role::Formula => {
            let opened = expect(more, Mark::Open)?;
            let (port, named) = name(alloc, opened)?;
            let closed = expect(named, Mark::Close)?;
            Ok((of_port_expr(word, port, span), closed))
        }
    }
}

/// What is left after a word before an operand.
fn after_prefix<'a>(terminals: Rest<'a>, word: PrefixWord, span: Span) -> Result<Rest<'a>, Halt>
    requires { IsStart (ahead terminals) (Start.Prefix word span) }
    ensures { ReadsPrefix word span (ahead terminals.entry) result }
{
    match after(terminals, Mark::In) {
        Some(more) => {
            let named = expect_name(more, "the")?;
            let left = expect_name(named, "future")?;
            Ok(left)
        }
        None => match split_first(terminals) {
            Some((_, left)) => Ok(left),
            None => Err(Halt::Broken(broken(terminals, false))),
        },
    }
}

/// An expression in brackets.
#[cycle(reader)]
fn brackets<'a>(
    alloc: Global,
    role: Role,
    room: usize,
    max: usize,
    terminals: Rest<'a>,
    span: Span,
    more: Rest<'a>,
) -> Result<(MeasuredExpr, Rest<'a>), Halt>
    requires room { 1 ≤ room }
    requires highest { room ≤ most_height }
    requires max { 1 ≤ max }
    requires begins { ahead terminals ≡ terminal.Mark mark.Open span ∷ ahead more }
    ensures { ReadsBegin role room max (ahead terminals.entry) result }
{
    if room < 2 {
        return Err(Halt::Broken(broken(terminals, true)));
    }
    let (inside, rest) = expression(alloc, role, room - 1, LOOSEST, more)?;
    let closed = expect(rest, Mark::Close)?;
    Ok((brackets_expr(alloc, inside, span)?, closed))
}

/// A word before an operand, and the operand.
#[cycle(reader)]
fn prefixed<'a>(
    alloc: Global,
    role: Role,
    room: usize,
    max: usize,
    terminals: Rest<'a>,
    word: PrefixWord,
    level: usize,
    span: Span,
) -> Result<(MeasuredExpr, Rest<'a>), Halt>
    requires room { 1 ≤ room }
    requires highest { room ≤ most_height }
    requires max { 1 ≤ max }
    requires level { level ≡ prefix_level word }
    requires begins { IsStart (ahead terminals) (Start.Prefix word span) }
    ensures { ReadsBegin role room max (ahead terminals.entry) result }
{
    if !word.is_allowed(role) {
        return Err(Halt::Broken(broken(terminals, false)));
    }
    if level > max {
        return Err(Halt::Broken(broken(terminals, false)));
    }
    if room < 2 {
        return Err(Halt::Broken(broken(terminals, true)));
    }
    let more = after_prefix(terminals, word, span)?;
    let (operand, rest) = expression(alloc, role, room - 1, level, more)?;
    Ok((prefix_expr(alloc, word, operand, span)?, rest))
}

/// The first operand of an expression.
#[cycle(reader)]
fn operand<'a>(
    alloc: Global,
    role: Role,
    room: usize,
    max: usize,
    terminals: Rest<'a>,
) -> Result<(MeasuredExpr, Rest<'a>), Halt>
    requires room { 1 ≤ room }
    requires highest { room ≤ most_height }
    requires max { 1 ≤ max }
    ensures { ReadsBegin role room max (ahead terminals.entry) result }
{
    match operand_start(terminals) {
        Start::Name(text, span, more) => {
            named(alloc, role, room, max, terminals, text, span, more)
        }
        Start::Numeral(value, span, more) => Ok((numeral_expr(value, span), more)),
        Start::Truth(truth, span, more) => Ok((truth_expr(truth, span), more)),
        Start::OfPort(word, span, more) => {
            of_port(alloc, role, room, max, terminals, word, span, more)
        }
        Start::Open(span, more) => brackets(alloc, role, room, max, terminals, span, more),
        Start::Prefix(word, span) => {
            let level = word.level();
            prefixed(alloc, role, room, max, terminals, word, level, span)
        }
        Start::None => Err(Halt::Broken(broken(terminals, false))),
    }
}

/// One operator and its right operand, where one follows that belongs to the expression.
#[cycle(reader)]
fn read_step<'a>(
    alloc: Global,
    role: Role,
    room: usize,
    max: usize,
    left: MeasuredExpr,
    rest: Rest<'a>,
) -> Result<Step<'a>, Halt>
    requires room { 1 ≤ room }
    requires highest { room ≤ most_height }
    ensures { ReadsStep role room max (tree left.expr) (ahead rest.entry) result }
{
    match what_follows(rest) {
        Next::Other => Ok(Step::Done(left, rest)),
        Next::Dot => Err(Halt::Broken(broken(rest, false))),
        Next::Operator(word, span, more) => {
            if word.level() > max {
                return Ok(Step::Done(left, rest));
            }
            if !word.is_allowed(role) {
                return Err(Halt::Broken(broken(rest, false)));
            }
            if left.level > word.left_level() {
                return Err(Halt::Broken(broken(rest, false)));
            }
            if left.height >= room {
                return Err(Halt::Broken(broken(rest, true)));
            }
            let (right, after) = expression(alloc, role, room - 1, word.right_level(), more)?;
            Ok(Step::More(binary_expr(alloc, word, left, right, span)?, after))
        }
    }
}

/// The expression of at most this level, and of at most this height, with which the terminals begin.
#[cycle(reader)]
fn expression<'a>(
    alloc: Global,
    role: Role,
    room: usize,
    max: usize,
    terminals: Rest<'a>,
) -> Result<(MeasuredExpr, Rest<'a>), Halt>
    requires room { 1 ≤ room }
    requires highest { room ≤ most_height }
    requires max { 1 ≤ max }
    ensures { ReadsPhrase role room max (ahead terminals.entry) result }
{
    let (mut left, mut rest) = operand(alloc, role, room, max, terminals)?;
    'operators: loop {
        match read_step(alloc, role, room, max, left, rest)? {
            Step::Done(part, after) => return Ok((part, after)),
            Step::More(part, after) => {
                left = part;
                rest = after;
            }
        }
    }
}

/// A whole expression and the semicolon after it.
pub fn closed<'a>(alloc: Global, role: Role, terminals: Rest<'a>) -> Result<(Expr, Rest<'a>), Halt>
    ensures { ReadsAs tree (Closed role) (ahead terminals.entry) result }
{
    let (part, rest) = expression(alloc, role, MOST_HEIGHT, LOOSEST, terminals)?;
    let left = expect(rest, Mark::Semicolon)?;
    Ok((part.expr, left))
}
