//! Reads the types of ports. Main function: `type_tree`. Allocates the names of enumerations.

ghost use Rattle.oss_syntax.specs.declared.terminal.Mark.TheVariants as mark;
ghost use Rattle.oss_syntax.specs.Items.{IsBound, IsEnumerators, IsType};
ghost use Rattle.oss_reader.specs.Ahead.{ahead};
ghost use Rattle.oss_reader.specs.Reads.{ReadsNumeral, Reads, NoMark};
ghost use Rattle.oss_reader.specs.Rules.{ReadsFurtherNames};

use crate::cursor::{after, broken, expect, minus, name, split_first};
use crate::halt::Halt;
use crate::lead::Lead;
use crate::rest::Rest;
use oss_base::Span;
use oss_syntax::{BoundTree, Mark, TypeTree, Word, Words};
use std::alloc::Global;

/// A numeral and its span, with which the terminals have to begin.
fn numeral<'a>(terminals: Rest<'a>) -> Result<(u32, Span, Rest<'a>), Halt>
    ensures { ReadsNumeral (ahead terminals.entry) result }
{
    match split_first(terminals) {
        None => Err(Halt::Broken(broken(terminals, false))),
        Some((first, more)) => match first {
            Lead::Numeral(value, span) => Ok((value, span, more)),
            _ => Err(Halt::Broken(broken(terminals, false))),
        },
    }
}

/// An end of a range.
fn bound<'a>(terminals: Rest<'a>) -> Result<(BoundTree, Rest<'a>), Halt>
    ensures { Reads IsBound (ahead terminals.entry) result }
{
    match minus(terminals) {
        Some((span, more)) => {
            let (value, _numeral, left) = numeral(more)?;
            let bound = BoundTree {
                negative: true,
                value,
                span,
            };
            Ok((bound, left))
        }
        None => {
            let (value, span, left) = numeral(terminals)?;
            let bound = BoundTree {
                negative: false,
                value,
                span,
            };
            Ok((bound, left))
        }
    }
}

/// The range with whose first end the terminals have to begin.
fn range<'a>(terminals: Rest<'a>) -> Result<(TypeTree, Rest<'a>), Halt>
    requires boolean { NoMark mark.Boolean (ahead terminals) }
    requires event { NoMark mark.Event (ahead terminals) }
    requires brace { NoMark mark.OpenBrace (ahead terminals) }
    ensures { Reads IsType (ahead terminals.entry) result }
{
    let (lo, dots) = bound(terminals)?;
    let more = expect(dots, Mark::Range)?;
    let (hi, left) = bound(more)?;
    Ok((TypeTree::Range { lo, hi }, left))
}

/// This name, and the further names of an enumeration, each after a comma.
fn further_names<'a>(
    alloc: Global,
    first: Word,
    terminals: Rest<'a>,
) -> Result<(Words, Rest<'a>), Halt>
    ensures { ReadsFurtherNames first (ahead terminals.entry) result }
{
    let mut names = Words::new(alloc);
    names.push(first)?;
    let mut rest = terminals;
    'further: loop {
        match after(rest, Mark::Comma) {
            None => return Ok((names, rest)),
            Some(more) => {
                let (next, left) = name(alloc, more)?;
                names.push(next)?;
                rest = left;
            }
        }
    }
}

/// The names of an enumeration and the brace after them.
fn enumerators<'a>(alloc: Global, terminals: Rest<'a>) -> Result<(Words, Rest<'a>), Halt>
    ensures { Reads IsEnumerators (ahead terminals.entry) result }
{
    let (first, more) = name(alloc, terminals)?;
    let (names, rest) = further_names(alloc, first, more)?;
    let left = expect(rest, Mark::CloseBrace)?;
    Ok((names, left))
}

/// The type of a port.
pub fn type_tree<'a>(alloc: Global, terminals: Rest<'a>) -> Result<(TypeTree, Rest<'a>), Halt>
    ensures { Reads IsType (ahead terminals.entry) result }
{
    match after(terminals, Mark::Boolean) {
        Some(left) => Ok((TypeTree::Boolean, left)),
        None => match after(terminals, Mark::Event) {
            Some(left) => Ok((TypeTree::Event, left)),
            None => match after(terminals, Mark::OpenBrace) {
                Some(more) => {
                    let (names, left) = enumerators(alloc, more)?;
                    Ok((TypeTree::Enum(names), left))
                }
                None => range(terminals),
            },
        },
    }
}
