//! The first of the terminals that are left: whether it is what is wanted there, and what is left after it. Main
//! functions: `expect`, `name`, `operand_start`, `what_follows`. Allocates the names that it copies, and nothing else.

ghost use Rattle.std.specs.Prelude.{◌≡◌, [], MatchBool, IfOk};
ghost use Rattle.oss_reader.specs.Ahead.{ahead};
ghost use Rattle.oss_reader.specs.Reads.{FindsFirst, FindsMark, PassesMark, FindsName, FindsMinus, ReadsMark};
ghost use Rattle.oss_reader.specs.Reads.{ReadsName, ReadsNamed, IsStart, FollowsOperand};

use crate::halt::{Break, Halt};
use crate::lead::Lead;
use crate::rest::Rest;
use crate::terminals::lead;
use oss_base::Span;
use oss_syntax::{BinaryWord, Mark, PortWord, PrefixWord, Word};
use port_types::{Name, NoMemory};
use std::alloc::Global;

/// What follows an operand.
pub enum Next<'a> {
    Operator(BinaryWord, Span, Rest<'a>),
    Dot,
    Other,
}

/// How an operand begins.
pub enum Start<'a> {
    Name(&'a str, Span, Rest<'a>),
    Numeral(u32, Span, Rest<'a>),
    Truth(bool, Span, Rest<'a>),
    OfPort(PortWord, Span, Rest<'a>),
    Open(Span, Rest<'a>),
    Prefix(PrefixWord, Span),
    None,
}

/// The halt at the first of these terminals, or at the end of the text where there is none.
pub fn broken(terminals: Rest<'_>, deep: bool) -> Break {
    Break {
        left: terminals.tokens.len(),
        deep,
    }
}

/// The first terminal, and what is left after it.
#[tactic(auto, unfolding(crate::specs::Ahead::ahead))]
pub fn split_first<'a>(terminals: Rest<'a>) -> Option<(Lead<'a>, Rest<'a>)>
    ensures { FindsFirst (ahead terminals.entry) result }
{
    match terminals.tokens.split_first() {
        None => None,
        Some((first, more)) => {
            let rest = Rest {
                bytes: terminals.bytes,
                tokens: more,
            };
            Some((lead(terminals.bytes, *first), rest))
        }
    }
}

/// Whether nothing is left.
#[tactic(auto, unfolding(crate::specs::Ahead::ahead))]
pub fn is_at_end(terminals: Rest<'_>) -> bool
    ensures { MatchBool result (ahead terminals.entry ≡ []) (ahead terminals.entry ≡ [] → ⊥) }
{
    terminals.tokens.is_empty()
}

/// The span of this mark, and what is left after it, where the terminals begin with it.
pub fn first_mark<'a>(terminals: Rest<'a>, wanted: Mark) -> Option<(Span, Rest<'a>)>
    ensures { FindsMark wanted (ahead terminals.entry) result }
{
    match split_first(terminals) {
        None => None,
        Some((first, more)) => match first {
            Lead::Mark(mark, span) => {
                if mark == wanted {
                    Some((span, more))
                } else {
                    None
                }
            }
            _ => None,
        },
    }
}

/// What is left after this mark, where the terminals begin with it.
pub fn after<'a>(terminals: Rest<'a>, wanted: Mark) -> Option<Rest<'a>>
    ensures { PassesMark wanted (ahead terminals.entry) result }
{
    match first_mark(terminals, wanted) {
        None => None,
        Some((_, more)) => Some(more),
    }
}

/// What is left after this mark, with which the terminals have to begin.
pub fn expect<'a>(terminals: Rest<'a>, wanted: Mark) -> Result<Rest<'a>, Halt>
    ensures { ReadsMark wanted (ahead terminals.entry) result }
{
    match after(terminals, wanted) {
        Some(left) => Ok(left),
        None => Err(Halt::Broken(broken(terminals, false))),
    }
}

/// The name that is written there.
pub fn copy_word(alloc: Global, text: &str, span: Span) -> Result<Word, NoMemory>
    ensures { IfOk result (λ word. word ≡ record { text = text.now; span = span }) }
{
    Ok(Word {
        text: Name::new(alloc, text)?,
        span,
    })
}

/// The text and span of the name with which the terminals begin, and what is left after it.
pub fn first_name<'a>(terminals: Rest<'a>) -> Option<(&'a str, Span, Rest<'a>)>
    ensures { FindsName (ahead terminals.entry) result }
{
    match split_first(terminals) {
        None => None,
        Some((first, more)) => match first {
            Lead::Name(text, span) => Some((text, span, more)),
            _ => None,
        },
    }
}

/// A copy of the name with which the terminals have to begin, and what is left after it.
pub fn name<'a>(alloc: Global, terminals: Rest<'a>) -> Result<(Word, Rest<'a>), Halt>
    ensures { ReadsName (ahead terminals.entry) result }
{
    match first_name(terminals) {
        Some((text, span, left)) => Ok((copy_word(alloc, text, span)?, left)),
        None => Err(Halt::Broken(broken(terminals, false))),
    }
}

/// What is left after a name of this text, with which the terminals have to begin.
pub fn expect_name<'a>(terminals: Rest<'a>, wanted: &str) -> Result<Rest<'a>, Halt>
    ensures { ReadsNamed wanted.now (ahead terminals.entry) result }
{
    match first_name(terminals) {
        Some((text, _, left)) => {
            if text == wanted {
                Ok(left)
            } else {
                Err(Halt::Broken(broken(terminals, false)))
            }
        }
        None => Err(Halt::Broken(broken(terminals, false))),
    }
}

/// The minus with which the terminals begin, and what is left after it.
pub fn minus<'a>(terminals: Rest<'a>) -> Option<(Span, Rest<'a>)>
    ensures { FindsMinus (ahead terminals.entry) result }
{
    match split_first(terminals) {
        None => None,
        Some((first, more)) => match first {
            Lead::Binary(word, span) => {
                if word == BinaryWord::Minus {
                    Some((span, more))
                } else {
                    None
                }
            }
            _ => None,
        },
    }
}

/// What follows an operand.
pub fn what_follows<'a>(terminals: Rest<'a>) -> Next<'a>
    ensures { FollowsOperand (ahead terminals.entry) result }
{
    match split_first(terminals) {
        None => Next::Other,
        Some((first, more)) => match first {
            Lead::Binary(word, span) => Next::Operator(word, span, more),
            Lead::Mark(mark, _) => {
                if mark == Mark::Dot {
                    Next::Dot
                } else {
                    Next::Other
                }
            }
            _ => Next::Other,
        },
    }
}

/// How an operand begins.
pub fn operand_start<'a>(terminals: Rest<'a>) -> Start<'a>
    ensures { IsStart (ahead terminals.entry) result }
{
    match split_first(terminals) {
        None => Start::None,
        Some((first, more)) => match first {
            Lead::Name(text, span) => Start::Name(text, span, more),
            Lead::Numeral(value, span) => Start::Numeral(value, span, more),
            Lead::Truth(truth, span) => Start::Truth(truth, span, more),
            Lead::OfPort(word, span) => Start::OfPort(word, span, more),
            Lead::Prefix(word, span) => Start::Prefix(word, span),
            Lead::Binary(word, span) => {
                if word == BinaryWord::Minus {
                    Start::Prefix(PrefixWord::Minus, span)
                } else {
                    Start::None
                }
            }
            Lead::Mark(mark, span) => {
                if mark == Mark::Open {
                    Start::Open(span, more)
                } else if mark == Mark::In {
                    Start::Prefix(PrefixWord::Future, span)
                } else {
                    Start::None
                }
            }
        },
    }
}
