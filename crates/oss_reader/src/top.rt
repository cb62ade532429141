//! Reads a specification. Main function: `read_tree`. Allocates the tree.

ghost use Rattle.std.specs.Prelude.{◌≡◌, ◌≤◌, List, length, All, IfOk};
ghost use Rattle.oss_syntax.specs.Terminals.{terminals_of};
ghost use Rattle.oss_syntax.specs.Texts.{IsText, IsOnlyTextOf, IsNoText};
ghost use Rattle.oss_syntax.specs.Tokens.{AreTokens, StandsIn};
ghost use Rattle.oss_syntax.specs.Trees.{Component, component_trees};
ghost use Rattle.oss_syntax.specs.SyntaxFaults.{IsSyntaxKind};
ghost use Rattle.oss_reader.specs.Ahead.{ahead};
ghost use Rattle.oss_base.specs.Faults.{IfFault};
ghost use Rattle.oss_base.specs.Limits.{most_bytes};
ghost use Rattle.oss_reader.specs.Rules.{ReadsText, AnswersHalt};

use crate::component::text;
use crate::halt::{Break, Halt};
use crate::lead::Lead;
use crate::rest::Rest;
use crate::terminals::lead;
use oss_base::{Fault, FaultKind, Stop, place_of};
use oss_syntax::{Mark, SpecTree, Token, Tokens};
use std::alloc::Global;

/// The kind of fault that a terminal is which does not fit.
fn kind_of(terminal: Lead<'_>, deep: bool) -> FaultKind
    ensures { IsSyntaxKind result }
{
    let other = if deep { FaultKind::F5 } else { FaultKind::F3 };
    match terminal {
        Lead::Mark(mark, _) => {
            if mark == Mark::UnsupportedType {
                FaultKind::F22
            } else if mark == Mark::UnsupportedConstruct {
                FaultKind::F23
            } else {
                other
            }
        }
        _ => other,
    }
}

/// The fault of a text that breaks off there.
fn fault_of(text: Rest<'_>, broken: Break) -> Fault
    requires { length text.bytes.now ≤ most_bytes }
    ensures { IsSyntaxKind result.kind }
{
    let at = text.tokens.len().saturating_sub(broken.left);
    match text.tokens.get(at) {
        Some(token) => Fault {
            kind: kind_of(lead(text.bytes, *token), broken.deep),
            place: place_of(text.bytes, token.span.start as usize),
        },
        None => Fault {
            kind: FaultKind::F3,
            place: place_of(text.bytes, text.bytes.len()),
        },
    }
}

/// What the reading answers where it halts.
fn refusal(text: Rest<'_>, halt: Halt) -> Result<SpecTree, Stop>
    requires { length text.bytes.now ≤ most_bytes }
    ensures cause { AnswersHalt halt result }
    ensures kind { IfFault result (λ fault. IsSyntaxKind fault.kind) }
{
    match halt {
        Halt::NoMemory => Err(Stop::NoMemory),
        Halt::Broken(broken) => Err(Stop::Fault(fault_of(text, broken))),
    }
}

/// The tree of a text, of which this is the whole.
fn read_rest(alloc: Global, whole: Rest<'_>) -> Result<SpecTree, Stop>
    requires { length whole.bytes.now ≤ most_bytes }
    ensures text { ReadsText (ahead whole.entry) result }
    ensures kind { IfFault result (λ fault. IsSyntaxKind fault.kind) }
{
    match text(alloc, whole) {
        Ok(tree) => Ok(tree),
        Err(halt) => refusal(whole, halt),
    }
}

/// What is left to read before anything is read.
#[tactic(auto, unfolding(crate::specs::Ahead::ahead))]
fn whole<'a>(bytes: &'a [u8], tokens: &'a [Token]) -> Rest<'a>
    requires { All (StandsIn bytes.now) tokens.now }
    ensures bytes { result.bytes.now ≡ bytes.now }
    ensures terminals { ahead result ≡ terminals_of bytes.now tokens.now }
{
    Rest { bytes, tokens }
}

/// The tree of a text, of which these are the tokens.
///
/// A fault comes exactly where no tree within the limit on height exists, and its kind is one of those
/// of the syntax. Which of these it is, and its place, are no part of the contract.
pub fn read_tree(alloc: Global, bytes: &[u8], tokens: &Tokens) -> Result<SpecTree, Stop>
    requires short { length bytes.now ≤ most_bytes }
    requires tokens { AreTokens bytes.now tokens.now }
    ensures text { IfOk result (λ tree. IsText (terminals_of bytes.now tokens.now) (component_trees tree)) }
    ensures only { IfOk result (IsOnlyTextOf (terminals_of bytes.now tokens.now)) }
    ensures none { IfFault result (λ _. IsNoText (terminals_of bytes.now tokens.now)) }
    ensures kind { IfFault result (λ fault. IsSyntaxKind fault.kind) }
{
    oss_lexer::tokens_stand();
    read_rest(alloc, whole(bytes, tokens.as_slice()))
}
