//! The tokens of a text. Main function: `lex`. Allocates the list of tokens, and touches nothing else.

ghost use Rattle.std.specs.Prelude.{◌≡◌, ◌++◌, ◌≤◌, ◌+◌, ◌<◌, ◌^◌, length, OnOk, IfOk};
ghost use Rattle.oss_base.specs.Faults.{IfFault};
ghost use Rattle.oss_base.specs.Limits.{most_bytes};
ghost use Rattle.oss_syntax.specs.Tokens.{token_of, AreTokens, IsFirstFault};
ghost use Rattle.oss_lexer.specs.Answers.{GivesTokens, GivesFault};

use crate::front::{Front, next_front};
use oss_base::{Fault, Span, Stop, place_of};
use oss_syntax::{Token, Tokens};
use port_types::NoMemory;
use std::alloc::Global;

/// Puts the token of a piece that begins at `start` at the end; a gap has none.
fn add_token(tokens: &mut Tokens, front: Front, start: usize) -> Result<(), NoMemory>
    requires { start + front.len < 2 ^ 32 }
    ensures { OnOk result (tokens.new ≡ tokens.old ++ token_of start front.kind front.len) }
{
    if let Some(kind) = front.kind {
        let span = Span {
            start: start as u32,
            end: (start + front.len) as u32,
        };
        tokens.push(Token { kind, span })?;
    }
    Ok(())
}

/// The tokens of a text, or its first lexing fault.
///
/// The time is linear in the number of bytes.
pub fn lex(alloc: Global, bytes: &[u8]) -> Result<Tokens, Stop>
    requires { length bytes.now ≤ most_bytes }
    ensures tokens { IfOk result (AreTokens bytes.now) }
    ensures fault { IfFault result (IsFirstFault bytes.now) }
    ensures accepted { GivesTokens bytes.now result }
    ensures refused { GivesFault bytes.now result }
{
    let mut tokens = Tokens::new(alloc);
    let mut at = 0;
    while at < bytes.len() {
        match next_front(&bytes[at..]) {
            Err(kind) => {
                let place = place_of(bytes, at);
                return Err(Stop::Fault(Fault { kind, place }));
            }
            Ok(front) => {
                add_token(&mut tokens, front, at)?;
                at += front.len;
            }
        }
    }
    Ok(tokens)
}
