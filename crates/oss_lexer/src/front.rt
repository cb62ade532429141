//! What stands at the front of a text. Main function: `next_front`. Reads the text only, and allocates nothing.

ghost use Rattle.std.specs.Prelude.{◌≡◌, ◌<◌, ◌≤◌, ◌↔◌, length, IsTrue, IfOk, IfErr};
ghost use Rattle.std.specs.List.{list_all};
ghost use Rattle.std.specs.Char.{is_ascii_digit};
ghost use Rattle.std.specs.Str.Parse.{digits_value};
ghost use Rattle.oss_base.specs.Limits.{largest_numeral};
ghost use Rattle.oss_syntax.specs.Tokens.{IsFaultAt, IsWithinLimit};
ghost use Rattle.oss_lexer.specs.Fronts.{front_of, IsFrontWithinLimit};

use crate::bytes::{
    begins_comment, comment_len, is_blank, is_word_start, numeral_len, symbol_len, word_len,
};
use oss_base::{FaultKind, LARGEST_NUMERAL};
use oss_syntax::TokenKind;

/// A piece at the front of a text: the kind of its token, or none for a gap, and its length.
#[derive(Clone, Copy, Debug, PartialEq, Eq)]
pub struct Front {
    pub kind: Option<TokenKind>,
    pub len: usize,
}

/// A token of this kind and length at the front.
fn token(kind: TokenKind, len: usize) -> Option<Front>
    ensures { result ≡ Some (record { kind = Some kind; len = len }) }
{
    Some(Front {
        kind: Some(kind),
        len,
    })
}

/// A gap of this length at the front.
fn gap(len: usize) -> Option<Front>
    ensures { result ≡ Some (record { kind = None; len = len }) }
{
    Some(Front { kind: None, len })
}

/// The piece at the front, if one begins there.
#[tactic(auto, unfolding(crate::specs::Fronts::front_of))]
fn any_front(rest: &[u8]) -> Option<Front>
    requires { 0 < length rest.now }
    ensures { result ≡ front_of rest.now }
{
    let first = rest[0];
    if begins_comment(rest) {
        gap(comment_len(rest))
    } else if is_blank(first) {
        gap(1)
    } else if is_word_start(first) {
        token(TokenKind::Word, word_len(rest))
    } else if first.is_ascii_digit() {
        token(TokenKind::Numeral, numeral_len(rest))
    } else {
        let len = symbol_len(rest);
        if len == 0 {
            None
        } else {
            token(TokenKind::Symbol, len)
        }
    }
}

/// Whether the number of a row of digits is within the limit.
fn is_small(digits: &[u8]) -> bool
    requires { IsTrue (list_all is_ascii_digit digits.now) }
    ensures { IsTrue result ↔ (digits_value 10 digits.now ≤ largest_numeral) }
{
    let mut value: u32 = 0;
    for digit in digits {
        value = value * 10 + u32::from(*digit - b'0');
        if value > LARGEST_NUMERAL {
            return false;
        }
    }
    true
}

/// Whether a piece is no numeral, or its number is within the limit.
fn is_within_limit(kind: Option<TokenKind>, text: &[u8]) -> bool
    requires { kind ≡ Some TokenKind.Numeral → IsTrue (list_all is_ascii_digit text.now) }
    ensures { IsTrue result ↔ IsWithinLimit kind text.now }
{
    match kind {
        Some(TokenKind::Numeral) => is_small(text),
        Some(TokenKind::Word) => true,
        Some(TokenKind::Symbol) => true,
        None => true,
    }
}

/// The piece at the front, within the limit on numerals, or the kind of the fault that stands there.
pub fn next_front(rest: &[u8]) -> Result<Front, FaultKind>
    requires { 0 < length rest.now }
    ensures piece { IfOk result (IsFrontWithinLimit rest.now) }
    ensures fault { IfErr result (λ kind. IsFaultAt kind rest.now) }
{
    match any_front(rest) {
        None => Err(FaultKind::F2),
        Some(found) => {
            if is_within_limit(found.kind, &rest[..found.len]) {
                Ok(found)
            } else {
                Err(FaultKind::F4)
            }
        }
    }
}
